//! What a body makes: its limits, and its steps.

ghost use Rattle.std.specs.Prelude.{◌≤◌, ◌≡◌, Ok};
ghost use Rattle.rd_value.specs.Operators.{value_limit};
ghost use Rattle.rd_interpreter.specs.Making as spec;
ghost use Rattle.rd_interpreter.specs.Running.{Gives, Raises, own, state};

use crate::frame::Frame;
use crate::halt::{Halt, raise};
use rd_value::class::Class;
use rd_value::expr::Expr;
use rd_value::value::{ErrorValue, Value};
use std::alloc::Global;

/// The error of what is past its limits.
pub fn value_limit(alloc: Global) -> Halt
    ensures { Raises result value_limit }
{
    raise(alloc, Class::LimitError, "value")
}

/// The steps of making a value.
fn making(value: &Value) -> usize
    ensures { result ≡ spec.making value.now }
{
    match value {
        Value::Text(text) => text.as_str().len() / 64,
        Value::List(items) => items.len(),
        Value::Dict(pairs) => pairs.len(),
        _ => 0,
    }
}

/// The steps of making what may not be settled.
fn making_held(expr: &Expr) -> usize
    ensures { result ≡ spec.making_held expr.now }
{
    match expr {
        Expr::Val(value) => making(value),
        Expr::ListOf(items) => items.len(),
        Expr::DictOf(pairs) => pairs.len(),
        _ => 0,
    }
}

/// Within the limits of a value, or of an expression where it isn't settled.
fn is_kept(expr: &Expr) -> bool
    ensures { result ≡ spec.is_kept own expr.now }
{
    match expr {
        Expr::Val(value) => value.within(),
        _ => expr.within(),
    }
}

/// An expression that is made, which is measured.
pub fn measured(alloc: Global, frame: &Frame, expr: Expr) -> Result<Expr, Halt>
    ensures { Gives result (state frame.now) (spec.measured own expr (state frame.now)) }
{
    if expr.within() {
        Ok(expr)
    } else {
        Err(value_limit(alloc))
    }
}

/// A value, list or dict that is made.
pub fn made(alloc: Global, frame: &mut Frame, expr: Expr) -> Result<Expr, Halt>
    ensures gives { Gives result (state frame.new) (spec.made own expr (state frame.old)) }
    ensures left { frame.new.left ≤ frame.old.left }
{
    if !is_kept(&expr) {
        return Err(value_limit(alloc));
    }
    frame.spend(alloc, making_held(&expr))?;
    Ok(expr)
}

/// A value that an operation made, within the limits.
pub fn worked(alloc: Global, frame: &mut Frame, value: Value) -> Result<Expr, Halt>
    ensures gives { Gives result (state frame.new) (spec.worked (Ok value) (state frame.old)) }
    ensures left { frame.new.left ≤ frame.old.left }
{
    frame.spend(alloc, making(&value))?;
    Ok(Expr::Val(value))
}

/// What an operation came to that makes a value.
pub fn worked_answer(
    alloc: Global,
    frame: &mut Frame,
    answer: Result<Value, ErrorValue>,
) -> Result<Expr, Halt>
    ensures gives { Gives result (state frame.new) (spec.worked answer (state frame.old)) }
    ensures left { frame.new.left ≤ frame.old.left }
{
    match answer {
        Ok(value) => worked(alloc, frame, value),
        Err(error) => Err(Halt::Raised(error)),
    }
}

/// What an operation came to that makes nothing.
pub fn taken_answer(frame: &Frame, answer: Result<Value, ErrorValue>) -> Result<Expr, Halt>
    ensures { Gives result (state frame.now) (spec.taken answer (state frame.now)) }
{
    match answer {
        Ok(value) => Ok(Expr::Val(value)),
        Err(error) => Err(Halt::Raised(error)),
    }
}
