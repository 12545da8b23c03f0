//! The functions that every module has.

ghost use Rattle.std.specs.Prelude.{◌≡◌, ◌≤◌, Ok, Some, length, pos};
ghost use Rattle.std.specs.Option.{option_copied};
ghost use Rattle.std.specs.Str.{chars};
ghost use Rattle.rd_value.specs.declared.value.Datum.{out-Datum};
ghost use Rattle.rd_value.specs.declared.value.Datum.TheVariants as value;
ghost use Rattle.rd_value.specs.declared.value.FileValue.{FileValue};
ghost use Rattle.rd_value.specs.Operators.{out_of_range};
ghost use Rattle.rd_interpreter.specs.Builtins as spec;
ghost use Rattle.rd_interpreter.specs.Builtins.{int_at, on_arguments, then_, the_only};
ghost use Rattle.rd_interpreter.specs.Held.{iterated_value};
ghost use Rattle.rd_routine.specs.declared.builtin.Builtin.TheVariants as builtin;
ghost use Rattle.rd_interpreter.specs.Operations.{number_of};
ghost use Rattle.rd_interpreter.specs.Running.{Answers, Gives, Raises, own, state};

mod items;
mod number;
mod order;
mod ranges;
mod sorting;
mod total;

use crate::builtins::items::iterated;
use crate::builtins::number::whole;
use crate::builtins::order::best;
use crate::builtins::ranges::range;
use crate::builtins::sorting::sorted;
use crate::builtins::total::total;
use crate::frame::Frame;
use crate::halt::{Halt, raise};
use crate::held::{bad_operand, not_settled};
use crate::making::made;
use rd_base::{Copies, Text};
use rd_routine::Builtin;
use rd_value::class::Class;
use rd_value::expr::Expr;
use rd_value::make::values_of;
use rd_value::value::{Value, Values};
use std::alloc::Global;

/// The error of another number of arguments.
pub fn bad_arguments(alloc: Global) -> Halt
    ensures { Raises result spec.bad_arguments }
{
    raise(alloc, Class::TypeError, "bad arguments")
}

/// The error of a number past 64 bits.
pub fn out_of_range(alloc: Global) -> Halt
    ensures { Raises result out_of_range }
{
    raise(alloc, Class::OverflowError, "out of range")
}

fn characters(text: &str) -> usize
    ensures { result ≡ length (chars text.now) }
{
    text.chars().count()
}

/// A number of items, which memory holds, so that it is one of 64 bits.
fn counted(count: usize) -> Result<Value, Halt>
    ensures { Answers result (Ok (value.Int (pos count))) }
{
    match i64::try_from(count) {
        Ok(count) => Ok(Value::Int(count)),
        Err(_) => Err(Halt::OutOfMemory),
    }
}

fn length_of(alloc: Global, expr: &Expr) -> Result<Value, Halt>
    ensures { Answers result (spec.counted (spec.length_of expr.now)) }
{
    match expr {
        Expr::Val(Value::Text(text)) => counted(characters(text.as_str())),
        Expr::Val(Value::List(values)) => counted(values.as_slice().len()),
        Expr::Val(Value::Dict(pairs)) => counted(pairs.as_slice().len()),
        Expr::Val(_) => Err(bad_operand(alloc)),
        Expr::ListOf(exprs) => counted(exprs.as_slice().len()),
        Expr::DictOf(pairs) => counted(pairs.as_slice().len()),
        _ => Err(not_settled(alloc)),
    }
}

/// A Text itself, an Error's text, a File's path, else the printed form, which is made.
fn text_of(alloc: Global, frame: &mut Frame, value: &Value) -> Result<Expr, Halt>
    ensures gives { Gives result (state frame.new) (spec.str_held own value.now (out-Datum FileValue value.now) (state frame.old)) }
    ensures left { frame.new.left ≤ frame.old.left }
{
    match value {
        Value::Text(text) => Ok(Expr::Val(Value::Text(text.copy(alloc)?))),
        Value::Error(error) => Ok(Expr::Val(Value::Text(error.text.copy(alloc)?))),
        Value::File(file) => Ok(Expr::Val(Value::Text(Text::from_str(alloc, file.path.as_str())?))),
        _ => {
            let text = value.repr(alloc)?;
            made(alloc, frame, Expr::Val(Value::Text(text)))
        }
    }
}

/// A whole number.
fn integer(alloc: Global, value: &Value) -> Result<Value, Halt>
    ensures { Answers result (int_at (out-Datum FileValue value.now)) }
{
    match value {
        Value::Text(text) => whole(alloc, text.as_str()),
        _ => match value.number() {
            Some(number) => Ok(Value::Int(number)),
            None => Err(bad_operand(alloc)),
        },
    }
}

fn absolute(alloc: Global, value: &Value) -> Result<Value, Halt>
    ensures { Answers result (spec.absolute own (number_of value.now)) }
{
    let Some(number) = value.number() else {
        return Err(bad_operand(alloc));
    };
    if number >= 0 {
        return Ok(Value::Int(number));
    }
    match number.checked_neg() {
        Some(number) => Ok(Value::Int(number)),
        None => Err(out_of_range(alloc)),
    }
}

/// The items of one iterable, or the arguments themselves where they are two or more.
fn candidates(alloc: Global, values: &Values) -> Result<Values, Halt>
    ensures { Answers result (spec.candidates own values.now) }
{
    match only(values.as_slice()) {
        Some(value) => iterated(alloc, value),
        None => Ok(values.copy(alloc)?),
    }
}

/// The one item, if there are no others.
fn only<T>(items: &[T]) -> Option<&T>
    ensures { option_copied result ≡ the_only items.now }
{
    if items.len() == 1 {
        items.first()
    } else {
        None
    }
}

fn sum(alloc: Global, value: &Value) -> Result<Value, Halt>
    ensures { Answers result (then_ (iterated_value value.now) (spec.sum_from (pos 0))) }
{
    total(alloc, iterated(alloc, value)?.as_slice())
}

fn in_order(alloc: Global, value: &Value) -> Result<Value, Halt>
    ensures { Answers result (then_ (iterated_value value.now) (spec.sorted own)) }
{
    sorted(alloc, iterated(alloc, value)?)
}

/// The least of the candidates, or the greatest.
fn extreme(alloc: Global, greatest: bool, values: &Values) -> Result<Value, Halt>
    ensures { Answers result (then_ (spec.candidates own values.now) (spec.best (spec.better own greatest))) }
{
    best(alloc, greatest, candidates(alloc, values)?.as_slice())
}

/// A builtin on one settled value.
fn on_one(alloc: Global, frame: &mut Frame, kind: Builtin, value: &Value) -> Result<Expr, Halt>
    ensures gives { Gives result (state frame.new) (spec.on_one own kind (Some value.now) (state frame.old)) }
    ensures left { frame.new.left ≤ frame.old.left }
{
    match kind {
        Builtin::Str => text_of(alloc, frame, value),
        Builtin::Int => Ok(Expr::Val(integer(alloc, value)?)),
        Builtin::Sum => Ok(Expr::Val(sum(alloc, value)?)),
        Builtin::Sorted => {
            let list = in_order(alloc, value)?;
            made(alloc, frame, Expr::Val(list))
        }
        Builtin::Abs => Ok(Expr::Val(absolute(alloc, value)?)),
        Builtin::Len | Builtin::Range | Builtin::Min | Builtin::Max => Err(bad_arguments(alloc)),
    }
}

/// A builtin on settled values.
#[tactic(auto, using(crate::proofs::OneArgument::on_values_by_one))]
fn on_values(alloc: Global, frame: &mut Frame, kind: Builtin, values: &Values) -> Result<Expr, Halt>
    ensures gives { Gives result (state frame.new) (spec.on_values own kind values.now (state frame.old)) }
    ensures left { frame.new.left ≤ frame.old.left }
{
    match kind {
        Builtin::Range => range(alloc, frame, values.as_slice()),
        Builtin::Min => Ok(Expr::Val(extreme(alloc, false, values)?)),
        Builtin::Max => Ok(Expr::Val(extreme(alloc, true, values)?)),
        _ => match only(values.as_slice()) {
            Some(value) => on_one(alloc, frame, kind, value),
            None => Err(bad_arguments(alloc)),
        },
    }
}

fn takes(kind: Builtin, count: usize) -> bool
    ensures { result ≡ spec.takes kind count }
{
    match kind {
        Builtin::Range => 1 <= count && count <= 3,
        Builtin::Min | Builtin::Max => 1 <= count,
        Builtin::Len
        | Builtin::Str
        | Builtin::Int
        | Builtin::Sum
        | Builtin::Sorted
        | Builtin::Abs => count == 1,
    }
}

fn on_others(
    alloc: Global,
    frame: &mut Frame,
    kind: Builtin,
    arguments: &[Expr],
) -> Result<Expr, Halt>
    ensures gives { Gives result (state frame.new) (spec.on_others own kind arguments.now (state frame.old)) }
    ensures left { frame.new.left ≤ frame.old.left }
{
    if !takes(kind, arguments.len()) {
        return Err(bad_arguments(alloc));
    }
    match values_of(alloc, arguments)? {
        Some(values) => on_values(alloc, frame, kind, &values),
        None => Err(not_settled(alloc)),
    }
}

fn on_length(alloc: Global, arguments: &[Expr]) -> Result<Value, Halt>
    ensures { Answers result (spec.length_of_one (the_only arguments.now)) }
{
    match only(arguments) {
        Some(expr) => length_of(alloc, expr),
        None => Err(bad_arguments(alloc)),
    }
}

/// A builtin on its arguments.
#[tactic(auto, using(crate::proofs::OneArgument::on_arguments_by_others))]
pub fn builtin(
    alloc: Global,
    frame: &mut Frame,
    builtin: Builtin,
    arguments: &[Expr],
) -> Result<Expr, Halt>
    ensures gives { Gives result (state frame.new) (on_arguments own builtin arguments.now (state frame.old)) }
    ensures left { frame.new.left ≤ frame.old.left }
{
    match builtin {
        Builtin::Len => Ok(Expr::Val(on_length(alloc, arguments)?)),
        _ => on_others(alloc, frame, builtin, arguments),
    }
}
