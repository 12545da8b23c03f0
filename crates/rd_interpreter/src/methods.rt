//! The methods of texts and dicts.

ghost use Rattle.std.specs.Prelude.{◌≡◌, ◌≤◌, map};
ghost use Rattle.rd_value.specs.declared.expr.Lazy.TheVariants as lazy;
ghost use Rattle.rd_value.specs.Make.{values_of};
ghost use Rattle.rd_value.specs.Operators as operators;
ghost use Rattle.rd_interpreter.specs.Builtins as builtins;
ghost use Rattle.rd_interpreter.specs.Held as held;
ghost use Rattle.rd_interpreter.specs.Held.{or_not_settled};
ghost use Rattle.rd_interpreter.specs.Methods as spec;
ghost use Rattle.rd_interpreter.specs.Methods.{on_method, on_receiver};
ghost use Rattle.rd_interpreter.specs.Running.{Answers, Gives, Raises, own, state};

mod on_dict;
mod on_text;

use crate::frame::Frame;
use crate::halt::{Halt, raise};
use crate::held::not_settled;
use crate::method::Method;
use on_dict::{Held, on_dict};
use on_text::on_text;
use rd_base::Copies;
use rd_value::class::Class;
use rd_value::expr::Expr;
use rd_value::raise::raised;
use rd_value::value::{Value, Values};
use std::alloc::Global;

/// The error of a value of another kind.
pub fn bad_operand(alloc: Global) -> Halt
    ensures { Raises result operators.bad_operand }
{
    raise(alloc, Class::TypeError, "bad operand")
}

/// The error of another number of arguments.
pub fn bad_arguments(alloc: Global) -> Halt
    ensures { Raises result builtins.bad_arguments }
{
    raise(alloc, Class::TypeError, "bad arguments")
}

/// The error of a method that the value's kind doesn't have.
fn no_method(alloc: Global, name: &str) -> Halt
    ensures { Raises result (spec.no_method name.now) }
{
    match raised(alloc, Class::AttributeError, name) {
        Ok(error) => Halt::Raised(error),
        Err(_) => Halt::OutOfMemory,
    }
}

fn text_method(name: &str) -> Option<Method>
    ensures { result ≡ spec.text_method name.now }
{
    match name {
        "format" => Some(Method::Format),
        "split" => Some(Method::Split),
        "join" => Some(Method::Join),
        "strip" => Some(Method::Strip),
        "startswith" => Some(Method::StartsWith),
        "endswith" => Some(Method::EndsWith),
        "replace" => Some(Method::Replace),
        _ => None,
    }
}

fn dict_method(name: &str) -> Option<Method>
    ensures { result ≡ spec.dict_method name.now }
{
    match name {
        "get" => Some(Method::Get),
        "keys" => Some(Method::Keys),
        "values" => Some(Method::Values),
        "items" => Some(Method::Items),
        _ => None,
    }
}

/// Whether a method takes so many arguments.
fn takes(method: Method, count: usize) -> bool
    ensures { result ≡ spec.takes method count }
{
    match method {
        Method::Format => true,
        Method::Split => count <= 1,
        Method::Join => count == 1,
        Method::Strip => count == 0,
        Method::StartsWith => count == 1,
        Method::EndsWith => count == 1,
        Method::Replace => count == 2,
        Method::Get => 1 <= count && count <= 2,
        Method::Keys => count == 0,
        Method::Values => count == 0,
        Method::Items => count == 0,
    }
}

/// The values of expressions, if all of them are settled.
fn settled(alloc: Global, expressions: &[Expr]) -> Result<Values, Halt>
    ensures { Answers result (or_not_settled (values_of expressions.now)) }
{
    let mut values = Values::new(alloc);
    for expression in expressions {
        match expression {
            Expr::Val(value) => values.push(alloc, value.copy(alloc)?)?,
            _ => return Err(not_settled(alloc)),
        }
    }
    Ok(values)
}

/// The values that a method is called with.
fn arguments_of(alloc: Global, method: Method, arguments: &[Expr]) -> Result<Values, Halt>
    ensures { Answers result (spec.arguments_of method arguments.now) }
{
    if takes(method, arguments.len()) {
        settled(alloc, arguments)
    } else {
        Err(bad_arguments(alloc))
    }
}

/// A method of a text, by its name.
fn of_text(
    alloc: Global,
    frame: &mut Frame,
    text: &str,
    name: &str,
    arguments: &[Expr],
) -> Result<Expr, Halt>
    ensures gives { Gives result (state frame.new) (on_method own (λ m. spec.on_text own m text.now) (spec.no_method name.now) (spec.text_method name.now) arguments.now (state frame.old)) }
    ensures left { frame.new.left ≤ frame.old.left }
{
    let Some(method) = text_method(name) else {
        return Err(no_method(alloc, name));
    };
    let values = arguments_of(alloc, method, arguments)?;
    on_text(alloc, frame, method, text, values.as_slice())
}

/// A method of a dict.
fn of_dict<V: Held>(
    alloc: Global,
    frame: &mut Frame,
    pairs: &[(Value, V)],
    method: Method,
    arguments: &[Expr],
) -> Result<Expr, Halt>
    ensures gives { Gives result (state frame.new) (spec.on_arguments own (spec.on_dict own method (map (λ p. (p.0, V.held p.1)) pairs.now)) (spec.arguments_of method arguments.now) (state frame.old)) }
    ensures left { frame.new.left ≤ frame.old.left }
{
    let values = arguments_of(alloc, method, arguments)?;
    on_dict(alloc, frame, method, pairs, values.as_slice())
}

/// A method of a value.
fn of_value(
    alloc: Global,
    frame: &mut Frame,
    value: &Value,
    name: &str,
    arguments: &[Expr],
) -> Result<Expr, Halt>
    ensures gives { Gives result (state frame.new) (on_receiver own (lazy.Val value.now) name.now arguments.now (state frame.old)) }
    ensures left { frame.new.left ≤ frame.old.left }
{
    match value {
        Value::Text(text) => of_text(alloc, frame, text.as_str(), name, arguments),
        Value::Dict(pairs) => match dict_method(name) {
            Some(method) => of_dict(alloc, frame, pairs.as_slice(), method, arguments),
            None => Err(no_method(alloc, name)),
        },
        _ => Err(no_method(alloc, name)),
    }
}

/// A method of what stands before the dot.
pub fn method(
    alloc: Global,
    frame: &mut Frame,
    receiver: &Expr,
    name: &str,
    arguments: &[Expr],
) -> Result<Expr, Halt>
    ensures gives { Gives result (state frame.new) (on_receiver own receiver.now name.now arguments.now (state frame.old)) }
    ensures left { frame.new.left ≤ frame.old.left }
{
    match receiver {
        Expr::Val(value) => of_value(alloc, frame, value, name, arguments),
        Expr::DictOf(pairs) => match dict_method(name) {
            Some(method) => of_dict(alloc, frame, pairs.as_slice(), method, arguments),
            None => Err(not_settled(alloc)),
        },
        _ => Err(not_settled(alloc)),
    }
}
