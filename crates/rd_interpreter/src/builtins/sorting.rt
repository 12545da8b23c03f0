//! Lists in order.

ghost use Rattle.std.specs.Prelude.{◌≡◌, IfOk};
ghost use Rattle.rd_interpreter.specs.Builtins as spec;
ghost use Rattle.rd_interpreter.specs.Builtins.{in_order, number_less, number_or_zero, text_less, text_or_empty};
ghost use Rattle.rd_interpreter.specs.Running.{Answers, own};

use crate::builtins::order::{are_numbers, are_texts};
use crate::halt::Halt;
use crate::held::bad_operand;
use rd_base::OutOfMemory;
use rd_value::value::{Value, Values};
use std::alloc::Global;

/// The number of a value, or 0.
fn number_of(value: &Value) -> i64
    ensures { result ≡ number_or_zero value.now }
{
    match value.number() {
        Some(number) => number,
        None => 0,
    }
}

/// The bytes of a text, or none.
fn text_of(value: &Value) -> &str
    ensures { result.now ≡ text_or_empty value.now }
{
    match value {
        Value::Text(text) => text.as_str(),
        _ => "",
    }
}

fn by_number(mut values: Vec<Value>) -> Result<Vec<Value>, OutOfMemory>
    ensures { IfOk result (λ sorted. sorted.items ≡ in_order number_less values.items) }
{
    values.sort_by(|value, other| number_of(value).cmp(&number_of(other)))?;
    Ok(values)
}

fn by_text(mut values: Vec<Value>) -> Result<Vec<Value>, OutOfMemory>
    ensures { IfOk result (λ sorted. sorted.items ≡ in_order text_less values.items) }
{
    values.sort_by(|value, other| text_of(value).cmp(text_of(other)))?;
    Ok(values)
}

/// Values in order, those that tie as they stood.
pub fn sorted(alloc: Global, values: Values) -> Result<Value, Halt>
    ensures { Answers result (spec.sorted own values) }
{
    if are_numbers(values.as_slice()) {
        let sorted = by_number(values.into_vec(alloc)?)?;
        return Ok(Value::List(Values::from_vec(alloc, sorted)?));
    }
    if are_texts(values.as_slice()) {
        let sorted = by_text(values.into_vec(alloc)?)?;
        return Ok(Value::List(Values::from_vec(alloc, sorted)?));
    }
    Err(bad_operand(alloc))
}
