//! The least and the greatest.

ghost use Rattle.std.specs.Prelude.{◌≡◌};
ghost use Rattle.std.specs.List.{list_all};
ghost use Rattle.rd_interpreter.specs.Builtins as spec;
ghost use Rattle.rd_interpreter.specs.Builtins.{best_from, better};
ghost use Rattle.rd_interpreter.specs.Running.{Answers, Raises, own};

use crate::halt::{Halt, raise};
use crate::held::bad_operand;
use rd_base::Copies;
use rd_value::class::Class;
use rd_value::value::Value;
use std::alloc::Global;
use std::cmp::Ordering;

/// The error of no values, one of which is asked for.
fn nothing_there(alloc: Global) -> Halt
    ensures { Raises result spec.nothing_there }
{
    raise(alloc, Class::ValueError, "empty")
}

fn is_number(value: &Value) -> bool
    ensures { result ≡ spec.is_number value.now }
{
    value.number().is_some()
}

fn is_text(value: &Value) -> bool
    ensures { result ≡ spec.is_text value.now }
{
    match value {
        Value::Text(_) => true,
        _ => false,
    }
}

/// All Int or Bool.
pub fn are_numbers(values: &[Value]) -> bool
    ensures { result ≡ list_all spec.is_number values.now }
{
    for value in values {
        if !is_number(value) {
            return false;
        }
    }
    true
}

/// All Text.
pub fn are_texts(values: &[Value]) -> bool
    ensures { result ≡ list_all spec.is_text values.now }
{
    for value in values {
        if !is_text(value) {
            return false;
        }
    }
    true
}

fn have_one_order(values: &[Value]) -> bool
    ensures { result ≡ spec.have_one_order values.now }
{
    are_numbers(values) || are_texts(values)
}

fn is_better(greatest: bool, value: &Value, other: &Value) -> bool
    ensures { result ≡ better own greatest value.now other.now }
{
    match value.compared(other) {
        Some(Ordering::Less) => !greatest,
        Some(Ordering::Greater) => greatest,
        Some(Ordering::Equal) | None => false,
    }
}

fn best_of<'a>(greatest: bool, first: &'a Value, others: &'a [Value]) -> &'a Value
    ensures { result.now ≡ best_from (better own greatest) first.now others.now }
{
    let mut best = first;
    for value in others {
        if is_better(greatest, value, best) {
            best = value;
        }
    }
    best
}

/// The least of values, or the greatest.
pub fn best(alloc: Global, greatest: bool, values: &[Value]) -> Result<Value, Halt>
    ensures { Answers result (spec.best (better own greatest) values.now) }
{
    let Some(first) = values.first() else {
        return Err(nothing_there(alloc));
    };
    if !have_one_order(values) {
        return Err(bad_operand(alloc));
    }
    Ok(best_of(greatest, first, &values[1..]).copy(alloc)?)
}
