//! An index into a list, a text or a dict.

ghost use Rattle.std.specs.Prelude.{◌≡◌, IfOk, length};
ghost use Rattle.std.specs.List.{slice_get};
ghost use Rattle.std.specs.Str.{chars};
ghost use Rattle.rd_value.specs.declared.value.Datum.{out-Datum};
ghost use Rattle.rd_value.specs.declared.value.FileValue.{FileValue};
ghost use Rattle.rd_value.specs.Operators as spec;

use rd_base::{Copies, OutOfMemory, Text};
use rd_value::class::Class;
use rd_value::error::{bad_operand, index_out_of_range};
use rd_value::raise::raised;
use rd_value::value::{Answer, Value};
use std::alloc::Global;

/// The place at an index, which counts from the end where it is negative. Past all where there is none.
pub fn place(index: i64, count: usize) -> usize
    ensures { result ≡ spec.place index count }
{
    match usize::try_from(index) {
        Ok(place) => place,
        Err(_) => {
            let back = index.unsigned_abs() as usize;
            count.checked_sub(back).unwrap_or(count)
        }
    }
}

fn item(alloc: Global, items: &[Value], index: Option<i64>) -> Result<Answer, OutOfMemory>
    ensures { IfOk result (λ answer. answer ≡ spec.indexed (λ x. x) items.now index) }
{
    let Some(index) = index else {
        return Ok(Err(bad_operand(alloc)?));
    };
    match items.get(place(index, items.len())) {
        Some(item) => Ok(Ok(item.copy(alloc)?)),
        None => Ok(Err(index_out_of_range(alloc)?)),
    }
}

/// The character at a place.
fn nth(text: &str, place: usize) -> Option<char>
    ensures { result ≡ slice_get (chars text.now) place }
{
    text.chars().nth(place)
}

fn count(text: &str) -> usize
    ensures { result ≡ length (chars text.now) }
{
    text.chars().count()
}

fn character(alloc: Global, text: &str, index: Option<i64>) -> Result<Answer, OutOfMemory>
    ensures { IfOk result (λ answer. answer ≡ spec.indexed spec.character (chars text.now) index) }
{
    let Some(index) = index else {
        return Ok(Err(bad_operand(alloc)?));
    };
    match nth(text, place(index, count(text))) {
        Some(found) => {
            let mut one = String::new(alloc);
            one.push(found)?;
            Ok(Ok(Value::Text(Text::from_string(alloc, one)?)))
        }
        None => Ok(Err(index_out_of_range(alloc)?)),
    }
}

fn under(alloc: Global, pairs: &[(Value, Value)], key: &Value) -> Result<Answer, OutOfMemory>
    ensures { IfOk result (λ answer. answer ≡ spec.under (λ f. f) key.now pairs.now) }
{
    for (other, item) in pairs {
        if other.equal(key) {
            return Ok(Ok(item.copy(alloc)?));
        }
    }
    let text = key.repr(alloc)?;
    Ok(Err(raised(alloc, Class::KeyError, text.as_str())?))
}

/// The item at an index or under a key.
pub fn indexed(alloc: Global, a: &Value, b: &Value) -> Result<Answer, OutOfMemory>
    ensures { IfOk result (λ answer. answer ≡ spec.index_at (λ f. f) (out-Datum FileValue a.now) (out-Datum FileValue b.now)) }
{
    match (a, b) {
        (Value::Text(text), _) => character(alloc, text.as_str(), b.number()),
        (Value::List(items), _) => item(alloc, items.as_slice(), b.number()),
        (Value::Dict(pairs), Value::Int(_)) => under(alloc, pairs.as_slice(), b),
        (Value::Dict(pairs), Value::Text(_)) => under(alloc, pairs.as_slice(), b),
        _ => Ok(Err(bad_operand(alloc)?)),
    }
}
