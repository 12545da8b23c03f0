//! `*`, which repeats texts and lists.

ghost use Rattle.std.specs.Prelude.{◌≡◌, ◌++◌, ◌-◌, IfOk, OnOk, min, map, length};
ghost use Rattle.std.specs.List.{repeat};
ghost use Rattle.rd_value.specs.declared.value.Datum.{out-Datum};
ghost use Rattle.rd_value.specs.declared.value.FileValue.{FileValue};
ghost use Rattle.rd_value.specs.Canon.{canon, joined};
ghost use Rattle.rd_value.specs.Operators as spec;

use crate::number::product;
use rd_base::{Copies, OutOfMemory, Text};
use rd_value::error::{bad_operand, value_limit};
use rd_value::limits::{MAX_SIZE, kept};
use rd_value::value::{Answer, Value, Values};
use std::alloc::Global;

/// How often something is repeated. A count below 0 is 0.
fn times(count: i64) -> usize
    ensures { result ≡ spec.times count }
{
    usize::try_from(count).unwrap_or(0)
}

fn repeated_text(alloc: Global, text: &str, count: Option<i64>) -> Result<Answer, OutOfMemory>
    ensures { IfOk result (λ answer. answer ≡ spec.repeated_text (λ f. f) text.now count) }
{
    let Some(count) = count else {
        return Ok(Err(bad_operand(alloc)?));
    };
    let times = times(count);
    if text.len().saturating_mul(times) > MAX_SIZE as usize {
        return Ok(Err(value_limit(alloc)?));
    }
    let text = text.repeat(alloc, times)?;
    kept(alloc, Value::Text(Text::from_string(alloc, text)?))
}

fn append(alloc: Global, all: &mut Vec<Value>, items: &[Value]) -> Result<(), OutOfMemory>
    ensures { OnOk result (all.new.items ≡ all.old.items ++ items.now) }
{
    for item in items {
        all.push(item.copy(alloc)?)?;
    }
    Ok(())
}

#[tactic(auto, using(crate::proofs::Repeating::repeat_more))]
fn repeated(alloc: Global, items: &[Value], times: usize) -> Result<Values, OutOfMemory>
    ensures { IfOk result (λ all. all ≡ repeat times items.now) }
{
    if items.is_empty() {
        return Ok(Values::new(alloc));
    }
    let mut all = Vec::new(alloc);
    for _ in 0..times {
        append(alloc, &mut all, items)?;
    }
    Values::from_vec(alloc, all)
}

/// The bytes of the items of a list.
fn items_size(alloc: Global, items: &Values) -> Result<usize, OutOfMemory>
    ensures { IfOk result (λ size. size ≡ min (length (joined (map (canon (λ f. f)) items.now))) (u32.MAX - 5)) }
{
    Ok(Value::List(items.copy(alloc)?).size().saturating_sub(5) as usize)
}

fn repeated_list(alloc: Global, items: &Values, count: Option<i64>) -> Result<Answer, OutOfMemory>
    ensures { IfOk result (λ answer. answer ≡ spec.repeated_list (λ f. f) items.now count) }
{
    let Some(count) = count else {
        return Ok(Err(bad_operand(alloc)?));
    };
    let times = times(count);
    if items_size(alloc, items)?.saturating_mul(times) > MAX_SIZE as usize {
        return Ok(Err(value_limit(alloc)?));
    }
    kept(
        alloc,
        Value::List(repeated(alloc, items.as_slice(), times)?),
    )
}

/// The operator `*`.
pub fn multiplied(alloc: Global, a: &Value, b: &Value) -> Result<Answer, OutOfMemory>
    ensures { IfOk result (λ answer. answer ≡ spec.times_at (λ f. f) (out-Datum FileValue a.now) (out-Datum FileValue b.now)) }
{
    match (a, b) {
        (Value::Text(text), _) => repeated_text(alloc, text.as_str(), b.number()),
        (Value::List(items), _) => repeated_list(alloc, items, b.number()),
        (_, Value::Text(text)) => repeated_text(alloc, text.as_str(), a.number()),
        (_, Value::List(items)) => repeated_list(alloc, items, a.number()),
        _ => product(alloc, a.number(), b.number()),
    }
}
