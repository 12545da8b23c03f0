//! The operators on values.

ghost use Rattle.std.specs.Prelude.{◌≡◌, ◌++◌, IfOk, string_bytes};
ghost use Rattle.rd_value.specs.declared.value.Datum.{out-Datum};
ghost use Rattle.rd_value.specs.declared.value.FileValue.{FileValue};
ghost use Rattle.rd_value.specs.Compare.{number_at};
ghost use Rattle.rd_value.specs.Operators.{plus_numbers, plus};

use crate::error::{bad_operand, out_of_range};
use crate::limits::kept;
use crate::value::{Answer, Value, Values};
use rd_base::{Copies, OutOfMemory, Text};
use std::alloc::Global;

fn plus_numbers(alloc: Global, a: Option<i64>, b: Option<i64>) -> Result<Answer, OutOfMemory>
    ensures { IfOk result (λ answer. answer ≡ plus_numbers a b) }
{
    match (a, b) {
        (Some(a), Some(b)) => match a.checked_add(b) {
            Some(sum) => Ok(Ok(Value::Int(sum))),
            None => Ok(Err(out_of_range(alloc)?)),
        },
        _ => Ok(Err(bad_operand(alloc)?)),
    }
}

fn joined_text(alloc: Global, a: &Text, b: &Text) -> Result<Text, OutOfMemory>
    ensures { IfOk result (λ t. t ≡ a.now ++ b.now) }
{
    let mut text = String::from_str(alloc, a.as_str())?;
    text.push_str(b.as_str())?;
    Text::from_string(alloc, text)
}

fn joined_list(alloc: Global, a: &Values, b: &Values) -> Result<Values, OutOfMemory>
    ensures { IfOk result (λ xs. xs ≡ a.now ++ b.now) }
{
    let mut joined = a.copy(alloc)?;
    for item in b.as_slice() {
        joined.push(alloc, item.copy(alloc)?)?;
    }
    Ok(joined)
}

impl Value {
    /// The number as which an operation takes it.
    pub fn number(&self) -> Option<i64>
        ensures { result ≡ number_at (out-Datum FileValue self.now) }
    {
        match self {
            Value::Bool(b) => Some(i64::from(*b)),
            Value::Int(n) => Some(*n),
            _ => None,
        }
    }

    /// The operator `+`.
    pub fn plus(&self, alloc: Global, other: &Value) -> Result<Answer, OutOfMemory>
        ensures { IfOk result (λ answer. answer ≡ plus (λ f. f) self.now other.now) }
    {
        match (self, other) {
            (Value::Text(a), Value::Text(b)) => {
                kept(alloc, Value::Text(joined_text(alloc, a, b)?))
            }
            (Value::List(a), Value::List(b)) => {
                kept(alloc, Value::List(joined_list(alloc, a, b)?))
            }
            _ => plus_numbers(alloc, self.number(), other.number()),
        }
    }
}
