//! Sums.

ghost use Rattle.std.specs.Prelude.{pos};
ghost use Rattle.rd_interpreter.specs.Builtins.{sum_from, sum_with};
ghost use Rattle.rd_interpreter.specs.Running.{Answers};

use crate::builtins::out_of_range;
use crate::halt::Halt;
use crate::held::bad_operand;
use rd_value::value::Value;
use std::alloc::Global;

/// A sum with one number more.
fn added(alloc: Global, total: i64, number: Option<i64>) -> Result<i64, Halt>
    ensures { Answers result (sum_with total number) }
{
    let Some(number) = number else {
        return Err(bad_operand(alloc));
    };
    match total.checked_add(number) {
        Some(sum) => Ok(sum),
        None => Err(out_of_range(alloc)),
    }
}

/// The sum of numbers, from the left.
pub fn total(alloc: Global, values: &[Value]) -> Result<Value, Halt>
    ensures { Answers result (sum_from (pos 0) values.now) }
{
    let mut total = 0;
    for value in values {
        total = added(alloc, total, value.number())?;
    }
    Ok(Value::Int(total))
}
