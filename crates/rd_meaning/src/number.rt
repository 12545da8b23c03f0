//! Operators on numbers.

ghost use Rattle.std.specs.Prelude.{◌≡◌, ◌-ℤ◌, ◌*ℤ◌, IfOk};
ghost use Rattle.rd_value.specs.Operators.{kept_int, on_numbers, negated};

use rd_base::OutOfMemory;
use rd_value::error::{bad_operand, out_of_range};
use rd_value::value::{Answer, Value};
use std::alloc::Global;

pub fn minus(alloc: Global, a: Option<i64>, b: Option<i64>) -> Result<Answer, OutOfMemory>
    ensures { IfOk result (λ answer. answer ≡ on_numbers (λ m n. kept_int (m -ℤ n)) a b) }
{
    match (a, b) {
        (Some(a), Some(b)) => match a.checked_sub(b) {
            Some(rest) => Ok(Ok(Value::Int(rest))),
            None => Ok(Err(out_of_range(alloc)?)),
        },
        _ => Ok(Err(bad_operand(alloc)?)),
    }
}

pub fn product(alloc: Global, a: Option<i64>, b: Option<i64>) -> Result<Answer, OutOfMemory>
    ensures { IfOk result (λ answer. answer ≡ on_numbers (λ m n. kept_int (m *ℤ n)) a b) }
{
    match (a, b) {
        (Some(a), Some(b)) => match a.checked_mul(b) {
            Some(product) => Ok(Ok(Value::Int(product))),
            None => Ok(Err(out_of_range(alloc)?)),
        },
        _ => Ok(Err(bad_operand(alloc)?)),
    }
}

pub fn negative(alloc: Global, a: Option<i64>) -> Result<Answer, OutOfMemory>
    ensures { IfOk result (λ answer. answer ≡ negated a) }
{
    match a {
        Some(a) => match a.checked_neg() {
            Some(negative) => Ok(Ok(Value::Int(negative))),
            None => Ok(Err(out_of_range(alloc)?)),
        },
        None => Ok(Err(bad_operand(alloc)?)),
    }
}
