//! Division, which rounds down.

ghost use Rattle.std.specs.Prelude.{◌≡◌, neg_ℤ, IfOk};
ghost use Rattle.std.specs.Int.{w64, IsNonZero, IsNonNegative};
ghost use Rattle.rd_value.specs.Operators as spec;
ghost use Rattle.rd_value.specs.Operators.{divided, kept_int, on_numbers};

use rd_base::OutOfMemory;
use rd_value::error::{bad_operand, division_by_zero, out_of_range};
use rd_value::value::{Answer, Value};
use std::alloc::Global;

// Wide numbers hold each quotient of two numbers, also that of the least number and -1.
fn floor_quotient(a: i64, b: i64) -> i128
    requires { IsNonZero w64 b }
    ensures { result ≡ spec.floor_quotient a b }
{
    let a = i128::from(a);
    let b = i128::from(b);
    if b < 0 {
        (-a).div_euclid(-b)
    } else {
        a.div_euclid(b)
    }
}

fn opposite(n: i128) -> i128
    requires { IsNonNegative n }
    ensures { result ≡ neg_ℤ n }
{
    -n
}

fn floor_remainder(a: i64, b: i64) -> i128
    requires { IsNonZero w64 b }
    ensures { result ≡ spec.floor_remainder a b }
{
    let a = i128::from(a);
    let b = i128::from(b);
    if b < 0 {
        opposite((-a).rem_euclid(-b))
    } else {
        a.rem_euclid(b)
    }
}

fn kept_int(alloc: Global, n: i128) -> Result<Answer, OutOfMemory>
    ensures { IfOk result (λ answer. answer ≡ kept_int n) }
{
    match i64::try_from(n) {
        Ok(n) => Ok(Ok(Value::Int(n))),
        Err(_) => Ok(Err(out_of_range(alloc)?)),
    }
}

/// The operator `//`.
pub fn quotient(alloc: Global, a: Option<i64>, b: Option<i64>) -> Result<Answer, OutOfMemory>
    ensures { IfOk result (λ answer. answer ≡ on_numbers (divided spec.floor_quotient) a b) }
{
    match (a, b) {
        (Some(_), Some(0)) => Ok(Err(division_by_zero(alloc)?)),
        (Some(a), Some(b)) => kept_int(alloc, floor_quotient(a, b)),
        _ => Ok(Err(bad_operand(alloc)?)),
    }
}

/// The operator `%`.
pub fn remainder(alloc: Global, a: Option<i64>, b: Option<i64>) -> Result<Answer, OutOfMemory>
    ensures { IfOk result (λ answer. answer ≡ on_numbers (divided spec.floor_remainder) a b) }
{
    match (a, b) {
        (Some(_), Some(0)) => Ok(Err(division_by_zero(alloc)?)),
        (Some(a), Some(b)) => kept_int(alloc, floor_remainder(a, b)),
        _ => Ok(Err(bad_operand(alloc)?)),
    }
}
