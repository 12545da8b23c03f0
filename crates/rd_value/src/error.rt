//! The errors of operators.

ghost use Rattle.std.specs.Prelude.{◌≡◌, IfOk};
ghost use Rattle.rd_value.specs.Operators as spec;

use crate::class::Class;
use crate::raise::raised;
use crate::value::ErrorValue;
use rd_base::OutOfMemory;
use std::alloc::Global;

pub fn bad_operand(alloc: Global) -> Result<ErrorValue, OutOfMemory>
    ensures { IfOk result (λ e. e ≡ spec.bad_operand) }
{
    raised(alloc, Class::TypeError, "bad operand")
}

pub fn out_of_range(alloc: Global) -> Result<ErrorValue, OutOfMemory>
    ensures { IfOk result (λ e. e ≡ spec.out_of_range) }
{
    raised(alloc, Class::OverflowError, "out of range")
}

pub fn value_limit(alloc: Global) -> Result<ErrorValue, OutOfMemory>
    ensures { IfOk result (λ e. e ≡ spec.value_limit) }
{
    raised(alloc, Class::LimitError, "value")
}

pub fn division_by_zero(alloc: Global) -> Result<ErrorValue, OutOfMemory>
    ensures { IfOk result (λ e. e ≡ spec.division_by_zero) }
{
    raised(alloc, Class::ZeroDivisionError, "division by zero")
}

pub fn index_out_of_range(alloc: Global) -> Result<ErrorValue, OutOfMemory>
    ensures { IfOk result (λ e. e ≡ spec.index_out_of_range) }
{
    raised(alloc, Class::IndexError, "index out of range")
}
