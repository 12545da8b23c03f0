//! Lists of numbers, a step between each two.

ghost use Rattle.std.specs.Prelude.{◌≡◌, ◌≢◌, ◌<◌, ◌≤◌, ◌-ℤ◌, ℤ, IfOk, Option, pos};
ghost use Rattle.rd_value.specs.Operators.{times};
ghost use Rattle.rd_interpreter.specs.Builtins as spec;
ghost use Rattle.rd_interpreter.specs.Builtins.{on_range, produced};
ghost use Rattle.rd_interpreter.specs.Running.{Gives, Raises, own, state};

use crate::builtins::bad_arguments;
use crate::frame::Frame;
use crate::halt::{Halt, raise};
use crate::held::bad_operand;
use crate::making::{made, value_limit};
use rd_base::OutOfMemory;
use rd_value::class::Class;
use rd_value::expr::Expr;
use rd_value::limits::MAX_SIZE;
use rd_value::value::{Value, Values};
use std::alloc::Global;

/// The error of a range that takes no steps.
fn step_is_zero(alloc: Global) -> Halt
    ensures { Raises result spec.step_is_zero }
{
    raise(alloc, Class::ValueError, "range step is zero")
}

/// How far it is up to a number, or 0 where that is less.
fn distance(first: i64, end: i64) -> u64
    ensures { result ≡ times (end -ℤ first) }
{
    if first < end { end.abs_diff(first) } else { 0 }
}

/// How many steps of a size take to pass a distance.
fn steps_over(distance: u64, step: u64) -> u64
    requires { 0 < step }
    ensures { result ≡ spec.steps_over distance step }
{
    distance.div_ceil(step)
}

/// How many numbers a range has.
fn range_length(first: i64, end: i64, step: i64) -> u64
    requires { step ≢ pos 0 }
    ensures { result ≡ spec.range_length first end step }
{
    let distance = if step > 0 {
        distance(first, end)
    } else {
        distance(end, first)
    };
    steps_over(distance, step.unsigned_abs())
}

/// As many numbers as the range has. The one behind the last may be past 64 bits, where it is cut: it isn't used.
fn ranging(
    alloc: Global,
    count: u64,
    first: i64,
    end: i64,
    step: i64,
) -> Result<Values, OutOfMemory>
    requires steps { step ≢ pos 0 }
    requires counted { count ≡ spec.range_length first end step }
    ensures { IfOk result (λ values. values ≡ spec.ranging count first step) }
{
    let mut values = Values::new(alloc);
    let mut number = first;
    for _ in 0..count {
        values.push(alloc, Value::Int(number))?;
        number = number.saturating_add(step);
    }
    Ok(values)
}

/// A list has a byte at least for each item, so past the limit of bytes it isn't built.
fn range_of(alloc: Global, frame: &mut Frame, first: i64, end: i64, step: i64) -> Result<Expr, Halt>
    ensures gives { Gives result (state frame.new) (produced own (spec.range_of first end step) (state frame.old)) }
    ensures left { frame.new.left ≤ frame.old.left }
{
    if step == 0 {
        return Err(step_is_zero(alloc));
    }
    let count = range_length(first, end, step);
    if u64::from(MAX_SIZE) < count {
        return Err(value_limit(alloc));
    }
    let values = ranging(alloc, count, first, end, step)?;
    made(alloc, frame, Expr::Val(Value::List(values)))
}

/// The range of what operations take as numbers.
fn range_at(
    alloc: Global,
    frame: &mut Frame,
    first: Option<i64>,
    end: Option<i64>,
    step: Option<i64>,
) -> Result<Expr, Halt>
    ensures gives { Gives result (state frame.new) (produced own (spec.range_at first end step) (state frame.old)) }
    ensures left { frame.new.left ≤ frame.old.left }
{
    match (first, end, step) {
        (Some(first), Some(end), Some(step)) => range_of(alloc, frame, first, end, step),
        _ => Err(bad_operand(alloc)),
    }
}

/// The numbers up to an end, from 0 or a first one, by 1 or a step.
pub fn range(alloc: Global, frame: &mut Frame, values: &[Value]) -> Result<Expr, Halt>
    ensures gives { Gives result (state frame.new) (on_range own values.now (state frame.old)) }
    ensures left { frame.new.left ≤ frame.old.left }
{
    match values {
        [end] => range_at(alloc, frame, Some(0), end.number(), Some(1)),
        [first, end] => range_at(alloc, frame, first.number(), end.number(), Some(1)),
        [first, end, step] => {
            range_at(alloc, frame, first.number(), end.number(), step.number())
        }
        _ => Err(bad_arguments(alloc)),
    }
}
