//! Comparisons.

ghost use Rattle.std.specs.Prelude.{◌≡◌, IfOk};
ghost use Rattle.rd_value.specs.declared.value.Datum.{out-Datum};
ghost use Rattle.rd_value.specs.declared.value.FileValue.{FileValue};
ghost use Rattle.rd_value.specs.Operators as spec;
ghost use Rattle.rd_meaning.specs.Order.{test_of};

use rd_base::OutOfMemory;
use rd_value::error::bad_operand;
use rd_value::expr::OpKind;
use rd_value::value::{Answer, Value};
use std::alloc::Global;
use std::cmp::Ordering;

fn have_order(a: &Value, b: &Value) -> bool
    ensures { result ≡ spec.have_order (out-Datum FileValue a.now) (out-Datum FileValue b.now) }
{
    match (a, b) {
        (Value::Text(_), Value::Text(_)) => true,
        (Value::List(_), Value::List(_)) => true,
        _ => a.number().is_some() && b.number().is_some(),
    }
}

fn passes(op: OpKind, order: Ordering) -> bool
    ensures { result ≡ test_of op order }
{
    match op {
        OpKind::Lt => order.is_lt(),
        OpKind::Le => order.is_le(),
        OpKind::Gt => order.is_gt(),
        _ => order.is_ge(),
    }
}

/// `<` and its kin.
pub fn ordered(alloc: Global, op: OpKind, a: &Value, b: &Value) -> Result<Answer, OutOfMemory>
    ensures { IfOk result (λ answer. answer ≡ spec.ordered (λ f. f) (test_of op) a.now b.now) }
{
    if !have_order(a, b) {
        return Ok(Err(bad_operand(alloc)?));
    }
    match a.compared(b) {
        Some(order) => Ok(Ok(Value::Bool(passes(op, order)))),
        None => Ok(Err(bad_operand(alloc)?)),
    }
}
