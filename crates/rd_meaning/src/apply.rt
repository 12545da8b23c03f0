//! The operators.

ghost use Rattle.std.specs.Prelude.{◌≡◌, IfOk, []};
ghost use Rattle.rd_value.specs.Operators as spec;
ghost use Rattle.rd_value.specs.Operators.{applied};
ghost use Rattle.rd_meaning.specs.Step.{ComesTo, step_in};

use crate::divide::{quotient, remainder};
use crate::index::indexed;
use crate::number::{minus, negative};
use crate::order::ordered;
use crate::repeat::multiplied;
use crate::step::{StepError, stepped};
use rd_base::OutOfMemory;
use rd_value::error::bad_operand;
use rd_value::expr::OpKind;
use rd_value::value::{Answer, Value, Values};
use std::alloc::Global;

/// An operator of one value.
pub fn unary(alloc: Global, op: OpKind, a: &Value) -> Result<Answer, OutOfMemory>
    ensures { IfOk result (λ answer. answer ≡ spec.unary (λ f. f) op a.now) }
{
    match op {
        OpKind::Neg => negative(alloc, a.number()),
        _ => Ok(Err(bad_operand(alloc)?)),
    }
}

/// An operator between two values.
pub fn binary(alloc: Global, op: OpKind, a: &Value, b: &Value) -> Result<Answer, OutOfMemory>
    ensures { IfOk result (λ answer. answer ≡ spec.binary (λ f. f) op a.now b.now) }
{
    match op {
        OpKind::Add => a.plus(alloc, b),
        OpKind::Sub => minus(alloc, a.number(), b.number()),
        OpKind::Mul => multiplied(alloc, a, b),
        OpKind::FloorDiv => quotient(alloc, a.number(), b.number()),
        OpKind::Mod => remainder(alloc, a.number(), b.number()),
        OpKind::Neg => Ok(Err(bad_operand(alloc)?)),
        OpKind::Eq => Ok(Ok(Value::Bool(a.equal(b)))),
        OpKind::Ne => Ok(Ok(Value::Bool(!a.equal(b)))),
        OpKind::Lt => ordered(alloc, OpKind::Lt, a, b),
        OpKind::Le => ordered(alloc, OpKind::Le, a, b),
        OpKind::Gt => ordered(alloc, OpKind::Gt, a, b),
        OpKind::Ge => ordered(alloc, OpKind::Ge, a, b),
        OpKind::Index => indexed(alloc, a, b),
    }
}

/// The operator on its parts: one for `Neg`, two for every other.
pub fn apply_op(alloc: Global, op: OpKind, parts: &Values) -> Result<Value, StepError>
    ensures { ComesTo result (step_in [] (applied (λ f. f) op parts.now)) }
{
    let answer = match parts.as_slice() {
        [a] => unary(alloc, op, a)?,
        [a, b] => binary(alloc, op, a, b)?,
        _ => Err(bad_operand(alloc)?),
    };
    stepped(alloc, "", answer)
}
