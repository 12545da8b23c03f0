//! The limits of values and expressions.

ghost use Rattle.std.specs.Prelude.{◌≡◌, IfOk};
ghost use Rattle.rd_value.specs.Expand as expand;
ghost use Rattle.rd_value.specs.Limits.{is_within, is_within_expr, are_within};
ghost use Rattle.rd_value.specs.Operators as operators;

use crate::depth::items_depth;
use crate::error::value_limit;
use crate::expr::Expr;
use crate::size::items_size;
use crate::value::{Answer, ErrorValue, Value};
use rd_base::OutOfMemory;
use std::alloc::Global;

/// The most canonical bytes of a value or an expression.
pub const MAX_SIZE: u32 = 1_048_576;

/// The greatest depth of a value or an expression.
pub const MAX_DEPTH: u8 = 64;

impl Value {
    pub fn within(&self) -> bool
        ensures { result ≡ is_within (λ f. f) self.now }
    {
        self.size() <= MAX_SIZE && self.depth() <= MAX_DEPTH
    }
}

impl Expr {
    pub fn within(&self) -> bool
        ensures { result ≡ is_within_expr (λ f. f) self.now }
    {
        self.size() <= MAX_SIZE && self.depth() <= MAX_DEPTH
    }
}

/// Whether the list of these values is within the limits.
pub fn are_within(values: &[Value]) -> bool
    ensures { result ≡ are_within (λ f. f) values.now }
{
    items_size(values).saturating_add(5) <= MAX_SIZE
        && items_depth(values).saturating_add(1) <= MAX_DEPTH
}

/// The value, where it is within the limits.
pub fn kept(alloc: Global, value: Value) -> Result<Answer, OutOfMemory>
    ensures { IfOk result (λ answer. answer ≡ operators.kept (λ f. f) value) }
{
    if value.within() {
        Ok(Ok(value))
    } else {
        Ok(Err(value_limit(alloc)?))
    }
}

/// The expression, where it is within the limits.
pub fn kept_expr(alloc: Global, expr: Expr) -> Result<Result<Expr, ErrorValue>, OutOfMemory>
    ensures { IfOk result (λ answer. answer ≡ expand.kept_expr (λ f. f) expr) }
{
    if expr.within() {
        Ok(Ok(expr))
    } else {
        Ok(Err(value_limit(alloc)?))
    }
}
