//! Values, expressions and outcomes go to other threads, and may be shared between them.

use crate::expr::Expr;
use crate::failure::Outcome;
use crate::signature::Signature;
use crate::value::Value;

fn wants_crossing<T: Send + Sync>(_value: &T) {}

pub fn value_crosses(value: &Value) {
    wants_crossing(value);
}

pub fn expr_crosses(expr: &Expr) {
    wants_crossing(expr);
}

pub fn outcome_crosses(outcome: &Outcome) {
    wants_crossing(outcome);
}

pub fn signature_crosses(signature: &Signature) {
    wants_crossing(signature);
}
