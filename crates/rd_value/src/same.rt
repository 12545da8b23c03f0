//! `==` compares all parts: two values or expressions are equal exactly where they are one and the same.

ghost use Rattle.std.specs.Prelude.{◌≡◌, true};
ghost use Rattle.std.specs.Bool.{Decides};

use crate::class::Class;
use crate::expr::{Expr, Lazy, OpKind};
use crate::failure::{Failure, Outcome};
use crate::signature::{Parameter, Signature};
use crate::value::{Datum, ErrorValue, FileValue, Value};

/// `==` of each type decides equality.
#[tactic(auto, using(crate::proofs::Deciding::decisions))]
pub fn equality_decides()
    ensures class { (a b : Class) → Decides (⟦<Class as PartialEq>⟧.eq a b) (a ≡ b) }
    ensures op { (a b : OpKind) → Decides (⟦<OpKind as PartialEq>⟧.eq a b) (a ≡ b) }
    ensures file { (a b : FileValue) → Decides (⟦<FileValue as PartialEq>⟧.eq a b) (a ≡ b) }
    ensures error { (a b : ErrorValue) → Decides (⟦<ErrorValue as PartialEq>⟧.eq a b) (a ≡ b) }
    ensures value { (a b : Datum FileValue) → Decides (⟦<Datum<FileValue> as PartialEq>⟧.eq a b) (a ≡ b) }
    ensures expr { (a b : Lazy FileValue) → Decides (⟦<Lazy<FileValue> as PartialEq>⟧.eq a b) (a ≡ b) }
    ensures failure { (a b : Failure) → Decides (⟦<Failure as PartialEq>⟧.eq a b) (a ≡ b) }
    ensures outcome { (a b : Outcome) → Decides (⟦<Outcome as PartialEq>⟧.eq a b) (a ≡ b) }
    ensures parameter { (a b : Parameter) → Decides (⟦<Parameter as PartialEq>⟧.eq a b) (a ≡ b) }
    ensures signature { (a b : Signature) → Decides (⟦<Signature as PartialEq>⟧.eq a b) (a ≡ b) }
{}

/// Whether two values are one and the same.
pub fn same_value(value: &Value, other: &Value) -> bool
    ensures { Decides result (value.now ≡ other.now) }
{
    *value == *other
}

/// Whether two expressions are one and the same.
pub fn same_expr(expr: &Expr, other: &Expr) -> bool
    ensures { Decides result (expr.now ≡ other.now) }
{
    *expr == *other
}

/// Whether two outcomes are one and the same.
pub fn same_outcome(outcome: &Outcome, other: &Outcome) -> bool
    ensures { Decides result (outcome.now ≡ other.now) }
{
    *outcome == *other
}

/// Whether two signatures are one and the same.
pub fn same_signature(signature: &Signature, other: &Signature) -> bool
    ensures { Decides result (signature.now ≡ other.now) }
{
    *signature == *other
}
