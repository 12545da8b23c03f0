//! Lists and dicts within the limits.

ghost use Rattle.std.specs.Prelude.{◌≡◌, IfOk, map};
ghost use Rattle.std.specs.List.{IsDistinct, list_all};
ghost use Rattle.rd_value.specs.declared.value.Datum.TheVariants as value;
ghost use Rattle.rd_value.specs.Make as spec;

use crate::expr::{Expr, ExprPairs, Exprs};
use crate::value::{Pairs, Value, Values};
use rd_base::{Copies, OutOfMemory};
use std::alloc::Global;

/// Why a value or an expression wasn't made.
#[derive(Clone, Copy, Debug, PartialEq, Eq)]
pub enum MakeError {
    /// It would have more than 1,048,576 canonical bytes, or more than 64 levels.
    LimitError,
    OutOfMemory,
}

impl From<OutOfMemory> for MakeError {
    ghost use Rattle.std.specs.Prelude.{◌≡◌};
    ghost use Rattle.rd_value.specs.declared.make.MakeError.TheVariants.{OutOfMemory};

    ghost from_gives = { λ _ e. e ≡ OutOfMemory };

    fn from(_error: OutOfMemory) -> MakeError {
        MakeError::OutOfMemory
    }
}

/// The values of expressions, if all are values.
pub fn values_of(alloc: Global, parts: &[Expr]) -> Result<Option<Values>, OutOfMemory>
    ensures { IfOk result (λ o. o ≡ spec.values_of parts.now) }
{
    let mut values = Values::new(alloc);
    for part in parts {
        match part {
            Expr::Val(value) => values.push(alloc, value.copy(alloc)?)?,
            _ => return Ok(None),
        }
    }
    Ok(Some(values))
}

/// The pairs with the values of their expressions, if all are values.
pub fn pairs_of(alloc: Global, parts: &[(Value, Expr)]) -> Result<Option<Pairs>, OutOfMemory>
    ensures { IfOk result (λ o. o ≡ spec.pairs_of parts.now) }
{
    let mut pairs = Pairs::new(alloc);
    for (key, part) in parts {
        match part {
            Expr::Val(value) => pairs.push(alloc, (key.copy(alloc)?, value.copy(alloc)?))?,
            _ => return Ok(None),
        }
    }
    Ok(Some(pairs))
}

impl Value {
    fn made(self) -> Result<Value, MakeError>
        ensures { result ≡ spec.made (λ f. f) self }
    {
        if self.within() {
            Ok(self)
        } else {
            Err(MakeError::LimitError)
        }
    }

    /// A list of values. It takes no memory.
    pub fn list(_alloc: Global, items: Values) -> Result<Value, MakeError>
        ensures { result ≡ spec.made (λ f. f) (value.List items) }
    {
        Value::List(items).made()
    }

    /// A dict of keys and values in the order of insertion. It takes no memory.
    pub fn dict(_alloc: Global, pairs: Pairs) -> Result<Value, MakeError>
        requires { spec.IsDict (λ f. f) pairs }
        ensures { result ≡ spec.made (λ f. f) (value.Dict pairs) }
    {
        Value::Dict(pairs).made()
    }
}

impl Expr {
    fn made(self) -> Result<Expr, MakeError>
        ensures { result ≡ spec.made_expr (λ f. f) self }
    {
        if self.within() {
            Ok(self)
        } else {
            Err(MakeError::LimitError)
        }
    }

    /// A list of expressions, which is a value where all of them are.
    pub fn list(alloc: Global, parts: Exprs) -> Result<Expr, MakeError>
        ensures { spec.OrMemory result (spec.made_expr (λ f. f) (spec.list_of parts (spec.values_of parts))) }
    {
        match values_of(alloc, parts.as_slice())? {
            Some(values) => Expr::Val(Value::List(values)).made(),
            None => Expr::ListOf(parts).made(),
        }
    }

    /// A dict of expressions, which is a value where all of them are.
    pub fn dict(alloc: Global, parts: ExprPairs) -> Result<Expr, MakeError>
        requires { spec.IsDict (λ f. f) parts }
        ensures { spec.OrMemory result (spec.made_expr (λ f. f) (spec.dict_of parts (spec.pairs_of parts))) }
    {
        match pairs_of(alloc, parts.as_slice())? {
            Some(pairs) => Expr::Val(Value::Dict(pairs)).made(),
            None => Expr::DictOf(parts).made(),
        }
    }
}
