//! What an expression gives a loop to go through.

ghost use Rattle.rd_interpreter.specs.Held.{all_held, iterated, iterated_value};
ghost use Rattle.rd_interpreter.specs.Turns.{TurnsAre};

use crate::halt::Halt;
use crate::held::{bad_operand, not_settled};
use crate::turns::Turns;
use crate::turns::source::Source;
use rd_base::Copies;
use rd_value::expr::Expr;
use rd_value::value::Value;
use std::alloc::Global;

/// The same of a value.
pub fn through_value(alloc: Global, value: &Value) -> Result<Turns, Halt>
    ensures { TurnsAre result (all_held (iterated_value value.now)) }
{
    match value {
        Value::List(values) => Ok(Turns::begun(Source::Values(values.copy(alloc)?))),
        Value::Dict(pairs) => Ok(Turns::begun(Source::Keys(pairs.copy(alloc)?))),
        Value::Text(text) => Ok(Turns::begun(Source::Characters(text.copy(alloc)?))),
        _ => Err(bad_operand(alloc)),
    }
}

/// The items of a list, the keys of a dict, the characters of a text.
pub fn through(alloc: Global, expr: &Expr) -> Result<Turns, Halt>
    ensures { TurnsAre result (iterated expr.now) }
{
    match expr {
        Expr::Val(value) => through_value(alloc, value),
        Expr::ListOf(exprs) => Ok(Turns::begun(Source::Exprs(exprs.copy(alloc)?))),
        Expr::DictOf(pairs) => Ok(Turns::begun(Source::ExprKeys(pairs.copy(alloc)?))),
        _ => Err(not_settled(alloc)),
    }
}
