//! The lists and dicts that displays show.

ghost use Rattle.std.specs.Prelude.{◌≤◌, ◌≡◌, [], IfOk};
ghost use Rattle.rd_value.specs.Expand.{listed};
ghost use Rattle.rd_value.specs.Make as make;
ghost use Rattle.rd_value.specs.Make.{dict_of, value_of};
ghost use Rattle.rd_interpreter.specs.Body as spec;
ghost use Rattle.rd_interpreter.specs.Display.{EntriesAre, IsKeyOf};
ghost use Rattle.rd_interpreter.specs.Running.{Answers, Gives, own, state};

use crate::frame::Frame;
use crate::halt::Halt;
use crate::held::{bad_operand, not_settled};
use crate::making::made;
use indexmap::IndexMap;
use rd_base::{Copies, Items, OutOfMemory};
use rd_value::expr::{Expr, ExprPairs, Exprs};
use rd_value::make::{pairs_of, values_of};
use rd_value::value::Value;
use std::alloc::Global;

/// The list of expressions, which is a value where all of them are.
pub fn listed(alloc: Global, items: Exprs) -> Result<Expr, OutOfMemory>
    ensures { IfOk result (λ e. e ≡ listed own items) }
{
    match values_of(alloc, items.as_slice())? {
        Some(values) => Ok(Expr::Val(Value::List(values))),
        None => Ok(Expr::ListOf(items)),
    }
}

/// The dict of expressions, which is a value where all of them are.
fn dict(alloc: Global, pairs: ExprPairs) -> Result<Expr, OutOfMemory>
    ensures { IfOk result (λ e. e ≡ dict_of pairs (make.pairs_of pairs)) }
{
    match pairs_of(alloc, pairs.as_slice())? {
        Some(values) => Ok(Expr::Val(Value::Dict(values))),
        None => Ok(Expr::DictOf(pairs)),
    }
}

/// The list that a display shows.
pub fn shown_list(alloc: Global, frame: &mut Frame, items: Exprs) -> Result<Expr, Halt>
    ensures gives { Gives result (state frame.new) (spec.shown_list own items (state frame.old)) }
    ensures left { frame.new.left ≤ frame.old.left }
{
    let list = listed(alloc, items)?;
    made(alloc, frame, list)
}

fn key(alloc: Global, expr: &Expr) -> Result<Value, Halt>
    ensures answer { Answers result (spec.key_held (value_of expr.now)) }
    ensures kind { IfOk result IsKeyOf }
{
    match expr {
        Expr::Val(Value::Int(n)) => Ok(Value::Int(*n)),
        Expr::Val(Value::Text(text)) => Ok(Value::Text(text.copy(alloc)?)),
        Expr::Val(_) => Err(bad_operand(alloc)),
        _ => Err(not_settled(alloc)),
    }
}

/// The pairs by their keys, in the order in which these came first.
fn by_key(alloc: Global, pairs: &[(Expr, Expr)]) -> Result<IndexMap<Value, Expr>, Halt>
    ensures { EntriesAre result (spec.with_pairs own pairs.now []) }
{
    let mut entries = IndexMap::new(alloc);
    for (shown, value) in pairs {
        let key = key(alloc, shown)?;
        entries.insert(key, value.copy(alloc)?)?;
    }
    Ok(entries)
}

fn in_order(alloc: Global, entries: IndexMap<Value, Expr>) -> Result<ExprPairs, OutOfMemory>
    ensures { IfOk result (λ pairs. pairs ≡ entries.entries) }
{
    Items::from_vec(alloc, entries.into_iter().collect(alloc)?)
}

/// The dict that a display shows.
pub fn shown_dict(alloc: Global, frame: &mut Frame, pairs: Vec<(Expr, Expr)>) -> Result<Expr, Halt>
    ensures gives { Gives result (state frame.new) (spec.shown_dict own pairs.items (state frame.old)) }
    ensures left { frame.new.left ≤ frame.old.left }
{
    let entries = by_key(alloc, pairs.as_slice())?;
    let pairs = in_order(alloc, entries)?;
    let dict = dict(alloc, pairs)?;
    made(alloc, frame, dict)
}
