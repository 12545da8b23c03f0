//! The operators of a body, also on what isn't settled.

ghost use Rattle.std.specs.Prelude.{◌≡◌, ◌≤◌, ◌<◌, ◌∷◌, ◌++◌, [], map, length, is_some, Some, IfOk, IfSome, IfNone, OnOk};
ghost use Rattle.rd_value.specs.declared.value.Datum.{out-Datum};
ghost use Rattle.rd_value.specs.declared.value.FileValue.{FileValue};
ghost use Rattle.std.specs.List.{repeat};
ghost use Rattle.std.specs.Option.{option_copied, option_map};
ghost use Rattle.rd_value.specs.declared.expr.Lazy.{out-Lazy};
ghost use Rattle.rd_value.specs.declared.expr.Lazy.TheVariants as lazy;
ghost use Rattle.rd_value.specs.Limits.{max_size};
ghost use Rattle.rd_value.specs.Make.{value_of};
ghost use Rattle.rd_interpreter.specs.Held.{items_of};
ghost use Rattle.rd_value.specs.Operators.{bad_operand, times};
ghost use Rattle.rd_interpreter.specs.Operations as spec;
ghost use Rattle.rd_interpreter.specs.Running.{Answers, Gives, items_or_none, Raises, own, state};

use crate::display::listed;
use crate::frame::Frame;
use crate::halt::{Halt, raise};
use crate::held::not_settled;
use crate::making::{made, measured, taken_answer, value_limit, worked_answer};
use crate::texts::occurs;
use rd_base::{Copies, OutOfMemory};
use rd_meaning::index::place;
use rd_meaning::{binary, unary};
use rd_tree::{Comparison, Operator};
use rd_value::class::Class;
use rd_value::expr::{Expr, Exprs, OpKind};
use rd_value::limits::MAX_SIZE;
use rd_value::raise::raised;
use rd_value::value::Value;
use std::alloc::Global;

/// The operator of an expression for one of a body.
pub fn kind_of(operator: Operator) -> OpKind
    ensures { result ≡ spec.kind_of operator }
{
    match operator {
        Operator::Add => OpKind::Add,
        Operator::Sub => OpKind::Sub,
        Operator::Mul => OpKind::Mul,
        Operator::FloorDiv => OpKind::FloorDiv,
        Operator::Mod => OpKind::Mod,
    }
}

/// The value, where it is settled.
fn value(expr: &Expr) -> Option<&Value>
    ensures { option_copied result ≡ value_of expr.now }
{
    match expr {
        Expr::Val(value) => Some(value),
        _ => None,
    }
}

/// The expression of an operator between two sides.
fn operation(alloc: Global, frame: &Frame, kind: OpKind, a: &Expr, b: &Expr) -> Result<Expr, Halt>
    ensures { Gives result (state frame.now) (spec.operation own kind (a.now ∷ b.now ∷ []) (state frame.now)) }
{
    let mut parts = Exprs::new(alloc);
    parts.push(alloc, a.copy(alloc)?)?;
    parts.push(alloc, b.copy(alloc)?)?;
    measured(alloc, frame, Expr::Op { op: kind, parts })
}

fn bad_operand(alloc: Global) -> Halt
    ensures { Raises result bad_operand }
{
    raise(alloc, Class::TypeError, "bad operand")
}

/// An operator between two values. An index makes nothing.
fn on_values(
    alloc: Global,
    frame: &mut Frame,
    kind: OpKind,
    a: &Value,
    b: &Value,
) -> Result<Expr, Halt>
    ensures gives { Gives result (state frame.new) (spec.on_values own kind a.now b.now (state frame.old)) }
    ensures left { frame.new.left ≤ frame.old.left }
{
    let answer = binary(alloc, kind, a, b)?;
    match kind {
        OpKind::Index => taken_answer(frame, answer),
        _ => worked_answer(alloc, frame, answer),
    }
}

/// An item of a list with parts that aren't settled.
fn item(alloc: Global, items: &[Expr], index: &Value) -> Result<Expr, Halt>
    ensures { Answers result (spec.item_under items.now (spec.number_of index.now)) }
{
    let Some(index) = index.number() else {
        return Err(bad_operand(alloc));
    };
    match items.get(place(index, items.len())) {
        Some(item) => Ok(item.copy(alloc)?),
        None => Err(raise(alloc, Class::IndexError, "index out of range")),
    }
}

/// The value under a key.
fn held_under(alloc: Global, pairs: &[(Value, Expr)], key: &Value) -> Result<Expr, Halt>
    ensures { Answers result (spec.held_under own key.now pairs.now) }
{
    for (other, item) in pairs {
        if other.equal(key) {
            return Ok(item.copy(alloc)?);
        }
    }
    let text = key.repr(alloc)?;
    Err(Halt::from(raised(alloc, Class::KeyError, text.as_str())?))
}

fn under_key(alloc: Global, pairs: &[(Value, Expr)], key: &Value) -> Result<Expr, Halt>
    ensures { Answers result (spec.under_key own pairs.now (out-Datum FileValue key.now)) }
{
    match key {
        Value::Int(_) | Value::Text(_) => held_under(alloc, pairs, key),
        _ => Err(bad_operand(alloc)),
    }
}

/// An index of what isn't settled, or by what isn't settled.
fn unsettled_index(alloc: Global, frame: &Frame, a: &Expr, b: &Expr) -> Result<Expr, Halt>
    ensures { Gives result (state frame.now) (spec.unsettled_index own (value_of b.now) a.now b.now (state frame.now)) }
{
    match b {
        Expr::Val(index) => match a {
            Expr::ListOf(items) => item(alloc, items.as_slice(), index),
            Expr::DictOf(pairs) => under_key(alloc, pairs.as_slice(), index),
            _ => operation(alloc, frame, OpKind::Index, a, b),
        },
        _ => operation(alloc, frame, OpKind::Index, a, b),
    }
}

/// Whether an expression is a list.
fn is_list(expr: &Expr) -> bool
    ensures { result ≡ is_some (items_of expr.now) }
{
    matches!(expr, Expr::ListOf(_) | Expr::Val(Value::List(_)))
}

/// Puts the items of a list behind others.
fn append(alloc: Global, all: &mut Exprs, list: &Expr) -> Result<(), OutOfMemory>
    ensures { OnOk result (all.new ≡ all.old ++ items_or_none (items_of list.now)) }
{
    match list {
        Expr::ListOf(items) => append_exprs(alloc, all, items.as_slice()),
        Expr::Val(Value::List(items)) => append_values(alloc, all, items.as_slice()),
        _ => Ok(()),
    }
}

fn append_exprs(alloc: Global, all: &mut Exprs, items: &[Expr]) -> Result<(), OutOfMemory>
    ensures { OnOk result (all.new ≡ all.old ++ items.now) }
{
    for item in items {
        all.push(alloc, item.copy(alloc)?)?;
    }
    Ok(())
}

pub fn append_values(alloc: Global, all: &mut Exprs, items: &[Value]) -> Result<(), OutOfMemory>
    ensures { OnOk result (all.new ≡ all.old ++ map lazy.Val items.now) }
{
    for item in items {
        all.push(alloc, Expr::Val(item.copy(alloc)?))?;
    }
    Ok(())
}

/// `+` where a side isn't settled.
fn unsettled_plus(alloc: Global, frame: &mut Frame, a: &Expr, b: &Expr) -> Result<Expr, Halt>
    ensures gives { Gives result (state frame.new) (spec.unsettled_plus own (items_of a.now) (items_of b.now) a.now b.now (state frame.old)) }
    ensures left { frame.new.left ≤ frame.old.left }
{
    if !is_list(a) {
        return operation(alloc, frame, OpKind::Add, a, b);
    }
    if !is_list(b) {
        return operation(alloc, frame, OpKind::Add, a, b);
    }
    let mut all = Exprs::new(alloc);
    append(alloc, &mut all, a)?;
    append(alloc, &mut all, b)?;
    let list = listed(alloc, all)?;
    made(alloc, frame, list)
}

/// Some item is equal.
fn has_item(items: &[Value], value: &Value) -> bool
    ensures { result ≡ spec.has_item own value.now items.now }
{
    items.iter().any(|item| item.equal(value))
}

/// Some key is equal.
fn has_key(pairs: &[(Value, Value)], key: &Value) -> bool
    ensures { result ≡ spec.has_key own key.now pairs.now }
{
    pairs.iter().any(|pair| pair.0.equal(key))
}

fn key_in(alloc: Global, pairs: &[(Value, Value)], key: &Value) -> Result<bool, Halt>
    ensures { Answers result (spec.key_in own (out-Datum FileValue key.now) pairs.now) }
{
    match key {
        Value::Int(_) | Value::Text(_) => Ok(has_key(pairs, key)),
        _ => Err(bad_operand(alloc)),
    }
}

/// A value that is in another.
fn contained(alloc: Global, value: &Value, other: &Value) -> Result<bool, Halt>
    ensures { Answers result (spec.contained own value.now other.now) }
{
    match (value, other) {
        (Value::Text(part), Value::Text(text)) => Ok(occurs(part.as_str(), text.as_str())),
        (_, Value::List(items)) => Ok(has_item(items.as_slice(), value)),
        (_, Value::Dict(pairs)) => key_in(alloc, pairs.as_slice(), value),
        _ => Err(bad_operand(alloc)),
    }
}

/// A settled value that is in a settled one.
fn membership(alloc: Global, a: &Expr, b: &Expr) -> Result<bool, Halt>
    ensures { Answers result (spec.membership own (value_of a.now) (value_of b.now)) }
{
    match (a, b) {
        (Expr::Val(value), Expr::Val(other)) => contained(alloc, value, other),
        _ => Err(not_settled(alloc)),
    }
}

/// An operator of which a side isn't settled.
fn unsettled(
    alloc: Global,
    frame: &mut Frame,
    kind: OpKind,
    a: &Expr,
    b: &Expr,
) -> Result<Expr, Halt>
    ensures gives { Gives result (state frame.new) (spec.unsettled own kind a.now b.now (state frame.old)) }
    ensures left { frame.new.left ≤ frame.old.left }
{
    match kind {
        OpKind::Add => unsettled_plus(alloc, frame, a, b),
        OpKind::Mul => unsettled_times(alloc, frame, a, b),
        OpKind::Index => unsettled_index(alloc, frame, a, b),
        _ => operation(alloc, frame, kind, a, b),
    }
}

/// An operator between two sides.
pub fn operate(
    alloc: Global,
    frame: &mut Frame,
    kind: OpKind,
    a: &Expr,
    b: &Expr,
) -> Result<Expr, Halt>
    ensures gives { Gives result (state frame.new) (spec.operate own kind a.now b.now (state frame.old)) }
    ensures left { frame.new.left ≤ frame.old.left }
{
    match value(a) {
        Some(v) => match value(b) {
            Some(w) => on_values(alloc, frame, kind, v, w),
            None => unsettled(alloc, frame, kind, a, b),
        },
        None => unsettled(alloc, frame, kind, a, b),
    }
}

/// Unary minus.
pub fn negative(alloc: Global, frame: &mut Frame, a: &Expr) -> Result<Expr, Halt>
    ensures gives { Gives result (state frame.new) (spec.negative own a.now (state frame.old)) }
    ensures left { frame.new.left ≤ frame.old.left }
{
    match a {
        Expr::Val(value) => {
            let answer = unary(alloc, OpKind::Neg, value)?;
            worked_answer(alloc, frame, answer)
        }
        _ => {
            let mut parts = Exprs::new(alloc);
            parts.push(alloc, a.copy(alloc)?)?;
            measured(
                alloc,
                frame,
                Expr::Op {
                    op: OpKind::Neg,
                    parts,
                },
            )
        }
    }
}

/// A comparison.
pub fn compare(
    alloc: Global,
    frame: &mut Frame,
    comparison: Comparison,
    a: &Expr,
    b: &Expr,
) -> Result<Expr, Halt>
    ensures gives { Gives result (state frame.new) (spec.compare own comparison a.now b.now (state frame.old)) }
    ensures left { frame.new.left ≤ frame.old.left }
{
    match comparison {
        Comparison::Eq => operate(alloc, frame, OpKind::Eq, a, b),
        Comparison::Ne => operate(alloc, frame, OpKind::Ne, a, b),
        Comparison::Lt => operate(alloc, frame, OpKind::Lt, a, b),
        Comparison::Le => operate(alloc, frame, OpKind::Le, a, b),
        Comparison::Gt => operate(alloc, frame, OpKind::Gt, a, b),
        Comparison::Ge => operate(alloc, frame, OpKind::Ge, a, b),
        Comparison::In => {
            let holds = membership(alloc, a, b)?;
            Ok(Expr::Val(Value::Bool(holds)))
        }
        Comparison::NotIn => {
            let holds = membership(alloc, a, b)?;
            Ok(Expr::Val(Value::Bool(!holds)))
        }
    }
}

/// The list with parts that aren't settled and the number of which `*` is, in either order.
fn repetition<'a>(a: &'a Expr, b: &'a Expr) -> Option<(&'a [Expr], i64)>
    ensures { option_map (λ p. (p.0.now, p.1)) result ≡ spec.repetition (value_of a.now) (value_of b.now) (out-Lazy FileValue a.now) (out-Lazy FileValue b.now) }
{
    match (a, b) {
        (Expr::ListOf(items), Expr::Val(count)) | (Expr::Val(count), Expr::ListOf(items)) => {
            Some((items.as_slice(), count.number()?))
        }
        _ => None,
    }
}

/// A list with parts that aren't settled so many times.
fn list_times(alloc: Global, frame: &mut Frame, items: &[Expr], count: i64) -> Result<Expr, Halt>
    ensures gives { Gives result (state frame.new) (spec.repeated own items.now count (state frame.old)) }
    ensures left { frame.new.left ≤ frame.old.left }
{
    match repeated(alloc, items, times(count))? {
        Some(all) => {
            let list = listed(alloc, all)?;
            made(alloc, frame, list)
        }
        None => Err(value_limit(alloc)),
    }
}

/// How often something is repeated. A count below 0 is 0.
fn times(count: i64) -> usize
    ensures { result ≡ times count }
{
    usize::try_from(count).unwrap_or(0)
}

/// `*` where a side isn't settled.
fn unsettled_times(alloc: Global, frame: &mut Frame, a: &Expr, b: &Expr) -> Result<Expr, Halt>
    ensures gives { Gives result (state frame.new) (spec.unsettled_times own a.now b.now (state frame.old)) }
    ensures left { frame.new.left ≤ frame.old.left }
{
    match repetition(a, b) {
        Some((items, count)) => list_times(alloc, frame, items, count),
        None => operation(alloc, frame, OpKind::Mul, a, b),
    }
}

/// The items so many times, unless they are more than any list within the limits has.
fn repeated(alloc: Global, items: &[Expr], times: usize) -> Result<Option<Exprs>, OutOfMemory>
    ensures fits { IfOk result (λ o. IfSome o (λ all. all ≡ repeat times items.now)) }
    ensures many { IfOk result (λ o. IfNone o (max_size < length (repeat times items.now))) }
{
    if items.is_empty() {
        return Ok(Some(Exprs::new(alloc)));
    }
    if items.len().saturating_mul(times) > MAX_SIZE as usize {
        return Ok(None);
    }
    let mut all = Exprs::new(alloc);
    for _ in 0..times {
        append_exprs(alloc, &mut all, items)?;
    }
    Ok(Some(all))
}
