//! Expressions from their canonical bytes. `levels` is how many levels may still be open.

ghost use Rattle.std.specs.Prelude.{◌≡◌, ◌<◌, ◌++◌, ◌∷◌, [], true, IfOk};
ghost use Rattle.std.specs.List.{list_all};
ghost use Rattle.rd_bencode.specs.Exprs as spec;
ghost use Rattle.rd_bencode.specs.Reader.{Gives, mean, place, read_many};
ghost use Rattle.rd_bencode.specs.Proper.{IsProperExpr};
ghost use Rattle.rd_bencode.specs.Values.{read_pair, read_pairs};
ghost use Rattle.rd_bencode.specs.Whole.{Tells, expr_of, IsOrMemory, IfRefused, StopsAt};
ghost use Rattle.rd_value.specs.Canon.{canon_expr};
ghost use Rattle.rd_value.specs.Limits.{is_within_expr};

use crate::read::error::ReadError;
use crate::read::item::{begins_item, close, letter, open, string};
use crate::read::meaning::{class_of, path_of, text};
use crate::read::spot::{Halt, Read, Spot};
use crate::read::value::{Keys, key, value};
use crate::read::whole::{begin, refusal};
use indexmap::IndexSet;
use rd_base::{Boxed, Items, Text};
use rd_value::expr::{Expr, OpKind};
use rd_value::limits::{MAX_DEPTH, MAX_SIZE};
use rd_value::value::Value;
use std::alloc::Global;

/// The one of these operators that has this text.
fn op_among(operators: &[OpKind], bytes: &[u8]) -> Option<OpKind>
    ensures { result ≡ spec.op_in operators.now bytes.now }
{
    for op in operators {
        if bytes == op.text().as_bytes() {
            return Some(*op);
        }
    }
    None
}

#[tactic(auto, unfolding(crate::specs::Exprs::op_of))]
fn op_in(bytes: &[u8]) -> Option<OpKind>
    ensures { result ≡ spec.op_of bytes.now }
{
    let operators = [
        OpKind::Add,
        OpKind::Sub,
        OpKind::Mul,
        OpKind::FloorDiv,
        OpKind::Mod,
        OpKind::Neg,
        OpKind::Eq,
        OpKind::Ne,
        OpKind::Lt,
        OpKind::Le,
        OpKind::Gt,
        OpKind::Ge,
        OpKind::Index,
    ];
    op_among(&operators, bytes)
}

/// The operator of a byte string.
fn op_of<'a>(bytes: &[u8], spot: Spot<'a>) -> Read<'a, OpKind>
    ensures { Gives (λ x. (x.0, place x.1)) result (mean (spec.op_of bytes.now) (place spot.entry)) }
{
    match op_in(bytes) {
        Some(op) => Ok((op, spot)),
        None => Err(Halt::Refused(spot.last)),
    }
}

fn is_val(expr: &Expr) -> bool
    ensures { result ≡ spec.is_val expr.now }
{
    matches!(expr, Expr::Val(_))
}

fn are_vals(parts: &[Expr]) -> bool
    ensures { result ≡ list_all spec.is_val parts.now }
{
    parts.iter().all(|part| is_val(part))
}

fn are_val_pairs(pairs: &[(Value, Expr)]) -> bool
    ensures { result ≡ list_all (λ p. spec.is_val p.1) pairs.now }
{
    pairs.iter().all(|pair| is_val(&pair.1))
}

/// Whether an expression is no list or dict of values alone.
fn is_lazy(expr: &Expr) -> bool
    ensures { result ≡ spec.is_lazy expr.now }
{
    match expr {
        Expr::ListOf(parts) => !are_vals(parts.as_slice()),
        Expr::DictOf(pairs) => !are_val_pairs(pairs.as_slice()),
        _ => true,
    }
}

#[tactic(auto, unfolding(crate::specs::Exprs::read_input))]
fn input<'a>(alloc: Global, spot: Spot<'a>) -> Read<'a, Expr>
    ensures { Gives (λ x. (x.0, place x.1)) result (spec.read_input (place spot.entry)) }
{
    let (bytes, spot) = string(spot)?;
    let (path, spot) = path_of(alloc, bytes, spot)?;
    Ok((Expr::Input(path), spot))
}

/// An expression.
#[cycle(expr)]
#[tactic(auto, unfolding(crate::specs::Exprs::read_expr))]
pub(crate) fn expr<'a>(alloc: Global, levels: usize, spot: Spot<'a>) -> Read<'a, Expr>
    ensures { Gives (λ x. (x.0, place x.1)) result (spec.read_expr levels (place spot.entry)) }
{
    if levels == 0 {
        return Err(Halt::Refused(spot.rest));
    }
    any(alloc, levels - 1, spot)
}

#[cycle(expr)]
#[tactic(auto, unfolding(crate::specs::Exprs::read_any_expr))]
fn any<'a>(alloc: Global, levels: usize, spot: Spot<'a>) -> Read<'a, Expr>
    requires { levels < usize.MAX }
    ensures { Gives (λ x. (x.0, place x.1)) result (spec.read_any_expr levels (spec.read_expr levels) (place spot.entry)) }
{
    let spot = open(spot)?;
    let (letter, spot) = letter(spot)?;
    let (expr, spot) = kind(alloc, levels, letter, spot)?;
    let spot = close(spot)?;
    if !is_lazy(&expr) {
        return Err(Halt::Refused(spot.last));
    }
    Ok((expr, spot))
}

/// What stands behind the letter of a kind of expressions.
#[cycle(expr)]
#[tactic(auto, unfolding(crate::specs::Exprs::read_expr_kind))]
fn kind<'a>(alloc: Global, levels: usize, letter: u8, spot: Spot<'a>) -> Read<'a, Expr>
    requires { levels < usize.MAX }
    ensures { Gives (λ x. (x.0, place x.1)) result (spec.read_expr_kind levels (spec.read_expr levels) letter (place spot.entry)) }
{
    match letter {
        b'v' => val(alloc, levels, spot),
        b'c' => call(alloc, levels, spot),
        b'i' => input(alloc, spot),
        b'o' => op(alloc, levels, spot),
        b'l' => list_of(alloc, levels, spot),
        b'd' => dict_of(alloc, levels, spot),
        b'n' => cond(alloc, levels, spot),
        b'm' => map(alloc, levels, spot),
        b't' => catch(alloc, levels, spot),
        _ => Err(Halt::Refused(spot.last)),
    }
}

/// A value, which stands on the level of its expression.
#[tactic(auto, unfolding(crate::specs::Exprs::read_val))]
fn val<'a>(alloc: Global, levels: usize, spot: Spot<'a>) -> Read<'a, Expr>
    requires { levels < usize.MAX }
    ensures { Gives (λ x. (x.0, place x.1)) result (spec.read_val levels (spec.read_expr levels) (place spot.entry)) }
{
    let (value, spot) = value(alloc, levels + 1, spot)?;
    Ok((Expr::Val(value), spot))
}

#[cycle(expr)]
#[tactic(auto, unfolding(crate::specs::Exprs::read_call))]
fn call<'a>(alloc: Global, levels: usize, spot: Spot<'a>) -> Read<'a, Expr>
    ensures { Gives (λ x. (x.0, place x.1)) result (spec.read_call levels (spec.read_expr levels) (place spot.entry)) }
{
    let (task, spot) = text(alloc, spot)?;
    let spot = open(spot)?;
    let (positional, spot) = exprs(alloc, levels, spot)?;
    let spot = close(spot)?;
    let spot = open(spot)?;
    let (keywords, spot) = names(alloc, levels, spot)?;
    let spot = close(spot)?;
    let positional = Items::from_vec(alloc, positional)?;
    let keywords = Items::from_vec(alloc, keywords)?;
    Ok((
        Expr::Call {
            task,
            positional,
            keywords,
        },
        spot,
    ))
}

/// Expressions, as many as there are. Each has a byte at least.
#[cycle(expr)]
fn exprs<'a>(alloc: Global, levels: usize, spot: Spot<'a>) -> Read<'a, Vec<Expr>>
    ensures { Gives (λ x. (x.0.items, place x.1)) result (read_many (spec.read_expr levels) (place spot.entry)) }
{
    let mut all = Vec::new(alloc);
    let mut here = spot;
    for _ in 0..spot.rest.len() {
        if !begins_item(here.rest) {
            return Ok((all, here));
        }
        let (item, next) = expr(alloc, levels, here)?;
        all.push(item)?;
        here = next;
    }
    Ok((all, here))
}

/// Names with their expressions, as many as there are.
#[cycle(expr)]
fn names<'a>(alloc: Global, levels: usize, spot: Spot<'a>) -> Read<'a, Vec<(Text, Expr)>>
    ensures { Gives (λ x. (x.0.items, place x.1)) result (read_many (spec.read_named levels (spec.read_expr levels)) (place spot.entry)) }
{
    let mut all = Vec::new(alloc);
    let mut here = spot;
    for _ in 0..spot.rest.len() {
        if !begins_item(here.rest) {
            return Ok((all, here));
        }
        let (item, next) = named(alloc, levels, here)?;
        all.push(item)?;
        here = next;
    }
    Ok((all, here))
}

#[cycle(expr)]
#[tactic(auto, unfolding(crate::specs::Exprs::read_named))]
fn named<'a>(alloc: Global, levels: usize, spot: Spot<'a>) -> Read<'a, (Text, Expr)>
    ensures { Gives (λ x. (x.0, place x.1)) result (spec.read_named levels (spec.read_expr levels) (place spot.entry)) }
{
    let (name, spot) = text(alloc, spot)?;
    let (part, spot) = expr(alloc, levels, spot)?;
    Ok(((name, part), spot))
}

#[cycle(expr)]
#[tactic(auto, unfolding(crate::specs::Exprs::read_op))]
fn op<'a>(alloc: Global, levels: usize, spot: Spot<'a>) -> Read<'a, Expr>
    ensures { Gives (λ x. (x.0, place x.1)) result (spec.read_op levels (spec.read_expr levels) (place spot.entry)) }
{
    let (bytes, spot) = string(spot)?;
    let (op, spot) = op_of(bytes, spot)?;
    let (parts, spot) = op_parts(alloc, levels, op, spot)?;
    let parts = Items::from_vec(alloc, parts)?;
    Ok((Expr::Op { op, parts }, spot))
}

/// The parts of an operation: one of `neg`, and two of every other.
#[cycle(expr)]
fn op_parts<'a>(alloc: Global, levels: usize, op: OpKind, spot: Spot<'a>) -> Read<'a, Vec<Expr>>
    ensures { Gives (λ x. (x.0.items, place x.1)) result (spec.read_parts levels (spec.read_expr levels) op (place spot.entry)) }
{
    match op {
        OpKind::Neg => one(alloc, levels, spot),
        _ => two(alloc, levels, spot),
    }
}

#[cycle(expr)]
#[tactic(auto, unfolding(crate::specs::Exprs::read_one))]
fn one<'a>(alloc: Global, levels: usize, spot: Spot<'a>) -> Read<'a, Vec<Expr>>
    ensures { Gives (λ x. (x.0.items, place x.1)) result (spec.read_one levels (spec.read_expr levels) (place spot.entry)) }
{
    let (part, spot) = expr(alloc, levels, spot)?;
    let mut parts = Vec::new(alloc);
    parts.push(part)?;
    Ok((parts, spot))
}

#[cycle(expr)]
#[tactic(auto, unfolding(crate::specs::Exprs::read_two))]
fn two<'a>(alloc: Global, levels: usize, spot: Spot<'a>) -> Read<'a, Vec<Expr>>
    ensures { Gives (λ x. (x.0.items, place x.1)) result (spec.read_two levels (spec.read_expr levels) (place spot.entry)) }
{
    let (left, spot) = expr(alloc, levels, spot)?;
    let (right, spot) = expr(alloc, levels, spot)?;
    let mut parts = Vec::new(alloc);
    parts.push(left)?;
    parts.push(right)?;
    Ok((parts, spot))
}

#[cycle(expr)]
#[tactic(auto, unfolding(crate::specs::Exprs::read_list_of))]
fn list_of<'a>(alloc: Global, levels: usize, spot: Spot<'a>) -> Read<'a, Expr>
    ensures { Gives (λ x. (x.0, place x.1)) result (spec.read_list_of levels (spec.read_expr levels) (place spot.entry)) }
{
    let (all, spot) = exprs(alloc, levels, spot)?;
    Ok((Expr::ListOf(Items::from_vec(alloc, all)?), spot))
}

#[cycle(expr)]
#[tactic(auto, unfolding(crate::specs::Exprs::read_dict_of))]
fn dict_of<'a>(alloc: Global, levels: usize, spot: Spot<'a>) -> Read<'a, Expr>
    ensures { Gives (λ x. (x.0, place x.1)) result (spec.read_dict_of levels (spec.read_expr levels) (place spot.entry)) }
{
    let (all, spot) = pairs(alloc, levels, spot)?;
    Ok((Expr::DictOf(Items::from_vec(alloc, all)?), spot))
}

/// Pairs of different keys, as many as there are.
#[cycle(expr)]
fn pairs<'a>(alloc: Global, levels: usize, spot: Spot<'a>) -> Read<'a, Vec<(Value, Expr)>>
    ensures { Gives (λ x. (x.0.items, place x.1)) result (read_pairs levels (spec.read_expr levels) (place spot.entry)) }
{
    let mut keys = IndexSet::new(alloc);
    let mut all = Vec::new(alloc);
    let mut here = spot;
    for _ in 0..spot.rest.len() {
        if !begins_item(here.rest) {
            return Ok((all, here));
        }
        let (item, next) = pair(alloc, levels, &mut keys, here)?;
        all.push(item)?;
        here = next;
    }
    Ok((all, here))
}

#[cycle(expr)]
#[tactic(auto, unfolding(crate::specs::Values::read_pair))]
fn pair<'a>(
    alloc: Global,
    levels: usize,
    keys: &mut Keys,
    spot: Spot<'a>,
) -> Read<'a, (Value, Expr)>
    ensures gives { Gives (λ x. (x.0, place x.1)) result (read_pair levels (spec.read_expr levels) keys.old.keys (place spot.entry)) }
    ensures added { IfOk result (λ x. keys.new.keys ≡ keys.old.keys ++ x.0.0 ∷ []) }
{
    let (key, spot) = key(alloc, levels, keys, spot)?;
    let (part, spot) = expr(alloc, levels, spot)?;
    Ok(((key, part), spot))
}

#[cycle(expr)]
#[tactic(auto, unfolding(crate::specs::Exprs::read_cond))]
fn cond<'a>(alloc: Global, levels: usize, spot: Spot<'a>) -> Read<'a, Expr>
    ensures { Gives (λ x. (x.0, place x.1)) result (spec.read_cond levels (spec.read_expr levels) (place spot.entry)) }
{
    let (test, spot) = expr(alloc, levels, spot)?;
    let (when_true, spot) = expr(alloc, levels, spot)?;
    let (when_false, spot) = expr(alloc, levels, spot)?;
    let test = Boxed::new(alloc, test)?;
    let when_true = Boxed::new(alloc, when_true)?;
    let when_false = Boxed::new(alloc, when_false)?;
    Ok((
        Expr::Cond {
            test,
            when_true,
            when_false,
        },
        spot,
    ))
}

#[cycle(expr)]
#[tactic(auto, unfolding(crate::specs::Exprs::read_map))]
fn map<'a>(alloc: Global, levels: usize, spot: Spot<'a>) -> Read<'a, Expr>
    ensures { Gives (λ x. (x.0, place x.1)) result (spec.read_map levels (spec.read_expr levels) (place spot.entry)) }
{
    let (task, spot) = text(alloc, spot)?;
    let (list, spot) = expr(alloc, levels, spot)?;
    let list = Boxed::new(alloc, list)?;
    Ok((Expr::Map { task, list }, spot))
}

#[cycle(expr)]
#[tactic(auto, unfolding(crate::specs::Exprs::read_catch))]
fn catch<'a>(alloc: Global, levels: usize, spot: Spot<'a>) -> Read<'a, Expr>
    ensures { Gives (λ x. (x.0, place x.1)) result (spec.read_catch levels (spec.read_expr levels) (place spot.entry)) }
{
    let (tried, spot) = expr(alloc, levels, spot)?;
    let (bytes, spot) = string(spot)?;
    let (class, spot) = class_of(bytes, spot)?;
    let (recover, spot) = text(alloc, spot)?;
    let tried = Boxed::new(alloc, tried)?;
    Ok((
        Expr::Catch {
            tried,
            class,
            recover,
        },
        spot,
    ))
}

fn whole_expr<'a>(alloc: Global, bytes: &'a [u8]) -> Result<Expr, Halt<'a>>
    ensures { Tells result (expr_of bytes.now) }
{
    if bytes.len() > MAX_SIZE as usize {
        return Err(Halt::Refused(bytes));
    }
    let (expr, spot) = expr(alloc, MAX_DEPTH as usize, begin(bytes))?;
    if spot.rest.is_empty() {
        Ok(expr)
    } else {
        Err(Halt::Refused(spot.rest))
    }
}

/// The expression that has these canonical bytes.
pub fn read_expr(alloc: Global, bytes: &[u8]) -> Result<Expr, ReadError>
    // The input is the expression's canonical bytes.
    ensures found { IfOk result (λ e. bytes.now ≡ canon_expr (λ f. f) e) }

    // The expression is within the limits, and one that a program can hold.
    ensures within { IfOk result (λ e. (is_within_expr (λ f. f) e ≡ true) × IsProperExpr e) }

    // Such an expression is read, unless memory runs out.
    ensures only { (e : spec.Expr) → IsProperExpr e → is_within_expr (λ f. f) e ≡ true → bytes.now ≡ canon_expr (λ f. f) e → IsOrMemory result e }

    // A refusal is at the item at which reading stops.
    ensures place { IfRefused result (λ at. StopsAt bytes.now (expr_of bytes.now) at) }
{
    match whole_expr(alloc, bytes) {
        Ok(expr) => Ok(expr),
        Err(Halt::Memory) => Err(ReadError::OutOfMemory),
        Err(Halt::Refused(left)) => Err(refusal(bytes, left)),
    }
}
