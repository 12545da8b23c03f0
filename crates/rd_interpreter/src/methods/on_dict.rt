//! The methods of dicts, also of those with parts that aren't settled.

ghost use Rattle.std.specs.Prelude.{◌≡◌, ◌≤◌, map, IfOk};
ghost use Rattle.std.specs.Option.{option_copied};
ghost use Rattle.rd_value.specs.declared.value.FileValue.{FileValue};
ghost use Rattle.rd_value.specs.declared.expr.Lazy.{Lazy};
ghost use Rattle.rd_value.specs.declared.expr.Lazy.TheVariants as lazy;
ghost use Rattle.rd_value.specs.Make as make;
ghost use Rattle.rd_interpreter.specs.Methods as spec;
ghost use Rattle.rd_interpreter.specs.Running.{Answers, Gives, own, state};

use crate::display::{listed, shown_list};
use crate::frame::Frame;
use crate::halt::Halt;
use crate::method::Method;
use crate::methods::{bad_arguments, bad_operand};
use rd_base::{Copies, OutOfMemory};
use rd_value::expr::{Expr, Exprs};
use rd_value::value::Value;
use std::alloc::Global;

/// What a dict has under its keys.
pub trait Held {
    /// It as an expression.
    ghost held: { Self → Lazy FileValue };

    fn held(&self, alloc: Global) -> Result<Expr, OutOfMemory>
        ensures { IfOk result (λ e. e ≡ held self.now) };
}

impl Held for Value {
    ghost held = { lazy.Val };

    fn held(&self, alloc: Global) -> Result<Expr, OutOfMemory> {
        Ok(Expr::Val(self.copy(alloc)?))
    }
}

impl Held for Expr {
    ghost held = { λ e. e };

    fn held(&self, alloc: Global) -> Result<Expr, OutOfMemory> {
        self.copy(alloc)
    }
}

fn is_key(value: &Value) -> bool
    ensures { result ≡ make.is_key value.now }
{
    matches!(value, Value::Int(_) | Value::Text(_))
}

/// What stands under a key.
fn under<'a, V>(pairs: &'a [(Value, V)], key: &Value) -> Option<&'a V>
    ensures { option_copied result ≡ spec.value_under own key.now pairs.now }
{
    for (other, value) in pairs {
        if other.equal(key) {
            return Some(value);
        }
    }
    None
}

fn get<V: Held>(
    alloc: Global,
    pairs: &[(Value, V)],
    key: &Value,
    other: Value,
) -> Result<Expr, Halt>
    ensures { Answers result (spec.got own (map (λ p. (p.0, V.held p.1)) pairs.now) key.now other) }
{
    if !is_key(key) {
        return Err(bad_operand(alloc));
    }
    match under(pairs, key) {
        Some(value) => Ok(value.held(alloc)?),
        None => Ok(Expr::Val(other)),
    }
}

fn keys<V>(alloc: Global, pairs: &[(Value, V)]) -> Result<Exprs, OutOfMemory>
    ensures { IfOk result (λ keys. keys ≡ map (λ p. lazy.Val p.0) pairs.now) }
{
    let mut keys = Exprs::new(alloc);
    for (key, _) in pairs {
        keys.push(alloc, Expr::Val(key.copy(alloc)?))?;
    }
    Ok(keys)
}

fn held_values<V: Held>(alloc: Global, pairs: &[(Value, V)]) -> Result<Exprs, OutOfMemory>
    ensures { IfOk result (λ values. values ≡ map (λ p. V.held p.1) pairs.now) }
{
    let mut values = Exprs::new(alloc);
    for (_, value) in pairs {
        values.push(alloc, value.held(alloc)?)?;
    }
    Ok(values)
}

/// A key and its value.
fn item<V: Held>(alloc: Global, key: &Value, value: &V) -> Result<Expr, OutOfMemory>
    ensures { IfOk result (λ e. e ≡ spec.item own (key.now, V.held value.now)) }
{
    let mut parts = Exprs::new(alloc);
    parts.push(alloc, Expr::Val(key.copy(alloc)?))?;
    parts.push(alloc, value.held(alloc)?)?;
    listed(alloc, parts)
}

fn items<V: Held>(alloc: Global, pairs: &[(Value, V)]) -> Result<Exprs, OutOfMemory>
    ensures { IfOk result (λ items. items ≡ map (λ p. spec.item own (p.0, V.held p.1)) pairs.now) }
{
    let mut items = Exprs::new(alloc);
    for (key, value) in pairs {
        items.push(alloc, item(alloc, key, value)?)?;
    }
    Ok(items)
}

/// A method of a dict on values.
pub fn on_dict<V: Held>(
    alloc: Global,
    frame: &mut Frame,
    method: Method,
    pairs: &[(Value, V)],
    values: &[Value],
) -> Result<Expr, Halt>
    ensures gives { Gives result (state frame.new) (spec.on_dict own method (map (λ p. (p.0, V.held p.1)) pairs.now) values.now (state frame.old)) }
    ensures left { frame.new.left ≤ frame.old.left }
{
    match (method, values) {
        (Method::Get, [key]) => get(alloc, pairs, key, Value::Nothing),
        (Method::Get, [key, other]) => get(alloc, pairs, key, other.copy(alloc)?),
        (Method::Keys, []) => shown_list(alloc, frame, keys(alloc, pairs)?),
        (Method::Values, []) => shown_list(alloc, frame, held_values(alloc, pairs)?),
        (Method::Items, []) => shown_list(alloc, frame, items(alloc, pairs)?),
        _ => Err(bad_arguments(alloc)),
    }
}
