//! What a loop goes through, from a place on.

ghost use Rattle.std.specs.Prelude.{◌≡◌, ◌+◌, IfOk};
ghost use Rattle.std.specs.Char.{encode_utf8};
ghost use Rattle.std.specs.Str.{IsCharBoundary};
ghost use Rattle.rd_value.specs.declared.expr.Lazy.TheVariants as lazy;
ghost use Rattle.rd_interpreter.specs.Source.{Begins, CharacterAt, ItemAt, next_at};

use rd_base::{Copies, OutOfMemory, Text};
use rd_value::expr::{Expr, ExprPairs, Exprs};
use rd_value::value::{Pairs, Value, Values};
use std::alloc::Global;

/// What is gone through.
#[derive(Drop)]
pub enum Source {
    Values(Values),
    Exprs(Exprs),
    Keys(Pairs),
    ExprKeys(ExprPairs),
    Characters(Text),
}

fn value_at(
    alloc: Global,
    values: &[Value],
    place: usize,
) -> Result<Option<(Expr, usize)>, OutOfMemory>
    ensures { IfOk result (λ o. o ≡ next_at lazy.Val values.now place) }
{
    match values.get(place) {
        Some(value) => Ok(Some((Expr::Val(value.copy(alloc)?), place + 1))),
        None => Ok(None),
    }
}

fn expr_at(
    alloc: Global,
    exprs: &[Expr],
    place: usize,
) -> Result<Option<(Expr, usize)>, OutOfMemory>
    ensures { IfOk result (λ o. o ≡ next_at (λ e. e) exprs.now place) }
{
    match exprs.get(place) {
        Some(expr) => Ok(Some((expr.copy(alloc)?, place + 1))),
        None => Ok(None),
    }
}

fn key_at<V>(
    alloc: Global,
    pairs: &[(Value, V)],
    place: usize,
) -> Result<Option<(Expr, usize)>, OutOfMemory>
    ensures { IfOk result (λ o. o ≡ next_at (λ p. lazy.Val p.0) pairs.now place) }
{
    match pairs.get(place) {
        Some(pair) => Ok(Some((Expr::Val(pair.0.copy(alloc)?), place + 1))),
        None => Ok(None),
    }
}

/// The text of one character.
pub fn character(alloc: Global, c: char) -> Result<Text, OutOfMemory>
    ensures { IfOk result (λ t. t ≡ encode_utf8 c) }
{
    let mut text = String::new(alloc);
    text.push(c)?;
    Text::from_string(alloc, text)
}

fn character_at(
    alloc: Global,
    text: &str,
    place: usize,
) -> Result<Option<(Expr, usize)>, OutOfMemory>
    requires { IsCharBoundary text.now place }
    ensures { IfOk result (CharacterAt text.now place) }
{
    match text[place..].chars().next() {
        Some(c) => {
            let value = Value::Text(character(alloc, c)?);
            Ok(Some((Expr::Val(value), place + c.len_utf8())))
        }
        None => Ok(None),
    }
}

impl Source {
    /// The item at a place, with the place behind it.
    pub fn item(&self, alloc: Global, place: usize) -> Result<Option<(Expr, usize)>, OutOfMemory>
        requires { Begins self.now place }
        ensures { IfOk result (ItemAt self.now place) }
    {
        match self {
            Source::Values(values) => value_at(alloc, values.as_slice(), place),
            Source::Exprs(exprs) => expr_at(alloc, exprs.as_slice(), place),
            Source::Keys(pairs) => key_at(alloc, pairs.as_slice(), place),
            Source::ExprKeys(pairs) => key_at(alloc, pairs.as_slice(), place),
            Source::Characters(text) => character_at(alloc, text.as_str(), place),
        }
    }
}
