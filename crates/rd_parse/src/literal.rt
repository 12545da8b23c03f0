//! Literal values. `depth` is how many levels may be open.

ghost use Rattle.std.specs.Prelude.{◌≡◌, ◌++◌, ◌∷◌, [], true, ℕ, List, IfOk, IfSome, IfNone};
ghost use Rattle.rd_value.specs.Limits.{is_within};
ghost use Rattle.rd_parse.specs.declared.terminal.Terminal.TheVariants as w;
ghost use Rattle.rd_parse.specs.Reader.{onto, read_below, read_more, sees};
ghost use Rattle.rd_parse.specs.Terminal.{among, is};
ghost use Rattle.rd_parse.specs.Gives.{Gives};
ghost use Rattle.rd_parse.specs.Literals.{begins_key, begins_literal, begins_plain, with_key, IsLiteral, Literal, Spells};
ghost use Rattle.rd_parse.specs.LiteralReading.{read_curly, read_deep_literal, read_inner_literal, read_items, read_key, read_literal, read_literal_text, read_more_items, read_more_pairs, read_negative, read_negative_key, read_number, read_number_key, read_pair, read_pairs, read_pairs_from, read_square, read_text, read_text_key};

use crate::expression::Read;
use crate::halt::Halt;
use crate::take::{MAX_NESTING, after, begins_with, constant, expect, number, open};
use crate::terminal::{Terminal, terminal_of};
use crate::texts::texts;
use indexmap::IndexSet;
use rd_base::{Copies, Items, OutOfMemory};
use rd_syntax::{SourceError, Token, lex};
use rd_value::value::Value;
use std::alloc::Global;

fn begins_plain(tokens: &[Token]) -> bool
    ensures { result ≡ sees (among begins_plain) tokens.now }
{
    match tokens.split_first() {
        Some((token, _)) => matches!(
            terminal_of(token),
            Terminal::Minus
                | Terminal::Int
                | Terminal::Text
                | Terminal::Nothing
                | Terminal::True
                | Terminal::False
        ),
        None => false,
    }
}

fn begins_literal(tokens: &[Token]) -> bool
    ensures { result ≡ sees (among begins_literal) tokens.now }
{
    match tokens.split_first() {
        Some((token, _)) => matches!(
            terminal_of(token),
            Terminal::Minus
                | Terminal::Int
                | Terminal::Text
                | Terminal::Nothing
                | Terminal::True
                | Terminal::False
                | Terminal::LeftSquare
                | Terminal::LeftCurly
        ),
        None => false,
    }
}

fn begins_key(tokens: &[Token]) -> bool
    ensures { result ≡ sees (among begins_key) tokens.now }
{
    match tokens.split_first() {
        Some((token, _)) => matches!(
            terminal_of(token),
            Terminal::Minus | Terminal::Int | Terminal::Text
        ),
        None => false,
    }
}

#[tactic(auto, unfolding(crate::specs::LiteralReading::read_number))]
fn number_literal<'a>(tokens: &'a [Token]) -> Read<'a, Value>
    ensures { Gives (λ x. (x.0, x.1.now)) result (read_number tokens.now) }
{
    let (value, rest) = number(tokens)?;
    Ok((Value::Int(value), rest))
}

#[tactic(auto, unfolding(crate::specs::LiteralReading::read_negative))]
fn negative_literal<'a>(depth: usize, tokens: &'a [Token]) -> Read<'a, Value>
    ensures { Gives (λ x. (x.0, x.1.now)) result (read_negative depth tokens.now) }
{
    let rest = open(depth, tokens, Terminal::Minus)?;
    let (value, rest) = number(rest)?;
    Ok((Value::Int(-value), rest))
}

#[tactic(auto, unfolding(crate::specs::LiteralReading::read_text))]
fn text_literal<'a>(alloc: Global, tokens: &'a [Token]) -> Read<'a, Value>
    ensures { Gives (λ x. (x.0, x.1.now)) result (read_text tokens.now) }
{
    let (text, rest) = texts(alloc, tokens)?;
    Ok((Value::Text(text), rest))
}

/// A literal without brackets.
#[tactic(auto, unfolding(crate::specs::LiteralReading::read_literal))]
pub fn literal<'a>(alloc: Global, depth: usize, tokens: &'a [Token]) -> Read<'a, Value>
    ensures { Gives (λ x. (x.0, x.1.now)) result (read_literal depth tokens.now) }
{
    match tokens.split_first() {
        Some((token, _)) => match terminal_of(token) {
            Terminal::Minus => negative_literal(depth, tokens),
            Terminal::Int => number_literal(tokens),
            Terminal::Text => text_literal(alloc, tokens),
            _ => constant(tokens),
        },
        None => constant(tokens),
    }
}

/// The keys of a dict that were read.
type Keys = IndexSet<Value>;

#[tactic(auto, unfolding(crate::specs::LiteralReading::read_number_key))]
fn number_key<'a>(keys: &mut Keys, tokens: &'a [Token]) -> Read<'a, Value>
    ensures gives { Gives (λ x. (x.0, x.1.now)) result (read_number_key keys.old.keys tokens.now) }
    ensures added { IfOk result (λ x. keys.new.keys ≡ keys.old.keys ++ x.0 ∷ []) }
{
    let (value, rest) = number(tokens)?;
    if !keys.insert(Value::Int(value))? {
        return Err(Halt::Refused(tokens));
    }
    Ok((Value::Int(value), rest))
}

#[tactic(auto, unfolding(crate::specs::LiteralReading::read_negative_key))]
fn negative_key<'a>(depth: usize, keys: &mut Keys, tokens: &'a [Token]) -> Read<'a, Value>
    ensures gives { Gives (λ x. (x.0, x.1.now)) result (read_negative_key keys.old.keys depth tokens.now) }
    ensures added { IfOk result (λ x. keys.new.keys ≡ keys.old.keys ++ x.0 ∷ []) }
{
    let digits = open(depth, tokens, Terminal::Minus)?;
    let (value, rest) = number(digits)?;
    if !keys.insert(Value::Int(-value))? {
        return Err(Halt::Refused(digits));
    }
    Ok((Value::Int(-value), rest))
}

#[tactic(auto, unfolding(crate::specs::LiteralReading::read_text_key))]
fn text_key<'a>(alloc: Global, keys: &mut Keys, tokens: &'a [Token]) -> Read<'a, Value>
    ensures gives { Gives (λ x. (x.0, x.1.now)) result (read_text_key keys.old.keys tokens.now) }
    ensures added { IfOk result (λ x. keys.new.keys ≡ keys.old.keys ++ x.0 ∷ []) }
{
    let (text, rest) = texts(alloc, tokens)?;
    if !keys.insert(Value::Text(text.copy(alloc)?))? {
        return Err(Halt::Refused(rest));
    }
    Ok((Value::Text(text), rest))
}

/// A key that none of the keys is, which it joins.
#[tactic(auto, using(crate::proofs::Room::key_is))]
fn key<'a>(alloc: Global, depth: usize, keys: &mut Keys, tokens: &'a [Token]) -> Read<'a, Value>
    ensures gives { Gives (λ x. (x.0, x.1.now)) result (read_key keys.old.keys depth tokens.now) }
    ensures added { IfOk result (λ x. keys.new.keys ≡ keys.old.keys ++ x.0 ∷ []) }
{
    // There are more numbers than keys, so that some number is new.
    prove!(keys.len() <= i64::MAX as usize);
    if begins_with(tokens, Terminal::Int) {
        return number_key(keys, tokens);
    }
    if begins_with(tokens, Terminal::Minus) {
        return negative_key(depth, keys, tokens);
    }
    text_key(alloc, keys, tokens)
}

/// A key one level further in.
fn inner_key<'a>(
    alloc: Global,
    depth: usize,
    keys: &mut Keys,
    tokens: &'a [Token],
) -> Read<'a, Value>
    ensures gives { Gives (λ x. (x.0, x.1.now)) result (read_below (read_key keys.old.keys) depth tokens.now) }
    ensures added { IfOk result (λ x. keys.new.keys ≡ keys.old.keys ++ x.0 ∷ []) }
{
    if depth == 0 {
        return Err(Halt::Deep(tokens));
    }
    key(alloc, depth - 1, keys, tokens)
}

/// A literal.
#[cycle(literal)]
#[tactic(auto, unfolding(crate::specs::LiteralReading::read_deep))]
pub fn deep_literal<'a>(alloc: Global, depth: usize, tokens: &'a [Token]) -> Read<'a, Value>
    ensures { Gives (λ x. (x.0, x.1.now)) result (read_deep_literal depth tokens.now) }
{
    if begins_plain(tokens) {
        return literal(alloc, depth, tokens);
    }
    if begins_with(tokens, Terminal::LeftSquare) {
        return square(alloc, depth, tokens);
    }
    curly(alloc, depth, tokens)
}

/// A literal one level further in.
#[cycle(literal)]
#[tactic(auto, unfolding(crate::specs::LiteralReading::read_inner_literal))]
pub fn inner_literal<'a>(alloc: Global, depth: usize, tokens: &'a [Token]) -> Read<'a, Value>
    ensures { Gives (λ x. (x.0, x.1.now)) result (read_inner_literal depth tokens.now) }
{
    if depth == 0 {
        return Err(Halt::Deep(tokens));
    }
    deep_literal(alloc, depth - 1, tokens)
}

#[cycle(literal)]
#[tactic(auto, unfolding(crate::specs::LiteralReading::read_square))]
fn square<'a>(alloc: Global, depth: usize, tokens: &'a [Token]) -> Read<'a, Value>
    ensures { Gives (λ x. (x.0, x.1.now)) result (read_square depth (read_inner_literal depth) tokens.now) }
{
    let rest = open(depth, tokens, Terminal::LeftSquare)?;
    let (all, rest) = items(alloc, depth, rest)?;
    let rest = expect(rest, Terminal::RightSquare)?;
    Ok((Value::List(Items::from_vec(alloc, all)?), rest))
}

#[cycle(literal)]
#[tactic(auto, unfolding(crate::specs::LiteralReading::read_items))]
fn items<'a>(alloc: Global, depth: usize, tokens: &'a [Token]) -> Read<'a, Vec<Value>>
    ensures { Gives (λ x. (x.0.items, x.1.now)) result (read_items depth (read_inner_literal depth) tokens.now) }
{
    if !begins_literal(tokens) {
        return Ok((Vec::new(alloc), tokens));
    }
    let (first, rest) = inner_literal(alloc, depth, tokens)?;
    more_items(alloc, depth, first, rest)
}

/// What was read with the items behind it.
#[cycle(literal)]
fn more_items<'a>(
    alloc: Global,
    depth: usize,
    first: Value,
    tokens: &'a [Token],
) -> Read<'a, Vec<Value>>
    ensures { Gives (λ x. (x.0.items, x.1.now)) result (read_more_items depth (read_inner_literal depth) first tokens.now) }
{
    let mut all = Vec::new(alloc);
    all.push(first)?;
    items_behind(alloc, depth, all, tokens)
}

/// The items behind those that were read, each behind a comma. A comma may end them.
#[cycle(literal)]
fn items_behind<'a>(
    alloc: Global,
    depth: usize,
    mut all: Vec<Value>,
    tokens: &'a [Token],
) -> Read<'a, Vec<Value>>
    ensures { Gives (λ x. (x.0.items, x.1.now)) result (onto all.items (read_more (is w.Comma) (among begins_literal) (read_inner_literal depth)) tokens.now) }
{
    let mut rest = tokens;
    while let Some(behind) = after(rest, Terminal::Comma) {
        if !begins_literal(behind) {
            return Ok((all, behind));
        }
        let (next, end) = inner_literal(alloc, depth, behind)?;
        all.push(next)?;
        rest = end;
    }
    Ok((all, rest))
}

#[cycle(literal)]
#[tactic(auto, unfolding(crate::specs::LiteralReading::read_curly))]
fn curly<'a>(alloc: Global, depth: usize, tokens: &'a [Token]) -> Read<'a, Value>
    ensures { Gives (λ x. (x.0, x.1.now)) result (read_curly depth (read_inner_literal depth) tokens.now) }
{
    let rest = open(depth, tokens, Terminal::LeftCurly)?;
    let (all, rest) = pairs(alloc, depth, rest)?;
    let rest = expect(rest, Terminal::RightCurly)?;
    Ok((Value::Dict(Items::from_vec(alloc, all)?), rest))
}

#[cycle(literal)]
#[tactic(auto, unfolding(crate::specs::LiteralReading::read_pairs))]
fn pairs<'a>(alloc: Global, depth: usize, tokens: &'a [Token]) -> Read<'a, Vec<(Value, Value)>>
    ensures { Gives (λ x. (x.0.items, x.1.now)) result (read_pairs depth (read_inner_literal depth) tokens.now) }
{
    if !begins_key(tokens) {
        return Ok((Vec::new(alloc), tokens));
    }
    let mut keys = IndexSet::new(alloc);
    let (first, rest) = pair(alloc, depth, &mut keys, tokens)?;
    pairs_from(alloc, depth, keys, first, rest)
}

/// What was read with the pairs behind it, none of whose keys is one of these.
#[cycle(literal)]
fn pairs_from<'a>(
    alloc: Global,
    depth: usize,
    keys: Keys,
    first: (Value, Value),
    tokens: &'a [Token],
) -> Read<'a, Vec<(Value, Value)>>
    ensures { Gives (λ x. (x.0.items, x.1.now)) result (read_pairs_from depth (read_inner_literal depth) keys.keys first tokens.now) }
{
    let mut all = Vec::new(alloc);
    all.push(first)?;
    pairs_behind(alloc, depth, keys, all, tokens)
}

/// The pairs behind those that were read, each behind a comma. A comma may end them.
#[cycle(literal)]
fn pairs_behind<'a>(
    alloc: Global,
    depth: usize,
    mut keys: Keys,
    mut all: Vec<(Value, Value)>,
    tokens: &'a [Token],
) -> Read<'a, Vec<(Value, Value)>>
    ensures { Gives (λ x. (x.0.items, x.1.now)) result (onto all.items (read_more_pairs depth (read_inner_literal depth) keys.keys) tokens.now) }
{
    let mut rest = tokens;
    while let Some(behind) = after(rest, Terminal::Comma) {
        if !begins_key(behind) {
            return Ok((all, behind));
        }
        let (next, end) = pair(alloc, depth, &mut keys, behind)?;
        all.push(next)?;
        rest = end;
    }
    Ok((all, rest))
}

/// A pair whose key none of the keys is. It joins them.
#[cycle(literal)]
#[tactic(auto, unfolding(crate::specs::LiteralReading::read_pair))]
fn pair<'a>(
    alloc: Global,
    depth: usize,
    keys: &mut Keys,
    tokens: &'a [Token],
) -> Read<'a, (Value, Value)>
    ensures gives { Gives (λ x. (x.0, x.1.now)) result (read_pair depth (read_inner_literal depth) keys.old.keys tokens.now) }
    ensures added { IfOk result (λ x. keys.new.keys ≡ with_key keys.old.keys x.0) }
{
    let (key, rest) = inner_key(alloc, depth, keys, tokens)?;
    let rest = expect(rest, Terminal::Colon)?;
    let (value, rest) = inner_literal(alloc, depth, rest)?;
    Ok(((key, value), rest))
}

/// A literal that is all of a text.
#[tactic(auto, unfolding(crate::specs::LiteralReading::read_literal_text))]
pub fn literal_text<'a>(alloc: Global, depth: usize, tokens: &'a [Token]) -> Read<'a, Value>
    ensures { Gives (λ x. (x.0, x.1.now)) result (read_literal_text depth tokens.now) }
{
    let (value, rest) = deep_literal(alloc, depth, tokens)?;
    let rest = expect(rest, Terminal::Newline)?;
    Ok((value, expect(rest, Terminal::End)?))
}

/// The value that the tokens spell, if it is within the limits of a value.
fn value_of(alloc: Global, tokens: &[Token]) -> Result<Option<Value>, OutOfMemory>
    ensures found { IfOk result (λ o. IfSome o (λ v. IsLiteral tokens.now v × (is_within (λ f. f) v ≡ true))) }
    ensures only { IfOk result (λ o. IfNone o ((v : Literal) → IsLiteral tokens.now v → is_within (λ f. f) v ≡ true → ⊥)) }
{
    let (value, rest) = match literal_text(alloc, MAX_NESTING, tokens) {
        Ok(read) => read,
        Err(Halt::Memory) => return Err(OutOfMemory),
        Err(Halt::Refused(_)) => return Ok(None),
        Err(Halt::Deep(_)) => return Ok(None),
    };
    if rest.is_empty() && value.within() {
        Ok(Some(value))
    } else {
        Ok(None)
    }
}

/// The value that a text spells as a literal.
pub fn parse_literal(alloc: Global, text: &str) -> Result<Option<Value>, OutOfMemory>
    // The text spells the value.
    ensures found { IfOk result (λ o. IfSome o (Spells text.now)) }

    // Where there is none, the text spells no value.
    ensures only { IfOk result (λ o. IfNone o ((v : Literal) → Spells text.now v → ⊥)) }
{
    match lex(alloc, text.as_bytes()) {
        Ok(tokens) => value_of(alloc, tokens.as_slice()),
        Err(SourceError::Refused { .. }) => Ok(None),
        Err(SourceError::OutOfMemory) => Err(OutOfMemory),
    }
}

/// A text spells at most one value.
pub fn one_literal()
    ensures { (text : List ℕ) (v u : Literal) → Spells text v → Spells text u → v ≡ u }
{}
