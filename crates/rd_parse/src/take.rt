//! Single tokens at the head of a list.

ghost use Rattle.std.specs.Prelude.{◌≡◌, ◌<◌, ◌≤◌, IfOk, IfSome, pos};
ghost use Rattle.std.specs.Option.{option_map as map_option};
ghost use Rattle.rd_parse.specs.Reader.{read_one, read_opening, hits, sees};
ghost use Rattle.rd_parse.specs.Terminal.{is, greatest, with_digit, digits_from, number_of, name_of, text_of, word_of, this_word};
ghost use Rattle.rd_parse.specs.Gives.{Gives, Takes};
ghost use Rattle.rd_parse.specs.Expressions.{constant_of};

use crate::halt::Halt;
use crate::terminal::{Terminal, terminal_of};
use rd_base::{Copies, Text};
use rd_syntax::Token;
use rd_tree::Name;
use rd_value::value::Value;
use std::alloc::Global;

/// How many levels may be open at once.
pub const MAX_NESTING: usize = 64;

pub fn begins_with(tokens: &[Token], wanted: Terminal) -> bool
    ensures { result ≡ sees (hits (is wanted)) tokens.now }
{
    match tokens.split_first() {
        Some((token, _)) => terminal_of(token) == wanted,
        None => false,
    }
}

/// What stands behind the token, if it is the wanted one.
pub fn after<'a>(tokens: &'a [Token], wanted: Terminal) -> Option<&'a [Token]>
    ensures { Takes (is wanted) tokens.now (map_option (λ r. r.now) result) }
{
    match tokens.split_first() {
        Some((token, rest)) if terminal_of(token) == wanted => Some(rest),
        _ => None,
    }
}

pub fn expect<'a>(tokens: &'a [Token], wanted: Terminal) -> Result<&'a [Token], Halt<'a>>
    ensures { Gives (λ r. (tt, r.now)) result (read_one (is wanted) tokens.now) }
{
    match tokens.split_first() {
        Some((token, rest)) if terminal_of(token) == wanted => Ok(rest),
        _ => Err(Halt::Refused(tokens)),
    }
}

/// Takes a token that opens a level, where one more may be open.
#[tactic(auto, using(crate::proofs::Depth::opens_none, crate::proofs::Depth::opens_some))]
pub fn open<'a>(
    depth: usize,
    tokens: &'a [Token],
    wanted: Terminal,
) -> Result<&'a [Token], Halt<'a>>
    ensures gives { Gives (λ r. (tt, r.now)) result (read_opening (is wanted) depth tokens.now) }
    ensures open { IfOk result (λ r. 0 < depth) }
{
    if depth > 0 {
        return expect(tokens, wanted);
    }
    if begins_with(tokens, wanted) {
        return Err(Halt::Deep(tokens));
    }
    Err(Halt::Refused(tokens))
}

pub fn name<'a>(alloc: Global, tokens: &'a [Token]) -> Result<(Name, &'a [Token]), Halt<'a>>
    ensures { Gives (λ x. (x.0, x.1.now)) result (read_one name_of tokens.now) }
{
    match tokens.split_first() {
        Some((token, rest)) => match terminal_of(token) {
            Terminal::Name => {
                let text = token.text.copy(alloc)?;
                let line = token.line;
                Ok((Name { text, line }, rest))
            }
            _ => Err(Halt::Refused(tokens)),
        },
        None => Err(Halt::Refused(tokens)),
    }
}

/// The spelling of a name.
pub fn word<'a>(alloc: Global, tokens: &'a [Token]) -> Result<(Text, &'a [Token]), Halt<'a>>
    ensures { Gives (λ x. (x.0, x.1.now)) result (read_one word_of tokens.now) }
{
    match tokens.split_first() {
        Some((token, rest)) => match terminal_of(token) {
            Terminal::Name => Ok((token.text.copy(alloc)?, rest)),
            _ => Err(Halt::Refused(tokens)),
        },
        None => Err(Halt::Refused(tokens)),
    }
}

pub fn text<'a>(alloc: Global, tokens: &'a [Token]) -> Result<(Text, &'a [Token]), Halt<'a>>
    ensures { Gives (λ x. (x.0, x.1.now)) result (read_one text_of tokens.now) }
{
    match tokens.split_first() {
        Some((token, rest)) => match terminal_of(token) {
            Terminal::Text => Ok((token.text.copy(alloc)?, rest)),
            _ => Err(Halt::Refused(tokens)),
        },
        None => Err(Halt::Refused(tokens)),
    }
}

/// The name that is spelled so.
pub fn this_word<'a>(tokens: &'a [Token], wanted: &str) -> Result<&'a [Token], Halt<'a>>
    ensures { Gives (λ r. (tt, r.now)) result (read_one (this_word wanted.now) tokens.now) }
{
    match tokens.split_first() {
        Some((token, rest)) => match terminal_of(token) {
            Terminal::Name if token.text.as_str() == wanted => Ok(rest),
            _ => Err(Halt::Refused(tokens)),
        },
        None => Err(Halt::Refused(tokens)),
    }
}

/// The number with one digit more, where it is none too great.
fn with_digit(value: u64, byte: u8) -> Option<u64>
    requires { value ≤ greatest }
    ensures next { result ≡ with_digit value byte }
    ensures small { IfSome result (λ next. next ≤ greatest) }
{
    if byte < b'0' || b'9' < byte {
        return None;
    }
    let next = value.checked_mul(10)?.checked_add(u64::from(byte - b'0'))?;
    if next <= 9_223_372_036_854_775_807 {
        Some(next)
    } else {
        None
    }
}

/// The number that the digits spell, where it is none too great.
fn digits(spelling: &str) -> Option<i64>
    ensures { result ≡ map_option pos (digits_from 0 spelling.now) }
{
    let mut value: u64 = 0;
    for byte in spelling.as_bytes() {
        value = with_digit(value, *byte)?;
    }
    Some(value as i64)
}

pub fn number<'a>(tokens: &'a [Token]) -> Result<(i64, &'a [Token]), Halt<'a>>
    ensures { Gives (λ x. (x.0, x.1.now)) result (read_one number_of tokens.now) }
{
    match tokens.split_first() {
        Some((token, rest)) => match terminal_of(token) {
            Terminal::Int => match digits(token.text.as_str()) {
                Some(value) => Ok((value, rest)),
                None => Err(Halt::Refused(tokens)),
            },
            _ => Err(Halt::Refused(tokens)),
        },
        None => Err(Halt::Refused(tokens)),
    }
}

fn constant_of(token: &Token) -> Option<Value>
    ensures { result ≡ constant_of token.now }
{
    match terminal_of(token) {
        Terminal::Nothing => Some(Value::Nothing),
        Terminal::True => Some(Value::Bool(true)),
        Terminal::False => Some(Value::Bool(false)),
        _ => None,
    }
}

pub fn constant<'a>(tokens: &'a [Token]) -> Result<(Value, &'a [Token]), Halt<'a>>
    ensures { Gives (λ x. (x.0, x.1.now)) result (read_one constant_of tokens.now) }
{
    match tokens.split_first() {
        Some((token, rest)) => match constant_of(token) {
            Some(value) => Ok((value, rest)),
            None => Err(Halt::Refused(tokens)),
        },
        None => Err(Halt::Refused(tokens)),
    }
}
