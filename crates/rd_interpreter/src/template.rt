//! Templates, which hold places for the texts of values.

ghost use Rattle.std.specs.Prelude.{◌≡◌, ℕ, ◌<◌, ◌≤◌, true, false, [], length, map, slice_index, Some, OnOk};
ghost use Rattle.std.specs.List.{slice_get};
ghost use Rattle.rd_interpreter.specs.Builtins.{str};
ghost use Rattle.rd_interpreter.specs.Draft.{added, all_added};
ghost use Rattle.rd_interpreter.specs.Running.{Answers, own};
ghost use Rattle.rd_interpreter.specs.Texts as spec;

use crate::draft::Draft;
use crate::halt::{Halt, raise};
use rd_base::OutOfMemory;
use rd_value::class::Class;
use rd_value::value::Value;
use std::alloc::Global;

/// What a brace and the byte behind it stand for.
#[derive(Clone, Copy, Debug, PartialEq, Eq)]
pub enum Mark {
    Left,
    Right,
    Place,
    Bad,
}

fn mark_of(first: u8, behind: &[u8]) -> Mark
    ensures { result ≡ spec.mark_of first (slice_get behind.now 0) }
{
    match (first, behind.first()) {
        (b'{', Some(b'{')) => Mark::Left,
        (b'{', Some(b'}')) => Mark::Place,
        (b'}', Some(b'}')) => Mark::Right,
        _ => Mark::Bad,
    }
}

fn is_brace(byte: u8) -> bool
    ensures { result ≡ spec.is_brace byte }
{
    byte == b'{' || byte == b'}'
}

/// Where the first brace stands, or the length where there is none.
fn first_brace(text: &str) -> usize
    ensures bound { result ≤ length text.now }
    ensures plain { (i : ℕ) → i < result → spec.is_brace (slice_index text.now i) ≡ false }
    ensures brace { result < length text.now → spec.is_brace (slice_index text.now result) ≡ true }
{
    let bytes = text.as_bytes();
    let mut place = 0;
    while place < bytes.len() && !is_brace(bytes[place]) {
        place += 1;
    }
    place
}

/// The text of a value, which isn't printed where the draft is too long already.
fn push_value(alloc: Global, draft: &mut Draft, value: &Value) -> Result<(), OutOfMemory>
    ensures { OnOk result (draft.new ≡ added draft.old (str own value.now)) }
{
    match value {
        Value::Text(text) => draft.push(text.as_str()),
        Value::Error(error) => draft.push(error.text.as_str()),
        Value::File(file) => draft.push(file.path.as_str()),
        _ if draft.is_long() => Ok(()),
        _ => draft.push(value.repr(alloc)?.as_str()),
    }
}

/// A template with the texts of values.
pub fn filled(alloc: Global, template: &str, values: &[Value]) -> Result<Draft, Halt>
    ensures { Answers result (all_added (Some []) (spec.filled template.now (map (str own) values.now))) }
{
    let mut draft = Draft::new(alloc);
    let mut rest = template;
    let mut left = values;
    loop {
        let place = first_brace(rest);
        draft.push(&rest[..place])?;
        if place == rest.len() {
            return Ok(draft);
        }
        let bytes = rest.as_bytes();
        match mark_of(bytes[place], &bytes[place + 1..]) {
            Mark::Left => draft.push("{")?,
            Mark::Right => draft.push("}")?,
            Mark::Place => {
                let Some((value, more)) = left.split_first() else {
                    return Err(raise(alloc, Class::IndexError, "format"));
                };
                push_value(alloc, &mut draft, value)?;
                left = more;
            }
            Mark::Bad => return Err(raise(alloc, Class::ValueError, "bad format")),
        }
        rest = &rest[place + 2..];
    }
}
