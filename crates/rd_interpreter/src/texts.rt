//! What the methods of a text do, on its bytes.

ghost use Rattle.std.specs.Prelude.{◌≡◌, ◌<◌, [], ◌∷◌, ◌++◌, length, map, reverse, Some, IfOk, OnOk};
ghost use Rattle.rd_value.specs.declared.value.Datum.TheVariants as value;
ghost use Rattle.rd_interpreter.specs.Draft.{added};
ghost use Rattle.rd_interpreter.specs.Texts as spec;

use crate::draft::Draft;
use rd_base::{OutOfMemory, Text};
use rd_value::value::{Value, Values};
use std::alloc::Global;

fn is_space(byte: u8) -> bool
    ensures { result ≡ spec.is_space byte }
{
    byte == b' ' || (b'\t' <= byte && byte <= b'\r')
}

/// Without whitespace in front.
fn skipped(text: &str) -> &str
    ensures { result.now ≡ spec.skipped spec.is_space text.now }
{
    let mut rest = text;
    while !rest.is_empty() && is_space(rest.as_bytes()[0]) {
        rest = &rest[1..];
    }
    rest
}

/// Without whitespace at the end.
fn cut_short(text: &str) -> &str
    ensures { result.now ≡ reverse (spec.skipped spec.is_space (reverse text.now)) }
{
    let mut rest = text;
    while !rest.is_empty() && is_space(rest.as_bytes()[rest.len() - 1]) {
        rest = &rest[..rest.len() - 1];
    }
    rest
}

/// Without whitespace at both ends.
pub fn stripped(text: &str) -> &str
    ensures { result.now ≡ spec.stripped text.now }
{
    cut_short(skipped(text))
}

fn push_text(alloc: Global, texts: &mut Values, text: &str) -> Result<(), OutOfMemory>
    ensures { OnOk result (texts.new ≡ texts.old ++ map value.Text (text.now ∷ [])) }
{
    texts.push(alloc, Value::Text(Text::from_str(alloc, text)?))
}

/// A word that isn't empty.
fn push_word(alloc: Global, words: &mut Values, word: &str) -> Result<(), OutOfMemory>
    ensures { OnOk result (words.new ≡ words.old ++ map value.Text (spec.with_word word.now [])) }
{
    if word.is_empty() {
        return Ok(());
    }
    push_text(alloc, words, word)
}

/// The words between runs of whitespace.
pub fn words(alloc: Global, text: &str) -> Result<Values, OutOfMemory>
    ensures { IfOk result (λ words. words ≡ map value.Text (spec.words text.now)) }
{
    let mut words = Values::new(alloc);
    let mut begun = 0;
    let mut place = 0;
    while place < text.len() {
        if is_space(text.as_bytes()[place]) {
            push_word(alloc, &mut words, &text[begun..place])?;
            begun = place + 1;
        }
        place += 1;
    }
    push_word(alloc, &mut words, &text[begun..])?;
    Ok(words)
}

/// The pieces of a text between another, which isn't empty.
pub fn pieces(alloc: Global, separator: &str, text: &str) -> Result<Values, OutOfMemory>
    requires { 0 < length separator.now }
    ensures { IfOk result (λ pieces. pieces ≡ map value.Text (spec.pieces separator.now text.now)) }
{
    let mut pieces = Values::new(alloc);
    let mut rest = text;
    while let Some((piece, more)) = rest.split_once(separator) {
        push_text(alloc, &mut pieces, piece)?;
        rest = more;
    }
    push_text(alloc, &mut pieces, rest)?;
    Ok(pieces)
}

/// A text begins with another.
pub fn begins(start: &str, text: &str) -> bool
    ensures { result ≡ spec.begins start.now text.now }
{
    text.starts_with(start)
}

/// A text ends with another.
pub fn ends(end: &str, text: &str) -> bool
    ensures { result ≡ spec.ends end.now text.now }
{
    text.ends_with(end)
}

/// A text with another in the place of each that stands in it.
pub fn replaced(alloc: Global, old: &str, new: &str, text: &str) -> Result<Draft, OutOfMemory>
    requires { 0 < length old.now }
    ensures { IfOk result (λ draft. draft ≡ added (Some []) (spec.replaced old.now new.now text.now)) }
{
    let mut draft = Draft::new(alloc);
    let mut rest = text;
    while let Some((piece, more)) = rest.split_once(old) {
        draft.push(piece)?;
        draft.push(new)?;
        rest = more;
    }
    draft.push(rest)?;
    Ok(draft)
}

/// A text stands in another.
pub fn occurs(part: &str, text: &str) -> bool
    ensures { result ≡ spec.occurs part.now text.now }
{
    text.contains(part)
}
