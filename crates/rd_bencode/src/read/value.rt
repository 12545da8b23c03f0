//! Values from their canonical bytes. `levels` is how many levels may still be open.

ghost use Rattle.std.specs.Prelude.{◌≡◌, ◌++◌, ◌∷◌, [], true, IfOk};
ghost use Rattle.rd_bencode.specs.Reader.{Gives, place, read_many};
ghost use Rattle.rd_bencode.specs.Proper.{IsProper};
ghost use Rattle.rd_bencode.specs.Values as spec;
ghost use Rattle.rd_bencode.specs.Whole.{Tells, value_of, IsOrMemory, IfRefused, StopsAt};
ghost use Rattle.rd_value.specs.Canon.{canon};
ghost use Rattle.rd_value.specs.Limits.{is_within};

use crate::read::error::ReadError;
use crate::read::item::{begins_item, close, integer, letter, open, string};
use crate::read::meaning::{class_of, digest_of, flag_of, path_of, text};
use crate::read::spot::{Halt, Read, Spot};
use crate::read::whole::{begin, refusal};
use indexmap::IndexSet;
use rd_base::{Copies, Items};
use rd_value::limits::{MAX_DEPTH, MAX_SIZE};
use rd_value::value::{ErrorValue, FileValue, Value};
use std::alloc::Global;

#[tactic(auto, unfolding(crate::specs::Values::read_file))]
fn file<'a>(alloc: Global, spot: Spot<'a>) -> Read<'a, Value>
    ensures { Gives (λ x. (x.0, place x.1)) result (spec.read_file (place spot.entry)) }
{
    let (bytes, spot) = string(spot)?;
    let (path, spot) = path_of(alloc, bytes, spot)?;
    let (bytes, spot) = string(spot)?;
    let (digest, spot) = digest_of(bytes, spot)?;
    Ok((Value::File(FileValue { path, digest }), spot))
}

#[tactic(auto, unfolding(crate::specs::Values::read_error))]
fn error<'a>(alloc: Global, spot: Spot<'a>) -> Read<'a, Value>
    ensures { Gives (λ x. (x.0, place x.1)) result (spec.read_error (place spot.entry)) }
{
    let (bytes, spot) = string(spot)?;
    let (class, spot) = class_of(bytes, spot)?;
    let (text, spot) = text(alloc, spot)?;
    Ok((Value::Error(ErrorValue { class, text }), spot))
}

#[tactic(auto, unfolding(crate::specs::Values::read_flag))]
fn flag<'a>(spot: Spot<'a>) -> Read<'a, Value>
    ensures { Gives (λ x. (x.0, place x.1)) result (spec.read_flag (place spot.entry)) }
{
    let (n, spot) = integer(spot)?;
    let (flag, spot) = flag_of(n, spot)?;
    Ok((Value::Bool(flag), spot))
}

#[tactic(auto, unfolding(crate::specs::Values::read_number))]
fn number<'a>(spot: Spot<'a>) -> Read<'a, Value>
    ensures { Gives (λ x. (x.0, place x.1)) result (spec.read_number (place spot.entry)) }
{
    let (n, spot) = integer(spot)?;
    Ok((Value::Int(n), spot))
}

#[tactic(auto, unfolding(crate::specs::Values::read_text_value))]
fn text_value<'a>(alloc: Global, spot: Spot<'a>) -> Read<'a, Value>
    ensures { Gives (λ x. (x.0, place x.1)) result (spec.read_text_value (place spot.entry)) }
{
    let (text, spot) = text(alloc, spot)?;
    Ok((Value::Text(text), spot))
}

pub(crate) fn begins_integer(bytes: &[u8]) -> bool
    ensures { result ≡ spec.begins_with 105 bytes.now }
{
    match bytes.first() {
        Some(byte) => *byte == b'i',
        None => false,
    }
}

fn begins_list(bytes: &[u8]) -> bool
    ensures { result ≡ spec.begins_with 108 bytes.now }
{
    match bytes.first() {
        Some(byte) => *byte == b'l',
        None => false,
    }
}

#[tactic(auto, unfolding(crate::specs::Values::read_plain))]
fn plain<'a>(alloc: Global, spot: Spot<'a>) -> Read<'a, Value>
    ensures { Gives (λ x. (x.0, place x.1)) result (spec.read_plain (place spot.entry)) }
{
    if begins_integer(spot.rest) {
        return number(spot);
    }
    text_value(alloc, spot)
}

/// The keys of a dict that were read.
pub(crate) type Keys = IndexSet<Value>;

#[tactic(auto, unfolding(crate::specs::Values::read_number_key))]
fn number_key<'a>(keys: &mut Keys, spot: Spot<'a>) -> Read<'a, Value>
    ensures gives { Gives (λ x. (x.0, place x.1)) result (spec.read_number_key keys.old.keys (place spot.entry)) }
    ensures added { IfOk result (λ x. keys.new.keys ≡ keys.old.keys ++ x.0 ∷ []) }
{
    let (n, spot) = integer(spot)?;
    if !keys.insert(Value::Int(n))? {
        return Err(Halt::Refused(spot.last));
    }
    Ok((Value::Int(n), spot))
}

#[tactic(auto, unfolding(crate::specs::Values::read_text_key))]
fn text_key<'a>(alloc: Global, keys: &mut Keys, spot: Spot<'a>) -> Read<'a, Value>
    ensures gives { Gives (λ x. (x.0, place x.1)) result (spec.read_text_key keys.old.keys (place spot.entry)) }
    ensures added { IfOk result (λ x. keys.new.keys ≡ keys.old.keys ++ x.0 ∷ []) }
{
    let (text, spot) = text(alloc, spot)?;
    if !keys.insert(Value::Text(text.copy(alloc)?))? {
        return Err(Halt::Refused(spot.last));
    }
    Ok((Value::Text(text), spot))
}

/// A key that none of the keys is, which it joins.
#[tactic(auto, unfolding(crate::specs::Values::read_key))]
pub(crate) fn key<'a>(
    alloc: Global,
    levels: usize,
    keys: &mut Keys,
    spot: Spot<'a>,
) -> Read<'a, Value>
    ensures gives { Gives (λ x. (x.0, place x.1)) result (spec.read_key keys.old.keys levels (place spot.entry)) }
    ensures added { IfOk result (λ x. keys.new.keys ≡ keys.old.keys ++ x.0 ∷ []) }
{
    if levels == 0 {
        return Err(Halt::Refused(spot.rest));
    }
    if begins_integer(spot.rest) {
        return number_key(keys, spot);
    }
    text_key(alloc, keys, spot)
}

/// A value.
#[cycle(value)]
#[tactic(auto, unfolding(crate::specs::Values::read_value))]
pub(crate) fn value<'a>(alloc: Global, levels: usize, spot: Spot<'a>) -> Read<'a, Value>
    ensures { Gives (λ x. (x.0, place x.1)) result (spec.read_value levels (place spot.entry)) }
{
    if levels == 0 {
        return Err(Halt::Refused(spot.rest));
    }
    any(alloc, levels - 1, spot)
}

#[cycle(value)]
#[tactic(auto, unfolding(crate::specs::Values::read_any))]
fn any<'a>(alloc: Global, levels: usize, spot: Spot<'a>) -> Read<'a, Value>
    ensures { Gives (λ x. (x.0, place x.1)) result (spec.read_any levels (spec.read_value levels) (place spot.entry)) }
{
    if begins_list(spot.rest) {
        return tagged(alloc, levels, spot);
    }
    plain(alloc, spot)
}

#[cycle(value)]
#[tactic(auto, unfolding(crate::specs::Values::read_tagged))]
fn tagged<'a>(alloc: Global, levels: usize, spot: Spot<'a>) -> Read<'a, Value>
    ensures { Gives (λ x. (x.0, place x.1)) result (spec.read_tagged levels (spec.read_value levels) (place spot.entry)) }
{
    let spot = open(spot)?;
    let (letter, spot) = letter(spot)?;
    let (value, spot) = kind(alloc, levels, letter, spot)?;
    let spot = close(spot)?;
    Ok((value, spot))
}

/// What stands behind the letter of a kind of values.
#[cycle(value)]
#[tactic(auto, unfolding(crate::specs::Values::read_kind))]
fn kind<'a>(alloc: Global, levels: usize, letter: u8, spot: Spot<'a>) -> Read<'a, Value>
    ensures { Gives (λ x. (x.0, place x.1)) result (spec.read_kind levels (spec.read_value levels) letter (place spot.entry)) }
{
    match letter {
        b'n' => Ok((Value::Nothing, spot)),
        b'b' => flag(spot),
        b'l' => list(alloc, levels, spot),
        b'd' => dict(alloc, levels, spot),
        b'f' => file(alloc, spot),
        b'e' => error(alloc, spot),
        _ => Err(Halt::Refused(spot.last)),
    }
}

#[cycle(value)]
#[tactic(auto, unfolding(crate::specs::Values::read_list))]
fn list<'a>(alloc: Global, levels: usize, spot: Spot<'a>) -> Read<'a, Value>
    ensures { Gives (λ x. (x.0, place x.1)) result (spec.read_list levels (spec.read_value levels) (place spot.entry)) }
{
    let (all, spot) = values(alloc, levels, spot)?;
    Ok((Value::List(Items::from_vec(alloc, all)?), spot))
}

/// Values, as many as there are. Each has a byte at least.
#[cycle(value)]
pub(crate) fn values<'a>(alloc: Global, levels: usize, spot: Spot<'a>) -> Read<'a, Vec<Value>>
    ensures { Gives (λ x. (x.0.items, place x.1)) result (read_many (spec.read_value levels) (place spot.entry)) }
{
    let mut all = Vec::new(alloc);
    let mut here = spot;
    for _ in 0..spot.rest.len() {
        if !begins_item(here.rest) {
            return Ok((all, here));
        }
        let (item, next) = value(alloc, levels, here)?;
        all.push(item)?;
        here = next;
    }
    Ok((all, here))
}

#[cycle(value)]
#[tactic(auto, unfolding(crate::specs::Values::read_dict))]
fn dict<'a>(alloc: Global, levels: usize, spot: Spot<'a>) -> Read<'a, Value>
    ensures { Gives (λ x. (x.0, place x.1)) result (spec.read_dict levels (spec.read_value levels) (place spot.entry)) }
{
    let (all, spot) = pairs(alloc, levels, spot)?;
    Ok((Value::Dict(Items::from_vec(alloc, all)?), spot))
}

/// Pairs of different keys, as many as there are.
#[cycle(value)]
fn pairs<'a>(alloc: Global, levels: usize, spot: Spot<'a>) -> Read<'a, Vec<(Value, Value)>>
    ensures { Gives (λ x. (x.0.items, place x.1)) result (spec.read_pairs levels (spec.read_value levels) (place spot.entry)) }
{
    let mut keys = IndexSet::new(alloc);
    let mut all = Vec::new(alloc);
    let mut here = spot;
    for _ in 0..spot.rest.len() {
        if !begins_item(here.rest) {
            return Ok((all, here));
        }
        let (item, next) = pair(alloc, levels, &mut keys, here)?;
        all.push(item)?;
        here = next;
    }
    Ok((all, here))
}

#[cycle(value)]
#[tactic(auto, unfolding(crate::specs::Values::read_pair))]
fn pair<'a>(
    alloc: Global,
    levels: usize,
    keys: &mut Keys,
    spot: Spot<'a>,
) -> Read<'a, (Value, Value)>
    ensures gives { Gives (λ x. (x.0, place x.1)) result (spec.read_pair levels (spec.read_value levels) keys.old.keys (place spot.entry)) }
    ensures added { IfOk result (λ x. keys.new.keys ≡ keys.old.keys ++ x.0.0 ∷ []) }
{
    let (key, spot) = key(alloc, levels, keys, spot)?;
    let (value, spot) = value(alloc, levels, spot)?;
    Ok(((key, value), spot))
}

fn whole_value<'a>(alloc: Global, bytes: &'a [u8]) -> Result<Value, Halt<'a>>
    ensures { Tells result (value_of bytes.now) }
{
    if bytes.len() > MAX_SIZE as usize {
        return Err(Halt::Refused(bytes));
    }
    let (value, spot) = value(alloc, MAX_DEPTH as usize, begin(bytes))?;
    if spot.rest.is_empty() {
        Ok(value)
    } else {
        Err(Halt::Refused(spot.rest))
    }
}

/// The value that has these canonical bytes.
pub fn read_value(alloc: Global, bytes: &[u8]) -> Result<Value, ReadError>
    // The input is the value's canonical bytes.
    ensures found { IfOk result (λ v. bytes.now ≡ canon (λ f. f) v) }

    // The value is within the limits, and one that a program can hold.
    ensures within { IfOk result (λ v. (is_within (λ f. f) v ≡ true) × IsProper v) }

    // Such a value is read, unless memory runs out.
    ensures only { (v : spec.Value) → IsProper v → is_within (λ f. f) v ≡ true → bytes.now ≡ canon (λ f. f) v → IsOrMemory result v }

    // A refusal is at the item at which reading stops.
    ensures place { IfRefused result (λ at. StopsAt bytes.now (value_of bytes.now) at) }
{
    match whole_value(alloc, bytes) {
        Ok(value) => Ok(value),
        Err(Halt::Memory) => Err(ReadError::OutOfMemory),
        Err(Halt::Refused(left)) => Err(refusal(bytes, left)),
    }
}
