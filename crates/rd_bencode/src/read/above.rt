//! Names and paths, each greater than the one before it in the order of bytes.

ghost use Rattle.std.specs.Prelude.{◌≡◌};
ghost use Rattle.std.specs.Option.{option_map};
ghost use Rattle.rd_bencode.specs.Reader.{Gives, place};
ghost use Rattle.rd_bencode.specs.RecordReaders as spec;

use crate::read::meaning::{path, text};
use crate::read::spot::{Halt, Read, Spot};
use rd_base::{Path, Text};
use std::alloc::Global;

fn is_above(before: Option<&str>, key: &str) -> bool
    ensures { result ≡ spec.is_above (option_map (λ t. t.now) before.entry) key.now }
{
    match before {
        Some(before) => before < key,
        None => true,
    }
}

/// A path that is above the one before it.
#[tactic(auto, unfolding(crate::specs::RecordReaders::read_path_above))]
pub(crate) fn path_above<'a>(alloc: Global, before: Option<&str>, spot: Spot<'a>) -> Read<'a, Path>
    ensures { Gives (λ x. (x.0, place x.1)) result (spec.read_path_above (option_map (λ t. t.now) before.entry) (place spot.entry)) }
{
    let (path, spot) = path(alloc, spot)?;
    if !is_above(before, path.as_str()) {
        return Err(Halt::Refused(spot.last));
    }
    Ok((path, spot))
}

/// A name that is above the one before it.
#[tactic(auto, unfolding(crate::specs::RecordReaders::read_name_above))]
pub(crate) fn name_above<'a>(alloc: Global, before: Option<&str>, spot: Spot<'a>) -> Read<'a, Text>
    ensures { Gives (λ x. (x.0, place x.1)) result (spec.read_name_above (option_map (λ t. t.now) before.entry) (place spot.entry)) }
{
    let (name, spot) = text(alloc, spot)?;
    if !is_above(before, name.as_str()) {
        return Err(Halt::Refused(spot.last));
    }
    Ok((name, spot))
}

/// The path of the last of these.
pub(crate) fn last_path<A>(all: &[(Path, A)]) -> Option<&str>
    ensures { option_map (λ t. t.now) result ≡ spec.last_key all.now }
{
    match all.last() {
        Some(entry) => Some(entry.0.as_str()),
        None => None,
    }
}

/// The name of the last of these.
pub(crate) fn last_name<A>(all: &[(Text, A)]) -> Option<&str>
    ensures { option_map (λ t. t.now) result ≡ spec.last_key all.now }
{
    match all.last() {
        Some(entry) => Some(entry.0.as_str()),
        None => None,
    }
}
