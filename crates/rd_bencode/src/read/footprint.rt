//! Footprints from their canonical bytes.

ghost use Rattle.std.specs.Prelude.{◌≡◌, None, IfOk};
ghost use Rattle.std.specs.Option.{option_map};
ghost use Rattle.rd_bencode.specs.declared.record.Footprint.{Footprint};
ghost use Rattle.rd_bencode.specs.Lists.{read_each};
ghost use Rattle.rd_bencode.specs.ProperRecords.{IsProperFootprint};
ghost use Rattle.rd_bencode.specs.Reader.{Gives, place};
ghost use Rattle.rd_bencode.specs.RecordReaders as spec;
ghost use Rattle.rd_bencode.specs.Records.{canon_footprint};
ghost use Rattle.rd_bencode.specs.Whole.{IfRefused, IsOrMemory, StopsAt, read_all};

use crate::read::above::{last_name, last_path, name_above, path_above};
use crate::read::error::ReadError;
use crate::read::item::{begins_item, close, natural, open};
use crate::read::meaning::digest;
use crate::read::spot::{Halt, Read, Spot};
use crate::read::value::begins_integer;
use crate::read::whole::{begin, whole};
use crate::read::writes::writes;
use crate::record::{Footprint, NamedDigests, SeenPaths};
use rd_base::{Digest, Items, Path, Seen, Text};
use std::alloc::Global;

fn mark_in(n: u64) -> Option<Seen>
    ensures { result ≡ spec.mark_of n }
{
    match n {
        0 => Some(Seen::Absent),
        1 => Some(Seen::Long),
        _ => None,
    }
}

/// The number for a path with no file or with a long one.
#[tactic(auto, unfolding(crate::specs::RecordReaders::read_mark))]
fn mark<'a>(spot: Spot<'a>) -> Read<'a, Seen>
    ensures { Gives (λ x. (x.0, place x.1)) result (spec.read_mark (place spot.entry)) }
{
    let (n, spot) = natural(spot)?;
    match mark_in(n) {
        Some(seen) => Ok((seen, spot)),
        None => Err(Halt::Refused(spot.last)),
    }
}

#[tactic(auto, unfolding(crate::specs::RecordReaders::read_held))]
fn held<'a>(spot: Spot<'a>) -> Read<'a, Seen>
    ensures { Gives (λ x. (x.0, place x.1)) result (spec.read_held (place spot.entry)) }
{
    let (digest, spot) = digest(spot)?;
    Ok((Seen::Held(digest), spot))
}

#[tactic(auto, unfolding(crate::specs::RecordReaders::read_seen))]
fn seen<'a>(spot: Spot<'a>) -> Read<'a, Seen>
    ensures { Gives (λ x. (x.0, place x.1)) result (spec.read_seen (place spot.entry)) }
{
    if begins_integer(spot.rest) {
        return mark(spot);
    }
    held(spot)
}

#[tactic(auto, unfolding(crate::specs::RecordReaders::read_task))]
fn task<'a>(alloc: Global, before: Option<&str>, spot: Spot<'a>) -> Read<'a, (Text, Digest)>
    ensures { Gives (λ x. (x.0, place x.1)) result (spec.read_task (option_map (λ t. t.now) before.entry) (place spot.entry)) }
{
    let spot = open(spot)?;
    let (name, spot) = name_above(alloc, before, spot)?;
    let (digest, spot) = digest(spot)?;
    let spot = close(spot)?;
    Ok(((name, digest), spot))
}

/// Names in ascending order, each with its digest.
fn named<'a>(alloc: Global, spot: Spot<'a>) -> Read<'a, Vec<(Text, Digest)>>
    ensures { Gives (λ x. (x.0.items, place x.1)) result (read_each spec.read_task spec.key_of None (place spot.entry)) }
{
    let mut all = Vec::new(alloc);
    let mut here = spot;
    for _ in 0..spot.rest.len() {
        if !begins_item(here.rest) {
            return Ok((all, here));
        }
        let (item, next) = task(alloc, last_name(&all), here)?;
        all.push(item)?;
        here = next;
    }
    Ok((all, here))
}

#[tactic(auto, unfolding(crate::specs::RecordReaders::read_tasks))]
fn tasks<'a>(alloc: Global, spot: Spot<'a>) -> Read<'a, NamedDigests>
    ensures { Gives (λ x. (x.0, place x.1)) result (spec.read_tasks (place spot.entry)) }
{
    let spot = open(spot)?;
    let (all, spot) = named(alloc, spot)?;
    let spot = close(spot)?;
    Ok((Items::from_vec(alloc, all)?, spot))
}

#[tactic(auto, unfolding(crate::specs::RecordReaders::read_input_seen))]
fn input<'a>(alloc: Global, before: Option<&str>, spot: Spot<'a>) -> Read<'a, (Path, Seen)>
    ensures { Gives (λ x. (x.0, place x.1)) result (spec.read_input_seen (option_map (λ t. t.now) before.entry) (place spot.entry)) }
{
    let spot = open(spot)?;
    let (path, spot) = path_above(alloc, before, spot)?;
    let (seen, spot) = seen(spot)?;
    let spot = close(spot)?;
    Ok(((path, seen), spot))
}

/// Paths in ascending order, each with what stood there.
fn looked_at<'a>(alloc: Global, spot: Spot<'a>) -> Read<'a, Vec<(Path, Seen)>>
    ensures { Gives (λ x. (x.0.items, place x.1)) result (read_each spec.read_input_seen spec.key_of None (place spot.entry)) }
{
    let mut all = Vec::new(alloc);
    let mut here = spot;
    for _ in 0..spot.rest.len() {
        if !begins_item(here.rest) {
            return Ok((all, here));
        }
        let (item, next) = input(alloc, last_path(&all), here)?;
        all.push(item)?;
        here = next;
    }
    Ok((all, here))
}

#[tactic(auto, unfolding(crate::specs::RecordReaders::read_inputs))]
fn inputs<'a>(alloc: Global, spot: Spot<'a>) -> Read<'a, SeenPaths>
    ensures { Gives (λ x. (x.0, place x.1)) result (spec.read_inputs (place spot.entry)) }
{
    let spot = open(spot)?;
    let (all, spot) = looked_at(alloc, spot)?;
    let spot = close(spot)?;
    Ok((Items::from_vec(alloc, all)?, spot))
}

#[tactic(auto, unfolding(crate::specs::RecordReaders::read_footprint))]
fn footprint<'a>(alloc: Global, spot: Spot<'a>) -> Read<'a, Footprint>
    ensures { Gives (λ x. (x.0, place x.1)) result (spec.read_footprint (place spot.entry)) }
{
    let spot = open(spot)?;
    let (tasks, spot) = tasks(alloc, spot)?;
    let (inputs, spot) = inputs(alloc, spot)?;
    let (writes, spot) = writes(alloc, spot)?;
    let spot = close(spot)?;
    Ok((
        Footprint {
            tasks,
            inputs,
            writes,
        },
        spot,
    ))
}

/// The footprint that has these canonical bytes.
pub fn read_footprint(alloc: Global, bytes: &[u8]) -> Result<Footprint, ReadError>
    // The input is its canonical bytes.
    ensures found { IfOk result (λ x. bytes.now ≡ canon_footprint x) }

    // A program can hold it, and it keeps the rules of its kind.
    ensures within { IfOk result IsProperFootprint }

    // Such a record is read, unless memory runs out.
    ensures only { (x : Footprint) → IsProperFootprint x → bytes.now ≡ canon_footprint x → IsOrMemory result x }

    // A refusal is at the item at which reading stops.
    ensures place { IfRefused result (λ at. StopsAt bytes.now (read_all spec.read_footprint bytes.now) at) }
{
    whole(bytes, footprint(alloc, begin(bytes)))
}
