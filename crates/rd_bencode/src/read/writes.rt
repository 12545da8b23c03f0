//! Written files from their canonical bytes.

ghost use Rattle.std.specs.Prelude.{◌≡◌, ℕ, List, None, IfOk};
ghost use Rattle.std.specs.Option.{option_map};
ghost use Rattle.rd_base.specs.declared.digest.Digest.{Digest};
ghost use Rattle.rd_bencode.specs.Lists.{read_each};
ghost use Rattle.rd_bencode.specs.ProperRecords.{AreProperWrites};
ghost use Rattle.rd_bencode.specs.Reader.{Gives, place};
ghost use Rattle.rd_bencode.specs.RecordReaders as spec;
ghost use Rattle.rd_bencode.specs.Records.{canon_writes};
ghost use Rattle.rd_bencode.specs.Whole.{IfRefused, IsOrMemory, StopsAt, read_all};

use crate::read::above::{last_path, path_above};
use crate::read::error::ReadError;
use crate::read::item::{begins_item, close, open};
use crate::read::meaning::digest;
use crate::read::spot::{Read, Spot};
use crate::read::whole::{begin, whole};
use crate::record::PathDigests;
use rd_base::{Digest, Items, Path};
use std::alloc::Global;

#[tactic(auto, unfolding(crate::specs::RecordReaders::read_write))]
fn write<'a>(alloc: Global, before: Option<&str>, spot: Spot<'a>) -> Read<'a, (Path, Digest)>
    ensures { Gives (λ x. (x.0, place x.1)) result (spec.read_write (option_map (λ t. t.now) before.entry) (place spot.entry)) }
{
    let spot = open(spot)?;
    let (path, spot) = path_above(alloc, before, spot)?;
    let (digest, spot) = digest(spot)?;
    let spot = close(spot)?;
    Ok(((path, digest), spot))
}

/// Paths in ascending order, each with its digest.
fn entries<'a>(alloc: Global, spot: Spot<'a>) -> Read<'a, Vec<(Path, Digest)>>
    ensures { Gives (λ x. (x.0.items, place x.1)) result (read_each spec.read_write spec.key_of None (place spot.entry)) }
{
    let mut all = Vec::new(alloc);
    let mut here = spot;
    for _ in 0..spot.rest.len() {
        if !begins_item(here.rest) {
            return Ok((all, here));
        }
        let (item, next) = write(alloc, last_path(&all), here)?;
        all.push(item)?;
        here = next;
    }
    Ok((all, here))
}

#[tactic(auto, unfolding(crate::specs::RecordReaders::read_writes))]
pub(crate) fn writes<'a>(alloc: Global, spot: Spot<'a>) -> Read<'a, PathDigests>
    ensures { Gives (λ x. (x.0, place x.1)) result (spec.read_writes (place spot.entry)) }
{
    let spot = open(spot)?;
    let (all, spot) = entries(alloc, spot)?;
    let spot = close(spot)?;
    Ok((Items::from_vec(alloc, all)?, spot))
}

/// The written files that have these canonical bytes.
pub fn read_writes(alloc: Global, bytes: &[u8]) -> Result<PathDigests, ReadError>
    // The input is their canonical bytes.
    ensures found { IfOk result (λ x. bytes.now ≡ canon_writes x) }

    // A program can hold them, and they keep the rules of their kind.
    ensures within { IfOk result AreProperWrites }

    // Such files are read, unless memory runs out.
    ensures only { (x : List (List ℕ × Digest)) → AreProperWrites x → bytes.now ≡ canon_writes x → IsOrMemory result x }

    // A refusal is at the item at which reading stops.
    ensures place { IfRefused result (λ at. StopsAt bytes.now (read_all spec.read_writes bytes.now) at) }
{
    whole(bytes, writes(alloc, begin(bytes)))
}
