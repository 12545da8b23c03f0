//! Lists of so many digests, which are the rows of evaluations and of calls.

ghost use Rattle.std.specs.Prelude.{◌≡◌, ℕ, List, IfOk};
ghost use Rattle.rd_base.specs.declared.digest.Digest.{Digest};
ghost use Rattle.rd_bencode.specs.ProperRecords.{AreDigests};
ghost use Rattle.rd_bencode.specs.Reader.{Gives, place};
ghost use Rattle.rd_bencode.specs.RecordReaders as spec;
ghost use Rattle.rd_bencode.specs.Records.{canon_digests};
ghost use Rattle.rd_bencode.specs.Whole.{IsOrMemory};

use crate::read::error::ReadError;
use crate::read::item::{close, open};
use crate::read::meaning::digest;
use crate::read::spot::{Read, Spot};
use crate::read::whole::{begin, whole};
use rd_base::{Digest, Items};
use std::alloc::Global;

fn so_many<'a>(alloc: Global, count: usize, spot: Spot<'a>) -> Read<'a, Vec<Digest>>
    ensures { Gives (λ x. (x.0.items, place x.1)) result (spec.read_so_many count (place spot.entry)) }
{
    let mut all = Vec::new(alloc);
    let mut here = spot;
    for _ in 0..count {
        let (item, next) = digest(here)?;
        all.push(item)?;
        here = next;
    }
    Ok((all, here))
}

#[tactic(auto, unfolding(crate::specs::RecordReaders::read_digests))]
fn digests<'a>(alloc: Global, count: usize, spot: Spot<'a>) -> Read<'a, Items<Digest>>
    ensures { Gives (λ x. (x.0, place x.1)) result (spec.read_digests count (place spot.entry)) }
{
    let spot = open(spot)?;
    let (all, spot) = so_many(alloc, count, spot)?;
    let spot = close(spot)?;
    Ok((Items::from_vec(alloc, all)?, spot))
}

/// The list of so many digests that has these canonical bytes.
pub(crate) fn read_digests(
    alloc: Global,
    count: usize,
    bytes: &[u8],
) -> Result<Items<Digest>, ReadError>
    // The input is their canonical bytes.
    ensures found { IfOk result (λ x. bytes.now ≡ canon_digests x) }

    // There are so many digests.
    ensures within { IfOk result (AreDigests count) }

    // Such a list is read, unless memory runs out.
    ensures only { (x : List Digest) → AreDigests count x → bytes.now ≡ canon_digests x → IsOrMemory result x }
{
    whole(bytes, digests(alloc, count, begin(bytes)))
}
