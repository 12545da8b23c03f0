//! Bound arguments from their canonical bytes.

ghost use Rattle.std.specs.Prelude.{◌≡◌, List, IfOk};
ghost use Rattle.rd_bencode.specs.Lists.{read_each};
ghost use Rattle.rd_bencode.specs.ProperRecords.{AreProperArgs};
ghost use Rattle.rd_bencode.specs.Reader.{Gives, place};
ghost use Rattle.rd_bencode.specs.RecordReaders as spec;
ghost use Rattle.rd_bencode.specs.Records.{canon_args};
ghost use Rattle.rd_bencode.specs.Values as values;
ghost use Rattle.rd_bencode.specs.Whole.{IfRefused, IsOrMemory, StopsAt, read_all};

use crate::read::error::ReadError;
use crate::read::item::{begins_item, close, open};
use crate::read::spot::{Halt, Read, Spot};
use crate::read::value::value;
use crate::read::whole::{begin, whole};
use rd_base::Items;
use rd_value::limits::{MAX_DEPTH, MAX_SIZE};
use rd_value::value::{Value, Values};
use std::alloc::Global;

/// A value within the limits.
#[tactic(auto, unfolding(crate::specs::RecordReaders::read_argument))]
fn argument<'a>(alloc: Global, spot: Spot<'a>) -> Read<'a, Value>
    ensures { Gives (λ x. (x.0, place x.1)) result (spec.read_argument tt (place spot.entry)) }
{
    let (value, spot) = value(alloc, MAX_DEPTH as usize, spot)?;
    if value.size() > MAX_SIZE {
        return Err(Halt::Refused(spot.last));
    }
    Ok((value, spot))
}

fn arguments<'a>(alloc: Global, spot: Spot<'a>) -> Read<'a, Vec<Value>>
    ensures { Gives (λ x. (x.0.items, place x.1)) result (read_each spec.read_argument spec.plain tt (place spot.entry)) }
{
    let mut all = Vec::new(alloc);
    let mut here = spot;
    for _ in 0..spot.rest.len() {
        if !begins_item(here.rest) {
            return Ok((all, here));
        }
        let (item, next) = argument(alloc, here)?;
        all.push(item)?;
        here = next;
    }
    Ok((all, here))
}

#[tactic(auto, unfolding(crate::specs::RecordReaders::read_args))]
fn args<'a>(alloc: Global, spot: Spot<'a>) -> Read<'a, Values>
    ensures { Gives (λ x. (x.0, place x.1)) result (spec.read_args (place spot.entry)) }
{
    let spot = open(spot)?;
    let (all, spot) = arguments(alloc, spot)?;
    let spot = close(spot)?;
    Ok((Items::from_vec(alloc, all)?, spot))
}

/// The arguments that have these canonical bytes.
pub fn read_args(alloc: Global, bytes: &[u8]) -> Result<Values, ReadError>
    // The input is their canonical bytes.
    ensures found { IfOk result (λ x. bytes.now ≡ canon_args (λ f. f) x) }

    // A program can hold them, and they keep the rules of their kind.
    ensures within { IfOk result AreProperArgs }

    // Such arguments are read, unless memory runs out.
    ensures only { (x : List values.Value) → AreProperArgs x → bytes.now ≡ canon_args (λ f. f) x → IsOrMemory result x }

    // A refusal is at the item at which reading stops.
    ensures place { IfRefused result (λ at. StopsAt bytes.now (read_all spec.read_args bytes.now) at) }
{
    whole(bytes, args(alloc, begin(bytes)))
}
