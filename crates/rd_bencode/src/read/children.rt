//! The calls that a call made, from their canonical bytes.

ghost use Rattle.std.specs.Prelude.{◌≡◌, ◌++◌, ◌∷◌, [], List, IfOk};
ghost use Rattle.rd_bencode.specs.declared.record.CallKey.{CallKey};
ghost use Rattle.rd_bencode.specs.Lists.{read_each};
ghost use Rattle.rd_bencode.specs.ProperRecords.{AreProperChildren};
ghost use Rattle.rd_bencode.specs.Reader.{Gives, place};
ghost use Rattle.rd_bencode.specs.RecordReaders as spec;
ghost use Rattle.rd_bencode.specs.Records.{canon_children};
ghost use Rattle.rd_bencode.specs.Whole.{IfRefused, IsOrMemory, StopsAt, read_all};

use crate::read::error::ReadError;
use crate::read::item::{begins_item, close, open};
use crate::read::meaning::digest;
use crate::read::spot::{Halt, Read, Spot};
use crate::read::whole::{begin, whole};
use crate::record::{CallKey, CallKeys};
use indexmap::IndexSet;
use rd_base::Items;
use std::alloc::Global;

#[tactic(auto, unfolding(crate::specs::RecordReaders::read_call_key))]
pub(crate) fn call_key<'a>(spot: Spot<'a>) -> Read<'a, CallKey>
    ensures { Gives (λ x. (x.0, place x.1)) result (spec.read_call_key (place spot.entry)) }
{
    let (task, spot) = digest(spot)?;
    let (args, spot) = digest(spot)?;
    Ok((CallKey { task, args }, spot))
}

/// A call that none of these is, which it joins.
#[tactic(auto, unfolding(crate::specs::RecordReaders::read_new_call))]
fn new_call<'a>(calls: &mut IndexSet<CallKey>, spot: Spot<'a>) -> Read<'a, CallKey>
    ensures gives { Gives (λ x. (x.0, place x.1)) result (spec.read_new_call calls.old.keys (place spot.entry)) }
    ensures added { IfOk result (λ x. calls.new.keys ≡ calls.old.keys ++ x.0 ∷ []) }
{
    let (key, spot) = call_key(spot)?;
    if !calls.insert(key)? {
        return Err(Halt::Refused(spot.last));
    }
    Ok((key, spot))
}

#[tactic(auto, unfolding(crate::specs::RecordReaders::read_child))]
fn child<'a>(calls: &mut IndexSet<CallKey>, spot: Spot<'a>) -> Read<'a, CallKey>
    ensures gives { Gives (λ x. (x.0, place x.1)) result (spec.read_child calls.old.keys (place spot.entry)) }
    ensures added { IfOk result (λ x. calls.new.keys ≡ calls.old.keys ++ x.0 ∷ []) }
{
    let spot = open(spot)?;
    let (key, spot) = new_call(calls, spot)?;
    let spot = close(spot)?;
    Ok((key, spot))
}

/// Different calls.
fn calls<'a>(alloc: Global, spot: Spot<'a>) -> Read<'a, IndexSet<CallKey>>
    ensures { Gives (λ x. (x.0.keys, place x.1)) result (read_each spec.read_child spec.with_call [] (place spot.entry)) }
{
    let mut all = IndexSet::new(alloc);
    let mut here = spot;
    for _ in 0..spot.rest.len() {
        if !begins_item(here.rest) {
            return Ok((all, here));
        }
        let (_, next) = child(&mut all, here)?;
        here = next;
    }
    Ok((all, here))
}

#[tactic(auto, unfolding(crate::specs::RecordReaders::read_children))]
fn children<'a>(alloc: Global, spot: Spot<'a>) -> Read<'a, CallKeys>
    ensures { Gives (λ x. (x.0, place x.1)) result (spec.read_children (place spot.entry)) }
{
    let spot = open(spot)?;
    let (all, spot) = calls(alloc, spot)?;
    let spot = close(spot)?;
    Ok((Items::from_slice(alloc, all.as_slice())?, spot))
}

/// The calls that have these canonical bytes.
pub fn read_children(alloc: Global, bytes: &[u8]) -> Result<CallKeys, ReadError>
    // The input is their canonical bytes.
    ensures found { IfOk result (λ x. bytes.now ≡ canon_children x) }

    // A program can hold them, and they keep the rules of their kind.
    ensures within { IfOk result AreProperChildren }

    // Such calls are read, unless memory runs out.
    ensures only { (x : List CallKey) → AreProperChildren x → bytes.now ≡ canon_children x → IsOrMemory result x }

    // A refusal is at the item at which reading stops.
    ensures place { IfRefused result (λ at. StopsAt bytes.now (read_all spec.read_children bytes.now) at) }
{
    whole(bytes, children(alloc, begin(bytes)))
}
