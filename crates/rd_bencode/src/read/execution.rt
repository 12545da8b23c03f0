//! Executions from their canonical bytes.

ghost use Rattle.std.specs.Prelude.{◌≡◌, IfOk};
ghost use Rattle.rd_bencode.specs.declared.record.Execution.{Execution};
ghost use Rattle.rd_bencode.specs.Lists.{read_each};
ghost use Rattle.rd_bencode.specs.ProperRecords.{IsProperExecution};
ghost use Rattle.rd_bencode.specs.Reader.{Gives, place};
ghost use Rattle.rd_bencode.specs.RecordReaders as spec;
ghost use Rattle.rd_bencode.specs.Records.{canon_execution};
ghost use Rattle.rd_bencode.specs.Whole.{IfRefused, IsOrMemory, StopsAt, read_all};

use crate::read::children::call_key;
use crate::read::error::ReadError;
use crate::read::expr::expr;
use crate::read::item::{begins_item, close, natural, open};
use crate::read::meaning::{class, digest, text};
use crate::read::spot::{Halt, Read, Spot};
use crate::read::whole::{begin, whole};
use crate::record::{Ending, Execution, Job, JobState, Jobs};
use rd_base::Items;
use rd_value::expr::Expr;
use rd_value::failure::Failure;
use rd_value::limits::{MAX_DEPTH, MAX_SIZE};
use std::alloc::Global;

/// An expression within the limits.
#[tactic(auto, unfolding(crate::specs::RecordReaders::read_root))]
fn root<'a>(alloc: Global, spot: Spot<'a>) -> Read<'a, Expr>
    ensures { Gives (λ x. (x.0, place x.1)) result (spec.read_root (place spot.entry)) }
{
    let (expr, spot) = expr(alloc, MAX_DEPTH as usize, spot)?;
    if expr.size() > MAX_SIZE {
        return Err(Halt::Refused(spot.last));
    }
    Ok((expr, spot))
}

#[tactic(auto, unfolding(crate::specs::RecordReaders::read_failure))]
fn failure<'a>(alloc: Global, spot: Spot<'a>) -> Read<'a, Failure>
    ensures { Gives (λ x. (x.0, place x.1)) result (spec.read_failure (place spot.entry)) }
{
    let (class, spot) = class(spot)?;
    let (message, spot) = text(alloc, spot)?;
    let (origin, spot) = text(alloc, spot)?;
    Ok((
        Failure {
            class,
            text: message,
            origin,
        },
        spot,
    ))
}

#[tactic(auto, unfolding(crate::specs::RecordReaders::read_value_ending))]
fn value_ending<'a>(spot: Spot<'a>) -> Read<'a, Ending>
    ensures { Gives (λ x. (x.0, place x.1)) result (spec.read_value_ending (place spot.entry)) }
{
    let (digest, spot) = digest(spot)?;
    Ok((Ending::Value(digest), spot))
}

#[tactic(auto, unfolding(crate::specs::RecordReaders::read_failed_ending))]
fn failed_ending<'a>(alloc: Global, spot: Spot<'a>) -> Read<'a, Ending>
    ensures { Gives (λ x. (x.0, place x.1)) result (spec.read_failed_ending (place spot.entry)) }
{
    let (failure, spot) = failure(alloc, spot)?;
    Ok((Ending::Failed(failure), spot))
}

/// What stands behind the number of an ending.
#[tactic(auto, unfolding(crate::specs::RecordReaders::read_ending_kind))]
fn ending_kind<'a>(alloc: Global, n: u64, spot: Spot<'a>) -> Read<'a, Ending>
    ensures { Gives (λ x. (x.0, place x.1)) result (spec.read_ending_kind n (place spot.entry)) }
{
    match n {
        0 => value_ending(spot),
        1 => failed_ending(alloc, spot),
        _ => Err(Halt::Refused(spot.last)),
    }
}

#[tactic(auto, unfolding(crate::specs::RecordReaders::read_ending))]
fn ending<'a>(alloc: Global, spot: Spot<'a>) -> Read<'a, Ending>
    ensures { Gives (λ x. (x.0, place x.1)) result (spec.read_ending (place spot.entry)) }
{
    let spot = open(spot)?;
    let (n, spot) = natural(spot)?;
    let (ending, spot) = ending_kind(alloc, n, spot)?;
    let spot = close(spot)?;
    Ok((ending, spot))
}

#[tactic(auto, unfolding(crate::specs::RecordReaders::read_parent))]
fn parent<'a>(spot: Spot<'a>) -> Read<'a, u32>
    ensures { Gives (λ x. (x.0, place x.1)) result (spec.read_parent (place spot.entry)) }
{
    let (n, spot) = natural(spot)?;
    match u32::try_from(n) {
        Ok(parent) => Ok((parent, spot)),
        Err(_) => Err(Halt::Refused(spot.last)),
    }
}

fn state_in(n: u64) -> Option<JobState>
    ensures { result ≡ spec.state_of n }
{
    match n {
        0 => Some(JobState::Run),
        1 => Some(JobState::Reused),
        2 => Some(JobState::Skipped),
        _ => None,
    }
}

#[tactic(auto, unfolding(crate::specs::RecordReaders::read_state))]
fn state<'a>(spot: Spot<'a>) -> Read<'a, JobState>
    ensures { Gives (λ x. (x.0, place x.1)) result (spec.read_state (place spot.entry)) }
{
    let (n, spot) = natural(spot)?;
    match state_in(n) {
        Some(state) => Ok((state, spot)),
        None => Err(Halt::Refused(spot.last)),
    }
}

#[tactic(auto, unfolding(crate::specs::RecordReaders::read_job))]
fn job<'a>(spot: Spot<'a>) -> Read<'a, Job>
    ensures { Gives (λ x. (x.0, place x.1)) result (spec.read_job tt (place spot.entry)) }
{
    let spot = open(spot)?;
    let (parent, spot) = parent(spot)?;
    let (key, spot) = call_key(spot)?;
    let (state, spot) = state(spot)?;
    let spot = close(spot)?;
    Ok((Job { parent, key, state }, spot))
}

fn listed_jobs<'a>(alloc: Global, spot: Spot<'a>) -> Read<'a, Vec<Job>>
    ensures { Gives (λ x. (x.0.items, place x.1)) result (read_each spec.read_job spec.plain tt (place spot.entry)) }
{
    let mut all = Vec::new(alloc);
    let mut here = spot;
    for _ in 0..spot.rest.len() {
        if !begins_item(here.rest) {
            return Ok((all, here));
        }
        let (item, next) = job(here)?;
        all.push(item)?;
        here = next;
    }
    Ok((all, here))
}

#[tactic(auto, unfolding(crate::specs::RecordReaders::read_jobs))]
fn jobs<'a>(alloc: Global, spot: Spot<'a>) -> Read<'a, Jobs>
    ensures { Gives (λ x. (x.0, place x.1)) result (spec.read_jobs (place spot.entry)) }
{
    let spot = open(spot)?;
    let (all, spot) = listed_jobs(alloc, spot)?;
    let spot = close(spot)?;
    Ok((Items::from_vec(alloc, all)?, spot))
}

#[tactic(auto, unfolding(crate::specs::RecordReaders::read_execution))]
fn execution<'a>(alloc: Global, spot: Spot<'a>) -> Read<'a, Execution>
    ensures { Gives (λ x. (x.0, place x.1)) result (spec.read_execution (place spot.entry)) }
{
    let spot = open(spot)?;
    let (serial, spot) = natural(spot)?;
    let (moment, spot) = natural(spot)?;
    let (root, spot) = root(alloc, spot)?;
    let (ending, spot) = ending(alloc, spot)?;
    let (jobs, spot) = jobs(alloc, spot)?;
    let spot = close(spot)?;
    Ok((
        Execution {
            serial,
            moment,
            root,
            ending,
            jobs,
        },
        spot,
    ))
}

/// The execution that has these canonical bytes.
pub fn read_execution(alloc: Global, bytes: &[u8]) -> Result<Execution, ReadError>
    // The input is its canonical bytes.
    ensures found { IfOk result (λ x. bytes.now ≡ canon_execution x) }

    // A program can hold it, and it keeps the rules of its kind.
    ensures within { IfOk result IsProperExecution }

    // Such a record is read, unless memory runs out.
    ensures only { (x : Execution) → IsProperExecution x → bytes.now ≡ canon_execution x → IsOrMemory result x }

    // A refusal is at the item at which reading stops.
    ensures place { IfRefused result (λ at. StopsAt bytes.now (read_all spec.read_execution bytes.now) at) }
{
    whole(bytes, execution(alloc, begin(bytes)))
}
