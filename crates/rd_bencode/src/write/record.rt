//! The canonical bytes of records.

ghost use Rattle.std.specs.Prelude.{◌≡◌, ◌++◌, OnOk, IfOk, map};
ghost use Rattle.rd_bencode.specs.Records as spec;

use crate::record::{CallKey, CallKeys, Ending, Execution, Footprint, Job, JobState, PathDigests};
use crate::write::expr::push_expr;
use crate::write::string::{push_digest, push_number, push_text};
use crate::write::value::push_items;
use rd_base::{Bytes, Digest, OutOfMemory, Path, Seen, Text};
use rd_value::failure::Failure;
use rd_value::value::Values;
use std::alloc::Global;

fn push_under_digest(out: &mut Vec<u8>, text: &str, digest: &Digest) -> Result<(), OutOfMemory>
    ensures { OnOk result (out.new.items ≡ out.old.items ++ spec.under_digest (text.now, digest.now)) }
{
    out.push(b'l')?;
    push_text(out, text)?;
    push_digest(out, digest)?;
    out.push(b'e')?;
    Ok(())
}

fn push_tasks(out: &mut Vec<u8>, tasks: &[(Text, Digest)]) -> Result<(), OutOfMemory>
    ensures { OnOk result (out.new.items ≡ out.old.items ++ spec.listed (map spec.under_digest tasks.now)) }
{
    out.push(b'l')?;
    for (name, digest) in tasks {
        push_under_digest(out, name.as_str(), digest)?;
    }
    out.push(b'e')?;
    Ok(())
}

fn push_writes(out: &mut Vec<u8>, writes: &[(Path, Digest)]) -> Result<(), OutOfMemory>
    ensures { OnOk result (out.new.items ≡ out.old.items ++ spec.canon_writes writes.now) }
{
    out.push(b'l')?;
    for (path, digest) in writes {
        push_under_digest(out, path.as_str(), digest)?;
    }
    out.push(b'e')?;
    Ok(())
}

fn push_seen(out: &mut Vec<u8>, seen: &Seen) -> Result<(), OutOfMemory>
    ensures { OnOk result (out.new.items ≡ out.old.items ++ spec.seen seen.now) }
{
    match seen {
        Seen::Absent => push_number(out, 0),
        Seen::Long => push_number(out, 1),
        Seen::Held(digest) => push_digest(out, digest),
    }
}

fn push_inputs(out: &mut Vec<u8>, inputs: &[(Path, Seen)]) -> Result<(), OutOfMemory>
    ensures { OnOk result (out.new.items ≡ out.old.items ++ spec.listed (map spec.seen_path inputs.now)) }
{
    out.push(b'l')?;
    for (path, seen) in inputs {
        out.push(b'l')?;
        push_text(out, path.as_str())?;
        push_seen(out, seen)?;
        out.push(b'e')?;
    }
    out.push(b'e')?;
    Ok(())
}

fn push_keys(out: &mut Vec<u8>, keys: &[CallKey]) -> Result<(), OutOfMemory>
    ensures { OnOk result (out.new.items ≡ out.old.items ++ spec.listed (map spec.call_key keys.now)) }
{
    out.push(b'l')?;
    for key in keys {
        out.push(b'l')?;
        push_digest(out, &key.task)?;
        push_digest(out, &key.args)?;
        out.push(b'e')?;
    }
    out.push(b'e')?;
    Ok(())
}

fn push_failure(out: &mut Vec<u8>, failure: &Failure) -> Result<(), OutOfMemory>
    ensures { OnOk result (out.new.items ≡ out.old.items ++ spec.failure failure.now) }
{
    push_text(out, failure.class.name())?;
    push_text(out, failure.text.as_str())?;
    push_text(out, failure.origin.as_str())
}

fn push_ending(out: &mut Vec<u8>, ending: &Ending) -> Result<(), OutOfMemory>
    ensures { OnOk result (out.new.items ≡ out.old.items ++ spec.canon_ending ending.now) }
{
    out.push(b'l')?;
    match ending {
        Ending::Value(digest) => {
            push_number(out, 0)?;
            push_digest(out, digest)?;
        }
        Ending::Failed(failure) => {
            push_number(out, 1)?;
            push_failure(out, failure)?;
        }
    }
    out.push(b'e')?;
    Ok(())
}

fn number_of(state: JobState) -> u64
    ensures { result ≡ spec.state_number state }
{
    match state {
        JobState::Run => 0,
        JobState::Reused => 1,
        JobState::Skipped => 2,
    }
}

fn push_job(out: &mut Vec<u8>, job: &Job) -> Result<(), OutOfMemory>
    ensures { OnOk result (out.new.items ≡ out.old.items ++ spec.job job.now) }
{
    out.push(b'l')?;
    push_number(out, u64::from(job.parent))?;
    push_digest(out, &job.key.task)?;
    push_digest(out, &job.key.args)?;
    push_number(out, number_of(job.state))?;
    out.push(b'e')?;
    Ok(())
}

fn push_jobs(out: &mut Vec<u8>, jobs: &[Job]) -> Result<(), OutOfMemory>
    ensures { OnOk result (out.new.items ≡ out.old.items ++ spec.listed (map spec.job jobs.now)) }
{
    out.push(b'l')?;
    for job in jobs {
        push_job(out, job)?;
    }
    out.push(b'e')?;
    Ok(())
}

/// The canonical bytes of bound arguments.
pub fn write_args(alloc: Global, args: &Values) -> Result<Bytes, OutOfMemory>
    ensures { IfOk result (λ bytes. bytes ≡ spec.canon_args (λ f. f) args.now) }
{
    let mut out = Vec::new(alloc);
    out.push(b'l')?;
    push_items(&mut out, args.as_slice())?;
    out.push(b'e')?;
    Bytes::from_vec(alloc, out)
}

/// The canonical bytes of written files.
pub fn write_writes(alloc: Global, writes: &PathDigests) -> Result<Bytes, OutOfMemory>
    ensures { IfOk result (λ bytes. bytes ≡ spec.canon_writes writes.now) }
{
    let mut out = Vec::new(alloc);
    push_writes(&mut out, writes.as_slice())?;
    Bytes::from_vec(alloc, out)
}

/// The canonical bytes of the calls that a call made.
pub fn write_children(alloc: Global, children: &CallKeys) -> Result<Bytes, OutOfMemory>
    ensures { IfOk result (λ bytes. bytes ≡ spec.canon_children children.now) }
{
    let mut out = Vec::new(alloc);
    push_keys(&mut out, children.as_slice())?;
    Bytes::from_vec(alloc, out)
}

/// The canonical bytes of a footprint.
pub fn write_footprint(alloc: Global, footprint: &Footprint) -> Result<Bytes, OutOfMemory>
    ensures { IfOk result (λ bytes. bytes ≡ spec.canon_footprint footprint.now) }
{
    let mut out = Vec::new(alloc);
    out.push(b'l')?;
    push_tasks(&mut out, footprint.tasks.as_slice())?;
    push_inputs(&mut out, footprint.inputs.as_slice())?;
    push_writes(&mut out, footprint.writes.as_slice())?;
    out.push(b'e')?;
    Bytes::from_vec(alloc, out)
}

/// The canonical bytes of an execution.
pub fn write_execution(alloc: Global, execution: &Execution) -> Result<Bytes, OutOfMemory>
    ensures { IfOk result (λ bytes. bytes ≡ spec.canon_execution execution.now) }
{
    let mut out = Vec::new(alloc);
    out.push(b'l')?;
    push_number(&mut out, execution.serial)?;
    push_number(&mut out, execution.moment)?;
    push_expr(&mut out, &execution.root)?;
    push_ending(&mut out, &execution.ending)?;
    push_jobs(&mut out, execution.jobs.as_slice())?;
    out.push(b'e')?;
    Bytes::from_vec(alloc, out)
}
