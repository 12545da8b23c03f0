//! Printing through a sink.

ghost use Rattle.std.specs.Prelude.{◌≡◌, ◌≤◌, ◌<◌, ℕ, take, length, OnOk, OnErr};
ghost use Rattle.rd_base.specs.Causes.{Rose};
ghost use Rattle.rd_base.specs.Sink.{added};

use rd_base::{Sink, SinkFailed};

/// Writes a text whole. Where the sink fails, a proper front of it was written.
pub fn print<S: Sink>(out: &mut S, text: &str) -> Result<(), SinkFailed>
    ensures whole { OnOk result (S.written out.new ≡ added (S.written out.old) text.now) }
    ensures front { OnErr result ((n : ℕ) × (n < length text.now) × (S.written out.new ≡ added (S.written out.old) (take n text.now))) }
    ensures cause { OnErr result (Rose (S.faults out.old) (S.faults out.new)) }
    ensures never_falls { S.faults out.old ≤ S.faults out.new }
{
    let bytes = text.as_bytes();
    let mut done = 0;
    while done < bytes.len() {
        done += out.write(&bytes[done..])?;
    }
    Ok(())
}
