ghost use Rattle.std.specs.Prelude.{◌≡◌, ◌≤◌, ℕ, List, [], take, true, false, IfOk, OnOk, OnErr, IsErr};
ghost use Rattle.std.specs.declared.option.Option.{Option};
ghost use Rattle.std.specs.declared.option.Option.TheVariants.{Some};
ghost use Rattle.rd_base.specs.Causes.{Rose};
ghost use Rattle.rd_base.specs.Faults.{none_planned, failing_at, fails_next, with_call, with_fault};
ghost use Rattle.rd_base.specs.Sink.{added, taken, IsFront};

use crate::faults::Faults;
use crate::memory::OutOfMemory;
use std::alloc::Global;
use std::marker::Model;

/// The error of a sink that took nothing.
#[derive(Clone, Copy, Debug, PartialEq, Eq)]
pub struct SinkFailed;

/// Where printed texts go.
pub trait Sink {
    /// The bytes written so far, where the sink tells them.
    ghost written: { Self → Option (List ℕ) };

    /// How many faults there were.
    ghost faults: { Self → ℕ };

    /// Writes the first so many bytes of a piece.
    fn write(&mut self, bytes: &[u8]) -> Result<usize, SinkFailed>
        ensures front { IfOk result (λ n. IsFront bytes.now n) }
        ensures ok { IfOk result (λ n. written self.new ≡ added (written self.old) (take n bytes.now)) }
        ensures err { OnErr result (written self.new ≡ written self.old) }
        ensures cause { OnErr result (Rose (faults self.old) (faults self.new)) }
        ensures never_falls { faults self.old ≤ faults self.new };
}

/// A sink that keeps what is written to it.
#[derive(Debug, Drop)]
pub struct MemorySink {
    bytes: Vec<u8>,
    is_narrow: bool,
    faults: Faults,
}

impl Model for MemorySink {
    ghost use Rattle.rd_base.specs.Sink.{Kept};

    ghost Value = { Kept };

    ghost view = { λ s. record { bytes = s.bytes.items; narrow = s.is_narrow; faults = s.faults } };
}

impl MemorySink {
    pub fn new(alloc: Global) -> MemorySink
        ensures { result ≡ record { bytes = []; narrow = false; faults = none_planned } }
    {
        MemorySink {
            bytes: Vec::new(alloc),
            is_narrow: false,
            faults: Faults::new(alloc),
        }
    }

    /// Makes the write of this number fail, the first being 1.
    pub fn fail_at(&mut self, _alloc: Global, number: u64) -> Result<(), OutOfMemory>
        ensures ok { OnOk result (self.new ≡ record self.old { faults = failing_at self.old.faults number }) }
        ensures err { OnErr result (self.new ≡ self.old) }
    {
        self.faults.fail_at(number)
    }

    /// From now on each write takes one byte.
    pub fn narrow(&mut self)
        ensures { self.new ≡ record self.old { narrow = true } }
    {
        self.is_narrow = true;
    }

    /// What was written.
    pub fn bytes(&self) -> &[u8]
        ensures { result.now ≡ self.now.bytes }
    {
        self.bytes.as_slice()
    }
}

impl Sink for MemorySink {
    ghost written = { λ s. Some s.bytes };

    ghost faults = { λ s. s.faults.count };

    /// A write that finds no memory fails too, and is counted.
    fn write(&mut self, bytes: &[u8]) -> Result<usize, SinkFailed>
        ensures front { IfOk result (λ n. IsFront bytes.now n) }
        ensures ok { IfOk result (λ n. Some self.new.bytes ≡ added (Some self.old.bytes) (take n bytes.now)) }
        ensures err { OnErr result (Some self.new.bytes ≡ Some self.old.bytes) }
        ensures cause { OnErr result (Rose self.old.faults.count self.new.faults.count) }
        ensures never_falls { self.old.faults.count ≤ self.new.faults.count }
        ensures planned { fails_next self.old.faults ≡ true → IsErr result }
        ensures taken { IfOk result (λ n. n ≡ taken self.old.narrow bytes.now) }
        ensures stays { self.new.narrow ≡ self.old.narrow }
        ensures counted { OnOk result (self.new.faults ≡ with_call self.old.faults) }
        ensures failed { OnErr result (self.new.faults ≡ with_fault (with_call self.old.faults)) }
    {
        if self.faults.begin_call() {
            return Err(SinkFailed);
        }
        let piece = if self.is_narrow && bytes.len() > 1 {
            &bytes[..1]
        } else {
            bytes
        };
        match self.bytes.extend_from_slice(piece) {
            Ok(()) => Ok(piece.len()),
            Err(_) => {
                self.faults.add();
                Err(SinkFailed)
            }
        }
    }
}
