ghost use Rattle.std.specs.Prelude.{◌≡◌, ◌≤◌, Some, true, OnOk, OnErr, IfOk, IfErr};
ghost use Rattle.std.specs.FinMap.{empty, insert};
ghost use Rattle.rd_base.specs.Causes.{Rose};
ghost use Rattle.rd_base.specs.Faults.{none_planned, failing_at, fails_next, after_call};
ghost use Rattle.rd_top.specs.Files.{files_of};
ghost use Rattle.rd_top.specs.Disk as spec;
ghost use Rattle.rd_top.specs.Disk.{Finds};

use super::{Disk, DiskError, Found, LONGEST_FILE};
use rd_base::{Bytes, Copies, Faults, OutOfMemory, Path};
use std::alloc::Global;
use std::collections::HashMap;
use std::marker::Model;

/// A disk in memory.
#[derive(Drop)]
pub struct MemoryDisk {
    contents: HashMap<Path, Bytes>,
    faults: Faults,
}

impl Model for MemoryDisk {
    ghost use Rattle.rd_top.specs.Files.{Kept, coded_kept, files_of};

    ghost Value = { Kept };

    ghost coded = { coded_kept };

    ghost view = { λ d. record { files = files_of d.contents.entries; faults = d.faults } };
}

impl MemoryDisk {
    /// A disk with no files.
    pub fn new(alloc: Global) -> MemoryDisk
        ensures { result ≡ record { files = empty; faults = none_planned } }
    {
        MemoryDisk {
            contents: HashMap::new(alloc),
            faults: Faults::new(alloc),
        }
    }

    /// Makes the call of this number fail, the first being 1. Reads and writes are counted together.
    pub fn fail_at(&mut self, _alloc: Global, number: u64) -> Result<(), OutOfMemory>
        ensures ok { OnOk result (self.new ≡ record self.old { faults = failing_at self.old.faults number }) }
        ensures err { OnErr result (self.new ≡ self.old) }
    {
        self.faults.fail_at(number)
    }

    /// Makes these bytes the file at the path.
    pub fn write(&mut self, alloc: Global, path: &Path, bytes: &[u8]) -> Result<(), DiskError>
        ensures ok { OnOk result (self.new.files ≡ insert self.old.files path.now bytes.now) }
        ensures err { OnErr result (self.new.files ≡ self.old.files) }
        ensures counted { self.new.faults ≡ after_call self.old.faults }
        ensures planned { fails_next self.old.faults ≡ true → result ≡ Err DiskError.Failed }
        ensures only_planned { result ≡ Err DiskError.Failed → fails_next self.old.faults ≡ true }
        ensures cause { result ≡ Err DiskError.Failed → Rose self.old.faults.count self.new.faults.count }
        ensures never_falls { self.old.faults.count ≤ self.new.faults.count }
    {
        if self.faults.begin_call() {
            return Err(DiskError::Failed);
        }
        match put(alloc, &mut self.contents, path, bytes) {
            Ok(()) => Ok(()),
            Err(OutOfMemory) => Err(DiskError::OutOfMemory),
        }
    }
}

/// A failed put changes nothing.
fn put(
    alloc: Global,
    contents: &mut HashMap<Path, Bytes>,
    path: &Path,
    bytes: &[u8],
) -> Result<(), OutOfMemory>
    ensures ok { OnOk result (files_of contents.new.entries ≡ insert (files_of contents.old.entries) path.now bytes.now) }
    ensures err { OnErr result (contents.new.entries ≡ contents.old.entries) }
{
    let path = path.copy(alloc)?;
    let bytes = Bytes::from_slice(alloc, bytes)?;
    contents.insert(path, bytes)?;
    Ok(())
}

impl Disk for MemoryDisk {
    ghost files = { λ d. Some d.files };

    ghost faults = { λ d. d.faults.count };

    /// Finding no memory is no fault.
    fn read(&mut self, alloc: Global, path: &Path) -> Result<Found, DiskError>
        ensures found { Finds (Some self.old.files) path.now result }
        ensures same { Some self.new.files ≡ Some self.old.files }
        ensures cause { result ≡ Err DiskError.Failed → Rose self.old.faults.count self.new.faults.count }
        ensures never_falls { self.old.faults.count ≤ self.new.faults.count }
        ensures counted { self.new.faults ≡ after_call self.old.faults }
        ensures planned { fails_next self.old.faults ≡ true → result ≡ Err DiskError.Failed }
        ensures only_planned { result ≡ Err DiskError.Failed → fails_next self.old.faults ≡ true }
    {
        if self.faults.begin_call() {
            return Err(DiskError::Failed);
        }
        match self.contents.get(path) {
            None => Ok(Found::Absent),
            Some(bytes) => found(alloc, bytes),
        }
    }
}

/// The bytes, where they are not too many.
fn found(alloc: Global, bytes: &Bytes) -> Result<Found, DiskError>
    ensures value { IfOk result (λ f. f ≡ spec.found (Some bytes.now)) }
    ensures err { IfErr result (λ e. e ≡ DiskError.OutOfMemory) }
{
    if bytes.len() > LONGEST_FILE {
        return Ok(Found::Long);
    }
    match bytes.copy(alloc) {
        Ok(bytes) => Ok(Found::Bytes(bytes)),
        Err(OutOfMemory) => Err(DiskError::OutOfMemory),
    }
}
