//! Where files are read: the trait, its disk in memory, and the current folder.

ghost use Rattle.std.specs.Prelude.{◌≡◌, ◌≤◌, ℕ};
ghost use Rattle.std.specs.declared.option.Option.{Option};
ghost use Rattle.rd_base.specs.Causes.{Rose};
ghost use Rattle.rd_top.specs.Files.{Files};
ghost use Rattle.rd_top.specs.Disk.{Finds};

mod folder;
mod memory;
#[cfg(test)]
mod tests;

pub use folder::Folder;
pub use memory::MemoryDisk;
use rd_base::{Bytes, Path};
use std::alloc::Global;

/// The greatest number of bytes of a file that is read.
pub const LONGEST_FILE: usize = 16777216;

/// What a read finds at a path.
#[derive(Debug, Drop)]
pub enum Found {
    Absent,
    /// A file of more than 16,777,216 bytes.
    Long,
    Bytes(Bytes),
}

/// Why a disk does nothing.
#[derive(Clone, Copy, Debug, PartialEq, Eq)]
pub enum DiskError {
    Failed,
    OutOfMemory,
}

/// Where files are.
pub trait Disk {
    /// The files, where the disk tells them.
    ghost files: { Self → Option Files };

    /// How many faults there were.
    ghost faults: { Self → ℕ };

    fn read(&mut self, alloc: Global, path: &Path) -> Result<Found, DiskError>
        ensures found { Finds (files self.old) path.now result }
        ensures same { files self.new ≡ files self.old }
        ensures cause { result ≡ Err DiskError.Failed → Rose (faults self.old) (faults self.new) }
        ensures never_falls { faults self.old ≤ faults self.new };
}
