//! Fresh evaluation, and the run of a workflow from the words to the printed line.
#![tactic(auto)]

mod command;
mod disk;
mod evaluate;
mod lazies;
mod print;
mod serial;
mod shown;
mod source;

pub use disk::{Disk, DiskError, Folder, Found, LONGEST_FILE, MemoryDisk};
pub use serial::redun_serial;
pub use source::one_module;
