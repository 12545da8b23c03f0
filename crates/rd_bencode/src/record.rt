//! What is recorded of calls and executions.

use rd_base::{Copies, Digest, Items, OutOfMemory, Path, Seen, Text};
use rd_value::expr::Expr;
use rd_value::failure::Failure;
use std::alloc::Global;

/// A call: the digests of its task's structure and of its arguments.
#[derive(Clone, Copy, Debug, PartialEq, Eq, Hash)]
pub struct CallKey {
    pub task: Digest,
    pub args: Digest,
}

impl Copies for CallKey {
    fn copy(&self, _alloc: Global) -> Result<CallKey, OutOfMemory> {
        Ok(*self)
    }
}

/// Full names of tasks, each with the digest of its structure.
pub type NamedDigests = Items<(Text, Digest)>;

/// Paths, each with what stood there.
pub type SeenPaths = Items<(Path, Seen)>;

/// Paths, each with the digest of what was written there.
pub type PathDigests = Items<(Path, Digest)>;

pub type CallKeys = Items<CallKey>;

pub type Jobs = Items<Job>;

/// All that an evaluation looked at, and what it wrote.
#[derive(Drop)]
pub struct Footprint {
    pub tasks: NamedDigests,
    pub inputs: SeenPaths,
    pub writes: PathDigests,
}

impl Copies for Footprint {
    fn copy(&self, alloc: Global) -> Result<Footprint, OutOfMemory> {
        Ok(Footprint {
            tasks: self.tasks.copy(alloc)?,
            inputs: self.inputs.copy(alloc)?,
            writes: self.writes.copy(alloc)?,
        })
    }
}

/// How a job came to its outcome.
#[derive(Clone, Copy, Debug, PartialEq, Eq, Hash)]
pub enum JobState {
    Run,
    /// Its body's outcome was taken from a row.
    Reused,
    /// The outcome of the whole call was taken from a row.
    Skipped,
}

/// A call of an execution. The parent is 0 for the root, and else the number of the job that called it.
#[derive(Clone, Copy, Debug, PartialEq, Eq, Hash)]
pub struct Job {
    pub parent: u32,
    pub key: CallKey,
    pub state: JobState,
}

impl Copies for Job {
    fn copy(&self, _alloc: Global) -> Result<Job, OutOfMemory> {
        Ok(*self)
    }
}

/// How an execution ended: with a value of this digest, or with a failure.
#[derive(PartialEq, Eq, Hash, Drop)]
pub enum Ending {
    Value(Digest),
    Failed(Failure),
}

impl Copies for Ending {
    fn copy(&self, alloc: Global) -> Result<Ending, OutOfMemory> {
        match self {
            Ending::Value(digest) => Ok(Ending::Value(*digest)),
            Ending::Failed(failure) => Ok(Ending::Failed(failure.copy(alloc)?)),
        }
    }
}

/// One run of a root expression. The serial is the number of executions before it.
#[derive(Drop)]
pub struct Execution {
    pub serial: u64,
    pub moment: u64,
    pub root: Expr,
    pub ending: Ending,
    pub jobs: Jobs,
}

impl Copies for Execution {
    fn copy(&self, alloc: Global) -> Result<Execution, OutOfMemory> {
        Ok(Execution {
            serial: self.serial,
            moment: self.moment,
            root: self.root.copy(alloc)?,
            ending: self.ending.copy(alloc)?,
            jobs: self.jobs.copy(alloc)?,
        })
    }
}
