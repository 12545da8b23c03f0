//! Tasks with the digests of their structures.

ghost use Rattle.std.specs.Prelude.{◌≡◌, IfOk};
ghost use Rattle.std.specs.Arc.{arc_value};
ghost use Rattle.rd_structure.specs.Structure as structure;

use rd_base::{Digest, OutOfMemory};
use rd_bencode::{Kind, digest_of};
use rd_code::TaskCode;
use rd_structure::write_structure;
use std::alloc::Global;
use std::sync::Arc;

/// The place of a task in its registry. The first task of the source has the number 0.
#[derive(Clone, Copy, Debug, PartialEq, Eq)]
pub struct TaskId(pub u32);

/// The code of a task, and the digest of its structure.
#[derive(Drop)]
pub struct Task {
    pub code: Arc<TaskCode, Global>,
    pub digest: Digest,
    ghost digested: { digest.0 ≡ structure.digest_of (arc_value code) },
}

impl Task {
    /// The digest is computed once, here.
    pub fn new(alloc: Global, code: TaskCode) -> Result<Task, OutOfMemory>
        ensures { IfOk result (λ task. arc_value task.code ≡ code) }
    {
        let structure = write_structure(alloc, &code)?;
        let digest = digest_of(Kind::Task, structure.as_slice());
        Ok(Task {
            code: Arc::new(alloc, code)?,
            digest,
        })
    }
}
