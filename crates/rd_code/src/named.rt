//! The names that a task uses, and its helpers.

use rd_base::{Copies, Items, OutOfMemory, Text};
use rd_tree::Block;
use rd_value::signature::Parameters;
use std::alloc::Global;

/// What a name that isn't local is.
#[derive(Clone, Copy, Debug, PartialEq, Eq)]
pub enum UseKind {
    Task,
    Helper,
    Builtin,
    ErrorClass,
}

/// A name that is used and isn't local.
#[derive(PartialEq, Eq, Drop)]
pub struct NamedUse {
    pub name: Text,
    pub kind: UseKind,
    /// The full name of a task, and empty for every other kind.
    pub task: Text,
}

impl Copies for NamedUse {
    fn copy(&self, alloc: Global) -> Result<NamedUse, OutOfMemory> {
        Ok(NamedUse {
            name: self.name.copy(alloc)?,
            kind: self.kind,
            task: self.task.copy(alloc)?,
        })
    }
}

pub type NamedUses = Items<NamedUse>;

/// A function that is no task.
#[derive(PartialEq, Eq, Drop)]
pub struct Helper {
    pub name: Text,
    pub parameters: Parameters,
    pub block: Block,
}

impl Copies for Helper {
    fn copy(&self, alloc: Global) -> Result<Helper, OutOfMemory> {
        Ok(Helper {
            name: self.name.copy(alloc)?,
            parameters: self.parameters.copy(alloc)?,
            block: self.block.copy(alloc)?,
        })
    }
}

pub type Helpers = Items<Helper>;
