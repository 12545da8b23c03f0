//! Functions with numbers in the place of names.

use crate::builtin::Builtin;
use crate::special::Special;
use rd_base::{Copies, Items, OutOfMemory, Text};
use rd_tree::Statement;
use rd_value::class::Class;
use rd_value::value::Value;
use std::alloc::Global;

/// The place of a name among the words of its function.
pub type Slot = usize;

/// What a name that is called stands for.
#[derive(PartialEq, Eq, Drop)]
pub enum Callee {
    /// A task, by its full name.
    Task(Text),
    /// A helper, by its place among those of the body.
    Helper(usize),
    Builtin(Builtin),
    Special(Special),
    Unknown,
}

impl Copies for Callee {
    fn copy(&self, alloc: Global) -> Result<Callee, OutOfMemory> {
        match self {
            Callee::Task(task) => Ok(Callee::Task(task.copy(alloc)?)),
            Callee::Helper(place) => Ok(Callee::Helper(*place)),
            Callee::Builtin(builtin) => Ok(Callee::Builtin(*builtin)),
            Callee::Special(special) => Ok(Callee::Special(*special)),
            Callee::Unknown => Ok(Callee::Unknown),
        }
    }
}

/// A name of a function.
#[derive(PartialEq, Eq, Drop)]
pub struct Word {
    pub spelling: Text,
    pub callee: Callee,
    /// The error class of this name.
    pub class: Option<Class>,
}

#[derive(PartialEq, Eq, Drop)]
pub struct Parameter {
    pub slot: Slot,
    pub default: Option<Value>,
}

#[derive(PartialEq, Eq, Drop)]
pub struct Routine {
    pub words: Items<Word>,
    pub parameters: Items<Parameter>,
    pub block: Items<Statement<Slot>>,
}
