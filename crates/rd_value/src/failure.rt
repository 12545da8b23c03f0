ghost use Rattle.std.specs.Prelude.{◌≡◌, IfOk};

use crate::class::Class;
use crate::value::Value;
use rd_base::{Copies, OutOfMemory, Text};
use std::alloc::Global;

/// Why a workflow failed. The origin is the full name of the task in whose body or binding the error
/// was raised, and empty for an error of another expression.
#[derive(PartialEq, Eq, Hash, Drop)]
pub struct Failure {
    pub class: Class,
    pub text: Text,
    pub origin: Text,
}

/// What an evaluation came to.
#[derive(PartialEq, Eq, Hash, Drop)]
pub enum Outcome {
    Value(Value),
    Failed(Failure),
}

impl Copies for Failure {
    fn copy(&self, alloc: Global) -> Result<Failure, OutOfMemory> {
        Ok(Failure {
            class: self.class,
            text: self.text.copy(alloc)?,
            origin: self.origin.copy(alloc)?,
        })
    }
}

impl Copies for Outcome {
    fn copy(&self, alloc: Global) -> Result<Outcome, OutOfMemory> {
        match self {
            Outcome::Value(value) => Ok(Outcome::Value(value.copy(alloc)?)),
            Outcome::Failed(failure) => Ok(Outcome::Failed(failure.copy(alloc)?)),
        }
    }
}
