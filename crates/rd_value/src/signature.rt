ghost use Rattle.std.specs.Prelude.{◌≡◌, IfOk};

use crate::value::Value;
use rd_base::{Copies, Items, OutOfMemory, Text};
use std::alloc::Global;

/// A parameter of a task.
#[derive(PartialEq, Eq, Hash, Drop)]
pub struct Parameter {
    pub name: Text,
    pub default: Option<Value>,
}

pub type Parameters = Items<Parameter>;

/// What a task takes.
#[derive(PartialEq, Eq, Hash, Drop)]
pub struct Signature {
    pub parameters: Parameters,
}

impl Copies for Parameter {
    fn copy(&self, alloc: Global) -> Result<Parameter, OutOfMemory> {
        let default = match &self.default {
            Some(value) => Some(value.copy(alloc)?),
            None => None,
        };
        Ok(Parameter {
            name: self.name.copy(alloc)?,
            default,
        })
    }
}

impl Copies for Signature {
    fn copy(&self, alloc: Global) -> Result<Signature, OutOfMemory> {
        Ok(Signature {
            parameters: self.parameters.copy(alloc)?,
        })
    }
}
