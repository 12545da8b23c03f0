//! The module of the parts that were read.

ghost use Rattle.std.specs.Prelude.{◌≡◌, IfOk};
ghost use Rattle.rd_parse.specs.Modules.{module_of};

use rd_base::{Items, OutOfMemory};
use rd_tree::{Function, Module, Name};
use std::alloc::Global;

/// A part of a module.
#[derive(Drop)]
pub enum Part {
    /// What leaves nothing behind.
    Silent,
    Namespace(Name),
    Defined(Function),
}

pub fn module_of(alloc: Global, parts: Vec<Part>) -> Result<Module, OutOfMemory>
    ensures { IfOk result (λ m. m ≡ module_of parts.items) }
{
    let mut namespaces = Vec::new(alloc);
    let mut functions = Vec::new(alloc);
    for part in parts {
        match part {
            Part::Silent => {}
            Part::Namespace(name) => namespaces.push(name)?,
            Part::Defined(function) => functions.push(function)?,
        }
    }
    Ok(Module {
        namespaces: Items::from_vec(alloc, namespaces)?,
        functions: Items::from_vec(alloc, functions)?,
    })
}
