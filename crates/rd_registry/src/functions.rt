//! The functions of a module by their names.

ghost use Rattle.std.specs.Prelude.{◌≡◌, ◌<◌, ◌+◌, ◌^◌, ℕ, List, IfOk, option_copied};
ghost use Rattle.std.specs.Str.{bytes_eq};
ghost use Rattle.indexmap.specs.IndexMap.{get};
ghost use Rattle.rd_registry.specs.Bodies as bodies;
ghost use Rattle.rd_registry.specs.Functions as spec;

use crate::tree::helper_of;
use indexmap::IndexMap;
use rd_base::{Copies, OutOfMemory, Text};
use rd_code::{Helper, put_first};
use rd_names::full_name;
use rd_routine::Callee;
use rd_tree::Function;
use std::alloc::Global;

/// What a function is to those that call it, and its parts where it is a helper.
#[derive(Drop)]
pub struct Found {
    pub callee: Callee,
    pub helper: Option<Helper>,
}

/// The first function of each name.
pub type Functions = IndexMap<Text, Found>;

/// The full name of a task.
pub fn task_name(
    alloc: Global,
    space: Option<&Text>,
    function: &Function,
) -> Result<Option<Text>, OutOfMemory>
    ensures { IfOk result (λ name. name ≡ bodies.task_name_by (option_copied space.entry) function.now.name.text function.now.task) }
{
    match &function.task {
        Some(options) => Ok(Some(full_name(
            alloc,
            space,
            options.as_slice(),
            &function.name.text,
        )?)),
        None => Ok(None),
    }
}

/// A function with so many helpers before it.
fn found_of(
    alloc: Global,
    space: Option<&Text>,
    function: &Function,
    place: usize,
) -> Result<Found, OutOfMemory>
    ensures { IfOk result (λ found. found ≡ spec.found_of (option_copied space.entry) place function.now) }
{
    match task_name(alloc, space, function)? {
        Some(name) => Ok(Found {
            callee: Callee::Task(name),
            helper: None,
        }),
        None => Ok(Found {
            callee: Callee::Helper(place),
            helper: Some(helper_of(alloc, function)?),
        }),
    }
}

/// So many helpers, and the function where it is one.
fn helpers_with(place: usize, function: &Function) -> usize
    requires { place + 1 < 2 ^ 64 }
    ensures { result ≡ bodies.helpers_with place function.now.task }
{
    match &function.task {
        Some(_) => place,
        None => place + 1,
    }
}

/// The first function of each name.
pub fn first_functions(
    alloc: Global,
    space: Option<&Text>,
    functions: &[Function],
) -> Result<Functions, OutOfMemory>
    ensures { IfOk result (λ found. (text : List ℕ) → get bytes_eq found text ≡ spec.found_among (option_copied space.entry) 0 functions.now text) }
{
    let mut all = IndexMap::new(alloc);
    let mut helpers: usize = 0;
    for function in functions {
        let found = found_of(alloc, space, function, helpers)?;
        put_first(&mut all, function.name.text.copy(alloc)?, found)?;
        helpers = helpers_with(helpers, function);
    }
    Ok(all)
}

/// The helper of a name.
pub fn helper_named<'a>(functions: &'a Functions, name: &Text) -> Option<&'a Helper>
    ensures { option_copied result ≡ spec.helper_in functions.now name.now }
{
    match functions.get(name) {
        Some(found) => found.helper.as_ref(),
        None => None,
    }
}
