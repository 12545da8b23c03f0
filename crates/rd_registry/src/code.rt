//! The code of tasks.

ghost use Rattle.std.specs.Prelude.{◌≡◌, ℕ, List, IfOk, map};
ghost use Rattle.std.specs.List.{Contains, IsDistinct};
ghost use Rattle.std.specs.Str.{bytes_eq};
ghost use Rattle.rd_registry.specs.Codes as spec;
ghost use Rattle.rd_registry.specs.Functions.{helper_in};
ghost use Rattle.rd_registry.specs.Resolved.{AreAscending, HasParts, Resolves, helpers_at, callees_by, helpers_by};

use crate::functions::{Functions, helper_named};
use crate::reach::{all_outside, reached};
use crate::tree::{block_of, parameters_of};
use rd_base::{Copies, Items, OutOfMemory, Text};
use rd_code::{Helpers, NamedUse, NamedUses, TaskCode, UseKind, built_in};
use rd_routine::Callee;
use rd_tree::{Block, Function};
use rd_value::signature::Signature;
use std::alloc::Global;
use std::cmp::Ordering;

/// Different texts in byte order.
fn ascending(alloc: Global, texts: &[Text]) -> Result<Vec<Text>, OutOfMemory>
    requires { IsDistinct bytes_eq texts.now }
    ensures all { IfOk result (λ sorted. (text : List ℕ) → Contains texts.now text → Contains sorted.items text) }
    ensures only { IfOk result (λ sorted. (text : List ℕ) → Contains sorted.items text → Contains texts.now text) }
    ensures ascend { IfOk result (λ sorted. AreAscending sorted.items) }
{
    let mut sorted = Vec::new(alloc);
    for text in texts {
        sorted.push(text.copy(alloc)?)?;
    }
    sorted.sort_unstable_by(|a: &Text, b: &Text| -> Ordering { a.as_str().cmp(b.as_str()) });
    Ok(sorted)
}

/// The helpers of these names.
fn helpers_of(alloc: Global, functions: &Functions, names: &[Text]) -> Result<Helpers, OutOfMemory>
    ensures { IfOk result (λ helpers. helpers ≡ helpers_at (helper_in functions.now) names.now) }
{
    let mut helpers = Vec::new(alloc);
    for name in names {
        if let Some(helper) = helper_named(functions, name) {
            helpers.push(helper.copy(alloc)?)?;
        }
    }
    Items::from_vec(alloc, helpers)
}

fn named(name: Text, kind: UseKind, task: Text) -> NamedUse
    ensures { result ≡ record { name = name; kind = kind; task = task } }
{
    NamedUse { name, kind, task }
}

/// What a function, or an error class where there is none, is by its name.
fn function_use(alloc: Global, functions: &Functions, name: &Text) -> Result<NamedUse, OutOfMemory>
    ensures { IfOk result (λ u. u ≡ spec.use_by name.now (callees_by functions.now name.now)) }
{
    let own = name.copy(alloc)?;
    match functions.get(name) {
        Some(found) => match &found.callee {
            Callee::Task(task) => Ok(named(own, UseKind::Task, task.copy(alloc)?)),
            Callee::Helper(_) => Ok(named(own, UseKind::Helper, Text::from_str(alloc, "")?)),
            _ => Ok(named(own, UseKind::ErrorClass, Text::from_str(alloc, "")?)),
        },
        None => Ok(named(own, UseKind::ErrorClass, Text::from_str(alloc, "")?)),
    }
}

/// What a name that isn't local is.
fn use_of(alloc: Global, functions: &Functions, name: &Text) -> Result<NamedUse, OutOfMemory>
    ensures { IfOk result (λ u. u ≡ spec.use_with (callees_by functions.now) name.now) }
{
    match built_in(name.as_str()) {
        Some(_) => {
            let empty = Text::from_str(alloc, "")?;
            Ok(named(name.copy(alloc)?, UseKind::Builtin, empty))
        }
        None => function_use(alloc, functions, name),
    }
}

fn uses_of(alloc: Global, functions: &Functions, names: &[Text]) -> Result<NamedUses, OutOfMemory>
    ensures { IfOk result (λ us. us ≡ map (spec.use_with (callees_by functions.now)) names.now) }
{
    let mut uses = Vec::new(alloc);
    for name in names {
        uses.push(use_of(alloc, functions, name)?)?;
    }
    Items::from_vec(alloc, uses)
}

/// The code of a task with these parts, whose names are resolved among the functions of its module.
fn resolved(
    alloc: Global,
    functions: &Functions,
    full_name: Text,
    signature: Signature,
    body: Block,
) -> Result<TaskCode, OutOfMemory>
    ensures parts { IfOk result (λ code. HasParts full_name signature body code) }
    ensures resolves { IfOk result (λ code. Resolves (helpers_by functions.now) (callees_by functions.now) code) }
{
    let names = reached(alloc, functions, body.as_slice())?;
    let names = ascending(alloc, names.as_slice())?;
    let helpers = helpers_of(alloc, functions, names.as_slice())?;
    let used = all_outside(alloc, body.as_slice(), helpers.as_slice())?;
    let used = ascending(alloc, used.as_slice())?;
    let uses = uses_of(alloc, functions, used.as_slice())?;
    TaskCode::new(alloc, full_name, signature, body, helpers, uses)
}

/// The code of a function as a task of this full name.
pub fn code_of(
    alloc: Global,
    functions: &Functions,
    full_name: Text,
    function: &Function,
) -> Result<TaskCode, OutOfMemory>
    ensures parts { IfOk result (λ code. HasParts full_name (spec.signature_of function.now) (spec.block_of function.now.body) code) }
    ensures resolves { IfOk result (λ code. Resolves (helpers_by functions.now) (callees_by functions.now) code) }
{
    let signature = Signature {
        parameters: parameters_of(alloc, function.parameters.as_slice())?,
    };
    let body = block_of(alloc, function.body.as_slice())?;
    resolved(alloc, functions, full_name, signature, body)
}
