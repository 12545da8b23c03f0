//! The registry of a module.

ghost use Rattle.std.specs.Prelude.{ℕ, List, IfErr, IfOk, IfSome, None, OnOk, Option, Some, if◌then◌else◌, option_copied};
ghost use Rattle.std.specs.Option.{option_or};
ghost use Rattle.rd_tree.specs.declared.tree.Function.{Function};
ghost use Rattle.rd_tree.specs.declared.tree.Module.{Module};
ghost use Rattle.rd_names.specs.Names as names;
ghost use Rattle.rd_names.specs.Names.{KeepsNames};
ghost use Rattle.rd_names.specs.Refusals.{IsFirst, told};
ghost use Rattle.rd_registry.specs.Bodies.{is_named, task_among, task_name_by};
ghost use Rattle.rd_registry.specs.Registry.{Coded, Registers, code_in};
ghost use Rattle.rd_registry.specs.Resolved.{callees_by, helpers_by};

use crate::code::code_of;
use crate::functions::{Functions, first_functions, task_name};
use crate::registry::{MOST_TASKS, Registry, Tasks};
use crate::task::Task;
use indexmap::IndexMap;
use rd_base::{Copies, OutOfMemory, Text};
use rd_code::put_first;
use rd_names::{RegisterError, check_names, first_namespace};
use rd_tree::{Function, Module};
use std::alloc::Global;

/// Puts the code of a function under its full name, if it is a task and none stands there.
fn add_task(
    alloc: Global,
    space: Option<&Text>,
    functions: &Functions,
    function: &Function,
    tasks: &mut Tasks,
) -> Result<(), OutOfMemory>
    ensures { let name = task_name_by (option_copied space.entry) function.now.name.text function.now.task in let rule = Coded (helpers_by functions.now) (callees_by functions.now) (option_copied space.entry) in
        OnOk result ((text : List ℕ) (found : Option Function) → rule found (code_in tasks.old text) → rule (option_or found (if is_named text name then Some function.now else None)) (code_in tasks.new text)) }
{
    let Some(name) = task_name(alloc, space, function)? else {
        return Ok(());
    };
    let code = code_of(alloc, functions, name.copy(alloc)?, function)?;
    put_first(tasks, name, Task::new(alloc, code)?)
}

/// The code of the first task of each full name.
fn tasks_of(
    alloc: Global,
    space: Option<&Text>,
    functions: &Functions,
    all: &[Function],
) -> Result<Tasks, OutOfMemory>
    ensures { IfOk result (λ tasks. (text : List ℕ) → Coded (helpers_by functions.now) (callees_by functions.now) (option_copied space.entry) (task_among (option_copied space.entry) all.now text) (code_in tasks text)) }
{
    let mut tasks = IndexMap::new(alloc);
    for function in all {
        add_task(alloc, space, functions, function, &mut tasks)?;
    }
    Ok(tasks)
}

fn registered(alloc: Global, module: &Module) -> Result<Registry, OutOfMemory>
    ensures { IfOk result (λ registry. Registers «module».now registry) }
{
    let all = module.functions.as_slice();
    let space = first_namespace(module.namespaces.as_slice());
    let functions = first_functions(alloc, space, all)?;
    let tasks = tasks_of(alloc, space, &functions, all)?;
    if tasks.len() > MOST_TASKS {
        return Err(OutOfMemory);
    }
    Ok(Registry { functions, tasks })
}

/// The tasks of a module, where its names keep the rules, and else the first place where they don't.
pub fn register(alloc: Global, module: &Module) -> Result<Registry, RegisterError>
    ensures registered { IfOk result (λ registry. Registers «module».now registry) }
    ensures kept { IfOk result (λ registry. KeepsNames «module».now) }
    ensures broken { IfErr result (λ e. IfSome (told e) (λ r. ¬ KeepsNames «module».now)) }
    ensures refused { IfErr result (λ e. IfSome (told e) (λ r. IsFirst r (names.refusals «module».now))) }
{
    check_names(alloc, module)?;
    Ok(registered(alloc, module)?)
}
