//! The functions of a module, by their names.

ghost use Rattle.std.specs.Prelude.{◌≡◌, OnOk, IfOk, []};
ghost use Rattle.rd_names.specs.Names as spec;

use indexmap::IndexSet;
use rd_base::{Copies, OutOfMemory, Text};
use rd_tree::Function;
use std::alloc::Global;

/// The names of a module's functions, and those of its tasks.
#[derive(Drop)]
pub(crate) struct Known {
    pub functions: IndexSet<Text>,
    pub tasks: IndexSet<Text>,
}

fn add_own_task(
    alloc: Global,
    function: &Function,
    tasks: &mut IndexSet<Text>,
) -> Result<(), OutOfMemory>
    ensures { OnOk result (tasks.new.keys ≡ spec.with_names tasks.old.keys (spec.own_task function.now)) }
{
    if function.task.is_some() {
        tasks.insert(function.name.text.copy(alloc)?)?;
    }
    Ok(())
}

/// The names of the functions that are tasks.
pub(crate) fn own_tasks(
    alloc: Global,
    functions: &[Function],
) -> Result<IndexSet<Text>, OutOfMemory>
    ensures { IfOk result (λ set. set.keys ≡ spec.with_names [] (spec.own_tasks functions.now)) }
{
    let mut tasks = IndexSet::new(alloc);
    for function in functions {
        add_own_task(alloc, function, &mut tasks)?;
    }
    Ok(tasks)
}
