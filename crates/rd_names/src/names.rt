//! The rules of names.

ghost use Rattle.std.specs.Prelude.{◌≡◌, ◌++◌, [], IfOk, IfErr, IfSome, OnOk, map, drop, option_copied};
ghost use Rattle.rd_names.specs.Names as spec;
ghost use Rattle.rd_names.specs.Names.{told_by, KeepsNames};
ghost use Rattle.rd_names.specs.Options.{first_space, task_name};
ghost use Rattle.rd_names.specs.Refusals.{IsFirst, told};
ghost use Rattle.rd_names.specs.Uses.{joined};

use crate::known::{Known, own_tasks};
use crate::locals::add_assigned;
use crate::options::{full_name, is_accepted};
use crate::refusal::{Broken, Refusal, RegisterError, first};
use crate::repeats::note_name;
use crate::spelling::is_dotted;
use crate::uses::{is_builtin, is_error_class, judge_body};
use indexmap::IndexSet;
use rd_base::{Items, OutOfMemory, Text};
use rd_tree::{Function, Module, Name, Parameter, TaskOption};
use std::alloc::Global;

/// Refuses the name for a rule, unless the rule is kept.
fn require(kept: bool, rule: Broken, name: &Name, all: &mut Vec<Refusal>) -> Result<(), OutOfMemory>
    ensures { OnOk result (all.new.items ≡ all.old.items ++ spec.unless kept (spec.at rule name.now)) }
{
    if !kept {
        all.push(Refusal {
            rule,
            line: name.line,
        })?;
    }
    Ok(())
}

fn refuse_seconds(namespaces: &[Name], all: &mut Vec<Refusal>) -> Result<(), OutOfMemory>
    ensures { OnOk result (all.new.items ≡ all.old.items ++ map (spec.at Broken.DoubleName) namespaces.now) }
{
    for name in namespaces {
        all.push(Refusal {
            rule: Broken::DoubleName,
            line: name.line,
        })?;
    }
    Ok(())
}

fn judge_namespaces(namespaces: &[Name], all: &mut Vec<Refusal>) -> Result<(), OutOfMemory>
    ensures { OnOk result (all.new.items ≡ all.old.items ++ joined (map spec.namespace_refusals namespaces.now)) }
{
    for name in namespaces {
        require(is_dotted(name.text.as_str()), Broken::BadOption, name, all)?;
    }
    Ok(())
}

fn note_functions(
    alloc: Global,
    functions: &[Function],
    all: &mut Vec<Refusal>,
) -> Result<IndexSet<Text>, OutOfMemory>
    ensures names { IfOk result (λ set. set.keys ≡ spec.with_names [] (spec.texts (spec.function_names functions.now))) }
    ensures all { OnOk result (all.new.items ≡ all.old.items ++ spec.doubles [] (spec.function_names functions.now)) }
{
    let mut seen = IndexSet::new(alloc);
    for function in functions {
        note_name(alloc, &mut seen, &function.name, all)?;
    }
    Ok(seen)
}

/// The names of the functions, of which each but the first of its name is refused.
fn known_functions(
    alloc: Global,
    functions: &[Function],
    all: &mut Vec<Refusal>,
) -> Result<Known, OutOfMemory>
    ensures known { IfOk result (λ known. told_by known ≡ spec.known_of functions.now) }
    ensures all { OnOk result (all.new.items ≡ all.old.items ++ spec.doubles [] (spec.function_names functions.now)) }
{
    let names = note_functions(alloc, functions, all)?;
    let tasks = own_tasks(alloc, functions)?;
    Ok(Known {
        functions: names,
        tasks,
    })
}

fn is_free(name: &str) -> bool
    ensures { result ≡ spec.is_free name.now }
{
    !is_builtin(name) && !is_error_class(name)
}

fn judge_taken(functions: &[Function], all: &mut Vec<Refusal>) -> Result<(), OutOfMemory>
    ensures { OnOk result (all.new.items ≡ all.old.items ++ joined (map spec.taken_refusals functions.now)) }
{
    for function in functions {
        let name = &function.name;
        require(is_free(name.text.as_str()), Broken::DoubleName, name, all)?;
    }
    Ok(())
}

/// Notes the full name of a task.
fn note_task(
    alloc: Global,
    space: Option<&Text>,
    function: &Function,
    seen: &mut IndexSet<Text>,
    all: &mut Vec<Refusal>,
) -> Result<(), OutOfMemory>
    ensures seen { OnOk result (seen.new.keys ≡ spec.with_names seen.old.keys (spec.texts (task_name (option_copied space.entry) function.now))) }
    ensures all { OnOk result (all.new.items ≡ all.old.items ++ spec.doubles seen.old.keys (task_name (option_copied space.entry) function.now)) }
{
    match &function.task {
        None => Ok(()),
        Some(options) => {
            let text = full_name(alloc, space, options.as_slice(), &function.name.text)?;
            let line = function.name.line;
            note_name(alloc, seen, &Name { text, line }, all)
        }
    }
}

fn note_tasks(
    alloc: Global,
    space: Option<&Text>,
    functions: &[Function],
    all: &mut Vec<Refusal>,
) -> Result<(), OutOfMemory>
    ensures { OnOk result (all.new.items ≡ all.old.items ++ spec.doubles [] (spec.task_names (option_copied space.entry) functions.now)) }
{
    let mut seen = IndexSet::new(alloc);
    for function in functions {
        note_task(alloc, space, function, &mut seen, all)?;
    }
    Ok(())
}

fn note_options(
    alloc: Global,
    options: &[TaskOption],
    all: &mut Vec<Refusal>,
) -> Result<(), OutOfMemory>
    ensures { OnOk result (all.new.items ≡ all.old.items ++ spec.doubles [] (spec.option_names options.now)) }
{
    let mut seen = IndexSet::new(alloc);
    for option in options {
        note_name(alloc, &mut seen, &option.name, all)?;
    }
    Ok(())
}

fn judge_options(options: &[TaskOption], all: &mut Vec<Refusal>) -> Result<(), OutOfMemory>
    ensures { OnOk result (all.new.items ≡ all.old.items ++ joined (map spec.option_refusals options.now)) }
{
    for option in options {
        require(is_accepted(option), Broken::BadOption, &option.name, all)?;
    }
    Ok(())
}

fn judge_task(
    alloc: Global,
    task: &Option<Items<TaskOption>>,
    all: &mut Vec<Refusal>,
) -> Result<(), OutOfMemory>
    ensures { OnOk result (all.new.items ≡ all.old.items ++ spec.options_refusals task.now) }
{
    match task {
        None => Ok(()),
        Some(options) => {
            note_options(alloc, options.as_slice(), all)?;
            judge_options(options.as_slice(), all)
        }
    }
}

fn note_parameters(
    alloc: Global,
    parameters: &[Parameter],
    all: &mut Vec<Refusal>,
) -> Result<IndexSet<Text>, OutOfMemory>
    ensures names { IfOk result (λ set. set.keys ≡ spec.with_names [] (map (λ p. p.name.text) parameters.now)) }
    ensures all { OnOk result (all.new.items ≡ all.old.items ++ spec.doubles [] (spec.parameter_names parameters.now)) }
{
    let mut seen = IndexSet::new(alloc);
    for parameter in parameters {
        note_name(alloc, &mut seen, &parameter.name, all)?;
    }
    Ok(seen)
}

fn judge_function(
    alloc: Global,
    known: &Known,
    function: &Function,
    all: &mut Vec<Refusal>,
) -> Result<(), OutOfMemory>
    ensures { OnOk result (all.new.items ≡ all.old.items ++ spec.function_refusals (told_by known.now) function.now) }
{
    judge_task(alloc, &function.task, all)?;
    let mut locals = note_parameters(alloc, function.parameters.as_slice(), all)?;
    add_assigned(alloc, function.body.as_slice(), &mut locals)?;
    judge_body(alloc, known, &mut locals, function.body.as_slice(), all)
}

fn judge_functions(
    alloc: Global,
    known: &Known,
    functions: &[Function],
    all: &mut Vec<Refusal>,
) -> Result<(), OutOfMemory>
    ensures { OnOk result (all.new.items ≡ all.old.items ++ joined (map (spec.function_refusals (told_by known.now)) functions.now)) }
{
    for function in functions {
        judge_function(alloc, known, function, all)?;
    }
    Ok(())
}

/// The namespace that a module gives, if it gives one.
pub fn first_namespace(namespaces: &[Name]) -> Option<&Text>
    ensures { option_copied result ≡ first_space namespaces.now }
{
    match namespaces {
        [name, ..] => Some(&name.text),
        [] => None,
    }
}

fn judge_spaces(namespaces: &[Name], all: &mut Vec<Refusal>) -> Result<(), OutOfMemory>
    ensures { OnOk result (all.new.items ≡ all.old.items ++ (spec.second_refusals namespaces.now ++ joined (map spec.namespace_refusals namespaces.now))) }
{
    if let [_, others @ ..] = namespaces {
        refuse_seconds(others, all)?;
    }
    judge_namespaces(namespaces, all)
}

/// All refusals of a module.
fn judge_module(alloc: Global, module: &Module) -> Result<Vec<Refusal>, OutOfMemory>
    ensures { IfOk result (λ all. all.items ≡ spec.refusals «module».now) }
{
    let mut all = Vec::new(alloc);
    let namespaces = module.namespaces.as_slice();
    let functions = module.functions.as_slice();
    judge_spaces(namespaces, &mut all)?;
    let known = known_functions(alloc, functions, &mut all)?;
    judge_taken(functions, &mut all)?;
    note_tasks(alloc, first_namespace(namespaces), functions, &mut all)?;
    judge_functions(alloc, &known, functions, &mut all)?;
    Ok(all)
}

/// Whether the names of a module keep the rules, and else the first place where they don't.
pub fn check_names(alloc: Global, module: &Module) -> Result<(), RegisterError>
    ensures kept { IfOk result (λ u. KeepsNames «module».now) }
    ensures broken { IfErr result (λ e. IfSome (told e) (λ r. ¬ KeepsNames «module».now)) }
    ensures refused { IfErr result (λ e. IfSome (told e) (λ r. IsFirst r (spec.refusals «module».now))) }
{
    let all = judge_module(alloc, module)?;
    match first(all.as_slice()) {
        None => Ok(()),
        Some(refusal) => Err(refusal.error()),
    }
}
