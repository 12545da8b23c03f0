//! The names that are local to a function.

ghost use Rattle.std.specs.Prelude.{◌≡◌, OnOk, map};
ghost use Rattle.rd_names.specs.Names.{with_names};
ghost use Rattle.rd_names.specs.Uses as spec;

use indexmap::IndexSet;
use rd_base::{Copies, Items, OutOfMemory, Text};
use rd_tree::{Name, Node, Statement};
use std::alloc::Global;

/// Adds the names to which a block gives values.
#[cycle(locals)]
#[tactic(auto, using(crate::proofs::NameSets::with_both))]
pub(crate) fn add_assigned(
    alloc: Global,
    body: &[Statement<Name>],
    locals: &mut IndexSet<Text>,
) -> Result<(), OutOfMemory>
    ensures { OnOk result (locals.new.keys ≡ with_names locals.old.keys (spec.assigned_in body.now)) }
{
    for statement in body {
        add_of_statement(alloc, statement, locals)?;
    }
    Ok(())
}

#[cycle(locals)]
#[tactic(auto, using(crate::proofs::NameSets::with_both))]
fn add_of_statement(
    alloc: Global,
    statement: &Statement<Name>,
    locals: &mut IndexSet<Text>,
) -> Result<(), OutOfMemory>
    ensures { OnOk result (locals.new.keys ≡ with_names locals.old.keys (spec.assigned statement.now)) }
{
    match statement {
        Statement::Assign { name, .. } => {
            locals.insert(name.text.copy(alloc)?)?;
            Ok(())
        }
        Statement::For { name, body, .. } => {
            locals.insert(name.text.copy(alloc)?)?;
            add_assigned(alloc, body.as_slice(), locals)
        }
        Statement::While { body, .. } => add_assigned(alloc, body.as_slice(), locals),
        Statement::If {
            branches,
            otherwise,
        } => {
            add_of_branches(alloc, branches.as_slice(), locals)?;
            add_assigned(alloc, otherwise.as_slice(), locals)
        }
        _ => Ok(()),
    }
}

#[cycle(locals)]
#[tactic(auto, using(crate::proofs::NameSets::with_both))]
fn add_of_branches(
    alloc: Global,
    branches: &[(Node<Name>, Items<Statement<Name>>)],
    locals: &mut IndexSet<Text>,
) -> Result<(), OutOfMemory>
    ensures { OnOk result (locals.new.keys ≡ with_names locals.old.keys (spec.joined (map (λ b. spec.assigned_in b.1) branches.now))) }
{
    for branch in branches {
        add_assigned(alloc, branch.1.as_slice(), locals)?;
    }
    Ok(())
}
