//! Statements with other names.

ghost use Rattle.std.specs.Prelude.{◌≡◌, IfOk, map};
ghost use Rattle.rd_code.specs.Renaming.{renamed_part, renamed_statement};

use crate::renaming::{Renaming, renamed_node};
use rd_base::{Items, OutOfMemory};
use rd_tree::{Node, Statement};
use std::alloc::Global;

type Branch<N> = (Node<N>, Items<Statement<N>>);

#[cycle(statements)]
pub fn renamed_statement<N, M: Drop, R: Renaming<N, M>>(
    alloc: Global,
    by: &R,
    statement: &Statement<N>,
) -> Result<Statement<M>, OutOfMemory>
    ensures { IfOk result (λ m. m ≡ renamed_statement (R.renamed by.now) statement.now) }
{
    match statement {
        Statement::Assign { name, value } => Ok(Statement::Assign {
            name: by.name(alloc, name)?,
            value: renamed_node(alloc, by, value)?,
        }),
        Statement::For {
            name,
            iterable,
            body,
        } => Ok(Statement::For {
            body: renamed_block(alloc, by, body.as_slice())?,
            name: by.name(alloc, name)?,
            iterable: renamed_node(alloc, by, iterable)?,
        }),
        Statement::While { test, body } => Ok(Statement::While {
            body: renamed_block(alloc, by, body.as_slice())?,
            test: renamed_node(alloc, by, test)?,
        }),
        Statement::If {
            branches,
            otherwise,
        } => Ok(Statement::If {
            branches: renamed_branches(alloc, by, branches.as_slice())?,
            otherwise: renamed_block(alloc, by, otherwise.as_slice())?,
        }),
        Statement::Return(Some(value)) => Ok(Statement::Return(Some(renamed_node(
            alloc, by, value,
        )?))),
        Statement::Return(None) => Ok(Statement::Return(None)),
        Statement::Raise { class, text } => Ok(Statement::Raise {
            class: by.name(alloc, class)?,
            text: renamed_node(alloc, by, text)?,
        }),
        Statement::Pass => Ok(Statement::Pass),
        Statement::Expr(value) => Ok(Statement::Expr(renamed_node(alloc, by, value)?)),
    }
}

#[cycle(statements)]
pub fn renamed_block<N, M: Drop, R: Renaming<N, M>>(
    alloc: Global,
    by: &R,
    statements: &[Statement<N>],
) -> Result<Items<Statement<M>>, OutOfMemory>
    ensures { IfOk result (λ ms. ms ≡ map (renamed_statement (R.renamed by.now)) statements.now) }
{
    let mut all = Vec::new(alloc);
    for statement in statements {
        all.push(renamed_statement(alloc, by, statement)?)?;
    }
    Items::from_vec(alloc, all)
}

#[cycle(statements)]
fn renamed_branches<N, M: Drop, R: Renaming<N, M>>(
    alloc: Global,
    by: &R,
    branches: &[Branch<N>],
) -> Result<Items<Branch<M>>, OutOfMemory>
    ensures { IfOk result (λ ms. ms ≡ map (renamed_part (R.renamed by.now)) branches.now) }
{
    let mut all = Vec::new(alloc);
    for branch in branches {
        all.push((
            renamed_node(alloc, by, &branch.0)?,
            renamed_block(alloc, by, branch.1.as_slice())?,
        ))?;
    }
    Items::from_vec(alloc, all)
}
