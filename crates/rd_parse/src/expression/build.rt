//! Trees of parts that were read.

ghost use Rattle.std.specs.Prelude.{◌≡◌, IfOk, ◌∷◌};
ghost use Rattle.rd_parse.specs.Expressions.{anded, called, chained, comp, ored, with_part};
ghost use Rattle.rd_tree.specs.declared.tree.Node.TheVariants as node;

use crate::expression::Tree;
use crate::expression::arguments::{Given, sorted};
use rd_base::{Boxed, Items, OutOfMemory, Text};
use rd_tree::{Comparison, Name, Node, Operator};
use std::alloc::Global;

/// One operand alone, or a chain.
#[tactic(auto, using(crate::proofs::Built::chain_alone, crate::proofs::Built::chain_of))]
pub fn chained(alloc: Global, first: Tree, rest: Vec<(Operator, Tree)>) -> Result<Tree, OutOfMemory>
    ensures { IfOk result (λ e. e ≡ chained first rest.items) }
{
    if rest.is_empty() {
        return Ok(first);
    }
    Ok(Node::Chain {
        first: Boxed::new(alloc, first)?,
        rest: Items::from_vec(alloc, rest)?,
    })
}

/// The first operand before the others.
fn in_front(alloc: Global, first: Tree, more: Vec<Tree>) -> Result<Items<Tree>, OutOfMemory>
    ensures { IfOk result (λ it. it ≡ first ∷ more.items) }
{
    let mut all = more;
    all.insert(0, first)?;
    Items::from_vec(alloc, all)
}

/// One operand alone, or all of them with `and` between them.
#[tactic(auto, using(crate::proofs::Built::and_alone, crate::proofs::Built::and_of))]
pub fn anded(alloc: Global, first: Tree, more: Vec<Tree>) -> Result<Tree, OutOfMemory>
    ensures { IfOk result (λ e. e ≡ anded first more.items) }
{
    if more.is_empty() {
        return Ok(first);
    }
    Ok(Node::And(in_front(alloc, first, more)?))
}

/// One operand alone, or all of them with `or` between them.
#[tactic(auto, using(crate::proofs::Built::or_alone, crate::proofs::Built::or_of))]
pub fn ored(alloc: Global, first: Tree, more: Vec<Tree>) -> Result<Tree, OutOfMemory>
    ensures { IfOk result (λ e. e ≡ ored first more.items) }
{
    if more.is_empty() {
        return Ok(first);
    }
    Ok(Node::Or(in_front(alloc, first, more)?))
}

/// The conditional of its first expression with its test and the other one.
pub fn cond(alloc: Global, first: Tree, choice: (Tree, Tree)) -> Result<Tree, OutOfMemory>
    ensures { IfOk result (λ e. e ≡ node.Cond choice.0 first choice.1) }
{
    Ok(Node::Cond {
        test: Boxed::new(alloc, choice.0)?,
        when_true: Boxed::new(alloc, first)?,
        when_false: Boxed::new(alloc, choice.1)?,
    })
}

pub fn compared(alloc: Global, left: Tree, side: (Comparison, Tree)) -> Result<Tree, OutOfMemory>
    ensures { IfOk result (λ e. e ≡ node.Compare side.0 left side.1) }
{
    Ok(Node::Compare {
        operator: side.0,
        left: Boxed::new(alloc, left)?,
        right: Boxed::new(alloc, side.1)?,
    })
}

/// What stands behind a receiver.
#[derive(Drop)]
pub enum Part {
    Index(Tree),
    Method(Text, Items<Tree>),
    Path,
}

pub fn with_part(alloc: Global, receiver: Tree, part: Part) -> Result<Tree, OutOfMemory>
    ensures { IfOk result (λ e. e ≡ with_part receiver part) }
{
    let receiver = Boxed::new(alloc, receiver)?;
    match part {
        Part::Index(index) => Ok(Node::Index {
            receiver,
            index: Boxed::new(alloc, index)?,
        }),
        Part::Method(name, arguments) => Ok(Node::Method {
            receiver,
            name,
            arguments,
        }),
        Part::Path => Ok(Node::Path(receiver)),
    }
}

/// The name of a comprehension and what it goes through, and its condition.
pub type Clause = ((Name, Tree), Items<Tree>);

/// A list of each element.
pub fn comp(alloc: Global, element: Tree, clause: Clause) -> Result<Tree, OutOfMemory>
    ensures { IfOk result (λ e. e ≡ comp element clause) }
{
    let ((name, iterable), condition) = clause;
    Ok(Node::Comp {
        element: Boxed::new(alloc, element)?,
        name,
        iterable: Boxed::new(alloc, iterable)?,
        condition,
    })
}

/// A call with the arguments in their order.
pub fn called(alloc: Global, name: Name, all: Vec<Given>) -> Result<Tree, OutOfMemory>
    ensures { IfOk result (λ e. e ≡ called name all.items) }
{
    let all = sorted(alloc, all)?;
    Ok(Node::Call {
        name,
        positional: Items::from_vec(alloc, all.positional)?,
        keywords: Items::from_vec(alloc, all.keywords)?,
    })
}
