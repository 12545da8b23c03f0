//! Trees with other names.

ghost use Rattle.std.specs.Prelude.{◌≡◌, IfOk, map};
ghost use Rattle.rd_tree.specs.declared.tree.Node.TheVariants as variant;
ghost use Rattle.rd_code.specs.Renaming.{renamed, renamed_keyword, renamed_link, renamed_pair};

mod statement;

use rd_base::{Boxed, Copies, Items, OutOfMemory, Text};
use rd_tree::{Comparison, Node, Operator};
pub use statement::renamed_block;
use std::alloc::Global;

/// A way to give names other names.
pub trait Renaming<N, M> {
    ghost renamed: { Self → N → M };

    fn name(&self, alloc: Global, name: &N) -> Result<M, OutOfMemory>
        ensures { IfOk result (λ m. m ≡ renamed self.now name.now) };
}

#[cycle(nodes)]
pub fn renamed_node<N, M: Drop, R: Renaming<N, M>>(
    alloc: Global,
    by: &R,
    node: &Node<N>,
) -> Result<Node<M>, OutOfMemory>
    ensures { IfOk result (λ m. m ≡ renamed (R.renamed by.now) node.now) }
{
    match node {
        Node::Lit(value) => Ok(Node::Lit(value.copy(alloc)?)),
        Node::Name(name) => Ok(Node::Name(by.name(alloc, name)?)),
        Node::Call {
            name,
            positional,
            keywords,
        } => renamed_call(alloc, by, name, positional.as_slice(), keywords.as_slice()),
        Node::Method {
            receiver,
            name,
            arguments,
        } => renamed_method(alloc, by, receiver, name, arguments.as_slice()),
        Node::Index { receiver, index } => renamed_index(alloc, by, receiver, index),
        Node::Path(receiver) => Ok(Node::Path(renamed_boxed(alloc, by, receiver)?)),
        Node::Neg(operand) => Ok(Node::Neg(renamed_boxed(alloc, by, operand)?)),
        Node::Not(operand) => Ok(Node::Not(renamed_boxed(alloc, by, operand)?)),
        Node::Chain { first, rest } => renamed_chain(alloc, by, first, rest.as_slice()),
        Node::Compare {
            operator,
            left,
            right,
        } => renamed_comparison(alloc, by, *operator, left, right),
        Node::And(operands) => Ok(Node::And(renamed_nodes(alloc, by, operands.as_slice())?)),
        Node::Or(operands) => Ok(Node::Or(renamed_nodes(alloc, by, operands.as_slice())?)),
        Node::Cond {
            test,
            when_true,
            when_false,
        } => renamed_choice(alloc, by, test, when_true, when_false),
        Node::List(items) => Ok(Node::List(renamed_nodes(alloc, by, items.as_slice())?)),
        Node::Dict(pairs) => Ok(Node::Dict(renamed_pairs(alloc, by, pairs.as_slice())?)),
        Node::Comp {
            element,
            name,
            iterable,
            condition,
        } => renamed_comprehension(alloc, by, element, name, iterable, condition.as_slice()),
    }
}

#[cycle(nodes)]
fn renamed_call<N, M: Drop, R: Renaming<N, M>>(
    alloc: Global,
    by: &R,
    name: &N,
    positional: &[Node<N>],
    keywords: &[(N, Node<N>)],
) -> Result<Node<M>, OutOfMemory>
    ensures { let r = R.renamed by.now in
        IfOk result (λ m. m ≡ variant.Call (r name.now) (map (renamed r) positional.now) (map (renamed_keyword r) keywords.now)) }
{
    Ok(Node::Call {
        name: by.name(alloc, name)?,
        positional: renamed_nodes(alloc, by, positional)?,
        keywords: renamed_keywords(alloc, by, keywords)?,
    })
}

#[cycle(nodes)]
fn renamed_method<N, M: Drop, R: Renaming<N, M>>(
    alloc: Global,
    by: &R,
    receiver: &Boxed<Node<N>>,
    name: &Text,
    arguments: &[Node<N>],
) -> Result<Node<M>, OutOfMemory>
    ensures { let r = R.renamed by.now in
        IfOk result (λ m. m ≡ variant.Method (renamed r receiver.now) name.now (map (renamed r) arguments.now)) }
{
    Ok(Node::Method {
        receiver: renamed_boxed(alloc, by, receiver)?,
        name: name.copy(alloc)?,
        arguments: renamed_nodes(alloc, by, arguments)?,
    })
}

#[cycle(nodes)]
fn renamed_index<N, M: Drop, R: Renaming<N, M>>(
    alloc: Global,
    by: &R,
    receiver: &Boxed<Node<N>>,
    index: &Boxed<Node<N>>,
) -> Result<Node<M>, OutOfMemory>
    ensures { let r = R.renamed by.now in
        IfOk result (λ m. m ≡ variant.Index (renamed r receiver.now) (renamed r index.now)) }
{
    Ok(Node::Index {
        receiver: renamed_boxed(alloc, by, receiver)?,
        index: renamed_boxed(alloc, by, index)?,
    })
}

#[cycle(nodes)]
fn renamed_chain<N, M: Drop, R: Renaming<N, M>>(
    alloc: Global,
    by: &R,
    first: &Boxed<Node<N>>,
    rest: &[(Operator, Node<N>)],
) -> Result<Node<M>, OutOfMemory>
    ensures { let r = R.renamed by.now in
        IfOk result (λ m. m ≡ variant.Chain (renamed r first.now) (map (renamed_link r) rest.now)) }
{
    Ok(Node::Chain {
        first: renamed_boxed(alloc, by, first)?,
        rest: renamed_links(alloc, by, rest)?,
    })
}

#[cycle(nodes)]
fn renamed_comparison<N, M: Drop, R: Renaming<N, M>>(
    alloc: Global,
    by: &R,
    operator: Comparison,
    left: &Boxed<Node<N>>,
    right: &Boxed<Node<N>>,
) -> Result<Node<M>, OutOfMemory>
    ensures { let r = R.renamed by.now in
        IfOk result (λ m. m ≡ variant.Compare operator (renamed r left.now) (renamed r right.now)) }
{
    Ok(Node::Compare {
        operator,
        left: renamed_boxed(alloc, by, left)?,
        right: renamed_boxed(alloc, by, right)?,
    })
}

#[cycle(nodes)]
fn renamed_choice<N, M: Drop, R: Renaming<N, M>>(
    alloc: Global,
    by: &R,
    test: &Boxed<Node<N>>,
    when_true: &Boxed<Node<N>>,
    when_false: &Boxed<Node<N>>,
) -> Result<Node<M>, OutOfMemory>
    ensures { let r = R.renamed by.now in
        IfOk result (λ m. m ≡ variant.Cond (renamed r test.now) (renamed r when_true.now) (renamed r when_false.now)) }
{
    Ok(Node::Cond {
        test: renamed_boxed(alloc, by, test)?,
        when_true: renamed_boxed(alloc, by, when_true)?,
        when_false: renamed_boxed(alloc, by, when_false)?,
    })
}

#[cycle(nodes)]
fn renamed_comprehension<N, M: Drop, R: Renaming<N, M>>(
    alloc: Global,
    by: &R,
    element: &Boxed<Node<N>>,
    name: &N,
    iterable: &Boxed<Node<N>>,
    condition: &[Node<N>],
) -> Result<Node<M>, OutOfMemory>
    ensures { let r = R.renamed by.now in
        IfOk result (λ m. m ≡ variant.Comp (renamed r element.now) (r name.now) (renamed r iterable.now) (map (renamed r) condition.now)) }
{
    Ok(Node::Comp {
        condition: renamed_nodes(alloc, by, condition)?,
        element: renamed_boxed(alloc, by, element)?,
        name: by.name(alloc, name)?,
        iterable: renamed_boxed(alloc, by, iterable)?,
    })
}

#[cycle(nodes)]
fn renamed_boxed<N, M: Drop, R: Renaming<N, M>>(
    alloc: Global,
    by: &R,
    node: &Boxed<Node<N>>,
) -> Result<Boxed<Node<M>>, OutOfMemory>
    ensures { IfOk result (λ m. m ≡ renamed (R.renamed by.now) node.now) }
{
    Boxed::new(alloc, renamed_node(alloc, by, node.get())?)
}

#[cycle(nodes)]
fn renamed_nodes<N, M: Drop, R: Renaming<N, M>>(
    alloc: Global,
    by: &R,
    nodes: &[Node<N>],
) -> Result<Items<Node<M>>, OutOfMemory>
    ensures { IfOk result (λ ms. ms ≡ map (renamed (R.renamed by.now)) nodes.now) }
{
    let mut all = Vec::new(alloc);
    for node in nodes {
        all.push(renamed_node(alloc, by, node)?)?;
    }
    Items::from_vec(alloc, all)
}

#[cycle(nodes)]
fn renamed_keywords<N, M: Drop, R: Renaming<N, M>>(
    alloc: Global,
    by: &R,
    keywords: &[(N, Node<N>)],
) -> Result<Items<(M, Node<M>)>, OutOfMemory>
    ensures { IfOk result (λ ms. ms ≡ map (renamed_keyword (R.renamed by.now)) keywords.now) }
{
    let mut all = Vec::new(alloc);
    for keyword in keywords {
        all.push((
            by.name(alloc, &keyword.0)?,
            renamed_node(alloc, by, &keyword.1)?,
        ))?;
    }
    Items::from_vec(alloc, all)
}

#[cycle(nodes)]
fn renamed_links<N, M: Drop, R: Renaming<N, M>>(
    alloc: Global,
    by: &R,
    links: &[(Operator, Node<N>)],
) -> Result<Items<(Operator, Node<M>)>, OutOfMemory>
    ensures { IfOk result (λ ms. ms ≡ map (renamed_link (R.renamed by.now)) links.now) }
{
    let mut all = Vec::new(alloc);
    for link in links {
        all.push((link.0, renamed_node(alloc, by, &link.1)?))?;
    }
    Items::from_vec(alloc, all)
}

#[cycle(nodes)]
fn renamed_pairs<N, M: Drop, R: Renaming<N, M>>(
    alloc: Global,
    by: &R,
    pairs: &[(Node<N>, Node<N>)],
) -> Result<Items<(Node<M>, Node<M>)>, OutOfMemory>
    ensures { IfOk result (λ ms. ms ≡ map (renamed_pair (R.renamed by.now)) pairs.now) }
{
    let mut all = Vec::new(alloc);
    for pair in pairs {
        all.push((
            renamed_node(alloc, by, &pair.0)?,
            renamed_node(alloc, by, &pair.1)?,
        ))?;
    }
    Items::from_vec(alloc, all)
}
