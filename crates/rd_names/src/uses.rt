//! Whether names are used by the rules.

ghost use Rattle.std.specs.Prelude.{◌≡◌, ◌++◌, [], ◌∷◌, true, not, ◌&&◌, OnOk, length, map, nat_eq};
ghost use Rattle.rd_tree.specs.declared.tree.Node.TheVariants as node;
ghost use Rattle.rd_names.specs.Names as spec;
ghost use Rattle.rd_names.specs.Names.{is_among, node_refusals, told_by};
ghost use Rattle.rd_names.specs.Uses.{is_operation, joined, keyword_names, returned_uses};

use crate::known::Known;
use crate::refusal::{Broken, Refusal};
use crate::repeats::note_name;
use crate::special::special_named;
use indexmap::IndexSet;
use rd_base::{Boxed, Copies, Items, OutOfMemory, Text};
use rd_routine::{Form, form_of};
use rd_tree::{Name, Node, Operator, Statement};
use std::alloc::Global;

fn is_offered(name: &str) -> bool
    ensures { result ≡ is_among spec.offered name.now }
{
    matches!(
        name,
        "len"
            | "str"
            | "int"
            | "range"
            | "sum"
            | "min"
            | "max"
            | "sorted"
            | "abs"
            | "cond"
            | "catch"
            | "map_"
    )
}

/// Whether a builtin has the name, also one that can't be called yet.
pub(crate) fn is_builtin(name: &str) -> bool
    ensures { result ≡ is_among spec.builtins name.now }
{
    is_offered(name) || name == "File"
}

pub(crate) fn is_error_class(name: &str) -> bool
    ensures { result ≡ is_among spec.error_classes name.now }
{
    matches!(
        name,
        "Exception"
            | "ValueError"
            | "TypeError"
            | "KeyError"
            | "IndexError"
            | "ZeroDivisionError"
            | "OverflowError"
            | "FileNotFoundError"
            | "PermissionError"
            | "RuntimeError"
            | "RecursionError"
            | "AttributeError"
            | "NameError"
            | "LimitError"
    )
}

fn is_callable(known: &Known, name: &Text, plain: bool) -> bool
    ensures { result ≡ spec.is_callable (told_by known.now).is_function name.now plain }
{
    if is_builtin(name.as_str()) {
        is_offered(name.as_str()) && plain
    } else {
        known.functions.contains(name)
    }
}

/// Whether the name of what may be called with these keywords stands there, and no local.
fn may_be_called(
    known: &Known,
    locals: &IndexSet<Text>,
    name: &Text,
    keywords: &[(Name, Node<Name>)],
) -> bool
    ensures { result ≡ spec.may_be_called (told_by known.now) (is_among locals.now.keys name.now) name.now (keyword_names keywords.now) }
{
    !locals.contains(name) && is_callable(known, name, keywords.is_empty())
}

/// Whether the name of a class stands there, and no local.
fn is_raisable(locals: &IndexSet<Text>, name: &Text) -> bool
    ensures { result ≡ (not (is_among locals.now.keys name.now) && is_among spec.error_classes name.now) }
{
    !locals.contains(name) && is_error_class(name.as_str())
}

/// Whether the name of a task stands there, and no local.
fn is_task(known: &Known, locals: &IndexSet<Text>, name: &Text) -> bool
    ensures { result ≡ (not (is_among locals.now.keys name.now) && (told_by known.now).is_task name.now) }
{
    !locals.contains(name) && known.tasks.contains(name)
}

/// Refuses the name, unless it is known.
fn expect(known: bool, name: &Name, all: &mut Vec<Refusal>) -> Result<(), OutOfMemory>
    ensures { OnOk result (all.new.items ≡ all.old.items ++ spec.unless known (spec.at Broken.UnknownName name.now)) }
{
    if !known {
        all.push(Refusal {
            rule: Broken::UnknownName,
            line: name.line,
        })?;
    }
    Ok(())
}

fn note_keywords(
    alloc: Global,
    keywords: &[(Name, Node<Name>)],
    all: &mut Vec<Refusal>,
) -> Result<(), OutOfMemory>
    ensures { OnOk result (all.new.items ≡ all.old.items ++ spec.doubles [] (keyword_names keywords.now)) }
{
    let mut seen = IndexSet::new(alloc);
    for keyword in keywords {
        note_name(alloc, &mut seen, &keyword.0, all)?;
    }
    Ok(())
}

/// Refuses the name that is called, unless it may be, and each keyword behind an equal one.
fn judge_called(
    alloc: Global,
    may: bool,
    name: &Name,
    keywords: &[(Name, Node<Name>)],
    all: &mut Vec<Refusal>,
) -> Result<(), OutOfMemory>
    ensures { OnOk result (all.new.items ≡ all.old.items ++ spec.call_refusals may name.now (keyword_names keywords.now)) }
{
    expect(may, name, all)?;
    note_keywords(alloc, keywords, all)
}

/// Judges the names in an expression.
#[cycle(nodes)]
fn judge_node(
    alloc: Global,
    known: &Known,
    locals: &mut IndexSet<Text>,
    node: &Node<Name>,
    all: &mut Vec<Refusal>,
) -> Result<(), OutOfMemory>
    ensures locals { OnOk result (locals.new.keys ≡ locals.old.keys) }
    ensures all { OnOk result (all.new.items ≡ all.old.items ++ node_refusals (told_by known.now) (is_among locals.old.keys) node.now) }
{
    match node {
        Node::Lit(_) => Ok(()),
        Node::Name(name) => expect(locals.contains(&name.text), name, all),
        Node::Call {
            name,
            positional,
            keywords,
        } => judge_call(alloc, known, locals, name, positional, keywords, all),
        Node::And(parts) | Node::Or(parts) | Node::List(parts) => {
            judge_nodes(alloc, known, locals, parts.as_slice(), all)
        }
        Node::Dict(pairs) => judge_pairs(alloc, known, locals, pairs.as_slice(), all),
        Node::Comp {
            element,
            name,
            iterable,
            condition,
        } => {
            judge_node(alloc, known, locals, iterable.get(), all)?;
            judge_within(alloc, known, locals, name, element, condition, all)
        }
        _ => judge_operation(alloc, known, locals, node, all),
    }
}

/// Judges the names in a call, by its form.
#[cycle(nodes)]
fn judge_call(
    alloc: Global,
    known: &Known,
    locals: &mut IndexSet<Text>,
    name: &Name,
    positional: &Items<Node<Name>>,
    keywords: &Items<(Name, Node<Name>)>,
    all: &mut Vec<Refusal>,
) -> Result<(), OutOfMemory>
    ensures locals { OnOk result (locals.new.keys ≡ locals.old.keys) }
    ensures all { let call = node.Call name.now positional.now keywords.now in
        OnOk result (all.new.items ≡ all.old.items ++ node_refusals (told_by known.now) (is_among locals.old.keys) call) }
{
    let positional = positional.as_slice();
    let keywords = keywords.as_slice();
    let may = may_be_called(known, locals, &name.text, keywords);
    match form_of(special_named(name.text.as_str()), positional, keywords) {
        Form::Plain => {
            judge_called(alloc, may, name, keywords, all)?;
            judge_arguments(alloc, known, locals, positional, keywords, all)
        }
        Form::Wrong => {
            judge_called(alloc, false, name, keywords, all)?;
            judge_arguments(alloc, known, locals, positional, keywords, all)
        }
        Form::Mapping { task, list } => {
            judge_called(alloc, may, name, keywords, all)?;
            expect(is_task(known, locals, &task.text), task, all)?;
            judge_node(alloc, known, locals, list, all)
        }
        Form::Catching {
            tried,
            class,
            recover,
        } => {
            judge_called(alloc, may, name, keywords, all)?;
            judge_node(alloc, known, locals, tried, all)?;
            expect(is_raisable(locals, &class.text), class, all)?;
            expect(is_task(known, locals, &recover.text), recover, all)
        }
    }
}

/// Judges the arguments of a call as values.
#[cycle(nodes)]
fn judge_arguments(
    alloc: Global,
    known: &Known,
    locals: &mut IndexSet<Text>,
    positional: &[Node<Name>],
    keywords: &[(Name, Node<Name>)],
    all: &mut Vec<Refusal>,
) -> Result<(), OutOfMemory>
    ensures locals { OnOk result (locals.new.keys ≡ locals.old.keys) }
    ensures all { let judged = node_refusals (told_by known.now) (is_among locals.old.keys) in
        OnOk result (all.new.items ≡ all.old.items ++ (joined (map judged positional.now) ++ joined (map (λ k. judged k.1) keywords.now))) }
{
    judge_nodes(alloc, known, locals, positional, all)?;
    judge_keywords(alloc, known, locals, keywords, all)
}

/// Judges the names in an operation.
#[cycle(nodes)]
fn judge_operation(
    alloc: Global,
    known: &Known,
    locals: &mut IndexSet<Text>,
    node: &Node<Name>,
    all: &mut Vec<Refusal>,
) -> Result<(), OutOfMemory>
    requires { is_operation node.now ≡ true }
    ensures locals { OnOk result (locals.new.keys ≡ locals.old.keys) }
    ensures all { OnOk result (all.new.items ≡ all.old.items ++ node_refusals (told_by known.now) (is_among locals.old.keys) node.now) }
{
    match node {
        Node::Path(part) | Node::Neg(part) | Node::Not(part) => {
            judge_node(alloc, known, locals, part.get(), all)
        }
        Node::Index { receiver, index } => {
            judge_both(alloc, known, locals, receiver.get(), index.get(), all)
        }
        Node::Compare { left, right, .. } => {
            judge_both(alloc, known, locals, left.get(), right.get(), all)
        }
        Node::Method {
            receiver,
            arguments,
            ..
        } => {
            judge_node(alloc, known, locals, receiver.get(), all)?;
            judge_nodes(alloc, known, locals, arguments.as_slice(), all)
        }
        Node::Chain { first, rest } => judge_chain(alloc, known, locals, first, rest, all),
        Node::Cond {
            test,
            when_true,
            when_false,
        } => judge_choice(alloc, known, locals, test, when_true, when_false, all),
        _ => unreachable!(),
    }
}

#[cycle(nodes)]
fn judge_chain(
    alloc: Global,
    known: &Known,
    locals: &mut IndexSet<Text>,
    first: &Boxed<Node<Name>>,
    links: &Items<(Operator, Node<Name>)>,
    all: &mut Vec<Refusal>,
) -> Result<(), OutOfMemory>
    ensures locals { OnOk result (locals.new.keys ≡ locals.old.keys) }
    ensures all { let judged = node_refusals (told_by known.now) (is_among locals.old.keys) in
        OnOk result (all.new.items ≡ all.old.items ++ (judged first.now ++ joined (map (λ k. judged k.1) links.now))) }
{
    judge_node(alloc, known, locals, first.get(), all)?;
    judge_links(alloc, known, locals, links.as_slice(), all)
}

#[cycle(nodes)]
fn judge_choice(
    alloc: Global,
    known: &Known,
    locals: &mut IndexSet<Text>,
    test: &Boxed<Node<Name>>,
    when_true: &Boxed<Node<Name>>,
    when_false: &Boxed<Node<Name>>,
    all: &mut Vec<Refusal>,
) -> Result<(), OutOfMemory>
    ensures locals { OnOk result (locals.new.keys ≡ locals.old.keys) }
    ensures all { let judged = node_refusals (told_by known.now) (is_among locals.old.keys) in
        OnOk result (all.new.items ≡ all.old.items ++ (judged test.now ++ (judged when_true.now ++ judged when_false.now))) }
{
    judge_node(alloc, known, locals, test.get(), all)?;
    judge_node(alloc, known, locals, when_true.get(), all)?;
    judge_node(alloc, known, locals, when_false.get(), all)
}

/// Judges the element and the condition of a comprehension, where its name is a local.
#[cycle(nodes)]
fn judge_within(
    alloc: Global,
    known: &Known,
    locals: &mut IndexSet<Text>,
    name: &Name,
    element: &Boxed<Node<Name>>,
    condition: &Items<Node<Name>>,
    all: &mut Vec<Refusal>,
) -> Result<(), OutOfMemory>
    ensures locals { OnOk result (locals.new.keys ≡ locals.old.keys) }
    ensures all { let judged = node_refusals (told_by known.now) (is_among (spec.with_name locals.old.keys name.now.text)) in
        OnOk result (all.new.items ≡ all.old.items ++ (judged element.now ++ joined (map judged condition.now))) }
{
    let outer = locals.len();
    locals.insert(name.text.copy(alloc)?)?;
    judge_node(alloc, known, locals, element.get(), all)?;
    judge_nodes(alloc, known, locals, condition.as_slice(), all)?;
    locals.truncate(outer);
    Ok(())
}

#[cycle(nodes)]
fn judge_both(
    alloc: Global,
    known: &Known,
    locals: &mut IndexSet<Text>,
    left: &Node<Name>,
    right: &Node<Name>,
    all: &mut Vec<Refusal>,
) -> Result<(), OutOfMemory>
    ensures locals { OnOk result (locals.new.keys ≡ locals.old.keys) }
    ensures all { let judged = node_refusals (told_by known.now) (is_among locals.old.keys) in
        OnOk result (all.new.items ≡ all.old.items ++ (judged left.now ++ judged right.now)) }
{
    judge_node(alloc, known, locals, left, all)?;
    judge_node(alloc, known, locals, right, all)
}

#[cycle(nodes)]
fn judge_nodes(
    alloc: Global,
    known: &Known,
    locals: &mut IndexSet<Text>,
    nodes: &[Node<Name>],
    all: &mut Vec<Refusal>,
) -> Result<(), OutOfMemory>
    ensures locals { OnOk result (locals.new.keys ≡ locals.old.keys) }
    ensures all { let judged = node_refusals (told_by known.now) (is_among locals.old.keys) in
        OnOk result (all.new.items ≡ all.old.items ++ joined (map judged nodes.now)) }
{
    for node in nodes {
        judge_node(alloc, known, locals, node, all)?;
    }
    Ok(())
}

#[cycle(nodes)]
fn judge_keywords(
    alloc: Global,
    known: &Known,
    locals: &mut IndexSet<Text>,
    keywords: &[(Name, Node<Name>)],
    all: &mut Vec<Refusal>,
) -> Result<(), OutOfMemory>
    ensures locals { OnOk result (locals.new.keys ≡ locals.old.keys) }
    ensures all { let judged = node_refusals (told_by known.now) (is_among locals.old.keys) in
        OnOk result (all.new.items ≡ all.old.items ++ joined (map (λ k. judged k.1) keywords.now)) }
{
    for keyword in keywords {
        judge_node(alloc, known, locals, &keyword.1, all)?;
    }
    Ok(())
}

#[cycle(nodes)]
fn judge_links(
    alloc: Global,
    known: &Known,
    locals: &mut IndexSet<Text>,
    links: &[(Operator, Node<Name>)],
    all: &mut Vec<Refusal>,
) -> Result<(), OutOfMemory>
    ensures locals { OnOk result (locals.new.keys ≡ locals.old.keys) }
    ensures all { let judged = node_refusals (told_by known.now) (is_among locals.old.keys) in
        OnOk result (all.new.items ≡ all.old.items ++ joined (map (λ k. judged k.1) links.now)) }
{
    for link in links {
        judge_node(alloc, known, locals, &link.1, all)?;
    }
    Ok(())
}

#[cycle(nodes)]
fn judge_pairs(
    alloc: Global,
    known: &Known,
    locals: &mut IndexSet<Text>,
    pairs: &[(Node<Name>, Node<Name>)],
    all: &mut Vec<Refusal>,
) -> Result<(), OutOfMemory>
    ensures locals { OnOk result (locals.new.keys ≡ locals.old.keys) }
    ensures all { let judged = node_refusals (told_by known.now) (is_among locals.old.keys) in
        OnOk result (all.new.items ≡ all.old.items ++ joined (map (λ p. judged p.0 ++ judged p.1) pairs.now)) }
{
    for pair in pairs {
        judge_both(alloc, known, locals, &pair.0, &pair.1, all)?;
    }
    Ok(())
}

#[tactic(auto, unfolding(crate::specs::Names::node_refusals, crate::specs::Names::refusals_of))]
fn judge_returned(
    alloc: Global,
    known: &Known,
    locals: &mut IndexSet<Text>,
    value: &Option<Node<Name>>,
    all: &mut Vec<Refusal>,
) -> Result<(), OutOfMemory>
    ensures locals { OnOk result (locals.new.keys ≡ locals.old.keys) }
    ensures all { let judged = spec.refusals_of (told_by known.now) (is_among locals.old.keys) in
        OnOk result (all.new.items ≡ all.old.items ++ judged (returned_uses value.now)) }
{
    match value {
        Some(value) => judge_node(alloc, known, locals, value, all),
        None => Ok(()),
    }
}

#[cycle(statements)]
pub(crate) fn judge_body(
    alloc: Global,
    known: &Known,
    locals: &mut IndexSet<Text>,
    body: &[Statement<Name>],
    all: &mut Vec<Refusal>,
) -> Result<(), OutOfMemory>
    ensures locals { OnOk result (locals.new.keys ≡ locals.old.keys) }
    ensures all { let judged = spec.statement_refusals (told_by known.now) (is_among locals.old.keys) in
        OnOk result (all.new.items ≡ all.old.items ++ joined (map judged body.now)) }
{
    for statement in body {
        judge_statement(alloc, known, locals, statement, all)?;
    }
    Ok(())
}

#[cycle(statements)]
fn judge_statement(
    alloc: Global,
    known: &Known,
    locals: &mut IndexSet<Text>,
    statement: &Statement<Name>,
    all: &mut Vec<Refusal>,
) -> Result<(), OutOfMemory>
    ensures locals { OnOk result (locals.new.keys ≡ locals.old.keys) }
    ensures all { let judged = spec.statement_refusals (told_by known.now) (is_among locals.old.keys) in
        OnOk result (all.new.items ≡ all.old.items ++ judged statement.now) }
{
    match statement {
        Statement::Assign { value, .. } => judge_node(alloc, known, locals, value, all),
        Statement::Expr(value) => judge_node(alloc, known, locals, value, all),
        Statement::Return(value) => judge_returned(alloc, known, locals, value, all),
        Statement::Pass => Ok(()),
        Statement::For { iterable, body, .. } => {
            judge_guarded(alloc, known, locals, iterable, body.as_slice(), all)
        }
        Statement::While { test, body } => {
            judge_guarded(alloc, known, locals, test, body.as_slice(), all)
        }
        Statement::If {
            branches,
            otherwise,
        } => {
            judge_branches(alloc, known, locals, branches.as_slice(), all)?;
            judge_body(alloc, known, locals, otherwise.as_slice(), all)
        }
        Statement::Raise { class, text } => {
            expect(is_raisable(locals, &class.text), class, all)?;
            judge_node(alloc, known, locals, text, all)
        }
    }
}

/// An expression, and a block behind it.
#[cycle(statements)]
fn judge_guarded(
    alloc: Global,
    known: &Known,
    locals: &mut IndexSet<Text>,
    node: &Node<Name>,
    body: &[Statement<Name>],
    all: &mut Vec<Refusal>,
) -> Result<(), OutOfMemory>
    ensures locals { OnOk result (locals.new.keys ≡ locals.old.keys) }
    ensures all { let first = node_refusals (told_by known.now) (is_among locals.old.keys) node.now in
        let judged = spec.statement_refusals (told_by known.now) (is_among locals.old.keys) in
        OnOk result (all.new.items ≡ all.old.items ++ (first ++ joined (map judged body.now))) }
{
    judge_node(alloc, known, locals, node, all)?;
    judge_body(alloc, known, locals, body, all)
}

#[cycle(statements)]
fn judge_branches(
    alloc: Global,
    known: &Known,
    locals: &mut IndexSet<Text>,
    branches: &[(Node<Name>, Items<Statement<Name>>)],
    all: &mut Vec<Refusal>,
) -> Result<(), OutOfMemory>
    ensures locals { OnOk result (locals.new.keys ≡ locals.old.keys) }
    ensures all { let tested = node_refusals (told_by known.now) (is_among locals.old.keys) in
        let judged = spec.statement_refusals (told_by known.now) (is_among locals.old.keys) in
        OnOk result (all.new.items ≡ all.old.items ++ joined (map (λ b. tested b.0 ++ joined (map judged b.1)) branches.now)) }
{
    for branch in branches {
        judge_guarded(alloc, known, locals, &branch.0, branch.1.as_slice(), all)?;
    }
    Ok(())
}
