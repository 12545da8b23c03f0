//! The bytes of expressions.

ghost use Rattle.std.specs.Prelude.{◌≡◌, ◌++◌, OnOk, map, codes};
ghost use Rattle.rd_value.specs.Canon.{string, joined};
ghost use Rattle.rd_structure.specs.Structure.{all, comparison_text, keyword_bytes, link_bytes, node_bytes};
ghost use Rattle.rd_structure.specs.Structure.{operator_text, pair_bytes, tagged, value_bytes};

use rd_base::{OutOfMemory, Text};
use rd_bencode::{push_text, push_value};
use rd_tree::{Comparison, Node, Operator};
use rd_value::value::Value;

fn operator_str(operator: Operator) -> &'static str
    ensures { result.now ≡ operator_text operator }
{
    match operator {
        Operator::Add => "+",
        Operator::Sub => "-",
        Operator::Mul => "*",
        Operator::FloorDiv => "//",
        Operator::Mod => "%",
    }
}

fn comparison_str(comparison: Comparison) -> &'static str
    ensures { result.now ≡ comparison_text comparison }
{
    match comparison {
        Comparison::Eq => "==",
        Comparison::Ne => "!=",
        Comparison::Lt => "<",
        Comparison::Le => "<=",
        Comparison::Gt => ">",
        Comparison::Ge => ">=",
        Comparison::In => "in",
        Comparison::NotIn => "not in",
    }
}

#[cycle(nodes)]
#[tactic(auto, using(crate::proofs::Behind::behind))]
pub(crate) fn push_node(out: &mut Vec<u8>, node: &Node<Text>) -> Result<(), OutOfMemory>
    ensures { OnOk result (out.new.items ≡ out.old.items ++ node_bytes node.now) }
{
    match node {
        Node::Lit(value) => push_literal(out, value),
        Node::Name(name) => push_name(out, name),
        Node::Call {
            name,
            positional,
            keywords,
        } => push_call(out, name, positional.as_slice(), keywords.as_slice()),
        Node::Method {
            receiver,
            name,
            arguments,
        } => push_method(out, receiver.get(), name, arguments.as_slice()),
        Node::Path(part) => push_one(out, b"l4:path", part.get()),
        Node::Neg(part) => push_one(out, b"l3:neg", part.get()),
        Node::Not(part) => push_one(out, b"l3:not", part.get()),
        Node::Index { receiver, index } => push_index(out, receiver.get(), index.get()),
        Node::Compare {
            operator,
            left,
            right,
        } => push_compare(out, *operator, left.get(), right.get()),
        Node::Chain { first, rest } => push_chain(out, first.get(), rest.as_slice()),
        Node::And(parts) => push_many(out, b"l3:and", parts.as_slice()),
        Node::Or(parts) => push_many(out, b"l2:or", parts.as_slice()),
        Node::List(parts) => push_many(out, b"l4:list", parts.as_slice()),
        Node::Cond {
            test,
            when_true,
            when_false,
        } => push_cond(out, test.get(), when_true.get(), when_false.get()),
        Node::Dict(pairs) => push_dict(out, pairs.as_slice()),
        Node::Comp {
            element,
            name,
            iterable,
            condition,
        } => push_comprehension(
            out,
            element.get(),
            name,
            iterable.get(),
            condition.as_slice(),
        ),
    }
}

fn push_literal(out: &mut Vec<u8>, value: &Value) -> Result<(), OutOfMemory>
    ensures { OnOk result (out.new.items ≡ out.old.items ++ tagged (codes "l3:lit") (value_bytes value.now)) }
{
    out.extend_from_slice(b"l3:lit")?;
    push_value(out, value)?;
    out.push(b'e')?;
    Ok(())
}

fn push_name(out: &mut Vec<u8>, name: &Text) -> Result<(), OutOfMemory>
    ensures { OnOk result (out.new.items ≡ out.old.items ++ tagged (codes "l4:name") (string name.now)) }
{
    out.extend_from_slice(b"l4:name")?;
    push_text(out, name.as_str())?;
    out.push(b'e')?;
    Ok(())
}

/// An expression of one part, behind what opens it.
#[cycle(nodes)]
fn push_one(out: &mut Vec<u8>, opening: &[u8], part: &Node<Text>) -> Result<(), OutOfMemory>
    ensures { OnOk result (out.new.items ≡ out.old.items ++ (opening.now ++ node_bytes part.now ++ codes "e")) }
{
    out.extend_from_slice(opening)?;
    push_node(out, part)?;
    out.push(b'e')?;
    Ok(())
}

/// An expression whose parts are one list, behind what opens it.
#[cycle(nodes)]
fn push_many(out: &mut Vec<u8>, opening: &[u8], parts: &[Node<Text>]) -> Result<(), OutOfMemory>
    ensures { OnOk result (out.new.items ≡ out.old.items ++ (opening.now ++ all (map node_bytes parts.now) ++ codes "e")) }
{
    out.extend_from_slice(opening)?;
    push_nodes(out, parts)?;
    out.push(b'e')?;
    Ok(())
}

#[cycle(nodes)]
fn push_call(
    out: &mut Vec<u8>,
    name: &Text,
    positional: &[Node<Text>],
    keywords: &[(Text, Node<Text>)],
) -> Result<(), OutOfMemory>
    ensures { OnOk result (out.new.items ≡ out.old.items
        ++ tagged (codes "l4:call") (string name.now ++ all (map node_bytes positional.now)
        ++ all (map (λ k. keyword_bytes (k.0, node_bytes k.1)) keywords.now))) }
{
    out.extend_from_slice(b"l4:call")?;
    push_text(out, name.as_str())?;
    push_nodes(out, positional)?;
    push_keywords(out, keywords)?;
    out.push(b'e')?;
    Ok(())
}

#[cycle(nodes)]
fn push_method(
    out: &mut Vec<u8>,
    receiver: &Node<Text>,
    name: &Text,
    arguments: &[Node<Text>],
) -> Result<(), OutOfMemory>
    ensures { OnOk result (out.new.items ≡ out.old.items
        ++ tagged (codes "l6:method") (node_bytes receiver.now ++ string name.now
        ++ all (map node_bytes arguments.now))) }
{
    out.extend_from_slice(b"l6:method")?;
    push_node(out, receiver)?;
    push_text(out, name.as_str())?;
    push_nodes(out, arguments)?;
    out.push(b'e')?;
    Ok(())
}

#[cycle(nodes)]
fn push_index(
    out: &mut Vec<u8>,
    receiver: &Node<Text>,
    index: &Node<Text>,
) -> Result<(), OutOfMemory>
    ensures { OnOk result (out.new.items ≡ out.old.items
        ++ tagged (codes "l5:index") (node_bytes receiver.now ++ node_bytes index.now)) }
{
    out.extend_from_slice(b"l5:index")?;
    push_node(out, receiver)?;
    push_node(out, index)?;
    out.push(b'e')?;
    Ok(())
}

#[cycle(nodes)]
fn push_compare(
    out: &mut Vec<u8>,
    operator: Comparison,
    left: &Node<Text>,
    right: &Node<Text>,
) -> Result<(), OutOfMemory>
    ensures { OnOk result (out.new.items ≡ out.old.items
        ++ tagged (codes "l7:compare") (string (comparison_text operator) ++ node_bytes left.now
        ++ node_bytes right.now)) }
{
    out.extend_from_slice(b"l7:compare")?;
    push_text(out, comparison_str(operator))?;
    push_node(out, left)?;
    push_node(out, right)?;
    out.push(b'e')?;
    Ok(())
}

#[cycle(nodes)]
fn push_chain(
    out: &mut Vec<u8>,
    first: &Node<Text>,
    rest: &[(Operator, Node<Text>)],
) -> Result<(), OutOfMemory>
    ensures { OnOk result (out.new.items ≡ out.old.items
        ++ tagged (codes "l5:chain") (node_bytes first.now
        ++ all (map (λ l. link_bytes (l.0, node_bytes l.1)) rest.now))) }
{
    out.extend_from_slice(b"l5:chain")?;
    push_node(out, first)?;
    push_links(out, rest)?;
    out.push(b'e')?;
    Ok(())
}

#[cycle(nodes)]
fn push_cond(
    out: &mut Vec<u8>,
    test: &Node<Text>,
    when_true: &Node<Text>,
    when_false: &Node<Text>,
) -> Result<(), OutOfMemory>
    ensures { OnOk result (out.new.items ≡ out.old.items
        ++ tagged (codes "l4:cond") (node_bytes test.now ++ node_bytes when_true.now
        ++ node_bytes when_false.now)) }
{
    out.extend_from_slice(b"l4:cond")?;
    push_node(out, test)?;
    push_node(out, when_true)?;
    push_node(out, when_false)?;
    out.push(b'e')?;
    Ok(())
}

#[cycle(nodes)]
fn push_dict(out: &mut Vec<u8>, pairs: &[(Node<Text>, Node<Text>)]) -> Result<(), OutOfMemory>
    ensures { OnOk result (out.new.items ≡ out.old.items
        ++ tagged (codes "l4:dict") (all (map (λ p. pair_bytes (node_bytes p.0, node_bytes p.1)) pairs.now))) }
{
    out.extend_from_slice(b"l4:dict")?;
    push_pairs(out, pairs)?;
    out.push(b'e')?;
    Ok(())
}

#[cycle(nodes)]
fn push_comprehension(
    out: &mut Vec<u8>,
    element: &Node<Text>,
    name: &Text,
    iterable: &Node<Text>,
    condition: &[Node<Text>],
) -> Result<(), OutOfMemory>
    ensures { OnOk result (out.new.items ≡ out.old.items
        ++ tagged (codes "l4:comp") (node_bytes element.now ++ string name.now ++ node_bytes iterable.now
        ++ all (map node_bytes condition.now))) }
{
    out.extend_from_slice(b"l4:comp")?;
    push_node(out, element)?;
    push_text(out, name.as_str())?;
    push_node(out, iterable)?;
    push_nodes(out, condition)?;
    out.push(b'e')?;
    Ok(())
}

#[cycle(nodes)]
fn push_nodes(out: &mut Vec<u8>, nodes: &[Node<Text>]) -> Result<(), OutOfMemory>
    ensures { OnOk result (out.new.items ≡ out.old.items ++ all (map node_bytes nodes.now)) }
{
    out.push(b'l')?;
    for node in nodes {
        push_node(out, node)?;
    }
    out.push(b'e')?;
    Ok(())
}

#[cycle(nodes)]
fn push_keyword(out: &mut Vec<u8>, name: &Text, node: &Node<Text>) -> Result<(), OutOfMemory>
    ensures { OnOk result (out.new.items ≡ out.old.items ++ keyword_bytes (name.now, node_bytes node.now)) }
{
    out.push(b'l')?;
    push_text(out, name.as_str())?;
    push_node(out, node)?;
    out.push(b'e')?;
    Ok(())
}

#[cycle(nodes)]
fn push_keywords(out: &mut Vec<u8>, keywords: &[(Text, Node<Text>)]) -> Result<(), OutOfMemory>
    ensures { OnOk result (out.new.items ≡ out.old.items
        ++ all (map (λ k. keyword_bytes (k.0, node_bytes k.1)) keywords.now)) }
{
    out.push(b'l')?;
    for (name, node) in keywords {
        push_keyword(out, name, node)?;
    }
    out.push(b'e')?;
    Ok(())
}

#[cycle(nodes)]
fn push_link(out: &mut Vec<u8>, operator: Operator, node: &Node<Text>) -> Result<(), OutOfMemory>
    ensures { OnOk result (out.new.items ≡ out.old.items ++ link_bytes (operator, node_bytes node.now)) }
{
    out.push(b'l')?;
    push_text(out, operator_str(operator))?;
    push_node(out, node)?;
    out.push(b'e')?;
    Ok(())
}

#[cycle(nodes)]
fn push_links(out: &mut Vec<u8>, links: &[(Operator, Node<Text>)]) -> Result<(), OutOfMemory>
    ensures { OnOk result (out.new.items ≡ out.old.items
        ++ all (map (λ l. link_bytes (l.0, node_bytes l.1)) links.now)) }
{
    out.push(b'l')?;
    for (operator, node) in links {
        push_link(out, *operator, node)?;
    }
    out.push(b'e')?;
    Ok(())
}

#[cycle(nodes)]
fn push_pair(out: &mut Vec<u8>, key: &Node<Text>, node: &Node<Text>) -> Result<(), OutOfMemory>
    ensures { OnOk result (out.new.items ≡ out.old.items ++ pair_bytes (node_bytes key.now, node_bytes node.now)) }
{
    out.push(b'l')?;
    push_node(out, key)?;
    push_node(out, node)?;
    out.push(b'e')?;
    Ok(())
}

#[cycle(nodes)]
fn push_pairs(out: &mut Vec<u8>, pairs: &[(Node<Text>, Node<Text>)]) -> Result<(), OutOfMemory>
    ensures { OnOk result (out.new.items ≡ out.old.items
        ++ all (map (λ p. pair_bytes (node_bytes p.0, node_bytes p.1)) pairs.now)) }
{
    out.push(b'l')?;
    for (key, node) in pairs {
        push_pair(out, key, node)?;
    }
    out.push(b'e')?;
    Ok(())
}
