//! The bytes of statements.

ghost use Rattle.std.specs.Prelude.{◌≡◌, ◌++◌, OnOk, map, codes};
ghost use Rattle.rd_value.specs.Canon.{string};
ghost use Rattle.rd_structure.specs.Structure.{all, answer_bytes, block_bytes, branch_bytes, node_bytes};
ghost use Rattle.rd_structure.specs.Structure.{statement_bytes, tagged};

use crate::node::push_node;
use rd_base::{Items, OutOfMemory, Text};
use rd_bencode::push_text;
use rd_tree::{Node, Statement};

type Branch = (Node<Text>, Items<Statement<Text>>);

fn push_answer(out: &mut Vec<u8>, answer: &Option<Node<Text>>) -> Result<(), OutOfMemory>
    ensures { OnOk result (out.new.items ≡ out.old.items ++ answer_bytes answer.now) }
{
    match answer {
        Some(node) => push_node(out, node),
        None => {
            out.extend_from_slice(b"l1:ne")?;
            Ok(())
        }
    }
}

fn push_return(out: &mut Vec<u8>, answer: &Option<Node<Text>>) -> Result<(), OutOfMemory>
    ensures { OnOk result (out.new.items ≡ out.old.items ++ tagged (codes "l6:return") (answer_bytes answer.now)) }
{
    out.extend_from_slice(b"l6:return")?;
    push_answer(out, answer)?;
    out.push(b'e')?;
    Ok(())
}

fn push_expression(out: &mut Vec<u8>, node: &Node<Text>) -> Result<(), OutOfMemory>
    ensures { OnOk result (out.new.items ≡ out.old.items ++ tagged (codes "l4:expr") (node_bytes node.now)) }
{
    out.extend_from_slice(b"l4:expr")?;
    push_node(out, node)?;
    out.push(b'e')?;
    Ok(())
}

/// A name with an expression, behind what opens them.
fn push_named(
    out: &mut Vec<u8>,
    opening: &[u8],
    name: &Text,
    node: &Node<Text>,
) -> Result<(), OutOfMemory>
    ensures { OnOk result (out.new.items ≡ out.old.items
        ++ (opening.now ++ (string name.now ++ node_bytes node.now) ++ codes "e")) }
{
    out.extend_from_slice(opening)?;
    push_text(out, name.as_str())?;
    push_node(out, node)?;
    out.push(b'e')?;
    Ok(())
}

#[cycle(statements)]
fn push_for(
    out: &mut Vec<u8>,
    name: &Text,
    iterable: &Node<Text>,
    body: &[Statement<Text>],
) -> Result<(), OutOfMemory>
    ensures { OnOk result (out.new.items ≡ out.old.items
        ++ tagged (codes "l3:for") (string name.now ++ node_bytes iterable.now ++ block_bytes body.now)) }
{
    out.extend_from_slice(b"l3:for")?;
    push_text(out, name.as_str())?;
    push_node(out, iterable)?;
    push_block(out, body)?;
    out.push(b'e')?;
    Ok(())
}

#[cycle(statements)]
fn push_while(
    out: &mut Vec<u8>,
    test: &Node<Text>,
    body: &[Statement<Text>],
) -> Result<(), OutOfMemory>
    ensures { OnOk result (out.new.items ≡ out.old.items
        ++ tagged (codes "l5:while") (node_bytes test.now ++ block_bytes body.now)) }
{
    out.extend_from_slice(b"l5:while")?;
    push_node(out, test)?;
    push_block(out, body)?;
    out.push(b'e')?;
    Ok(())
}

#[cycle(statements)]
fn push_if(
    out: &mut Vec<u8>,
    branches: &[Branch],
    otherwise: &[Statement<Text>],
) -> Result<(), OutOfMemory>
    ensures { OnOk result (out.new.items ≡ out.old.items
        ++ tagged (codes "l2:if") (all (map (λ b. branch_bytes (b.0, map statement_bytes b.1)) branches.now)
        ++ block_bytes otherwise.now)) }
{
    out.extend_from_slice(b"l2:if")?;
    push_branches(out, branches)?;
    push_block(out, otherwise)?;
    out.push(b'e')?;
    Ok(())
}

#[cycle(statements)]
fn push_branch(
    out: &mut Vec<u8>,
    test: &Node<Text>,
    body: &[Statement<Text>],
) -> Result<(), OutOfMemory>
    ensures { OnOk result (out.new.items ≡ out.old.items ++ branch_bytes (test.now, map statement_bytes body.now)) }
{
    out.push(b'l')?;
    push_node(out, test)?;
    push_block(out, body)?;
    out.push(b'e')?;
    Ok(())
}

#[cycle(statements)]
fn push_branches(out: &mut Vec<u8>, branches: &[Branch]) -> Result<(), OutOfMemory>
    ensures { OnOk result (out.new.items ≡ out.old.items
        ++ all (map (λ b. branch_bytes (b.0, map statement_bytes b.1)) branches.now)) }
{
    out.push(b'l')?;
    for (test, body) in branches {
        push_branch(out, test, body.as_slice())?;
    }
    out.push(b'e')?;
    Ok(())
}

#[cycle(statements)]
fn push_statement(out: &mut Vec<u8>, statement: &Statement<Text>) -> Result<(), OutOfMemory>
    ensures { OnOk result (out.new.items ≡ out.old.items ++ statement_bytes statement.now) }
{
    match statement {
        Statement::Assign { name, value } => push_named(out, b"l6:assign", name, value),
        Statement::For {
            name,
            iterable,
            body,
        } => push_for(out, name, iterable, body.as_slice()),
        Statement::While { test, body } => push_while(out, test, body.as_slice()),
        Statement::If {
            branches,
            otherwise,
        } => push_if(out, branches.as_slice(), otherwise.as_slice()),
        Statement::Return(answer) => push_return(out, answer),
        Statement::Raise { class, text } => push_named(out, b"l5:raise", class, text),
        Statement::Pass => {
            out.extend_from_slice(b"l4:passe")?;
            Ok(())
        }
        Statement::Expr(node) => push_expression(out, node),
    }
}

/// Adds the bytes of a block.
#[cycle(statements)]
pub(crate) fn push_block(
    out: &mut Vec<u8>,
    statements: &[Statement<Text>],
) -> Result<(), OutOfMemory>
    ensures { OnOk result (out.new.items ≡ out.old.items ++ block_bytes statements.now) }
{
    out.push(b'l')?;
    for statement in statements {
        push_statement(out, statement)?;
    }
    out.push(b'e')?;
    Ok(())
}
