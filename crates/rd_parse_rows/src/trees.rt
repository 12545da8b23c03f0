//! The outermost level of a tree, in one line.

use rd_base::OutOfMemory;
use rd_tree::{Comparison, Name, Node, Operator};
use rd_value::repr::push_repr;

type Tree = Node<Name>;

fn sign(operator: Operator) -> &'static str {
    match operator {
        Operator::Add => "+",
        Operator::Sub => "-",
        Operator::Mul => "*",
        Operator::FloorDiv => "//",
        Operator::Mod => "%",
    }
}

fn comparison(operator: Comparison) -> &'static str {
    match operator {
        Comparison::Eq => "==",
        Comparison::Ne => "!=",
        Comparison::Lt => "<",
        Comparison::Le => "<=",
        Comparison::Gt => ">",
        Comparison::Ge => ">=",
        Comparison::In => "in",
        Comparison::NotIn => "not in",
    }
}

/// A literal, or a name with its line. Any other part is a dot.
fn push_leaf(line: &mut String, tree: &Tree) -> Result<(), OutOfMemory> {
    match tree {
        Node::Lit(value) => push_repr(line, value),
        Node::Name(name) => Ok(write!(line, "{}{}", name.text.as_str(), name.line)?),
        _ => Ok(line.push_str(".")?),
    }
}

/// A part behind a space.
fn push_part(line: &mut String, part: &Tree) -> Result<(), OutOfMemory> {
    line.push_str(" ")?;
    push_leaf(line, part)
}

fn push_parts(line: &mut String, tag: &str, parts: &[Tree]) -> Result<(), OutOfMemory> {
    line.push_str(tag)?;
    for part in parts {
        push_part(line, part)?;
    }
    Ok(())
}

fn push_one(line: &mut String, tag: &str, part: &Tree) -> Result<(), OutOfMemory> {
    line.push_str(tag)?;
    push_part(line, part)
}

fn push_two(line: &mut String, tag: &str, a: &Tree, b: &Tree) -> Result<(), OutOfMemory> {
    push_one(line, tag, a)?;
    push_part(line, b)
}

fn push_links(line: &mut String, links: &[(Operator, Tree)]) -> Result<(), OutOfMemory> {
    for (operator, part) in links {
        line.push_str(" ")?;
        push_one(line, sign(*operator), part)?;
    }
    Ok(())
}

fn push_pairs(line: &mut String, pairs: &[(Tree, Tree)]) -> Result<(), OutOfMemory> {
    for (key, value) in pairs {
        push_part(line, key)?;
        push_one(line, ":", value)?;
    }
    Ok(())
}

fn push_keywords(line: &mut String, keywords: &[(Name, Tree)]) -> Result<(), OutOfMemory> {
    for (name, value) in keywords {
        write!(line, " {}=", name.text.as_str())?;
        push_leaf(line, value)?;
    }
    Ok(())
}

/// Conditionals, comprehensions, methods and chains.
fn push_longer(line: &mut String, tree: &Tree) -> Result<(), OutOfMemory> {
    match tree {
        Node::Cond {
            test,
            when_true,
            when_false,
        } => {
            push_one(line, "if", test.get())?;
            push_two(line, "", when_true.get(), when_false.get())
        }
        Node::Comp {
            element,
            name,
            iterable,
            condition,
        } => {
            line.push_str("for ")?;
            push_two(line, name.text.as_str(), element.get(), iterable.get())?;
            push_parts(line, "", condition.as_slice())
        }
        Node::Method {
            receiver,
            name,
            arguments,
        } => {
            push_leaf(line, receiver.get())?;
            line.push_str(".")?;
            push_parts(line, name.as_str(), arguments.as_slice())
        }
        Node::Chain { first, rest } => {
            push_leaf(line, first.get())?;
            push_links(line, rest.as_slice())
        }
        _ => push_leaf(line, tree),
    }
}

/// The outermost level of the tree.
pub fn push_tree(line: &mut String, tree: &Tree) -> Result<(), OutOfMemory> {
    match tree {
        Node::Call {
            name,
            positional,
            keywords,
        } => {
            push_parts(line, name.text.as_str(), positional.as_slice())?;
            push_keywords(line, keywords.as_slice())
        }
        Node::Index { receiver, index } => push_two(line, "index", receiver.get(), index.get()),
        Node::Path(receiver) => push_one(line, "path", receiver.get()),
        Node::Neg(operand) => push_one(line, "neg", operand.get()),
        Node::Not(operand) => push_one(line, "not", operand.get()),
        Node::Compare {
            operator,
            left,
            right,
        } => push_two(line, comparison(*operator), left.get(), right.get()),
        Node::And(parts) => push_parts(line, "and", parts.as_slice()),
        Node::Or(parts) => push_parts(line, "or", parts.as_slice()),
        Node::List(parts) => push_parts(line, "list", parts.as_slice()),
        Node::Dict(pairs) => {
            line.push_str("dict")?;
            push_pairs(line, pairs.as_slice())
        }
        _ => push_longer(line, tree),
    }
}
