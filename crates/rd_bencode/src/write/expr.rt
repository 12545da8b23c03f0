//! The canonical bytes of expressions.

ghost use Rattle.std.specs.Prelude.{◌≡◌, ◌++◌, OnOk, IfOk, map, codes};
ghost use Rattle.rd_value.specs.Canon.{string, joined, named, under_key, op_text, canon, canon_expr};
ghost use Rattle.rd_value.specs.Class.{name};

use crate::write::string::push_text;
use crate::write::value::push_value;
use rd_base::{Bytes, OutOfMemory, Text};
use rd_value::class::Class;
use rd_value::expr::{Expr, OpKind};
use rd_value::value::Value;
use std::alloc::Global;

#[cycle(expr)]
fn push_parts(out: &mut Vec<u8>, parts: &[Expr]) -> Result<(), OutOfMemory>
    ensures { OnOk result (out.new.items ≡ out.old.items ++ joined (map (canon_expr (λ f. f)) parts.now)) }
{
    for part in parts {
        push_expr(out, part)?;
    }
    Ok(())
}

#[cycle(expr)]
fn push_keywords(out: &mut Vec<u8>, keywords: &[(Text, Expr)]) -> Result<(), OutOfMemory>
    ensures { OnOk result (out.new.items ≡ out.old.items ++ joined (map named (map (λ p. (p.0, canon_expr (λ f. f) p.1)) keywords.now))) }
{
    for (name, part) in keywords {
        push_text(out, name.as_str())?;
        push_expr(out, part)?;
    }
    Ok(())
}

#[cycle(expr)]
fn push_pairs(out: &mut Vec<u8>, pairs: &[(Value, Expr)]) -> Result<(), OutOfMemory>
    ensures { OnOk result (out.new.items ≡ out.old.items ++ joined (map (under_key (λ f. f)) (map (λ p. (p.0, canon_expr (λ f. f) p.1)) pairs.now))) }
{
    for (key, part) in pairs {
        push_value(out, key)?;
        push_expr(out, part)?;
    }
    Ok(())
}

#[cycle(expr)]
fn push_call(
    out: &mut Vec<u8>,
    task: &Text,
    positional: &[Expr],
    keywords: &[(Text, Expr)],
) -> Result<(), OutOfMemory>
    ensures { OnOk result (out.new.items ≡ out.old.items ++ (codes "l1:c" ++ string task.now ++ codes "l" ++ joined (map (canon_expr (λ f. f)) positional.now) ++ codes "el" ++ joined (map named (map (λ p. (p.0, canon_expr (λ f. f) p.1)) keywords.now)) ++ codes "ee")) }
{
    out.extend_from_slice(b"l1:c")?;
    push_text(out, task.as_str())?;
    out.push(b'l')?;
    push_parts(out, positional)?;
    out.extend_from_slice(b"el")?;
    push_keywords(out, keywords)?;
    out.extend_from_slice(b"ee")?;
    Ok(())
}

#[cycle(expr)]
fn push_op(out: &mut Vec<u8>, op: OpKind, parts: &[Expr]) -> Result<(), OutOfMemory>
    ensures { OnOk result (out.new.items ≡ out.old.items ++ (codes "l1:o" ++ string (op_text op) ++ joined (map (canon_expr (λ f. f)) parts.now) ++ codes "e")) }
{
    out.extend_from_slice(b"l1:o")?;
    push_text(out, op.text())?;
    push_parts(out, parts)?;
    out.push(b'e')?;
    Ok(())
}

#[cycle(expr)]
fn push_cond(
    out: &mut Vec<u8>,
    test: &Expr,
    when_true: &Expr,
    when_false: &Expr,
) -> Result<(), OutOfMemory>
    ensures { OnOk result (out.new.items ≡ out.old.items ++ (codes "l1:n" ++ canon_expr (λ f. f) test.now ++ canon_expr (λ f. f) when_true.now ++ canon_expr (λ f. f) when_false.now ++ codes "e")) }
{
    out.extend_from_slice(b"l1:n")?;
    push_expr(out, test)?;
    push_expr(out, when_true)?;
    push_expr(out, when_false)?;
    out.push(b'e')?;
    Ok(())
}

/// Adds the canonical bytes of an expression.
#[cycle(expr)]
pub(crate) fn push_expr(out: &mut Vec<u8>, expr: &Expr) -> Result<(), OutOfMemory>
    ensures { OnOk result (out.new.items ≡ out.old.items ++ canon_expr (λ f. f) expr.now) }
{
    match expr {
        Expr::Val(value) => {
            out.extend_from_slice(b"l1:v")?;
            push_value(out, value)?;
            out.push(b'e')?;
            Ok(())
        }
        Expr::Call {
            task,
            positional,
            keywords,
        } => push_call(out, task, positional.as_slice(), keywords.as_slice()),
        Expr::Input(path) => {
            out.extend_from_slice(b"l1:i")?;
            push_text(out, path.as_str())?;
            out.push(b'e')?;
            Ok(())
        }
        Expr::Op { op, parts } => push_op(out, *op, parts.as_slice()),
        Expr::ListOf(parts) => {
            out.extend_from_slice(b"l1:l")?;
            push_parts(out, parts.as_slice())?;
            out.push(b'e')?;
            Ok(())
        }
        Expr::DictOf(pairs) => {
            out.extend_from_slice(b"l1:d")?;
            push_pairs(out, pairs.as_slice())?;
            out.push(b'e')?;
            Ok(())
        }
        Expr::Cond {
            test,
            when_true,
            when_false,
        } => push_cond(out, test.get(), when_true.get(), when_false.get()),
        Expr::Map { task, list } => push_map(out, task, list.get()),
        Expr::Catch {
            tried,
            class,
            recover,
        } => push_catch(out, tried.get(), *class, recover),
    }
}

#[cycle(expr)]
fn push_map(out: &mut Vec<u8>, task: &Text, list: &Expr) -> Result<(), OutOfMemory>
    ensures { OnOk result (out.new.items ≡ out.old.items ++ (codes "l1:m" ++ string task.now ++ canon_expr (λ f. f) list.now ++ codes "e")) }
{
    out.extend_from_slice(b"l1:m")?;
    push_text(out, task.as_str())?;
    push_expr(out, list)?;
    out.push(b'e')?;
    Ok(())
}

#[cycle(expr)]
fn push_catch(
    out: &mut Vec<u8>,
    tried: &Expr,
    class: Class,
    recover: &Text,
) -> Result<(), OutOfMemory>
    ensures { OnOk result (out.new.items ≡ out.old.items ++ (codes "l1:t" ++ canon_expr (λ f. f) tried.now ++ string (name class) ++ string recover.now ++ codes "e")) }
{
    out.extend_from_slice(b"l1:t")?;
    push_expr(out, tried)?;
    push_text(out, class.name())?;
    push_text(out, recover.as_str())?;
    out.push(b'e')?;
    Ok(())
}

/// The canonical bytes of an expression, also of one past the limits.
pub fn write_expr(alloc: Global, expr: &Expr) -> Result<Bytes, OutOfMemory>
    ensures { IfOk result (λ bytes. bytes ≡ canon_expr (λ f. f) expr.now) }
{
    let mut out = Vec::new(alloc);
    push_expr(&mut out, expr)?;
    Bytes::from_vec(alloc, out)
}
