//! What the task `main` of a source comes to.

use rd_base::{Items, Text};
use rd_body::{BodyJob, Finished, Reduction, run_body};
use rd_code::TaskCode;
use rd_parse::parse;
use rd_registry::{Registry, register};
use rd_syntax::lex;
use rd_value::expr::Expr;
use rd_value::repr::{push_quoted, push_repr};
use rd_value::value::{Value, Values};
use std::alloc::Global;
use std::sync::Arc;

/// What stands in front of a part.
fn push_separator(line: &mut String, is_first: bool) -> Option<()> {
    if !is_first {
        line.push_str(", ").ok()?;
    }
    Some(())
}

#[cycle(shown)]
fn push_parts(line: &mut String, parts: &[Expr]) -> Option<()> {
    let mut is_first = true;
    for part in parts {
        push_separator(line, is_first)?;
        push_expr(line, part)?;
        is_first = false;
    }
    Some(())
}

#[cycle(shown)]
fn push_pairs(line: &mut String, pairs: &[(Value, Expr)]) -> Option<()> {
    let mut is_first = true;
    for (key, part) in pairs {
        push_separator(line, is_first)?;
        push_repr(line, key).ok()?;
        line.push_str(": ").ok()?;
        push_expr(line, part)?;
        is_first = false;
    }
    Some(())
}

/// A value as it is printed, or what an expression that isn't settled holds.
#[cycle(shown)]
fn push_expr(line: &mut String, expr: &Expr) -> Option<()> {
    match expr {
        Expr::Val(value) => push_repr(line, value).ok(),
        Expr::Call { task, .. } => {
            line.push_str("call ").ok()?;
            line.push_str(task.as_str()).ok()
        }
        Expr::ListOf(parts) => {
            line.push_str("[").ok()?;
            push_parts(line, parts.as_slice())?;
            line.push_str("]").ok()
        }
        Expr::DictOf(pairs) => {
            line.push_str("{").ok()?;
            push_pairs(line, pairs.as_slice())?;
            line.push_str("}").ok()
        }
        Expr::Op { op, parts } => {
            line.push_str(op.text()).ok()?;
            line.push_str("(").ok()?;
            push_parts(line, parts.as_slice())?;
            line.push_str(")").ok()
        }
        Expr::Cond {
            test,
            when_true,
            when_false,
        } => {
            line.push_str("cond(").ok()?;
            push_expr(line, test.get())?;
            line.push_str(", ").ok()?;
            push_expr(line, when_true.get())?;
            line.push_str(", ").ok()?;
            push_expr(line, when_false.get())?;
            line.push_str(")").ok()
        }
        Expr::Map { task, list } => {
            line.push_str("map_(").ok()?;
            line.push_str(task.as_str()).ok()?;
            line.push_str(", ").ok()?;
            push_expr(line, list.get())?;
            line.push_str(")").ok()
        }
        Expr::Catch {
            tried,
            class,
            recover,
        } => {
            line.push_str("catch(").ok()?;
            push_expr(line, tried.get())?;
            line.push_str(", ").ok()?;
            line.push_str(class.name()).ok()?;
            line.push_str(", ").ok()?;
            line.push_str(recover.as_str()).ok()?;
            line.push_str(")").ok()
        }
        Expr::Input(_) => line.push_str("input").ok(),
    }
}

fn push_reduction(line: &mut String, reduction: &Reduction) -> Option<()> {
    match reduction {
        Reduction::Expr(expr) => push_expr(line, expr),
        Reduction::Failed(failure) => {
            line.push_str(failure.class.name()).ok()?;
            line.push_str(": ").ok()?;
            push_quoted(line, failure.text.as_str()).ok()
        }
    }
}

pub fn read(alloc: Global, source: &str) -> Option<Registry> {
    let tokens = lex(alloc, source.as_bytes()).ok()?;
    match parse(alloc, &tokens) {
        Ok(module) => {
            let registry = register(alloc, &module).ok();
            drop(module);
            registry
        }
        Err(_) => None,
    }
}

/// There is nothing where the task doesn't take so many arguments.
fn ran(alloc: Global, code: &Arc<TaskCode, Global>, args: Values) -> Option<Finished> {
    if args.len() != code.signature.parameters.len() {
        return None;
    }
    let job = BodyJob {
        number: 0,
        code: code.clone().ok()?,
        args,
    };
    run_body(alloc, job).ok()
}

fn run(alloc: Global, registry: &Registry, arguments: &[Value]) -> Option<String> {
    let name = Text::from_str(alloc, "main").ok()?;
    let args = Items::from_slice(alloc, arguments).ok()?;
    let finished = ran(alloc, registry.code(registry.find(&name)?), args)?;
    let mut line = String::new(alloc);
    let pushed = push_reduction(&mut line, finished.reduction());
    drop(finished);
    pushed?;
    Some(line)
}

pub fn answer(alloc: Global, source: &str, arguments: &[Value]) -> Option<String> {
    let registry = read(alloc, source)?;
    let answer = run(alloc, &registry, arguments);
    drop(registry);
    answer
}
