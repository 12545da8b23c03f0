//! Runs the task `main` of each row's source as a body, and prints the row with what it comes to.
//!
//! - `operators.txt`, `displays.txt`, `builtins.txt`, `methods.txt`, `pending.txt`, `special.txt` and `limits.txt`: a line is the expression that `main` returns. `f` is a task.
//! - `arguments.txt`: the same, where the argument `e` is an error and `g` is a file.
//! - `classes.txt`: a line is a class, which `main` raises with the text `t`.
//! - `bodies.txt`: a source stands behind each line of `-- ` and words.
//! - `structures.txt`: a source stands behind each line of `-- ` and words. The answer is the structure of its task `one`, and the digest.
//! - `changes.txt`: the same with an edited source behind the line that begins with `-> `. The answer is whether the task `one` has the same digest there.
//! - `words.txt`: the same with a word behind `-> `. The answer is the full name of the task that it names.
//! - `steps.txt`: a line is statements of `main` with `;` between them, ` | `, and how many steps they take. In front of them stand statements that leave just so many steps, and then one fewer.
#![tactic(auto)]

mod answers;
mod arguments;
mod steps;
mod tasks;

use answers::answer;
use std::alloc::Global;
use std::fs;
use std::process::ExitCode;

/// What the rows of a file are.
#[derive(Clone, Copy)]
enum Rows {
    Expressions,
    Arguments,
    Classes,
    Bodies,
    Structures,
    Changes,
    Words,
    Steps,
}

const FILES: [(&str, Rows); 14] = [
    ("operators.txt", Rows::Expressions),
    ("displays.txt", Rows::Expressions),
    ("builtins.txt", Rows::Expressions),
    ("methods.txt", Rows::Expressions),
    ("pending.txt", Rows::Expressions),
    ("special.txt", Rows::Expressions),
    ("limits.txt", Rows::Expressions),
    ("arguments.txt", Rows::Arguments),
    ("classes.txt", Rows::Classes),
    ("bodies.txt", Rows::Bodies),
    ("structures.txt", Rows::Structures),
    ("changes.txt", Rows::Changes),
    ("words.txt", Rows::Words),
    ("steps.txt", Rows::Steps),
];

/// From so many bytes on an answer is cut.
const LONG: usize = 200;

fn expression(alloc: Global, row: &str) -> Option<String> {
    let task = "@task\ndef f(x=0): return x\n";
    let source = format!(in alloc; "{task}@task\ndef main(): return {row}").ok()?;
    answer(alloc, source.as_str(), &[])
}

fn class(alloc: Global, row: &str) -> Option<String> {
    let source = format!(in alloc; "@task\ndef main(): raise {row}('t')").ok()?;
    answer(alloc, source.as_str(), &[])
}

/// What the row comes to. There is nothing where memory runs out, or where the source isn't read.
fn row_answer(alloc: Global, rows: Rows, row: &str) -> Option<String> {
    match rows {
        Rows::Expressions => expression(alloc, row),
        Rows::Arguments => arguments::with_arguments(alloc, row),
        Rows::Classes => class(alloc, row),
        Rows::Bodies => answer(alloc, row, &[]),
        Rows::Structures => tasks::structure(alloc, row),
        Rows::Changes => tasks::change(alloc, row),
        Rows::Words => tasks::word(alloc, row),
        Rows::Steps => steps::with_steps(alloc, row),
    }
}

/// The answer, or its beginning and how many bytes it has.
fn shortened(alloc: Global, answer: String) -> Option<String> {
    if answer.len() < LONG {
        return Some(answer);
    }
    let length = answer.len();
    let start: String = answer.chars().take(40).collect(alloc).ok()?;
    format!(in alloc; "{start}.. {length} bytes").ok()
}

fn show_row(rt: &HostRuntime, rows: Rows, title: &str, row: &str) -> Option<()> {
    match row_answer(rt.alloc(), rows, row) {
        Some(answer) => {
            let answer = match rows {
                Rows::Structures => answer,
                _ => shortened(rt.alloc(), answer)?,
            };
            println!(rt; "{title} => {answer}").ok()
        }
        None => println!(rt; "{title} => no answer").ok(),
    }
}

fn show_lines(rt: &HostRuntime, rows: Rows, text: &str) -> Option<()> {
    for line in text.lines() {
        show_row(rt, rows, line, line)?;
    }
    Some(())
}

/// The line feed before the next title isn't a part of the source.
fn show_blocks(rt: &HostRuntime, rows: Rows, text: &str) -> Option<()> {
    for block in text.strip_suffix('\n')?.strip_prefix("-- ")?.split("\n-- ") {
        let (title, source) = block.split_once('\n')?;
        show_row(rt, rows, title, source)?;
    }
    Some(())
}

fn show_file(rt: &HostRuntime, name: &str, rows: Rows) -> Option<()> {
    let text = fs::read_to_string(rt, name).ok()?;
    match rows {
        Rows::Bodies | Rows::Structures | Rows::Changes | Rows::Words => {
            show_blocks(rt, rows, text.as_str())
        }
        _ => show_lines(rt, rows, text.as_str()),
    }
}

fn show_files(rt: &HostRuntime) -> Option<()> {
    for (name, rows) in FILES {
        show_file(rt, name, rows)?;
    }
    Some(())
}

fn main(rt: HostRuntime) -> ExitCode {
    match show_files(&rt) {
        Some(()) => ExitCode::SUCCESS,
        None => ExitCode::FAILURE,
    }
}
