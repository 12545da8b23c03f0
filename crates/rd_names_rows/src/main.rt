//! Gives each line of its files, as a source, to the rules of names, and prints it with the answer.
//!
//! In a line `\n` stands for the end of a line of the source. The answer is `kept`, or the rule that is broken first and its line.
#![tactic(auto)]

use rd_names::{RegisterError, check_names};
use rd_parse::{Module, parse};
use rd_syntax::lex;
use std::alloc::Global;
use std::fs;
use std::process::ExitCode;

const FILES: [&str; 14] = [
    "values.txt",
    "comprehensions.txt",
    "calls.txt",
    "special.txt",
    "raised_classes.txt",
    "expressions.txt",
    "statements.txt",
    "builtins.txt",
    "error_classes.txt",
    "names_twice.txt",
    "full_names.txt",
    "options.txt",
    "namespaces.txt",
    "first.txt",
];

/// The source of a line.
fn source(alloc: Global, row: &str) -> Option<String> {
    let mut lines = row.split("\\n");
    let mut source = String::from_str(alloc, lines.next()?).ok()?;
    for line in lines {
        source.push_str("\n").ok()?;
        source.push_str(line).ok()?;
    }
    Some(source)
}

fn judged(alloc: Global, module: &Module) -> Option<String> {
    match check_names(alloc, module) {
        Ok(()) => String::from_str(alloc, "kept").ok(),
        Err(RegisterError::DoubleName { line }) => format!(in alloc; "double {line}").ok(),
        Err(RegisterError::BadOption { line }) => format!(in alloc; "option {line}").ok(),
        Err(RegisterError::UnknownName { line }) => format!(in alloc; "unknown {line}").ok(),
        Err(RegisterError::OutOfMemory) => None,
    }
}

/// What the names of a source are refused for. There is nothing where memory runs out, or where the source isn't read.
fn answer(alloc: Global, row: &str) -> Option<String> {
    let source = source(alloc, row)?;
    let tokens = lex(alloc, source.as_bytes()).ok()?;
    match parse(alloc, &tokens) {
        Ok(module) => {
            let answer = judged(alloc, &module);
            drop(module);
            answer
        }
        Err(_) => None,
    }
}

fn show_file(rt: &HostRuntime, name: &str) -> Option<()> {
    let text = fs::read_to_string(rt, name).ok()?;
    for row in text.lines() {
        match answer(rt.alloc(), row) {
            Some(answer) => println!(rt; "{row} => {answer}").ok()?,
            None => println!(rt; "{row} => no answer").ok()?,
        }
    }
    Some(())
}

fn show_files(rt: &HostRuntime) -> Option<()> {
    for name in FILES {
        show_file(rt, name)?;
    }
    Some(())
}

fn main(rt: HostRuntime) -> ExitCode {
    match show_files(&rt) {
        Some(()) => ExitCode::SUCCESS,
        None => ExitCode::FAILURE,
    }
}
