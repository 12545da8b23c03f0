//! Gives the rows of its files to the parser, and prints each row with the answer.
//!
//! - `expressions.txt`: a line is an expression. The answer is the outermost level of its tree.
//! - `refused.txt`: a line is words that spell no expression. The answer is the words from the refused one on.
//! - `modules.txt`: a source stands behind each line of `-- ` and words. The answer is what the source holds, or the line of its refusal.
//! - `module_bytes.txt`: a line is a source, with `\n`, `\r`, `\t`, and `\xhh` for the byte of that number.
//! - `module_levels.txt`: a line is a way to open levels, in five parts between `|`: what stands in front, what opens a level on a line of its own, what stands in the middle, what closes a level, and what stands behind. The answer tells with how many levels the source is read.
//! - `blocks.txt`: a line opens a block, and each block stands in the one before it. The answer is the same.
//! - `literals.txt`, `literal_bytes.txt` and `literal_levels.txt`: the same for literals. The answer is the value as it is printed, or `none`.
//!
//! An empty line is a row, too.
#![tactic(auto)]

mod answers;
mod escapes;
mod levels;
mod modules;
mod trees;

use std::alloc::Global;
use std::fs;
use std::process::ExitCode;

/// What the rows of a file are.
#[derive(Clone, Copy)]
enum Rows {
    Expressions,
    Refused,
    Modules,
    ModuleBytes,
    ModuleLevels,
    Blocks,
    Literals,
    LiteralBytes,
    LiteralLevels,
}

const FILES: [(&str, Rows); 9] = [
    ("expressions.txt", Rows::Expressions),
    ("refused.txt", Rows::Refused),
    ("modules.txt", Rows::Modules),
    ("module_bytes.txt", Rows::ModuleBytes),
    ("module_levels.txt", Rows::ModuleLevels),
    ("blocks.txt", Rows::Blocks),
    ("literals.txt", Rows::Literals),
    ("literal_bytes.txt", Rows::LiteralBytes),
    ("literal_levels.txt", Rows::LiteralLevels),
];

/// What the parser answers. There is none where memory runs out, or where a row isn't written as its file wants.
fn answer(alloc: Global, rows: Rows, row: &str) -> Option<String> {
    match rows {
        Rows::Expressions => answers::expression(alloc, row),
        Rows::Refused => answers::refused_words(alloc, row),
        Rows::Modules => answers::module(alloc, row.as_bytes()),
        Rows::ModuleBytes => answers::module_bytes(alloc, row),
        Rows::ModuleLevels => levels::module_levels(alloc, row),
        Rows::Blocks => levels::blocks(alloc, row),
        Rows::Literals => answers::literal(alloc, row),
        Rows::LiteralBytes => answers::literal_bytes(alloc, row),
        Rows::LiteralLevels => levels::literal_levels(alloc, row),
    }
}

fn show_row(rt: &HostRuntime, rows: Rows, title: &str, row: &str) -> Option<()> {
    let answer = answer(rt.alloc(), rows, row)?;
    println!(rt; "{title} => {answer}").ok()
}

fn show_lines(rt: &HostRuntime, rows: Rows, text: &str) -> Option<()> {
    for line in text.lines() {
        show_row(rt, rows, line, line)?;
    }
    Some(())
}

/// The line feed before the next title isn't a part of the source.
fn show_blocks(rt: &HostRuntime, rows: Rows, text: &str) -> Option<()> {
    for block in text.strip_suffix('\n')?.strip_prefix("-- ")?.split("\n-- ") {
        let (title, source) = block.split_once('\n')?;
        show_row(rt, rows, title, source)?;
    }
    Some(())
}

fn show_file(rt: &HostRuntime, name: &str, rows: Rows) -> Option<()> {
    let text = fs::read_to_string(rt, name).ok()?;
    match rows {
        Rows::Modules => show_blocks(rt, rows, text.as_str()),
        _ => show_lines(rt, rows, text.as_str()),
    }
}

fn show_files(rt: &HostRuntime) -> Option<()> {
    for (name, rows) in FILES {
        show_file(rt, name, rows)?;
    }
    Some(())
}

fn main(rt: HostRuntime) -> ExitCode {
    match show_files(&rt) {
        Some(()) => ExitCode::SUCCESS,
        None => ExitCode::FAILURE,
    }
}
