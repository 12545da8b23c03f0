//! Gives the rows of its files to what reads canonical bytes, prints each row with the answer, and then what writers write.
//!
//! - `values.txt`, `exprs.txt`: a line is bytes of a value or of an expression. The answer is `read`, or the place of the refusal.
//! - `blobs.txt`: a line is bytes of a blob. The answer is its kind and its structure.
//! - `names.txt`: a line is bytes of a task structure. The answer is its name, and whether its form is that of a task.
//! - `args.txt`, `writes.txt`, `children.txt`, `footprints.txt`, `executions.txt`: a line is bytes of a record, and is answered as a value is.
//! - `evaluations.txt`, `calls.txt`: a line is bytes of such a record. The answer is whether they are canonical.
//!
//! An empty line is a row, too.
#![tactic(auto)]

mod written;

use rd_bencode::{
    Kind, ReadError, is_canonical, is_task_form, read_args, read_children, read_execution,
    read_expr, read_footprint, read_value, read_writes, task_name, unwrap_kind,
};
use std::alloc::Global;
use std::fs;
use std::process::ExitCode;
use written::show_written;

/// What the rows of a file are.
#[derive(Clone, Copy)]
enum Rows {
    Values,
    Exprs,
    Blobs,
    Names,
    Args,
    Writes,
    Children,
    Footprints,
    Executions,
    Evaluations,
    Calls,
}

const FILES: [(&str, Rows); 11] = [
    ("values.txt", Rows::Values),
    ("exprs.txt", Rows::Exprs),
    ("blobs.txt", Rows::Blobs),
    ("names.txt", Rows::Names),
    ("args.txt", Rows::Args),
    ("writes.txt", Rows::Writes),
    ("children.txt", Rows::Children),
    ("footprints.txt", Rows::Footprints),
    ("executions.txt", Rows::Executions),
    ("evaluations.txt", Rows::Evaluations),
    ("calls.txt", Rows::Calls),
];

/// How reading ended. There is nothing where memory ran out.
fn read(alloc: Global, refused: Option<ReadError>) -> Option<String> {
    match refused {
        None => String::from_str(alloc, "read").ok(),
        Some(ReadError::NotCanonical { at }) => format!(in alloc; "at {at}").ok(),
        Some(ReadError::OutOfMemory) => None,
    }
}

fn unwrapped(alloc: Global, row: &[u8]) -> Option<String> {
    match unwrap_kind(row) {
        Some((kind, structure)) => {
            let structure = str::from_utf8(structure).ok()?;
            let text = kind.text();
            format!(in alloc; "{text} {structure}").ok()
        }
        None => String::from_str(alloc, "no blob").ok(),
    }
}

fn named(alloc: Global, row: &[u8]) -> Option<String> {
    match task_name(row) {
        Some(name) => {
            let form = if is_task_form(row) {
                "a task"
            } else {
                "no task"
            };
            format!(in alloc; "{name}, {form}").ok()
        }
        None => String::from_str(alloc, "no name").ok(),
    }
}

fn judged(alloc: Global, kind: Kind, row: &[u8]) -> Option<String> {
    let told = if is_canonical(alloc, kind, row).ok()? {
        "canonical"
    } else {
        "not canonical"
    };
    String::from_str(alloc, told).ok()
}

fn answer(alloc: Global, rows: Rows, row: &[u8]) -> Option<String> {
    match rows {
        Rows::Values => read(alloc, read_value(alloc, row).err()),
        Rows::Exprs => read(alloc, read_expr(alloc, row).err()),
        Rows::Blobs => unwrapped(alloc, row),
        Rows::Names => named(alloc, row),
        Rows::Args => read(alloc, read_args(alloc, row).err()),
        Rows::Writes => read(alloc, read_writes(alloc, row).err()),
        Rows::Children => read(alloc, read_children(alloc, row).err()),
        Rows::Footprints => read(alloc, read_footprint(alloc, row).err()),
        Rows::Executions => read(alloc, read_execution(alloc, row).err()),
        Rows::Evaluations => judged(alloc, Kind::Evaluation, row),
        Rows::Calls => judged(alloc, Kind::Call, row),
    }
}

fn show_file(rt: &HostRuntime, name: &str, rows: Rows) -> Option<()> {
    let text = fs::read_to_string(rt, name).ok()?;
    for row in text.as_str().lines() {
        let answer = answer(rt.alloc(), rows, row.as_bytes())?;
        println!(rt; "{row} => {answer}").ok()?;
    }
    Some(())
}

fn show_all(rt: &HostRuntime) -> Option<()> {
    for (name, rows) in FILES {
        show_file(rt, name, rows)?;
    }
    show_written(rt)
}

fn main(rt: HostRuntime) -> ExitCode {
    match show_all(&rt) {
        Some(()) => ExitCode::SUCCESS,
        None => ExitCode::FAILURE,
    }
}
