//! Runs each row of `rows.txt`, and prints its words with its answer and its status.
//!
//! A row begins with a line of `$ ` and words. The lines behind it are the file `w.py`, over which the words are run.
#![tactic(auto)]

use rd_base::{MemorySink, Path};
use rd_top::{MemoryDisk, redun_serial};
use std::alloc::Global;
use std::process::ExitCode;
use std::{fs, str};

/// The answer of words over a file, and its status.
#[derive(Drop)]
struct Answer {
    line: String,
    status: u8,
}

fn words(alloc: Global, text: &str) -> Option<Vec<String>> {
    let mut words = Vec::new(alloc);
    for word in text.split(' ') {
        let word = String::from_str(alloc, word).ok()?;
        words.push(word).ok()?;
    }
    Some(words)
}

fn run_words(alloc: Global, command: &str, source: &str) -> Option<Answer> {
    let words = words(alloc, command)?;
    let path = Path::new(alloc, "w.py").ok()?;
    let mut disk = MemoryDisk::new(alloc);
    disk.write(alloc, &path, source.as_bytes()).ok()?;
    let mut out = MemorySink::new(alloc);
    let status = redun_serial(alloc, words.as_slice(), &mut disk, &mut out);
    let line = String::from_str(alloc, str::from_utf8(out.bytes()).ok()?).ok()?;
    Some(Answer {
        line,
        status: status.number(),
    })
}

fn show(rt: &HostRuntime, row: &str) -> Option<()> {
    let (command, source) = row.split_once('\n')?;
    let answer = run_words(rt.alloc(), command, source)?;
    let line = answer.line.as_str();
    println!(rt; "$ {command}").ok()?;
    print!(rt; "{line}").ok()?;
    if answer.status > 1 {
        println!(rt; "status {}", answer.status).ok()?;
    }
    Some(())
}

fn show_all(rt: &HostRuntime) -> Option<()> {
    let text = fs::read_to_string(rt, "rows.txt").ok()?;
    for row in text.split("$ ").skip(1) {
        show(rt, row)?;
    }
    Some(())
}

fn main(rt: HostRuntime) -> ExitCode {
    match show_all(&rt) {
        Some(()) => ExitCode::SUCCESS,
        None => ExitCode::FAILURE,
    }
}
