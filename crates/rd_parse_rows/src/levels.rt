//! How many levels may be open.

use crate::answers::read;
use rd_parse::parse_literal;
use rd_syntax::SourceError;
use std::alloc::Global;

/// The counts of levels that are tried, around the most that may be open.
const COUNTS: [usize; 4] = [62, 63, 64, 65];

/// The parts of a row.
#[derive(Clone, Copy)]
struct Parts<'a> {
    front: &'a str,
    opens: &'a str,
    middle: &'a str,
    closes: &'a str,
    behind: &'a str,
}

fn parts_of(row: &str) -> Option<Parts<'_>> {
    let mut parts = row.split('|');
    Some(Parts {
        front: parts.next()?,
        opens: parts.next()?,
        middle: parts.next()?,
        closes: parts.next()?,
        behind: parts.next()?,
    })
}

fn nested(alloc: Global, parts: Parts<'_>, count: usize) -> Option<String> {
    let opens = format!(in alloc; "{}\n", parts.opens).ok()?;
    let opens = opens.as_str().repeat(alloc, count).ok()?;
    let closes = parts.closes.repeat(alloc, count).ok()?;
    format!(in alloc;
        "{}{opens}{}{closes}{}",
        parts.front, parts.middle, parts.behind
    )
    .ok()
}

fn push_outcome(line: &mut String, alloc: Global, source: &str) -> Option<()> {
    match read(alloc, source.as_bytes()) {
        Ok(module) => {
            drop(module);
            line.push_str(" read").ok()
        }
        Err(SourceError::Refused { line: refused }) => write!(line, " refused {refused}").ok(),
        Err(SourceError::OutOfMemory) => None,
    }
}

fn push_value_outcome(line: &mut String, alloc: Global, text: &str) -> Option<()> {
    match parse_literal(alloc, text).ok()? {
        Some(value) => {
            drop(value);
            line.push_str(" read").ok()
        }
        None => line.push_str(" none").ok(),
    }
}

pub fn module_levels(alloc: Global, row: &str) -> Option<String> {
    let parts = parts_of(row)?;
    let mut line = String::new(alloc);
    let mut separator = "";
    for count in COUNTS {
        write!(&mut line, "{separator}{count}").ok()?;
        push_outcome(&mut line, alloc, nested(alloc, parts, count)?.as_str())?;
        separator = ", ";
    }
    Some(line)
}

pub fn literal_levels(alloc: Global, row: &str) -> Option<String> {
    let parts = parts_of(row)?;
    let mut line = String::new(alloc);
    let mut separator = "";
    for count in COUNTS {
        write!(&mut line, "{separator}{count}").ok()?;
        push_value_outcome(&mut line, alloc, nested(alloc, parts, count)?.as_str())?;
        separator = ", ";
    }
    Some(line)
}

/// Blocks in blocks, each one space further in.
fn nested_blocks(alloc: Global, opens: &str, count: usize) -> Option<String> {
    let mut source = String::from_str(alloc, "def f():\n").ok()?;
    let mut indentation = String::new(alloc);
    for _ in 0..count {
        indentation.push_str(" ").ok()?;
        source.push_str(indentation.as_str()).ok()?;
        source.push_str(opens).ok()?;
        source.push_str("\n").ok()?;
    }
    source.push_str(indentation.as_str()).ok()?;
    source.push_str(" pass").ok()?;
    Some(source)
}

pub fn blocks(alloc: Global, row: &str) -> Option<String> {
    let mut line = String::new(alloc);
    let mut separator = "";
    for count in COUNTS {
        write!(&mut line, "{separator}{count}").ok()?;
        push_outcome(&mut line, alloc, nested_blocks(alloc, row, count)?.as_str())?;
        separator = ", ";
    }
    Some(line)
}
