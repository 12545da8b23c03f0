//! What the parser answers to one row.

use crate::escapes::unescaped;
use crate::modules::{push_module, push_returned};
use rd_parse::{parse, parse_literal};
use rd_syntax::{SourceError, lex};
use rd_tree::Module;
use rd_value::repr::push_repr;
use std::alloc::Global;

/// The module that a source spells.
pub fn read(alloc: Global, source: &[u8]) -> Result<Module, SourceError> {
    match lex(alloc, source) {
        Ok(tokens) => parse(alloc, &tokens),
        Err(error) => Err(error),
    }
}

pub fn refusal(alloc: Global, error: SourceError) -> Option<String> {
    match error {
        SourceError::Refused { line } => format!(in alloc; "refused {line}").ok(),
        SourceError::OutOfMemory => None,
    }
}

pub fn module(alloc: Global, source: &[u8]) -> Option<String> {
    match read(alloc, source) {
        Ok(module) => {
            let mut line = String::new(alloc);
            let pushed = push_module(&mut line, &module);
            drop(module);
            pushed.ok()?;
            Some(line)
        }
        Err(error) => refusal(alloc, error),
    }
}

pub fn module_bytes(alloc: Global, row: &str) -> Option<String> {
    module(alloc, unescaped(alloc, row)?.as_slice())
}

pub fn expression(alloc: Global, row: &str) -> Option<String> {
    let source = format!(in alloc; "def main(): return {row}").ok()?;
    match read(alloc, source.as_bytes()) {
        Ok(module) => {
            let mut line = String::new(alloc);
            let pushed = push_returned(&mut line, &module);
            drop(module);
            pushed.ok()?;
            Some(line)
        }
        Err(error) => refusal(alloc, error),
    }
}

/// The words as an expression in brackets, each on a line of its own, the first on the second line.
fn source_of_words(alloc: Global, row: &str) -> Option<String> {
    let mut source = String::from_str(alloc, "def main(): return (\n").ok()?;
    for word in row.split_whitespace() {
        source.push_str(word).ok()?;
        source.push_str("\n").ok()?;
    }
    source.push_str(")").ok()?;
    Some(source)
}

/// The words from the line on. Where there is none, the bracket behind the words is refused.
fn words_from_line(alloc: Global, row: &str, line: u32) -> Option<String> {
    let before = usize::try_from(line.checked_sub(2)?).ok()?;
    let mut shown = String::from_str(alloc, "refused at").ok()?;
    if row.split_whitespace().nth(before).is_none() {
        shown.push_str(" the end").ok()?;
    }
    for word in row.split_whitespace().skip(before) {
        shown.push_str(" ").ok()?;
        shown.push_str(word).ok()?;
    }
    Some(shown)
}

pub fn refused_words(alloc: Global, row: &str) -> Option<String> {
    let source = source_of_words(alloc, row)?;
    let tokens = match lex(alloc, source.as_bytes()) {
        Ok(tokens) => tokens,
        Err(_) => return String::from_str(alloc, "no tokens").ok(),
    };
    match parse(alloc, &tokens) {
        Ok(module) => {
            drop(module);
            String::from_str(alloc, "read").ok()
        }
        Err(SourceError::Refused { line }) => words_from_line(alloc, row, line),
        Err(SourceError::OutOfMemory) => None,
    }
}

pub fn literal(alloc: Global, row: &str) -> Option<String> {
    let mut line = String::new(alloc);
    match parse_literal(alloc, row).ok()? {
        Some(value) => {
            let pushed = push_repr(&mut line, &value);
            drop(value);
            pushed.ok()?;
        }
        None => line.push_str("none").ok()?,
    }
    Some(line)
}

pub fn literal_bytes(alloc: Global, row: &str) -> Option<String> {
    let bytes = unescaped(alloc, row)?;
    literal(alloc, str::from_utf8(bytes.as_slice()).ok()?)
}
