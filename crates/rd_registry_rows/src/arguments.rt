//! Rows with arguments that no source makes.

use crate::answers::answer;
use rd_base::{Digest, Path, Text};
use rd_value::class::Class;
use rd_value::value::{ErrorValue, FileValue, Value};
use std::alloc::Global;

fn error(alloc: Global) -> Option<Value> {
    Some(Value::Error(ErrorValue {
        class: Class::ValueError,
        text: Text::from_str(alloc, "no").ok()?,
    }))
}

fn file(alloc: Global) -> Option<Value> {
    Some(Value::File(FileValue {
        path: Path::new(alloc, "a/b").ok()?,
        digest: Digest([7; 32]),
    }))
}

/// `e` is the error `ValueError('no')`, and `g` the file `a/b`.
pub fn with_arguments(alloc: Global, row: &str) -> Option<String> {
    let source = format!(in alloc; "@task\ndef main(e, g): return {row}").ok()?;
    let arguments = [error(alloc)?, file(alloc)?];
    answer(alloc, source.as_str(), &arguments)
}
