//! Rows that end at the last step that a body has.

use crate::answers::answer;
use std::alloc::Global;

/// The helper `h`, the task `f`, and the beginning of `main`. Its three statements take 900,018 steps.
const BEFORE: &str =
    "def h(x=1): return x\n@task\ndef f(): return 1\n@task\ndef main():\n  a = [0] * 300000\n  a = [0] * 300000\n  a = [0] * 300000\n";

/// So many steps are left of 1,000,000 behind `BEFORE`, and behind a list without items.
const LEFT: u32 = 99_976;

/// A list takes a step for each item, and 6 for itself.
fn source(alloc: Global, statements: &str, items: u32) -> Option<String> {
    let mut source = String::from_str(alloc, BEFORE).ok()?;
    write!(&mut source, "  a = [0] * {items}").ok()?;
    for statement in statements.split(';') {
        source.push_str("\n  ").ok()?;
        source.push_str(statement.trim()).ok()?;
    }
    Some(source)
}

/// The answer where the steps are just enough, and the one where there is one fewer.
pub fn with_steps(alloc: Global, row: &str) -> Option<String> {
    let (statements, steps) = row.rsplit_once(" | ")?;
    let items = LEFT.checked_sub(steps.parse::<u32>().ok()?)?;
    let enough = source(alloc, statements, items)?;
    let fewer = source(alloc, statements, items.checked_add(1)?)?;
    let enough = answer(alloc, enough.as_str(), &[])?;
    let fewer = answer(alloc, fewer.as_str(), &[])?;
    format!(in alloc; "{enough}, and with a step fewer {fewer}").ok()
}
