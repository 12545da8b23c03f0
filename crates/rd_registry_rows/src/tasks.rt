//! Rows on the structure of the task `one`, and on words.

use crate::answers::read;
use rd_base::Text;
use rd_registry::Registry;
use std::alloc::Global;
use std::str;

/// Names each part of a row that has two.
const BETWEEN: &str = "\n-> ";

fn digest_in(alloc: Global, registry: &Registry) -> Option<String> {
    let word = Text::from_str(alloc, "one").ok()?;
    let task = registry.find_word(&word)?;
    hex::encode(alloc, registry.digest(task).0.as_slice()).ok()
}

fn structure_in(alloc: Global, registry: &Registry) -> Option<String> {
    let word = Text::from_str(alloc, "one").ok()?;
    let task = registry.find_word(&word)?;
    let bytes = registry.structure(alloc, task).ok()?;
    let text = str::from_utf8(bytes.as_slice()).ok()?;
    format!(in alloc; "{text}").ok()
}

fn name_in(alloc: Global, registry: &Registry, word: &str) -> Option<String> {
    let word = Text::from_str(alloc, word).ok()?;
    match registry.find_word(&word) {
        Some(task) => String::from_str(alloc, registry.full_name(task)).ok(),
        None => String::from_str(alloc, "nothing").ok(),
    }
}

fn digest(alloc: Global, source: &str) -> Option<String> {
    let registry = read(alloc, source)?;
    let digest = digest_in(alloc, &registry);
    drop(registry);
    digest
}

/// The structure of the task, and its digest behind it.
pub fn structure(alloc: Global, source: &str) -> Option<String> {
    let registry = read(alloc, source)?;
    let structure = structure_in(alloc, &registry);
    let digest = digest_in(alloc, &registry);
    drop(registry);
    let structure = structure?;
    let digest = digest?;
    format!(in alloc; "{structure} {digest}").ok()
}

/// Whether an edit of the source, from the first part to the second, changes the digest of the task.
pub fn change(alloc: Global, row: &str) -> Option<String> {
    let (before, after) = row.split_once(BETWEEN)?;
    let before = digest(alloc, before)?;
    let after = digest(alloc, after)?;
    String::from_str(alloc, if before == after { "same" } else { "another" }).ok()
}

/// The full name of the task that the word names which stands behind the source.
pub fn word(alloc: Global, row: &str) -> Option<String> {
    let (source, word) = row.rsplit_once(BETWEEN)?;
    let registry = read(alloc, source)?;
    let name = name_in(alloc, &registry, word);
    drop(registry);
    name
}
