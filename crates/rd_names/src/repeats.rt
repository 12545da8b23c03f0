//! Names that stand twice.

ghost use Rattle.std.specs.Prelude.{◌≡◌, ◌++◌, OnOk};
ghost use Rattle.rd_names.specs.Names as spec;

use crate::refusal::{Broken, Refusal};
use indexmap::IndexSet;
use rd_base::{Copies, OutOfMemory, Text};
use rd_tree::Name;
use std::alloc::Global;

/// Notes a name, and refuses it where it was noted before.
pub(crate) fn note_name(
    alloc: Global,
    seen: &mut IndexSet<Text>,
    name: &Name,
    all: &mut Vec<Refusal>,
) -> Result<(), OutOfMemory>
    ensures seen { OnOk result (seen.new.keys ≡ spec.with_name seen.old.keys name.now.text) }
    ensures all { OnOk result (all.new.items ≡ all.old.items ++ spec.double seen.old.keys name.now) }
{
    if !seen.insert(name.text.copy(alloc)?)? {
        all.push(Refusal {
            rule: Broken::DoubleName,
            line: name.line,
        })?;
    }
    Ok(())
}
