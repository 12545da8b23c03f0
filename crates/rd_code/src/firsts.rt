//! Maps that keep what came first under a text.

ghost use Rattle.std.specs.Prelude.{◌≡◌, ℕ, List, None, Some, OnOk, if◌then◌else◌};
ghost use Rattle.std.specs.Option.{option_or};
ghost use Rattle.std.specs.Str.{bytes_eq};
ghost use Rattle.indexmap.specs.IndexMap.{get};

use indexmap::IndexMap;
use rd_base::{OutOfMemory, Text};

/// Puts a value under a text, unless one stands there.
pub fn put_first<V: Drop>(
    map: &mut IndexMap<Text, V>,
    text: Text,
    value: V,
) -> Result<(), OutOfMemory>
    ensures { OnOk result ((other : List ℕ) → get bytes_eq map.new other ≡ option_or (get bytes_eq map.old other) (if bytes_eq other text then Some value else None)) }
{
    if map.contains_key(&text) {
        return Ok(());
    }
    map.insert(text, value)?;
    Ok(())
}
