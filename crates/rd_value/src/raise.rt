//! Errors as they are raised.

ghost use Rattle.std.specs.Prelude.{◌≡◌, IfOk};
ghost use Rattle.rd_value.specs.Raise as spec;

use crate::class::Class;
use crate::value::ErrorValue;
use rd_base::{OutOfMemory, Text};
use std::alloc::Global;

/// The most bytes of an error's text.
pub const LONGEST: usize = 4096;

/// The longest front of whole characters within the limit of an error's text.
fn cut(text: &str) -> &str
    ensures { result.now ≡ spec.cut text.now }
{
    if text.len() <= LONGEST {
        return text;
    }
    &text[..text.floor_char_boundary(LONGEST)]
}

/// An error as it is raised.
pub fn raised(alloc: Global, class: Class, text: &str) -> Result<ErrorValue, OutOfMemory>
    ensures { IfOk result (λ e. e ≡ spec.raised class text.now) }
{
    Ok(ErrorValue {
        class,
        text: Text::from_str(alloc, cut(text))?,
    })
}
