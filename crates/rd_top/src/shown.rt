//! What is printed of an outcome.

ghost use Rattle.std.specs.Prelude.{◌≡◌, ◌++◌, OnOk, string_bytes};
ghost use Rattle.rd_top.specs.Running.{own};
ghost use Rattle.rd_top.specs.Shown as shown;

use rd_base::{OutOfMemory, Text};
use rd_value::failure::Failure;
use rd_value::repr::{push_quoted, push_repr};
use rd_value::value::Value;

/// Adds the line of a value.
pub fn push_value(line: &mut String, value: &Value) -> Result<(), OutOfMemory>
    ensures { OnOk result (string_bytes line.new ≡ string_bytes line.old ++ shown.value_line own value.now) }
{
    push_repr(line, value)?;
    line.push_str("\n")?;
    Ok(())
}

fn push_whence(line: &mut String, origin: &Text) -> Result<(), OutOfMemory>
    ensures { OnOk result (string_bytes line.new ≡ string_bytes line.old ++ shown.whence origin.now) }
{
    if origin.as_str().is_empty() {
        line.push_str("error: ")?;
        return Ok(());
    }
    line.push_str("error in ")?;
    line.push_str(origin.as_str())?;
    line.push_str(": ")?;
    Ok(())
}

/// Adds the line of an error.
pub fn push_failure(line: &mut String, failure: &Failure) -> Result<(), OutOfMemory>
    ensures { OnOk result (string_bytes line.new ≡ string_bytes line.old ++ shown.failure_line failure.now) }
{
    push_whence(line, &failure.origin)?;
    line.push_str(failure.class.name())?;
    line.push_str(": ")?;
    push_quoted(line, failure.text.as_str())?;
    line.push_str("\n")?;
    Ok(())
}
