//! The canonical bytes of values.

ghost use Rattle.std.specs.Prelude.{◌≡◌, ◌++◌, OnOk, IfOk, map, codes};
ghost use Rattle.rd_value.specs.Class.{name};
ghost use Rattle.rd_value.specs.Canon.{string, joined, keyed, canon};

use crate::write::string::{push_digest, push_signed, push_text};
use rd_base::{Bytes, OutOfMemory};
use rd_value::value::{ErrorValue, FileValue, Value};
use std::alloc::Global;

fn push_file(out: &mut Vec<u8>, file: &FileValue) -> Result<(), OutOfMemory>
    ensures { OnOk result (out.new.items ≡ out.old.items ++ (codes "l1:f" ++ string file.now.path ++ string file.now.digest.0 ++ codes "e")) }
{
    out.extend_from_slice(b"l1:f")?;
    push_text(out, file.path.as_str())?;
    push_digest(out, &file.digest)?;
    out.push(b'e')?;
    Ok(())
}

fn push_error(out: &mut Vec<u8>, error: &ErrorValue) -> Result<(), OutOfMemory>
    ensures { OnOk result (out.new.items ≡ out.old.items ++ (codes "l1:e" ++ string (name error.now.class) ++ string error.now.text ++ codes "e")) }
{
    out.extend_from_slice(b"l1:e")?;
    push_text(out, error.class.name())?;
    push_text(out, error.text.as_str())?;
    out.push(b'e')?;
    Ok(())
}

/// Adds the canonical bytes of values.
#[cycle(value)]
pub(crate) fn push_items(out: &mut Vec<u8>, items: &[Value]) -> Result<(), OutOfMemory>
    ensures { OnOk result (out.new.items ≡ out.old.items ++ joined (map (canon (λ f. f)) items.now)) }
{
    for item in items {
        push_value(out, item)?;
    }
    Ok(())
}

#[cycle(value)]
fn push_pairs(out: &mut Vec<u8>, pairs: &[(Value, Value)]) -> Result<(), OutOfMemory>
    ensures { OnOk result (out.new.items ≡ out.old.items ++ joined (map keyed (map (λ p. (canon (λ f. f) p.0, canon (λ f. f) p.1)) pairs.now))) }
{
    for (key, item) in pairs {
        push_value(out, key)?;
        push_value(out, item)?;
    }
    Ok(())
}

/// Adds the canonical bytes of a value.
#[cycle(value)]
pub fn push_value(out: &mut Vec<u8>, value: &Value) -> Result<(), OutOfMemory>
    ensures { OnOk result (out.new.items ≡ out.old.items ++ canon (λ f. f) value.now) }
{
    match value {
        Value::Nothing => {
            out.extend_from_slice(b"l1:ne")?;
            Ok(())
        }
        Value::Bool(b) => {
            out.extend_from_slice(if *b { b"l1:bi1ee" } else { b"l1:bi0ee" })?;
            Ok(())
        }
        Value::Int(n) => push_signed(out, *n),
        Value::Text(text) => push_text(out, text.as_str()),
        Value::List(items) => {
            out.extend_from_slice(b"l1:l")?;
            push_items(out, items.as_slice())?;
            out.push(b'e')?;
            Ok(())
        }
        Value::Dict(pairs) => {
            out.extend_from_slice(b"l1:d")?;
            push_pairs(out, pairs.as_slice())?;
            out.push(b'e')?;
            Ok(())
        }
        Value::File(file) => push_file(out, file),
        Value::Error(error) => push_error(out, error),
    }
}

/// The canonical bytes of a value, also of one past the limits.
pub fn write_value(alloc: Global, value: &Value) -> Result<Bytes, OutOfMemory>
    ensures { IfOk result (λ bytes. bytes ≡ canon (λ f. f) value.now) }
{
    let mut out = Vec::new(alloc);
    push_value(&mut out, value)?;
    Bytes::from_vec(alloc, out)
}
