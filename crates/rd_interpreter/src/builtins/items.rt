//! The items of a value.

ghost use Rattle.std.specs.Prelude.{◌≡◌, IfOk, map};
ghost use Rattle.std.specs.Str.{chars};
ghost use Rattle.rd_value.specs.Operators.{character};
ghost use Rattle.rd_interpreter.specs.Held.{iterated_value};
ghost use Rattle.rd_interpreter.specs.Running.{Answers};

use crate::halt::Halt;
use crate::held::bad_operand;
use crate::turns::source::character;
use rd_base::{Copies, OutOfMemory};
use rd_value::value::{Value, Values};
use std::alloc::Global;

fn keys(alloc: Global, pairs: &[(Value, Value)]) -> Result<Values, OutOfMemory>
    ensures { IfOk result (λ keys. keys ≡ map (λ p. p.0) pairs.now) }
{
    let mut keys = Values::new(alloc);
    for pair in pairs {
        keys.push(alloc, pair.0.copy(alloc)?)?;
    }
    Ok(keys)
}

fn characters(alloc: Global, text: &str) -> Result<Values, OutOfMemory>
    ensures { IfOk result (λ all. all ≡ map character (chars text.now)) }
{
    let mut all = Values::new(alloc);
    for c in text.chars() {
        all.push(alloc, Value::Text(character(alloc, c)?))?;
    }
    Ok(all)
}

/// The items of a list, the keys of a dict, the characters of a text.
pub fn iterated(alloc: Global, value: &Value) -> Result<Values, Halt>
    ensures { Answers result (iterated_value value.now) }
{
    match value {
        Value::List(values) => Ok(values.copy(alloc)?),
        Value::Dict(pairs) => Ok(keys(alloc, pairs.as_slice())?),
        Value::Text(text) => Ok(characters(alloc, text.as_str())?),
        _ => Err(bad_operand(alloc)),
    }
}
