//! The arguments that words give.

ghost use Rattle.std.specs.Prelude.{◌≡◌, ◌≢◌, ◌↔◌, List, IfOk, IsTrue, MatchOption, map, string_bytes};
ghost use Rattle.std.specs.List.{AllPairs, AllZip};
ghost use Rattle.rd_top.specs.Command.{AreArguments, Argument, IsArgument, Means, names_of};

use indexmap::IndexSet;
use rd_base::{Copies, Items, OutOfMemory, Text};
use rd_meaning::NamedValues;
use rd_names::is_name;
use rd_parse::parse_literal;
use rd_value::value::Value;
use std::alloc::Global;

/// The value that a text means: the literal that it spells, and else itself.
fn meant(alloc: Global, text: &str) -> Result<Value, OutOfMemory>
    ensures { IfOk result (Means text.now) }
{
    match parse_literal(alloc, text)? {
        Some(value) => Ok(value),
        None => Ok(Value::Text(Text::from_str(alloc, text)?)),
    }
}

/// The argument that a word gives, if it gives one.
fn argument(alloc: Global, word: &str) -> Result<Option<(Text, Value)>, OutOfMemory>
    ensures { IfOk result (λ o. MatchOption o ((a : Argument) → IsArgument word.now a → ⊥) (IsArgument word.now)) }
{
    let Some((name, text)) = word.split_once('=') else {
        return Ok(None);
    };
    if !is_name(name) {
        return Ok(None);
    }
    let value = meant(alloc, text)?;
    if !value.within() {
        return Ok(None);
    }
    Ok(Some((Text::from_str(alloc, name)?, value)))
}

/// The argument of each word, if each gives one.
fn each(alloc: Global, words: &[String]) -> Result<Option<NamedValues>, OutOfMemory>
    ensures { IfOk result (λ o. MatchOption o
        ((given : List Argument) → AllZip IsArgument (map string_bytes words.now) given → ⊥)
        (AllZip IsArgument (map string_bytes words.now))) }
{
    let mut all = Items::new(alloc);
    for word in words {
        match argument(alloc, word.as_str())? {
            Some(argument) => all.push(alloc, argument)?,
            None => return Ok(None),
        }
    }
    Ok(Some(all))
}

/// Whether each name is there once.
fn are_distinct(alloc: Global, arguments: &[(Text, Value)]) -> Result<bool, OutOfMemory>
    ensures { IfOk result (λ distinct. IsTrue distinct ↔ AllPairs ◌≢◌ (names_of arguments.now)) }
{
    let mut names = IndexSet::new(alloc);
    for (name, _) in arguments {
        if !names.insert(name.copy(alloc)?)? {
            return Ok(false);
        }
    }
    Ok(true)
}

/// The arguments that the words give, if they give any, each name once.
pub fn arguments(alloc: Global, words: &[String]) -> Result<Option<NamedValues>, OutOfMemory>
    ensures { IfOk result (λ o. MatchOption o
        ((given : List Argument) → AreArguments (map string_bytes words.now) given → ⊥)
        (AreArguments (map string_bytes words.now))) }
{
    let Some(all) = each(alloc, words)? else {
        return Ok(None);
    };
    if are_distinct(alloc, all.as_slice())? {
        Ok(Some(all))
    } else {
        Ok(None)
    }
}
