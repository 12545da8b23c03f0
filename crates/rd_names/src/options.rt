//! The options of tasks, and the full names that they give.

ghost use Rattle.std.specs.Prelude.{◌≡◌, IfOk, option_copied};
ghost use Rattle.rd_names.specs.Options as spec;

use crate::spelling::{is_dotted, is_name};
use rd_base::{Copies, OutOfMemory, Text};
use rd_tree::TaskOption;
use rd_value::value::Value;
use std::alloc::Global;

fn text_of(value: &Value) -> Option<&Text>
    ensures { option_copied result ≡ spec.text_of value.now }
{
    match value {
        Value::Text(text) => Some(text),
        _ => None,
    }
}

fn accepts(key: &str, text: &str) -> bool
    ensures { result ≡ spec.accepts_text key.now text.now }
{
    (key == "name" && is_name(text)) || (key == "namespace" && is_dotted(text))
}

/// Whether an option is known and its value is one that it takes.
pub(crate) fn is_accepted(option: &TaskOption) -> bool
    ensures { result ≡ spec.is_accepted option.now }
{
    match text_of(&option.value) {
        Some(text) => accepts(option.name.text.as_str(), text.as_str()),
        None => false,
    }
}

fn gives<'a>(key: &str, option: &'a TaskOption) -> Option<&'a Text>
    ensures { option_copied result ≡ spec.gives key.now option.now }
{
    if option.name.text.as_str() == key {
        text_of(&option.value)
    } else {
        None
    }
}

fn given<'a>(key: &str, options: &'a [TaskOption]) -> Option<&'a Text>
    ensures { option_copied result ≡ spec.given key.now options.now }
{
    for option in options {
        match gives(key, option) {
            Some(text) => return Some(text),
            None => {}
        }
    }
    None
}

fn qualified(alloc: Global, space: Option<&Text>, name: &Text) -> Result<Text, OutOfMemory>
    ensures { IfOk result (λ t. t ≡ spec.qualified (option_copied space.entry) name.now) }
{
    match space {
        None => name.copy(alloc),
        Some(space) => {
            let mut text = String::from_str(alloc, space.as_str())?;
            text.push_str(".")?;
            text.push_str(name.as_str())?;
            Text::from_string(alloc, text)
        }
    }
}

/// The full name that a task with these options has in a namespace.
pub fn full_name(
    alloc: Global,
    space: Option<&Text>,
    options: &[TaskOption],
    name: &Text,
) -> Result<Text, OutOfMemory>
    ensures { IfOk result (λ t. t ≡ spec.full_name (option_copied space.entry) options.now name.now) }
{
    let own = match given("name", options) {
        Some(text) => text,
        None => name,
    };
    match given("namespace", options) {
        Some(text) => qualified(alloc, Some(text), own),
        None => qualified(alloc, space, own),
    }
}
