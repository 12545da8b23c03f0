//! The methods of texts.

ghost use Rattle.std.specs.Prelude.{◌≡◌, ◌≤◌, [], map, Some, Ok};
ghost use Rattle.std.specs.Option.{option_copied};
ghost use Rattle.rd_value.specs.declared.value.Datum.TheVariants as value;
ghost use Rattle.rd_interpreter.specs.Builtins.{produced, str, then_};
ghost use Rattle.rd_interpreter.specs.Draft.{drafted};
ghost use Rattle.rd_interpreter.specs.Held.{iterated, iterated_value};
ghost use Rattle.rd_interpreter.specs.Methods as spec;
ghost use Rattle.rd_interpreter.specs.Running.{Answers, Gives, own, state};
ghost use Rattle.rd_interpreter.specs.Texts.{begins, ends, filled, stripped, words};

use crate::draft::Draft;
use crate::frame::Frame;
use crate::halt::{Halt, raise};
use crate::making::made;
use crate::method::Method;
use crate::methods::{bad_arguments, bad_operand};
use crate::template::filled;
use crate::texts;
use crate::turns::through;
use rd_base::{Copies, Text};
use rd_value::class::Class;
use rd_value::expr::Expr;
use rd_value::value::Value;
use std::alloc::Global;

/// The value of a text that is made.
fn drafted(alloc: Global, frame: &mut Frame, draft: Draft) -> Result<Expr, Halt>
    ensures gives { Gives result (state frame.new) (drafted own draft (state frame.old)) }
    ensures left { frame.new.left ≤ frame.old.left }
{
    match draft.finish(alloc)? {
        Some(text) => made(alloc, frame, Expr::Val(Value::Text(text))),
        None => Err(raise(alloc, Class::LimitError, "value")),
    }
}

fn format(alloc: Global, frame: &mut Frame, text: &str, values: &[Value]) -> Result<Expr, Halt>
    ensures gives { Gives result (state frame.new) (produced own (spec.text_value (filled text.now (map (str own) values.now))) (state frame.old)) }
    ensures left { frame.new.left ≤ frame.old.left }
{
    let draft = filled(alloc, text, values)?;
    drafted(alloc, frame, draft)
}

fn split_words(alloc: Global, frame: &mut Frame, text: &str) -> Result<Expr, Halt>
    ensures gives { Gives result (state frame.new) (produced own (Ok (spec.texts (words text.now))) (state frame.old)) }
    ensures left { frame.new.left ≤ frame.old.left }
{
    let words = texts::words(alloc, text)?;
    made(alloc, frame, Expr::Val(Value::List(words)))
}

fn split(alloc: Global, frame: &mut Frame, text: &str, separator: &Value) -> Result<Expr, Halt>
    ensures gives { Gives result (state frame.new) (produced own (spec.split_by text.now (spec.text_of separator.now)) (state frame.old)) }
    ensures left { frame.new.left ≤ frame.old.left }
{
    let Value::Text(separator) = separator else {
        return Err(bad_operand(alloc));
    };
    if separator.as_str().is_empty() {
        return Err(raise(alloc, Class::ValueError, "empty separator"));
    }
    let pieces = texts::pieces(alloc, separator.as_str(), text)?;
    made(alloc, frame, Expr::Val(Value::List(pieces)))
}

/// The text of an expression that is one.
fn text_in(expr: &Expr) -> Option<&Text>
    ensures { option_copied result ≡ spec.held_text expr.now }
{
    match expr {
        Expr::Val(Value::Text(text)) => Some(text),
        _ => None,
    }
}

/// The texts that are gone through, with a separator between them.
fn joined(alloc: Global, separator: &str, texts: &Expr) -> Result<Draft, Halt>
    ensures { Answers result (then_ (iterated texts.now) (spec.led [] separator.now (Some []))) }
{
    let mut texts = through(alloc, texts)?;
    let mut draft = Draft::new(alloc);
    let mut between = "";
    while let Some(item) = texts.next(alloc)? {
        let Some(text) = text_in(&item) else {
            return Err(bad_operand(alloc));
        };
        draft.push(between)?;
        draft.push(text.as_str())?;
        between = separator;
    }
    Ok(draft)
}

fn join(alloc: Global, frame: &mut Frame, text: &str, texts: &Value) -> Result<Expr, Halt>
    ensures gives { Gives result (state frame.new) (produced own (then_ (iterated_value texts.now) (λ vs. spec.joined_by text.now (spec.texts_of vs))) (state frame.old)) }
    ensures left { frame.new.left ≤ frame.old.left }
{
    let draft = joined(alloc, text, &Expr::Val(texts.copy(alloc)?))?;
    drafted(alloc, frame, draft)
}

fn strip(alloc: Global, frame: &mut Frame, text: &str) -> Result<Expr, Halt>
    ensures gives { Gives result (state frame.new) (produced own (Ok (value.Text (stripped text.now))) (state frame.old)) }
    ensures left { frame.new.left ≤ frame.old.left }
{
    let text = Text::from_str(alloc, texts::stripped(text))?;
    made(alloc, frame, Expr::Val(Value::Text(text)))
}

fn starts_with(alloc: Global, text: &str, start: &Value) -> Result<Value, Halt>
    ensures { Answers result (spec.tested begins text.now (spec.text_of start.now)) }
{
    match start {
        Value::Text(start) => Ok(Value::Bool(texts::begins(start.as_str(), text))),
        _ => Err(bad_operand(alloc)),
    }
}

fn ends_with(alloc: Global, text: &str, end: &Value) -> Result<Value, Halt>
    ensures { Answers result (spec.tested ends text.now (spec.text_of end.now)) }
{
    match end {
        Value::Text(end) => Ok(Value::Bool(texts::ends(end.as_str(), text))),
        _ => Err(bad_operand(alloc)),
    }
}

fn replace(
    alloc: Global,
    frame: &mut Frame,
    text: &str,
    old: &Value,
    new: &Value,
) -> Result<Expr, Halt>
    ensures gives { Gives result (state frame.new) (produced own (spec.replaced_by text.now (spec.text_of old.now) (spec.text_of new.now)) (state frame.old)) }
    ensures left { frame.new.left ≤ frame.old.left }
{
    let (Value::Text(old), Value::Text(new)) = (old, new) else {
        return Err(bad_operand(alloc));
    };
    if old.as_str().is_empty() {
        return Err(raise(alloc, Class::ValueError, "empty pattern"));
    }
    let draft = texts::replaced(alloc, old.as_str(), new.as_str(), text)?;
    drafted(alloc, frame, draft)
}

/// A method of a text on values.
pub fn on_text(
    alloc: Global,
    frame: &mut Frame,
    method: Method,
    text: &str,
    values: &[Value],
) -> Result<Expr, Halt>
    ensures gives { Gives result (state frame.new) (spec.on_text own method text.now values.now (state frame.old)) }
    ensures left { frame.new.left ≤ frame.old.left }
{
    match (method, values) {
        (Method::Format, _) => format(alloc, frame, text, values),
        (Method::Split, []) => split_words(alloc, frame, text),
        (Method::Split, [separator]) => split(alloc, frame, text, separator),
        (Method::Join, [texts]) => join(alloc, frame, text, texts),
        (Method::Strip, []) => strip(alloc, frame, text),
        (Method::StartsWith, [start]) => Ok(Expr::Val(starts_with(alloc, text, start)?)),
        (Method::EndsWith, [end]) => Ok(Expr::Val(ends_with(alloc, text, end)?)),
        (Method::Replace, [old, new]) => replace(alloc, frame, text, old, new),
        _ => Err(bad_arguments(alloc)),
    }
}
