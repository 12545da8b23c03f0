use crate::apply::apply_op;
use crate::binding::{NamedValues, bind};
use crate::expand::{expand_catch, expand_map};
use crate::step::StepError;
use rd_base::{OutOfMemory, Text};
use rd_value::class::Class;
use rd_value::expr::{Expr, Exprs, NamedExprs, OpKind};
use rd_value::failure::Failure;
use rd_value::signature::{Parameter, Parameters, Signature};
use rd_value::value::{Value, Values};
use std::alloc::Global;

/// The numbers 10, 11 and so on.
fn numbers(alloc: Global, count: u8) -> Result<Values, OutOfMemory> {
    let mut values = Values::new(alloc);
    for n in 0..count {
        values.push(alloc, Value::Int(10 + i64::from(n)))?;
    }
    Ok(values)
}

fn failure(alloc: Global, class: Class, text: &str) -> Result<Failure, OutOfMemory> {
    let text = Text::from_str(alloc, text)?;
    let origin = Text::from_str(alloc, "")?;
    Ok(Failure {
        class,
        text,
        origin,
    })
}

/// The printed value, or the text of the failure and its task.
fn shown(alloc: Global, answer: Result<Value, StepError>) -> Result<Text, OutOfMemory> {
    match answer {
        Ok(value) => value.repr(alloc),
        Err(StepError::Failed(failure)) => {
            let mut shown = String::from_str(alloc, failure.text.as_str())?;
            shown.push_str(" ")?;
            shown.push_str(failure.origin.as_str())?;
            Text::from_string(alloc, shown)
        }
        Err(StepError::OutOfMemory) => Err(OutOfMemory),
    }
}

#[test]
fn applies_operators(rt: HostRuntime) -> Result<(), OutOfMemory> {
    for (op, count, want) in [
        (OpKind::Sub, 2, "-1"),
        (OpKind::Neg, 1, "-10"),
        (OpKind::Neg, 2, "bad operand "),
    ] {
        let parts = numbers(rt.alloc(), count)?;
        let answer = shown(rt.alloc(), apply_op(rt.alloc(), op, &parts))?;
        assert_eq!(rt; answer.as_str(), want);
    }
    Ok(())
}

fn letter_text(alloc: Global, letter: char) -> Result<Text, OutOfMemory> {
    Text::from_string(alloc, letter.to_string(alloc)?)
}

/// A parameter for each letter. Where the letter is a capital, 2 is its default.
fn signature(alloc: Global, letters: &str) -> Result<Signature, OutOfMemory> {
    let mut parameters = Parameters::new(alloc);
    for letter in letters.chars() {
        let name = letter_text(alloc, letter)?;
        let default = letter.is_ascii_uppercase().then_some(Value::Int(2));
        parameters.push(alloc, Parameter { name, default })?;
    }
    Ok(Signature { parameters })
}

/// The task `f` with so many numbers, and with a keyword for each letter, whose value is the letter's number.
fn bound(alloc: Global, letters: &str, count: u8, names: &str) -> Result<Value, StepError> {
    let mut keywords = NamedValues::new(alloc);
    for letter in names.chars() {
        let name = letter_text(alloc, letter)?;
        keywords.push(alloc, (name, Value::Int(i64::from(u32::from(letter)))))?;
    }
    let positional = numbers(alloc, count)?;
    let signature = signature(alloc, letters)?;
    let values = bind(alloc, "f", &signature, &positional, &keywords)?;
    Ok(Value::List(values))
}

#[test]
fn binds(rt: HostRuntime) -> Result<(), OutOfMemory> {
    for (letters, count, names, want) in [
        ("aB", 1, "", "[10, 2]"),
        ("aB", 2, "", "[10, 11]"),
        ("aB", 1, "B", "[10, 66]"),
        ("aB", 0, "Ba", "[97, 66]"),
        (
            "abcdefgh",
            0,
            "hgfedcba",
            "[97, 98, 99, 100, 101, 102, 103, 104]",
        ),
        ("aB", 3, "c", "too many arguments f"),
        ("aB", 1, "ca", "unknown argument c f"),
        ("aB", 1, "ac", "argument a given twice f"),
        ("aB", 0, "B", "missing argument a f"),
        ("abcdefgh", 0, "hgfedcbia", "unknown argument i f"),
        ("abcdefgh", 0, "hgfedchz", "argument h given twice f"),
        ("abcdefghi", 0, "abcefghi", "missing argument d f"),
    ] {
        let answer = bound(rt.alloc(), letters, count, names);
        assert_eq!(rt; shown(rt.alloc(), answer)?.as_str(), want);
    }
    Ok(())
}

/// The list that holds the call `g(10)`.
fn one_call(alloc: Global) -> Result<Expr, OutOfMemory> {
    let mut positional = Exprs::new(alloc);
    positional.push(alloc, Expr::Val(Value::Int(10)))?;
    let call = Expr::Call {
        task: Text::from_str(alloc, "g")?,
        positional,
        keywords: NamedExprs::new(alloc),
    };
    let mut calls = Exprs::new(alloc);
    calls.push(alloc, call)?;
    Ok(Expr::ListOf(calls))
}

#[test]
fn expands_map(rt: HostRuntime) -> Result<(), OutOfMemory> {
    let alloc = rt.alloc();
    let one = Value::List(numbers(alloc, 1)?);
    let want = one_call(alloc)?;
    assert!(rt; expand_map(alloc, "g", &one) == Ok(want));
    let none = Value::List(Values::new(alloc));
    let want = Expr::Val(Value::List(Values::new(alloc)));
    assert!(rt; expand_map(alloc, "g", &none) == Ok(want));
    let want = StepError::Failed(failure(alloc, Class::TypeError, "map_ needs a list")?);
    assert!(rt; expand_map(alloc, "g", &Value::Int(1)) == Err(want));
    Ok(())
}

#[test]
fn catches_classes(rt: HostRuntime) -> Result<(), OutOfMemory> {
    for (class, raised, want) in [
        (Class::Exception, Class::KeyError, true),
        (Class::RuntimeError, Class::RecursionError, true),
        (Class::RecursionError, Class::RuntimeError, false),
        (Class::KeyError, Class::Exception, false),
    ] {
        let failure = failure(rt.alloc(), raised, "t")?;
        let call = expand_catch(rt.alloc(), class, "g", &failure)?;
        assert_eq!(rt; call.is_some(), want);
    }
    Ok(())
}
