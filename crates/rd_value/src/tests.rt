use crate::class::Class;
use crate::expr::{Expr, Exprs, NamedExprs};
use crate::limits::are_within;
use crate::make::MakeError;
use crate::value::{ErrorValue, FileValue, Pairs, Value, Values};
use indexmap::IndexMap;
use rd_base::{Copies, Digest, OutOfMemory, Path, Text};
use std::alloc::Global;
use std::cmp::Ordering;

fn text(alloc: Global, text: &str) -> Result<Value, OutOfMemory> {
    Ok(Value::Text(Text::from_str(alloc, text)?))
}

fn list(alloc: Global, a: Value, b: Value) -> Result<Value, OutOfMemory> {
    let mut items = Values::new(alloc);
    items.push(alloc, a)?;
    items.push(alloc, b)?;
    Ok(Value::List(items))
}

/// `{first: 1, second: [True, None]}`
fn dict(alloc: Global, first: &str, second: &str) -> Result<Value, OutOfMemory> {
    let flags = list(alloc, Value::Bool(true), Value::Nothing)?;
    let mut pairs = Pairs::new(alloc);
    pairs.push(alloc, (text(alloc, first)?, Value::Int(1)))?;
    pairs.push(alloc, (text(alloc, second)?, flags))?;
    Ok(Value::Dict(pairs))
}

fn file(alloc: Global) -> Result<Value, OutOfMemory> {
    let mut bytes = [0; 32];
    bytes[1] = 0x1f;
    match Path::new(alloc, "in/a.txt") {
        Ok(path) => Ok(Value::File(FileValue {
            path,
            digest: Digest(bytes),
        })),
        Err(_) => Err(OutOfMemory),
    }
}

fn key_error(alloc: Global) -> Result<Value, OutOfMemory> {
    Ok(Value::Error(ErrorValue {
        class: Class::KeyError,
        text: Text::from_str(alloc, "'k'")?,
    }))
}

/// The call `g(1)`.
fn call(alloc: Global) -> Result<Expr, OutOfMemory> {
    let mut positional = Exprs::new(alloc);
    positional.push(alloc, Expr::Val(Value::Int(1)))?;
    Ok(Expr::Call {
        task: Text::from_str(alloc, "g")?,
        positional,
        keywords: NamedExprs::new(alloc),
    })
}

fn long_text(alloc: Global, count: usize) -> Result<Value, OutOfMemory> {
    text(alloc, "x".repeat(alloc, count)?.as_str())
}

fn nested(alloc: Global, depth: u8) -> Result<Value, OutOfMemory> {
    let mut value = Value::Nothing;
    for _ in 1..depth {
        let mut items = Values::new(alloc);
        items.push(alloc, value)?;
        value = Value::List(items);
    }
    Ok(value)
}

#[test]
fn prints_texts(rt: HostRuntime) -> Result<(), OutOfMemory> {
    for (content, want) in [
        ("", "''"),
        ("it's", "\"it's\""),
        ("say \"it's\"", "'say \"it\\'s\"'"),
        ("\\\n\r\t", "'\\\\\\n\\r\\t'"),
        ("\x00\x1f\x7f ~é€", "'\\x00\\x1f\\x7f ~é€'"),
    ] {
        let printed = text(rt.alloc(), content)?.repr(rt.alloc())?;
        assert_eq!(rt; printed.as_str(), want);
    }
    Ok(())
}

#[test]
fn prints_each_kind(rt: HostRuntime) -> Result<(), OutOfMemory> {
    let alloc = rt.alloc();
    let first = list(alloc, dict(alloc, "b", "a")?, key_error(alloc)?)?;
    let second = list(alloc, Value::Int(-7), file(alloc)?)?;
    let printed = list(alloc, first, second)?.repr(alloc)?;
    let want =
        "[[{'b': 1, 'a': [True, None]}, KeyError(\"'k'\")], [-7, File(path='in/a.txt', hash=001f000000000000000000000000000000000000000000000000000000000000)]]";
    assert_eq!(rt; printed.as_str(), want);
    Ok(())
}

#[test]
fn measures(rt: HostRuntime) -> Result<(), OutOfMemory> {
    let dict = dict(rt.alloc(), "b", "a")?;
    assert_eq!(rt; dict.size(), 32);
    assert_eq!(rt; dict.depth(), 3);
    let call = call(rt.alloc())?;
    assert_eq!(rt; call.size(), 20);
    assert_eq!(rt; call.depth(), 2);
    Ok(())
}

#[test]
fn limits_sizes(rt: HostRuntime) -> Result<(), OutOfMemory> {
    let longest = long_text(rt.alloc(), 1_048_568)?;
    assert!(rt; longest.within());
    let longer = long_text(rt.alloc(), 1_048_569)?;
    assert!(rt; !longer.within());
    Ok(())
}

#[test]
fn limits_depths(rt: HostRuntime) -> Result<(), OutOfMemory> {
    let deepest = nested(rt.alloc(), 64)?;
    assert!(rt; deepest.within());
    let values = [deepest];
    assert!(rt; !are_within(&values));
    Ok(())
}

#[test]
fn orders(rt: HostRuntime) -> Result<(), OutOfMemory> {
    let alloc = rt.alloc();
    let one = Value::Int(1);
    assert!(rt; one.compared(&Value::Bool(true)) == Some(Ordering::Equal));
    assert!(rt; one.compared(&Value::Int(2)) == Some(Ordering::Less));
    assert!(rt; one.compared(&Value::Nothing) == None);
    let later = text(alloc, "é")?;
    assert!(rt; later.compared(&text(alloc, "z")?) == Some(Ordering::Greater));
    let empty = Value::List(Values::new(alloc));
    let longer = list(alloc, Value::Nothing, Value::Int(3))?;
    assert!(rt; empty.compared(&longer) == Some(Ordering::Less));
    Ok(())
}

#[test]
fn makes_expressions(rt: HostRuntime) -> Result<(), MakeError> {
    let alloc = rt.alloc();
    let mut parts = Exprs::new(alloc);
    parts.push(alloc, Expr::Val(nested(alloc, 64)?))?;
    assert!(rt; Expr::list(alloc, parts) == Err(MakeError::LimitError));
    let mut parts = Exprs::new(alloc);
    parts.push(alloc, call(alloc)?)?;
    assert!(rt; Expr::list(alloc, parts.copy(alloc)?)? == Expr::ListOf(parts));
    Ok(())
}

/// `1` and `True` are equal in the language, and two keys all the same.
#[test]
fn values_are_keys(rt: HostRuntime) -> Result<(), OutOfMemory> {
    let alloc = rt.alloc();
    let mut places = IndexMap::new(alloc);
    places.insert(Value::Int(1), 1)?;
    places.insert(Value::Bool(true), 2)?;
    places.insert(dict(alloc, "b", "a")?, 3)?;
    assert_eq!(rt; places.get(&Value::Bool(true)), Some(&2));
    assert_eq!(rt; places.get(&dict(alloc, "b", "a")?), Some(&3));
    assert_eq!(rt; places.get(&dict(alloc, "a", "b")?), None);
    Ok(())
}
