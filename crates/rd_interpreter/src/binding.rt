//! Arguments bound to the parameters of a helper.

ghost use Rattle.std.specs.Prelude.{◌≡◌, ◌<◌, IfOk, IfSome, OnOk, map, length};
ghost use Rattle.std.specs.List.{slice_get};
ghost use Rattle.std.specs.Option.{option_map};
ghost use Rattle.rd_value.specs.declared.expr.Lazy.TheVariants as lazy;
ghost use Rattle.rd_value.specs.Bind as bind;
ghost use Rattle.rd_value.specs.Bind.{with_keyword, with_keywords, all_settled};
ghost use Rattle.rd_interpreter.specs.Binding.{Filled, in_order, names_of, place_of, slot_of, spelled_in};
ghost use Rattle.rd_interpreter.specs.Body as spec;
ghost use Rattle.rd_interpreter.specs.Running.{Answers, routine_of, spelling_at, state};

use crate::frame::Frame;
use crate::halt::Halt;
use indexmap::IndexSet;
use rd_base::{Copies, OutOfMemory, Text};
use rd_routine::{Parameter, Routine, Word};
use rd_value::class::Class;
use rd_value::expr::{Expr, Exprs, NamedExprs};
use rd_value::raise::raised;
use rd_value::value::ErrorValue;
use std::alloc::Global;

/// From so many keywords on, their names are looked up in a set.
const MANY: usize = 8;

/// A parameter, and what it is given.
#[derive(Drop)]
struct Argument {
    name: Text,
    default: Option<Expr>,
    given: Option<Expr>,
}

fn too_many(alloc: Global) -> Result<ErrorValue, OutOfMemory>
    ensures { IfOk result (λ e. e ≡ bind.too_many) }
{
    raised(alloc, Class::TypeError, "too many arguments")
}

fn unknown(alloc: Global, name: &str) -> Result<ErrorValue, OutOfMemory>
    ensures { IfOk result (λ e. e ≡ bind.unknown name.now) }
{
    let mut text = String::from_str(alloc, "unknown argument ")?;
    text.push_str(name)?;
    raised(alloc, Class::TypeError, text.as_str())
}

fn given_twice(alloc: Global, name: &str) -> Result<ErrorValue, OutOfMemory>
    ensures { IfOk result (λ e. e ≡ bind.given_twice name.now) }
{
    let mut text = String::from_str(alloc, "argument ")?;
    text.push_str(name)?;
    text.push_str(" given twice")?;
    raised(alloc, Class::TypeError, text.as_str())
}

fn missing(alloc: Global, name: &str) -> Result<ErrorValue, OutOfMemory>
    ensures { IfOk result (λ e. e ≡ bind.missing name.now) }
{
    let mut text = String::from_str(alloc, "missing argument ")?;
    text.push_str(name)?;
    raised(alloc, Class::TypeError, text.as_str())
}

fn name_of(alloc: Global, words: &[Word], parameter: &Parameter) -> Result<Text, OutOfMemory>
    ensures { IfOk result (λ t. t ≡ spelling_at words.now parameter.now.slot) }
{
    match words.get(parameter.slot) {
        Some(word) => word.spelling.copy(alloc),
        None => Text::from_str(alloc, ""),
    }
}

fn default_of(alloc: Global, parameter: &Parameter) -> Result<Option<Expr>, OutOfMemory>
    ensures { IfOk result (λ o. o ≡ option_map lazy.Val parameter.now.default) }
{
    match &parameter.default {
        Some(value) => Ok(Some(Expr::Val(value.copy(alloc)?))),
        None => Ok(None),
    }
}

/// The argument at a place, where there is one.
fn given_at(alloc: Global, positional: &[Expr], place: usize) -> Result<Option<Expr>, OutOfMemory>
    ensures { IfOk result (λ o. o ≡ slice_get positional.now place) }
{
    match positional.get(place) {
        Some(value) => Ok(Some(value.copy(alloc)?)),
        None => Ok(None),
    }
}

/// An argument for each parameter, the first ones given by position.
fn positioned(
    alloc: Global,
    words: &[Word],
    parameters: &[Parameter],
    positional: &[Expr],
) -> Result<Vec<Argument>, OutOfMemory>
    ensures { IfOk result (λ all. map slot_of all.items ≡ in_order 0 (map (spelled_in words.now) parameters.now) positional.now) }
{
    let mut all = Vec::new(alloc);
    for parameter in parameters {
        let given = given_at(alloc, positional, all.len())?;
        all.push(Argument {
            name: name_of(alloc, words, parameter)?,
            default: default_of(alloc, parameter)?,
            given,
        })?;
    }
    Ok(all)
}

/// The place of the first argument of a name.
fn place_of(arguments: &[Argument], name: &Text) -> Option<usize>
    ensures value { result ≡ place_of name.now (map slot_of arguments.now) }
    ensures within { IfSome result (λ place. place < length arguments.now) }
{
    let mut place = 0;
    for argument in arguments {
        if argument.name == *name {
            return Some(place);
        }
        place += 1;
    }
    None
}

/// The names of the arguments, if each is there once and the keywords are many.
fn name_set(
    alloc: Global,
    arguments: &[Argument],
    keywords: usize,
) -> Result<Option<IndexSet<Text>>, OutOfMemory>
    ensures { IfOk result (λ o. IfSome o (λ set. set.keys ≡ names_of arguments.now)) }
{
    if keywords < MANY {
        return Ok(None);
    }
    let mut names = IndexSet::new(alloc);
    for argument in arguments {
        if !names.insert(argument.name.copy(alloc)?)? {
            return Ok(None);
        }
    }
    Ok(Some(names))
}

/// The same as `place_of`, by one look into the names where they are there.
fn find(names: &Option<IndexSet<Text>>, arguments: &[Argument], name: &Text) -> Option<usize>
    requires { IfSome names.now (λ set. set.keys ≡ names_of arguments.now) }
    ensures value { result ≡ place_of name.now (map slot_of arguments.now) }
    ensures within { IfSome result (λ place. place < length arguments.now) }
{
    match names {
        Some(names) => names.get_index_of(name),
        None => place_of(arguments, name),
    }
}

fn fill(
    alloc: Global,
    names: &Option<IndexSet<Text>>,
    arguments: &mut [Argument],
    name: &Text,
    value: &Expr,
) -> Result<(), Halt>
    requires { IfSome names.now (λ set. set.keys ≡ names_of arguments.old) }
    ensures kept { OnOk result (names_of arguments.new ≡ names_of arguments.old) }
    ensures answer { Filled result arguments.new (with_keyword (name.now, value.now) (map slot_of arguments.old)) }
{
    let Some(place) = find(names, arguments, name) else {
        return Err(Halt::from(unknown(alloc, name.as_str())?));
    };
    let argument = &mut arguments[place];
    if argument.given.is_some() {
        return Err(Halt::from(given_twice(alloc, argument.name.as_str())?));
    }
    argument.given = Some(value.copy(alloc)?);
    Ok(())
}

fn fill_all(
    alloc: Global,
    names: &Option<IndexSet<Text>>,
    arguments: &mut [Argument],
    keywords: &[(Text, Expr)],
) -> Result<(), Halt>
    requires { IfSome names.now (λ set. set.keys ≡ names_of arguments.old) }
    ensures { Filled result arguments.new (with_keywords keywords.now (map slot_of arguments.old)) }
{
    for (name, value) in keywords {
        fill(alloc, names, arguments, name, value)?;
    }
    Ok(())
}

fn settled(alloc: Global, arguments: &[Argument]) -> Result<Exprs, Halt>
    ensures { Answers result (all_settled (map slot_of arguments.now)) }
{
    let mut values = Vec::new(alloc);
    for argument in arguments {
        match (&argument.given, &argument.default) {
            (Some(value), _) => values.push(value.copy(alloc)?)?,
            (None, Some(value)) => values.push(value.copy(alloc)?)?,
            (None, None) => return Err(Halt::from(missing(alloc, argument.name.as_str())?)),
        }
    }
    Ok(Exprs::from_vec(alloc, values)?)
}

fn bound(
    alloc: Global,
    routine: &Routine,
    positional: &[Expr],
    keywords: &[(Text, Expr)],
) -> Result<Exprs, Halt>
    ensures { Answers result (bind.arguments (map (spelled_in routine.now.words) routine.now.parameters) positional.now keywords.now) }
{
    let parameters = routine.parameters.as_slice();
    if parameters.len() < positional.len() {
        return Err(Halt::from(too_many(alloc)?));
    }
    let mut made = positioned(alloc, routine.words.as_slice(), parameters, positional)?;
    let arguments = made.as_mut_slice();
    let names = name_set(alloc, arguments, keywords.len())?;
    fill_all(alloc, &names, arguments, keywords)?;
    settled(alloc, arguments)
}

/// The value of each parameter of a helper.
pub fn arguments(
    alloc: Global,
    routine: &Routine,
    positional: Exprs,
    keywords: NamedExprs,
) -> Result<Exprs, Halt>
    ensures { Answers result (spec.bound (routine_of routine.now) positional keywords) }
{
    bound(alloc, routine, positional.as_slice(), keywords.as_slice())
}

/// Where a function begins.
pub fn first_frame(
    alloc: Global,
    routine: &Routine,
    arguments: Exprs,
    left: u32,
) -> Result<Frame, OutOfMemory>
    ensures state { IfOk result (λ frame. state frame ≡ spec.first_state (routine_of routine.now) arguments left) }
    ensures left { IfOk result (λ frame. frame.left ≡ left) }
{
    let mut frame = Frame {
        locals: Vec::new(alloc),
        left,
    };
    let mut place = 0;
    for parameter in routine.parameters.as_slice() {
        match arguments.as_slice().get(place) {
            Some(value) => frame.set(parameter.slot, Some(value.copy(alloc)?))?,
            None => return Ok(frame),
        }
        place += 1;
    }
    Ok(frame)
}
