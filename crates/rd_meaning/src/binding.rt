//! Arguments bound to the parameters of a task.

ghost use Rattle.std.specs.Prelude.{◌≡◌, ◌<◌, ◌++◌, IfOk, IfSome, Ok, map, length, codes};
ghost use Rattle.std.specs.List.{slice_get};
ghost use Rattle.rd_value.specs.Bind as spec;
ghost use Rattle.rd_value.specs.Bind.{and_then, parameters_of, with_keyword, with_keywords, all_settled};
ghost use Rattle.rd_meaning.specs.Binding.{parameter_of, slot_of, names_of, in_order, place_of};
ghost use Rattle.rd_meaning.specs.Step.{ComesTo, step_in};

use crate::step::{StepError, stepped};
use indexmap::IndexSet;
use rd_base::{Copies, Items, OutOfMemory, Text};
use rd_value::class::Class;
use rd_value::error::value_limit;
use rd_value::limits::are_within;
use rd_value::raise::raised;
use rd_value::signature::{Parameter, Signature};
use rd_value::value::{ErrorValue, Value, Values};
use std::alloc::Global;

/// From so many keywords on, a set of names costs less than a look at each slot.
const MANY: usize = 8;

/// Values by name.
pub type NamedValues = Items<(Text, Value)>;

/// A parameter, and what it is given.
#[derive(Drop)]
struct Slot {
    name: Text,
    default: Option<Value>,
    given: Option<Value>,
}

fn too_many(alloc: Global) -> Result<ErrorValue, OutOfMemory>
    ensures { IfOk result (λ e. e ≡ spec.too_many) }
{
    raised(alloc, Class::TypeError, "too many arguments")
}

fn unknown(alloc: Global, name: &str) -> Result<ErrorValue, OutOfMemory>
    ensures { IfOk result (λ e. e ≡ spec.unknown name.now) }
{
    let mut text = String::from_str(alloc, "unknown argument ")?;
    text.push_str(name)?;
    raised(alloc, Class::TypeError, text.as_str())
}

fn given_twice(alloc: Global, name: &str) -> Result<ErrorValue, OutOfMemory>
    ensures { IfOk result (λ e. e ≡ spec.given_twice name.now) }
{
    let mut text = String::from_str(alloc, "argument ")?;
    text.push_str(name)?;
    text.push_str(" given twice")?;
    raised(alloc, Class::TypeError, text.as_str())
}

fn missing(alloc: Global, name: &str) -> Result<ErrorValue, OutOfMemory>
    ensures { IfOk result (λ e. e ≡ spec.missing name.now) }
{
    let mut text = String::from_str(alloc, "missing argument ")?;
    text.push_str(name)?;
    raised(alloc, Class::TypeError, text.as_str())
}

fn default_of(alloc: Global, parameter: &Parameter) -> Result<Option<Value>, OutOfMemory>
    ensures { IfOk result (λ o. o ≡ parameter.now.default) }
{
    match &parameter.default {
        Some(value) => Ok(Some(value.copy(alloc)?)),
        None => Ok(None),
    }
}

/// The argument at a place, where there is one.
fn argument(alloc: Global, positional: &[Value], place: usize) -> Result<Option<Value>, OutOfMemory>
    ensures { IfOk result (λ o. o ≡ slice_get positional.now place) }
{
    match positional.get(place) {
        Some(value) => Ok(Some(value.copy(alloc)?)),
        None => Ok(None),
    }
}

/// A slot for each parameter, with the positional arguments in the first ones.
fn slots_in_order(
    alloc: Global,
    parameters: &[Parameter],
    positional: &[Value],
) -> Result<Vec<Slot>, OutOfMemory>
    ensures { IfOk result (λ slots. map slot_of slots.items ≡ in_order 0 (map parameter_of parameters.now) positional.now) }
{
    let mut slots = Vec::new(alloc);
    for parameter in parameters {
        let given = argument(alloc, positional, slots.len())?;
        slots.push(Slot {
            name: parameter.name.copy(alloc)?,
            default: default_of(alloc, parameter)?,
            given,
        })?;
    }
    Ok(slots)
}

/// The place of the first slot of a name.
fn place_of(slots: &[Slot], name: &Text) -> Option<usize>
    ensures value { result ≡ place_of name.now (map slot_of slots.now) }
    ensures within { IfSome result (λ place. place < length slots.now) }
{
    let mut place = 0;
    for slot in slots {
        if slot.name == *name {
            return Some(place);
        }
        place += 1;
    }
    None
}

/// The names of the slots, if each is there once and the keywords are many.
fn name_set(
    alloc: Global,
    slots: &[Slot],
    keywords: usize,
) -> Result<Option<IndexSet<Text>>, OutOfMemory>
    ensures { IfOk result (λ o. IfSome o (λ set. set.keys ≡ names_of slots.now)) }
{
    if keywords < MANY {
        return Ok(None);
    }
    let mut names = IndexSet::new(alloc);
    for slot in slots {
        if !names.insert(slot.name.copy(alloc)?)? {
            return Ok(None);
        }
    }
    Ok(Some(names))
}

/// The same as `place_of`, by one look into the names where they are there.
fn find(names: &Option<IndexSet<Text>>, slots: &[Slot], name: &Text) -> Option<usize>
    requires { IfSome names.now (λ set. set.keys ≡ names_of slots.now) }
    ensures value { result ≡ place_of name.now (map slot_of slots.now) }
    ensures within { IfSome result (λ place. place < length slots.now) }
{
    match names {
        Some(names) => names.get_index_of(name),
        None => place_of(slots, name),
    }
}

fn fill(
    alloc: Global,
    names: &Option<IndexSet<Text>>,
    slots: &mut [Slot],
    name: &Text,
    value: &Value,
) -> Result<Result<(), ErrorValue>, OutOfMemory>
    requires { IfSome names.now (λ set. set.keys ≡ names_of slots.old) }
    ensures kept { IfOk result (λ r. names_of slots.new ≡ names_of slots.old) }
    ensures answer { IfOk result (λ r. with_keyword (name.now, value.now) (map slot_of slots.old) ≡ and_then r (λ _. Ok (map slot_of slots.new))) }
{
    let Some(place) = find(names, slots, name) else {
        return Ok(Err(unknown(alloc, name.as_str())?));
    };
    let slot = &mut slots[place];
    if slot.given.is_some() {
        return Ok(Err(given_twice(alloc, slot.name.as_str())?));
    }
    slot.given = Some(value.copy(alloc)?);
    Ok(Ok(()))
}

fn fill_all(
    alloc: Global,
    names: &Option<IndexSet<Text>>,
    slots: &mut [Slot],
    keywords: &[(Text, Value)],
) -> Result<Result<(), ErrorValue>, OutOfMemory>
    requires { IfSome names.now (λ set. set.keys ≡ names_of slots.old) }
    ensures { IfOk result (λ r. with_keywords keywords.now (map slot_of slots.old) ≡ and_then r (λ _. Ok (map slot_of slots.new))) }
{
    for (name, value) in keywords {
        if let Err(error) = fill(alloc, names, slots, name, value)? {
            return Ok(Err(error));
        }
    }
    Ok(Ok(()))
}

fn settled(alloc: Global, slots: &[Slot]) -> Result<Result<Values, ErrorValue>, OutOfMemory>
    ensures { IfOk result (λ r. r ≡ all_settled (map slot_of slots.now)) }
{
    let mut values = Vec::new(alloc);
    for slot in slots {
        match (&slot.given, &slot.default) {
            (Some(value), _) => values.push(value.copy(alloc)?)?,
            (None, Some(value)) => values.push(value.copy(alloc)?)?,
            (None, None) => return Ok(Err(missing(alloc, slot.name.as_str())?)),
        }
    }
    Ok(Ok(Values::from_vec(alloc, values)?))
}

fn limited(alloc: Global, values: Values) -> Result<Result<Values, ErrorValue>, OutOfMemory>
    ensures { IfOk result (λ r. r ≡ spec.limited (λ f. f) values) }
{
    if are_within(values.as_slice()) {
        Ok(Ok(values))
    } else {
        Ok(Err(value_limit(alloc)?))
    }
}

fn bound(
    alloc: Global,
    parameters: &[Parameter],
    positional: &[Value],
    keywords: &[(Text, Value)],
) -> Result<Result<Values, ErrorValue>, OutOfMemory>
    ensures { IfOk result (λ r. r ≡ spec.bind (λ f. f) (map parameter_of parameters.now) positional.now keywords.now) }
{
    if parameters.len() < positional.len() {
        return Ok(Err(too_many(alloc)?));
    }
    let mut made = slots_in_order(alloc, parameters, positional)?;
    let slots = made.as_mut_slice();
    let names = name_set(alloc, slots, keywords.len())?;
    if let Err(error) = fill_all(alloc, &names, slots, keywords)? {
        return Ok(Err(error));
    }
    match settled(alloc, slots)? {
        Ok(values) => limited(alloc, values),
        Err(error) => Ok(Err(error)),
    }
}

/// The value of each parameter, in their order. A failure's origin is the task.
pub fn bind(
    alloc: Global,
    task: &str,
    signature: &Signature,
    positional: &Values,
    keywords: &NamedValues,
) -> Result<Values, StepError>
    ensures { ComesTo result (step_in task.now (spec.bind (λ f. f) (parameters_of signature.now) positional.now keywords.now)) }
{
    let answer = bound(
        alloc,
        signature.parameters.as_slice(),
        positional.as_slice(),
        keywords.as_slice(),
    )?;
    stepped(alloc, task, answer)
}
