//! The expressions that take the place of a `map_` or a `catch`.

ghost use Rattle.std.specs.Prelude.{◌≡◌, [], IfOk, map};
ghost use Rattle.rd_value.specs.Expand as spec;
ghost use Rattle.rd_value.specs.Expand.{call_with, kept_expr};
ghost use Rattle.rd_meaning.specs.Step.{ComesTo, step_in, error_of};

use crate::step::{StepError, stepped};
use rd_base::{Copies, OutOfMemory, Text};
use rd_value::class::Class;
use rd_value::error::value_limit;
use rd_value::expr::{Expr, Exprs, NamedExprs};
use rd_value::failure::Failure;
use rd_value::make::MakeError;
use rd_value::raise::raised;
use rd_value::value::{ErrorValue, Value};
use std::alloc::Global;

fn needs_a_list(alloc: Global) -> Result<ErrorValue, OutOfMemory>
    ensures { IfOk result (λ e. e ≡ spec.needs_a_list) }
{
    raised(alloc, Class::TypeError, "map_ needs a list")
}

/// The call of a task with one argument.
fn call_with(alloc: Global, task: &Text, value: Value) -> Result<Expr, OutOfMemory>
    ensures { IfOk result (λ e. e ≡ call_with task.now value) }
{
    let mut positional = Exprs::new(alloc);
    positional.push(alloc, Expr::Val(value))?;
    Ok(Expr::Call {
        task: task.copy(alloc)?,
        positional,
        keywords: NamedExprs::new(alloc),
    })
}

fn calls(alloc: Global, task: &Text, values: &[Value]) -> Result<Exprs, OutOfMemory>
    ensures { IfOk result (λ es. es ≡ map (call_with task.now) values.now) }
{
    let mut calls = Vec::new(alloc);
    for value in values {
        let value = value.copy(alloc)?;
        calls.push(call_with(alloc, task, value)?)?;
    }
    Exprs::from_vec(alloc, calls)
}

fn listed(alloc: Global, parts: Exprs) -> Result<Result<Expr, ErrorValue>, OutOfMemory>
    ensures { IfOk result (λ r. r ≡ kept_expr (λ f. f) (spec.listed (λ f. f) parts)) }
{
    match Expr::list(alloc, parts) {
        Ok(list) => Ok(Ok(list)),
        Err(MakeError::LimitError) => Ok(Err(value_limit(alloc)?)),
        Err(MakeError::OutOfMemory) => Err(OutOfMemory),
    }
}

fn mapped(alloc: Global, task: &str, list: &Value) -> Result<Result<Expr, ErrorValue>, OutOfMemory>
    ensures { IfOk result (λ r. r ≡ spec.expand_map (λ f. f) task.now list.now) }
{
    let Value::List(items) = list else {
        return Ok(Err(needs_a_list(alloc)?));
    };
    let task = Text::from_str(alloc, task)?;
    listed(alloc, calls(alloc, &task, items.as_slice())?)
}

/// The list of the calls of a task with each item of a list.
pub fn expand_map(alloc: Global, task: &str, list: &Value) -> Result<Expr, StepError>
    ensures { ComesTo result (step_in [] (spec.expand_map (λ f. f) task.now list.now)) }
{
    let answer = mapped(alloc, task, list)?;
    stepped(alloc, "", answer)
}

fn catches(class: Class, other: Class) -> bool
    ensures { result ≡ spec.catches class other }
{
    match (class, other) {
        (Class::Exception, _) => true,
        (Class::RuntimeError, Class::RecursionError) => true,
        _ => class == other,
    }
}

/// The call that recovers from a failure. None where the class doesn't catch it.
pub fn expand_catch(
    alloc: Global,
    class: Class,
    recover: &str,
    failure: &Failure,
) -> Result<Option<Expr>, OutOfMemory>
    ensures { IfOk result (λ o. o ≡ spec.expand_catch class recover.now (error_of failure.now)) }
{
    if !catches(class, failure.class) {
        return Ok(None);
    }
    let error = Value::Error(ErrorValue {
        class: failure.class,
        text: failure.text.copy(alloc)?,
    });
    let recover = Text::from_str(alloc, recover)?;
    Ok(Some(call_with(alloc, &recover, error)?))
}
