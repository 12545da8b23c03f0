//! Trees without lines.

ghost use Rattle.std.specs.Prelude.{◌≡◌, IfOk, map};
ghost use Rattle.std.specs.Option.{option_map};
ghost use Rattle.rd_code.specs.Numbering.{literal_value};
ghost use Rattle.rd_registry.specs.Codes as spec;

use rd_base::{Copies, Items, OutOfMemory, Text};
use rd_code::{Helper, Renaming, renamed_block};
use rd_tree::{Block, Function, Name, Parameter, Statement};
use rd_value::signature;
use rd_value::signature::Parameters;
use rd_value::value::Value;
use std::alloc::Global;

/// Each name as its text.
#[derive(Drop)]
struct Texts;

impl Renaming<Name, Text> for Texts {
    ghost use Rattle.rd_registry.specs.Codes as spec;

    ghost renamed = { λ t. spec.text_of };

    fn name(&self, alloc: Global, name: &Name) -> Result<Text, OutOfMemory> {
        name.text.copy(alloc)
    }
}

pub fn block_of(alloc: Global, body: &[Statement<Name>]) -> Result<Block, OutOfMemory>
    ensures { IfOk result (λ block. block ≡ spec.block_of body.now) }
{
    renamed_block(alloc, &Texts, body)
}

/// The value of a literal. There are no others in a source.
fn literal(alloc: Global, value: &Value) -> Result<Value, OutOfMemory>
    ensures { IfOk result (λ v. v ≡ literal_value value.now) }
{
    match value {
        Value::Bool(b) => Ok(Value::Bool(*b)),
        Value::Int(n) => Ok(Value::Int(*n)),
        Value::Text(text) => Ok(Value::Text(text.copy(alloc)?)),
        _ => Ok(Value::Nothing),
    }
}

fn default_of(alloc: Global, parameter: &Parameter) -> Result<Option<Value>, OutOfMemory>
    ensures { IfOk result (λ o. o ≡ option_map literal_value parameter.now.default) }
{
    match &parameter.default {
        Some(value) => Ok(Some(literal(alloc, value)?)),
        None => Ok(None),
    }
}

pub fn parameters_of(alloc: Global, parameters: &[Parameter]) -> Result<Parameters, OutOfMemory>
    ensures { IfOk result (λ ps. ps ≡ map spec.parameter_of parameters.now) }
{
    let mut all = Vec::new(alloc);
    for parameter in parameters {
        all.push(signature::Parameter {
            name: parameter.name.text.copy(alloc)?,
            default: default_of(alloc, parameter)?,
        })?;
    }
    Items::from_vec(alloc, all)
}

pub fn helper_of(alloc: Global, function: &Function) -> Result<Helper, OutOfMemory>
    ensures { IfOk result (λ helper. helper ≡ spec.helper_of function.now) }
{
    Ok(Helper {
        name: function.name.text.copy(alloc)?,
        parameters: parameters_of(alloc, function.parameters.as_slice())?,
        block: block_of(alloc, function.body.as_slice())?,
    })
}
