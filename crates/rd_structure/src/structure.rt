//! The structure of the code of a task.

ghost use Rattle.std.specs.Prelude.{◌≡◌, ◌++◌, OnOk, IfOk, map, codes};
ghost use Rattle.rd_structure.specs.Structure.{all, default_bytes, helper_bytes, kind_letter, parameter_bytes};
ghost use Rattle.rd_structure.specs.Structure.{parameters_bytes, structure_of, use_bytes};

use crate::statement::push_block;
use rd_base::{Bytes, OutOfMemory};
use rd_bencode::{push_text, push_value};
use rd_code::{Helper, NamedUse, TaskCode, UseKind};
use rd_value::signature::Parameter;
use rd_value::value::Value;
use std::alloc::Global;

fn push_default(out: &mut Vec<u8>, default: &Option<Value>) -> Result<(), OutOfMemory>
    ensures { OnOk result (out.new.items ≡ out.old.items ++ default_bytes default.now) }
{
    match default {
        Some(value) => push_value(out, value),
        None => Ok(()),
    }
}

fn push_parameter(out: &mut Vec<u8>, parameter: &Parameter) -> Result<(), OutOfMemory>
    ensures { OnOk result (out.new.items ≡ out.old.items ++ parameter_bytes parameter.now) }
{
    out.push(b'l')?;
    push_text(out, parameter.name.as_str())?;
    push_default(out, &parameter.default)?;
    out.push(b'e')?;
    Ok(())
}

fn push_parameters(out: &mut Vec<u8>, parameters: &[Parameter]) -> Result<(), OutOfMemory>
    ensures { OnOk result (out.new.items ≡ out.old.items ++ parameters_bytes parameters.now) }
{
    out.push(b'l')?;
    for parameter in parameters {
        push_parameter(out, parameter)?;
    }
    out.push(b'e')?;
    Ok(())
}

fn push_helper(out: &mut Vec<u8>, helper: &Helper) -> Result<(), OutOfMemory>
    ensures { OnOk result (out.new.items ≡ out.old.items ++ helper_bytes helper.now) }
{
    out.push(b'l')?;
    push_text(out, helper.name.as_str())?;
    push_parameters(out, helper.parameters.as_slice())?;
    push_block(out, helper.block.as_slice())?;
    out.push(b'e')?;
    Ok(())
}

fn push_helpers(out: &mut Vec<u8>, helpers: &[Helper]) -> Result<(), OutOfMemory>
    ensures { OnOk result (out.new.items ≡ out.old.items ++ all (map helper_bytes helpers.now)) }
{
    out.push(b'l')?;
    for helper in helpers {
        push_helper(out, helper)?;
    }
    out.push(b'e')?;
    Ok(())
}

fn letter(kind: UseKind) -> &'static str
    ensures { result.now ≡ kind_letter kind }
{
    match kind {
        UseKind::Task => "t",
        UseKind::Helper => "h",
        UseKind::Builtin => "b",
        UseKind::ErrorClass => "c",
    }
}

fn push_use(out: &mut Vec<u8>, named: &NamedUse) -> Result<(), OutOfMemory>
    ensures { OnOk result (out.new.items ≡ out.old.items ++ use_bytes named.now) }
{
    out.push(b'l')?;
    push_text(out, named.name.as_str())?;
    push_text(out, letter(named.kind))?;
    push_text(out, named.task.as_str())?;
    out.push(b'e')?;
    Ok(())
}

fn push_uses(out: &mut Vec<u8>, names: &[NamedUse]) -> Result<(), OutOfMemory>
    ensures { OnOk result (out.new.items ≡ out.old.items ++ all (map use_bytes names.now)) }
{
    out.push(b'l')?;
    for named in names {
        push_use(out, named)?;
    }
    out.push(b'e')?;
    Ok(())
}

/// The structure of a task's code.
pub fn write_structure(alloc: Global, code: &TaskCode) -> Result<Bytes, OutOfMemory>
    ensures { IfOk result (λ bytes. bytes ≡ structure_of code.now) }
{
    let mut out = Vec::new(alloc);
    out.push(b'l')?;
    push_text(&mut out, code.full_name.as_str())?;
    push_parameters(&mut out, code.signature.parameters.as_slice())?;
    push_block(&mut out, code.body.as_slice())?;
    push_helpers(&mut out, code.helpers.as_slice())?;
    push_uses(&mut out, code.names.as_slice())?;
    out.push(b'e')?;
    Bytes::from_vec(alloc, out)
}
