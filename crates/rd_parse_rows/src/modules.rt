//! What a module holds, in one line.

use crate::trees::push_tree;
use rd_base::OutOfMemory;
use rd_tree::{Function, Module, Name, Node, Parameter, Statement};

/// The expression that the function returns, where its first statement returns one.
fn returned(function: &Function) -> Option<&Node<Name>> {
    match function.body.as_slice().first()? {
        Statement::Return(Some(tree)) => Some(tree),
        _ => None,
    }
}

fn push_parameters(line: &mut String, parameters: &[Parameter]) -> Result<(), OutOfMemory> {
    for parameter in parameters {
        line.push_str(parameter.name.text.as_str())?;
        line.push_str(if parameter.default.is_some() {
            "=,"
        } else {
            ","
        })?;
    }
    Ok(())
}

/// How many options it has as a task, its name with its line, its parameters, and how many statements it has. Behind it stands the tree that it returns.
fn push_function(line: &mut String, function: &Function) -> Result<(), OutOfMemory> {
    if let Some(options) = &function.task {
        write!(line, "@{} ", options.len())?;
    }
    let name = &function.name;
    write!(line, "{}{}(", name.text.as_str(), name.line)?;
    push_parameters(line, function.parameters.as_slice())?;
    write!(line, "):{}", function.body.len())?;
    if let Some(tree) = returned(function) {
        line.push_str(" ")?;
        push_tree(line, tree)?;
    }
    Ok(())
}

/// The namespaces with their lines, and the functions.
pub fn push_module(line: &mut String, module: &Module) -> Result<(), OutOfMemory> {
    let mut separator = "";
    for name in module.namespaces.as_slice() {
        write!(line, "{separator}{}{}", name.text.as_str(), name.line)?;
        separator = " ";
    }
    for function in module.functions.as_slice() {
        line.push_str(separator)?;
        push_function(line, function)?;
        separator = " ";
    }
    if separator.is_empty() {
        line.push_str("nothing")?;
    }
    Ok(())
}

/// The tree that the first function returns.
pub fn push_returned(line: &mut String, module: &Module) -> Result<(), OutOfMemory> {
    match module.functions.as_slice().first().and_then(returned) {
        Some(tree) => push_tree(line, tree),
        None => Ok(line.push_str("no expression")?),
    }
}
