//! Parameters with their defaults.

ghost use Rattle.std.specs.Prelude.{◌≡◌};
ghost use Rattle.rd_parse.specs.Reader.{onto, read_below};
ghost use Rattle.rd_parse.specs.Gives.{Gives};
ghost use Rattle.rd_parse.specs.LiteralReading.{read_literal};
ghost use Rattle.rd_parse.specs.StatementReading.{read_annotated};
ghost use Rattle.rd_parse.specs.Modules.{defaulted};
ghost use Rattle.rd_parse.specs.ModuleReading.{read_default_for, read_more_parameters, read_parameter, read_parameters, read_parameters_behind, read_parameters_in_brackets, read_with_default};

use crate::annotation::{Behind, annotated};
use crate::expression::Read;
use crate::halt::Halt;
use crate::literal::literal;
use crate::take::{after, begins_with, expect, name, open};
use crate::terminal::Terminal;
use rd_base::Items;
use rd_syntax::Token;
use rd_tree::{Name, Parameter};
use rd_value::value::Value;
use std::alloc::Global;

/// A literal one level further in.
fn inner_plain<'a>(alloc: Global, depth: usize, tokens: &'a [Token]) -> Read<'a, Value>
    ensures { Gives (λ x. (x.0, x.1.now)) result (read_below read_literal depth tokens.now) }
{
    if depth == 0 {
        return Err(Halt::Deep(tokens));
    }
    literal(alloc, depth - 1, tokens)
}

/// What may stand behind a name, one level further in.
fn inner_annotated<'a>(depth: usize, tokens: &'a [Token]) -> Behind<'a>
    ensures { Gives (λ r. (tt, r.now)) result (read_below read_annotated depth tokens.now) }
{
    if depth == 0 {
        return Err(Halt::Deep(tokens));
    }
    annotated(depth - 1, tokens)
}

#[tactic(auto, unfolding(crate::specs::ModuleReading::read_with_default))]
fn with_default<'a>(
    alloc: Global,
    depth: usize,
    name: Name,
    tokens: &'a [Token],
) -> Read<'a, Parameter>
    ensures { Gives (λ x. (x.0, x.1.now)) result (read_with_default depth name tokens.now) }
{
    let rest = expect(tokens, Terminal::Assign)?;
    let (value, rest) = inner_plain(alloc, depth, rest)?;
    let parameter = Parameter {
        name,
        default: Some(value),
    };
    Ok((parameter, rest))
}

/// The parameter of this name, which must have a default where one before it has one.
fn default_for<'a>(
    alloc: Global,
    depth: usize,
    name: Name,
    needed: bool,
    tokens: &'a [Token],
) -> Read<'a, Parameter>
    ensures { Gives (λ x. (x.0, x.1.now)) result (read_default_for depth name needed tokens.now) }
{
    if needed || begins_with(tokens, Terminal::Assign) {
        with_default(alloc, depth, name, tokens)
    } else {
        Ok((
            Parameter {
                name,
                default: None,
            },
            tokens,
        ))
    }
}

#[tactic(auto, unfolding(crate::specs::ModuleReading::read_parameter))]
fn parameter<'a>(
    alloc: Global,
    depth: usize,
    needed: bool,
    tokens: &'a [Token],
) -> Read<'a, Parameter>
    ensures { Gives (λ x. (x.0, x.1.now)) result (read_parameter depth needed tokens.now) }
{
    let (name, rest) = name(alloc, tokens)?;
    let rest = inner_annotated(depth, rest)?;
    default_for(alloc, depth, name, needed, rest)
}

/// Whether a default was given so far.
fn defaulted(before: bool, parameter: &Parameter) -> bool
    ensures { result ≡ defaulted before parameter.now }
{
    before || parameter.default.is_some()
}

/// The parameters behind those that were read, each behind a comma. A comma may end them.
fn parameters_behind<'a>(
    alloc: Global,
    depth: usize,
    needed: bool,
    mut all: Vec<Parameter>,
    tokens: &'a [Token],
) -> Read<'a, Vec<Parameter>>
    ensures { Gives (λ x. (x.0.items, x.1.now)) result (onto all.items (read_parameters_behind depth needed) tokens.now) }
{
    let mut needed = needed;
    let mut rest = tokens;
    while let Some(behind) = after(rest, Terminal::Comma) {
        if !begins_with(behind, Terminal::Name) {
            return Ok((all, behind));
        }
        let (next, end) = parameter(alloc, depth, needed, behind)?;
        needed = defaulted(needed, &next);
        all.push(next)?;
        rest = end;
    }
    Ok((all, rest))
}

/// What was read with the parameters behind it.
#[tactic(auto, unfolding(crate::specs::ModuleReading::read_more_parameters))]
fn more_parameters<'a>(
    alloc: Global,
    depth: usize,
    first: Parameter,
    tokens: &'a [Token],
) -> Read<'a, Vec<Parameter>>
    ensures { Gives (λ x. (x.0.items, x.1.now)) result (read_more_parameters depth first tokens.now) }
{
    let needed = defaulted(false, &first);
    let mut all = Vec::new(alloc);
    all.push(first)?;
    parameters_behind(alloc, depth, needed, all, tokens)
}

/// Parameters with commas between them, or none.
#[tactic(auto, unfolding(crate::specs::ModuleReading::read_parameters))]
fn parameters<'a>(alloc: Global, depth: usize, tokens: &'a [Token]) -> Read<'a, Vec<Parameter>>
    ensures { Gives (λ x. (x.0.items, x.1.now)) result (read_parameters depth tokens.now) }
{
    if !begins_with(tokens, Terminal::Name) {
        return Ok((Vec::new(alloc), tokens));
    }
    let (first, rest) = parameter(alloc, depth, false, tokens)?;
    more_parameters(alloc, depth, first, rest)
}

#[tactic(auto, unfolding(crate::specs::ModuleReading::read_parameters_in_brackets))]
pub fn parameters_in_brackets<'a>(
    alloc: Global,
    depth: usize,
    tokens: &'a [Token],
) -> Read<'a, Items<Parameter>>
    ensures { Gives (λ x. (x.0, x.1.now)) result (read_parameters_in_brackets depth tokens.now) }
{
    let rest = open(depth, tokens, Terminal::LeftParen)?;
    let (all, rest) = parameters(alloc, depth, rest)?;
    let rest = expect(rest, Terminal::RightParen)?;
    Ok((Items::from_vec(alloc, all)?, rest))
}
