//! Functions. `depth` is how many levels may be open.

ghost use Rattle.std.specs.Prelude.{◌≡◌};
ghost use Rattle.rd_parse.specs.declared.terminal.Terminal.TheVariants as w;
ghost use Rattle.rd_parse.specs.Reader.{read_one};
ghost use Rattle.rd_parse.specs.Gives.{Gives};
ghost use Rattle.rd_parse.specs.Modules.{line_of};
ghost use Rattle.rd_parse.specs.ModuleReading.{read_function, read_head, read_returned};

mod decorator;
mod parameters;

use crate::annotation::{Behind, annotation};
use crate::expression::Read;
use crate::halt::Halt;
use crate::statement::block;
use crate::take::{begins_with, expect, name};
use crate::terminal::{Terminal, terminal_of};
use decorator::decorated;
use parameters::parameters_in_brackets;
use rd_base::Items;
use rd_syntax::Token;
use rd_tree::{Function, Name, Parameter};
use std::alloc::Global;

/// A name with its parameters.
type Head = (Name, Items<Parameter>);

/// The line of the `def` that stands first.
fn def_line<'a>(tokens: &'a [Token]) -> Read<'a, u32>
    ensures { Gives (λ x. (x.0, x.1.now)) result (read_one (line_of w.Def) tokens.now) }
{
    match tokens.split_first() {
        Some((token, rest)) if terminal_of(token) == Terminal::Def => Ok((token.line, rest)),
        _ => Err(Halt::Refused(tokens)),
    }
}

#[tactic(auto, unfolding(crate::specs::ModuleReading::read_returned))]
fn returned<'a>(depth: usize, tokens: &'a [Token]) -> Behind<'a>
    ensures { Gives (λ r. (tt, r.now)) result (read_returned depth tokens.now) }
{
    if !begins_with(tokens, Terminal::Arrow) {
        return Ok(tokens);
    }
    let rest = expect(tokens, Terminal::Arrow)?;
    annotation(depth, rest)
}

#[tactic(auto, unfolding(crate::specs::ModuleReading::read_head))]
fn head<'a>(alloc: Global, depth: usize, tokens: &'a [Token]) -> Read<'a, Head>
    ensures { Gives (λ x. (x.0, x.1.now)) result (read_head depth tokens.now) }
{
    let (line, rest) = def_line(tokens)?;
    let (name, rest) = name(alloc, rest)?;
    let (parameters, rest) = parameters_in_brackets(alloc, depth, rest)?;
    let rest = returned(depth, rest)?;
    Ok(((Name { line, ..name }, parameters), rest))
}

#[tactic(auto, unfolding(crate::specs::ModuleReading::read_function))]
pub fn function<'a>(alloc: Global, depth: usize, tokens: &'a [Token]) -> Read<'a, Function>
    ensures { Gives (λ x. (x.0, x.1.now)) result (read_function depth tokens.now) }
{
    let (task, rest) = decorated(alloc, depth, tokens)?;
    let ((name, parameters), rest) = head(alloc, depth, rest)?;
    let (body, rest) = block(alloc, depth, rest)?;
    let function = Function {
        name,
        task,
        parameters,
        body,
    };
    Ok((function, rest))
}
