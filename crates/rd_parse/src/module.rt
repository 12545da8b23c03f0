//! Modules. `depth` is how many levels may be open.

ghost use Rattle.std.specs.Prelude.{◌≡◌};
ghost use Rattle.rd_parse.specs.Reader.{read_many, read_one, sees};
ghost use Rattle.rd_parse.specs.Terminal.{among};
ghost use Rattle.rd_parse.specs.Gives.{Gives};
ghost use Rattle.rd_parse.specs.Modules.{begins_part, namespace_of};
ghost use Rattle.rd_parse.specs.ModuleReading.{read_defines, read_docstring, read_imports, read_module, read_namespace, read_part};

mod build;

use crate::expression::Read;
use crate::function::function;
use crate::halt::Halt;
use crate::import::import_line;
use crate::take::{begins_with, expect};
use crate::terminal::{Terminal, terminal_of};
use crate::texts::{begins_text, texts};
use build::{Part, module_of};
use rd_syntax::Token;
use rd_tree::{Module, Name};
use std::alloc::Global;

#[tactic(auto, unfolding(crate::specs::ModuleReading::read_imports))]
fn imports<'a>(depth: usize, tokens: &'a [Token]) -> Read<'a, Part>
    ensures { Gives (λ x. (x.0, x.1.now)) result (read_imports depth tokens.now) }
{
    let rest = import_line(depth, tokens)?;
    Ok((Part::Silent, rest))
}

#[tactic(auto, unfolding(crate::specs::ModuleReading::read_docstring))]
fn docstring<'a>(alloc: Global, tokens: &'a [Token]) -> Read<'a, Part>
    ensures { Gives (λ x. (x.0, x.1.now)) result (read_docstring tokens.now) }
{
    let (_, rest) = texts(alloc, tokens)?;
    let rest = expect(rest, Terminal::Newline)?;
    Ok((Part::Silent, rest))
}

/// The line of the word that begins a namespace.
fn namespace_line<'a>(tokens: &'a [Token]) -> Read<'a, u32>
    ensures { Gives (λ x. (x.0, x.1.now)) result (read_one namespace_of tokens.now) }
{
    match tokens.split_first() {
        Some((token, rest)) => match terminal_of(token) {
            Terminal::Name if token.text.as_str() == "redun_namespace" => Ok((token.line, rest)),
            _ => Err(Halt::Refused(tokens)),
        },
        None => Err(Halt::Refused(tokens)),
    }
}

#[tactic(auto, unfolding(crate::specs::ModuleReading::read_namespace))]
fn namespace<'a>(alloc: Global, tokens: &'a [Token]) -> Read<'a, Part>
    ensures { Gives (λ x. (x.0, x.1.now)) result (read_namespace tokens.now) }
{
    let (line, rest) = namespace_line(tokens)?;
    let rest = expect(rest, Terminal::Assign)?;
    let (text, rest) = texts(alloc, rest)?;
    let rest = expect(rest, Terminal::Newline)?;
    Ok((Part::Namespace(Name { text, line }), rest))
}

#[tactic(auto, unfolding(crate::specs::ModuleReading::read_defines))]
fn defines<'a>(alloc: Global, depth: usize, tokens: &'a [Token]) -> Read<'a, Part>
    ensures { Gives (λ x. (x.0, x.1.now)) result (read_defines depth tokens.now) }
{
    let (function, rest) = function(alloc, depth, tokens)?;
    Ok((Part::Defined(function), rest))
}

fn begins_part(tokens: &[Token]) -> bool
    ensures { result ≡ sees (among begins_part) tokens.now }
{
    match tokens.split_first() {
        Some((token, _)) => matches!(
            terminal_of(token),
            Terminal::Text | Terminal::From | Terminal::Name | Terminal::At | Terminal::Def
        ),
        None => false,
    }
}

#[tactic(auto, unfolding(crate::specs::ModuleReading::read_part))]
fn any_part<'a>(alloc: Global, depth: usize, tokens: &'a [Token]) -> Read<'a, Part>
    ensures { Gives (λ x. (x.0, x.1.now)) result (read_part depth tokens.now) }
{
    if begins_text(tokens) {
        return docstring(alloc, tokens);
    }
    if begins_with(tokens, Terminal::From) {
        return imports(depth, tokens);
    }
    if begins_with(tokens, Terminal::Name) {
        return namespace(alloc, tokens);
    }
    defines(alloc, depth, tokens)
}

fn parts<'a>(alloc: Global, depth: usize, tokens: &'a [Token]) -> Read<'a, Vec<Part>>
    ensures { Gives (λ x. (x.0.items, x.1.now)) result (read_many (among begins_part) (read_part depth) tokens.now) }
{
    let mut all = Vec::new(alloc);
    let mut rest = tokens;
    while begins_part(rest) {
        let (next, after) = any_part(alloc, depth, rest)?;
        all.push(next)?;
        rest = after;
    }
    Ok((all, rest))
}

/// A whole module.
#[tactic(auto, unfolding(crate::specs::ModuleReading::read_module))]
pub fn whole<'a>(alloc: Global, depth: usize, tokens: &'a [Token]) -> Read<'a, Module>
    ensures { Gives (λ x. (x.0, x.1.now)) result (read_module depth tokens.now) }
{
    let (all, rest) = parts(alloc, depth, tokens)?;
    let rest = expect(rest, Terminal::End)?;
    Ok((module_of(alloc, all)?, rest))
}
