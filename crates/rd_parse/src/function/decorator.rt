//! Decorators with their options.

ghost use Rattle.std.specs.Prelude.{◌≡◌};
ghost use Rattle.rd_parse.specs.declared.terminal.Terminal.TheVariants as w;
ghost use Rattle.rd_parse.specs.Reader.{hits, onto, read_more};
ghost use Rattle.rd_parse.specs.Terminal.{is};
ghost use Rattle.rd_parse.specs.Gives.{Gives};
ghost use Rattle.rd_parse.specs.ModuleReading.{read_decorated, read_decorator, read_given_options, read_more_options, read_option, read_options, read_options_in_brackets};

use crate::expression::Read;
use crate::halt::Halt;
use crate::literal::inner_literal;
use crate::take::{after, begins_with, expect, name, open, this_word};
use crate::terminal::Terminal;
use rd_base::Items;
use rd_syntax::Token;
use rd_tree::TaskOption;
use std::alloc::Global;

#[tactic(auto, unfolding(crate::specs::ModuleReading::read_option))]
fn option<'a>(alloc: Global, depth: usize, tokens: &'a [Token]) -> Read<'a, TaskOption>
    ensures { Gives (λ x. (x.0, x.1.now)) result (read_option depth tokens.now) }
{
    let (name, rest) = name(alloc, tokens)?;
    let rest = expect(rest, Terminal::Assign)?;
    let (value, rest) = inner_literal(alloc, depth, rest)?;
    Ok((TaskOption { name, value }, rest))
}

/// The options behind those that were read, each behind a comma. A comma may end them.
fn options_behind<'a>(
    alloc: Global,
    depth: usize,
    mut all: Vec<TaskOption>,
    tokens: &'a [Token],
) -> Read<'a, Vec<TaskOption>>
    ensures { Gives (λ x. (x.0.items, x.1.now)) result (onto all.items (read_more (is w.Comma) (hits (is w.Name)) (read_option depth)) tokens.now) }
{
    let mut rest = tokens;
    while let Some(behind) = after(rest, Terminal::Comma) {
        if !begins_with(behind, Terminal::Name) {
            return Ok((all, behind));
        }
        let (next, end) = option(alloc, depth, behind)?;
        all.push(next)?;
        rest = end;
    }
    Ok((all, rest))
}

/// What was read with the options behind it.
#[tactic(auto, unfolding(crate::specs::ModuleReading::read_more_options))]
fn more_options<'a>(
    alloc: Global,
    depth: usize,
    first: TaskOption,
    tokens: &'a [Token],
) -> Read<'a, Vec<TaskOption>>
    ensures { Gives (λ x. (x.0.items, x.1.now)) result (read_more_options depth first tokens.now) }
{
    let mut all = Vec::new(alloc);
    all.push(first)?;
    options_behind(alloc, depth, all, tokens)
}

/// Options with commas between them, or none.
#[tactic(auto, unfolding(crate::specs::ModuleReading::read_options))]
fn options<'a>(alloc: Global, depth: usize, tokens: &'a [Token]) -> Read<'a, Vec<TaskOption>>
    ensures { Gives (λ x. (x.0.items, x.1.now)) result (read_options depth tokens.now) }
{
    if !begins_with(tokens, Terminal::Name) {
        return Ok((Vec::new(alloc), tokens));
    }
    let (first, rest) = option(alloc, depth, tokens)?;
    more_options(alloc, depth, first, rest)
}

#[tactic(auto, unfolding(crate::specs::ModuleReading::read_options_in_brackets))]
fn options_in_brackets<'a>(
    alloc: Global,
    depth: usize,
    tokens: &'a [Token],
) -> Read<'a, Items<TaskOption>>
    ensures { Gives (λ x. (x.0, x.1.now)) result (read_options_in_brackets depth tokens.now) }
{
    let rest = open(depth, tokens, Terminal::LeftParen)?;
    let (all, rest) = options(alloc, depth, rest)?;
    let rest = expect(rest, Terminal::RightParen)?;
    Ok((Items::from_vec(alloc, all)?, rest))
}

#[tactic(auto, unfolding(crate::specs::ModuleReading::read_given_options))]
fn given_options<'a>(
    alloc: Global,
    depth: usize,
    tokens: &'a [Token],
) -> Read<'a, Items<TaskOption>>
    ensures { Gives (λ x. (x.0, x.1.now)) result (read_given_options depth tokens.now) }
{
    if !begins_with(tokens, Terminal::LeftParen) {
        return Ok((Items::new(alloc), tokens));
    }
    options_in_brackets(alloc, depth, tokens)
}

#[tactic(auto, unfolding(crate::specs::ModuleReading::read_decorator))]
fn decorator<'a>(
    alloc: Global,
    depth: usize,
    tokens: &'a [Token],
) -> Read<'a, Option<Items<TaskOption>>>
    ensures { Gives (λ x. (x.0, x.1.now)) result (read_decorator depth tokens.now) }
{
    let rest = expect(tokens, Terminal::At)?;
    let rest = this_word(rest, "task")?;
    let (all, rest) = given_options(alloc, depth, rest)?;
    let rest = expect(rest, Terminal::Newline)?;
    Ok((Some(all), rest))
}

/// The options of a task, where a decorator stands.
#[tactic(auto, unfolding(crate::specs::ModuleReading::read_decorated))]
pub fn decorated<'a>(
    alloc: Global,
    depth: usize,
    tokens: &'a [Token],
) -> Read<'a, Option<Items<TaskOption>>>
    ensures { Gives (λ x. (x.0, x.1.now)) result (read_decorated depth tokens.now) }
{
    if !begins_with(tokens, Terminal::At) {
        return Ok((None, tokens));
    }
    decorator(alloc, depth, tokens)
}
