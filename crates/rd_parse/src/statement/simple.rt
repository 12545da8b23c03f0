//! Statements without a block. A text that stands alone gives none.

ghost use Rattle.std.specs.Prelude.{◌≡◌, ◌<◌, ◌≤◌, IfOk, length};
ghost use Rattle.std.specs.List.{list_all};
ghost use Rattle.rd_parse.specs.Gives.{Gives};
ghost use Rattle.rd_parse.specs.Noting.{before, every};
ghost use Rattle.rd_parse.specs.Reader.{hits, pair, read_below, sees};
ghost use Rattle.rd_parse.specs.Reading.{read_expression};
ghost use Rattle.rd_parse.specs.StatementReading.{assigns, read_adding, read_assigned, read_assignment, read_giving, read_line, read_other, read_passing, read_raising, read_returning, read_simple, read_speaking};
ghost use Rattle.rd_parse.specs.Statements.{begins_assignment, plus_value};
ghost use Rattle.rd_parse.specs.Terminal.{among, name_of, text_of};

use crate::annotation::annotated;
use crate::expression::{Read, Tree, begins_expression, expression};
use crate::halt::Halt;
use crate::statement::Command;
use crate::take::{begins_with, expect, name, open};
use crate::terminal::{Terminal, terminal_of};
use rd_base::{Boxed, Copies, Items, OutOfMemory};
use rd_syntax::Token;
use rd_tree::{Name, Node, Operator, Statement};
use std::alloc::Global;

/// A statement, or none.
pub type Said<'a> = Read<'a, Option<Command>>;

#[tactic(auto, unfolding(crate::specs::StatementReading::read_returning))]
fn returning<'a>(alloc: Global, depth: usize, tokens: &'a [Token]) -> Said<'a>
    ensures { Gives (λ x. (x.0, x.1.now)) result (read_returning depth tokens.now) }
{
    let rest = expect(tokens, Terminal::Return)?;
    if !begins_expression(rest) {
        return Ok((Some(Statement::Return(None)), rest));
    }
    let (value, rest) = expression(alloc, depth, rest)?;
    Ok((Some(Statement::Return(Some(value))), rest))
}

/// An expression one level further in.
#[tactic(auto, using(crate::proofs::Simple::below_by_one))]
fn nested<'a>(alloc: Global, depth: usize, tokens: &'a [Token]) -> Read<'a, Tree>
    requires { 0 < depth }
    ensures { Gives (λ x. (x.0, x.1.now)) result (read_below read_expression depth tokens.now) }
{
    expression(alloc, depth - 1, tokens)
}

#[tactic(auto, unfolding(crate::specs::StatementReading::read_raising))]
fn raising<'a>(alloc: Global, depth: usize, tokens: &'a [Token]) -> Said<'a>
    ensures { Gives (λ x. (x.0, x.1.now)) result (read_raising depth tokens.now) }
{
    let rest = expect(tokens, Terminal::Raise)?;
    let (class, rest) = name(alloc, rest)?;
    let rest = open(depth, rest, Terminal::LeftParen)?;
    let (text, rest) = nested(alloc, depth, rest)?;
    let rest = expect(rest, Terminal::RightParen)?;
    Ok((Some(Statement::Raise { class, text }), rest))
}

#[tactic(auto, unfolding(crate::specs::StatementReading::read_passing))]
fn passing<'a>(tokens: &'a [Token]) -> Said<'a>
    ensures { Gives (λ x. (x.0, x.1.now)) result (read_passing tokens.now) }
{
    let rest = expect(tokens, Terminal::Pass)?;
    Ok((Some(Statement::Pass), rest))
}

/// The name with the value added.
fn plus_value(alloc: Global, name: &Name, value: Tree) -> Result<Tree, OutOfMemory>
    ensures { IfOk result (λ e. e ≡ plus_value name.now value) }
{
    let first = Boxed::new(alloc, Node::Name(name.copy(alloc)?))?;
    let mut rest = Vec::new(alloc);
    rest.push((Operator::Add, value))?;
    Ok(Node::Chain {
        first,
        rest: Items::from_vec(alloc, rest)?,
    })
}

#[tactic(auto, unfolding(crate::specs::StatementReading::read_adding))]
fn adding<'a>(alloc: Global, depth: usize, name: Name, tokens: &'a [Token]) -> Said<'a>
    ensures { Gives (λ x. (x.0, x.1.now)) result (read_adding depth name tokens.now) }
{
    let rest = expect(tokens, Terminal::AddAssign)?;
    let (value, rest) = expression(alloc, depth, rest)?;
    let value = plus_value(alloc, &name, value)?;
    Ok((Some(Statement::Assign { name, value }), rest))
}

#[tactic(auto, unfolding(crate::specs::StatementReading::read_giving))]
fn giving<'a>(alloc: Global, depth: usize, name: Name, tokens: &'a [Token]) -> Said<'a>
    ensures { Gives (λ x. (x.0, x.1.now)) result (read_giving depth name tokens.now) }
{
    let rest = annotated(depth, tokens)?;
    let rest = expect(rest, Terminal::Assign)?;
    let (value, rest) = expression(alloc, depth, rest)?;
    Ok((Some(Statement::Assign { name, value }), rest))
}

#[tactic(auto, unfolding(crate::specs::StatementReading::read_assigned))]
fn assigned<'a>(alloc: Global, depth: usize, name: Name, tokens: &'a [Token]) -> Said<'a>
    ensures { Gives (λ x. (x.0, x.1.now)) result (read_assigned depth name tokens.now) }
{
    if begins_with(tokens, Terminal::AddAssign) {
        adding(alloc, depth, name, tokens)
    } else {
        giving(alloc, depth, name, tokens)
    }
}

#[tactic(auto, unfolding(crate::specs::StatementReading::read_assignment))]
fn assignment<'a>(alloc: Global, depth: usize, tokens: &'a [Token]) -> Said<'a>
    ensures { Gives (λ x. (x.0, x.1.now)) result (read_assignment depth tokens.now) }
{
    let (name, rest) = name(alloc, tokens)?;
    assigned(alloc, depth, name, rest)
}

fn is_text(token: &Token) -> bool
    ensures { result ≡ hits text_of token.now }
{
    matches!(terminal_of(token), Terminal::Text)
}

fn are_texts(tokens: &[Token]) -> bool
    ensures { result ≡ list_all (hits text_of) tokens.now }
{
    tokens.iter().all(|token| is_text(token))
}

/// Whether only texts stand before what is left.
#[tactic(auto, using(crate::proofs::Simple::every_of_all))]
fn is_of_texts(tokens: &[Token], rest: &[Token]) -> bool
    requires { length rest.now ≤ length tokens.now }
    ensures { result ≡ every (hits text_of) (before tokens.now rest.now) }
{
    are_texts(&tokens[..tokens.len() - rest.len()])
}

/// An expression, of which nothing is kept where it is of texts alone.
#[tactic(auto, unfolding(crate::specs::StatementReading::read_speaking), using(crate::proofs::Simple::expression_short))]
fn speaking<'a>(alloc: Global, depth: usize, tokens: &'a [Token]) -> Said<'a>
    ensures { Gives (λ x. (x.0, x.1.now)) result (read_speaking depth tokens.now) }
{
    let (value, rest) = expression(alloc, depth, tokens)?;
    if is_of_texts(tokens, rest) {
        return Ok((None, rest));
    }
    Ok((Some(Statement::Expr(value)), rest))
}

/// A name, and what assigns behind it.
fn begins_assignment(tokens: &[Token]) -> bool
    ensures { result ≡ pair (hits name_of) assigns tokens.now }
{
    match tokens.split_first() {
        Some((token, rest)) => matches!(terminal_of(token), Terminal::Name) && assigns(rest),
        None => false,
    }
}

fn assigns(tokens: &[Token]) -> bool
    ensures { result ≡ sees (among begins_assignment) tokens.now }
{
    match tokens.split_first() {
        Some((token, _)) => matches!(
            terminal_of(token),
            Terminal::Colon | Terminal::Assign | Terminal::AddAssign
        ),
        None => false,
    }
}

#[tactic(auto, unfolding(crate::specs::StatementReading::read_other))]
fn other<'a>(alloc: Global, depth: usize, tokens: &'a [Token]) -> Said<'a>
    ensures { Gives (λ x. (x.0, x.1.now)) result (read_other depth tokens.now) }
{
    if begins_assignment(tokens) {
        assignment(alloc, depth, tokens)
    } else {
        speaking(alloc, depth, tokens)
    }
}

#[tactic(auto, unfolding(crate::specs::StatementReading::read_simple))]
fn simple<'a>(alloc: Global, depth: usize, tokens: &'a [Token]) -> Said<'a>
    ensures { Gives (λ x. (x.0, x.1.now)) result (read_simple depth tokens.now) }
{
    match tokens.split_first() {
        Some((token, _)) => match terminal_of(token) {
            Terminal::Return => returning(alloc, depth, tokens),
            Terminal::Raise => raising(alloc, depth, tokens),
            Terminal::Pass => passing(tokens),
            _ => other(alloc, depth, tokens),
        },
        None => other(alloc, depth, tokens),
    }
}

/// A statement on a line of its own.
#[tactic(auto, unfolding(crate::specs::StatementReading::read_line))]
pub fn line<'a>(alloc: Global, depth: usize, tokens: &'a [Token]) -> Said<'a>
    ensures { Gives (λ x. (x.0, x.1.now)) result (read_line depth tokens.now) }
{
    let (statement, rest) = simple(alloc, depth, tokens)?;
    match expect(rest, Terminal::Newline) {
        Ok(rest) => Ok((statement, rest)),
        Err(halt) => {
            drop(statement);
            Err(halt)
        }
    }
}
