//! Expressions with commas between them, and the arguments of calls.

ghost use Rattle.std.specs.Prelude.{◌≡◌, ◌<◌, IfOk};
ghost use Rattle.rd_parse.specs.declared.terminal.Terminal.TheVariants as w;
ghost use Rattle.rd_parse.specs.Reader.{sees, hits, onto, pair, read_more};
ghost use Rattle.rd_parse.specs.Terminal.{among, is, name_of};
ghost use Rattle.rd_parse.specs.Gives.{Gives};
ghost use Rattle.rd_parse.specs.Nests.{Nests};
ghost use Rattle.rd_parse.specs.Expressions.{begins_argument, begins_expression, behind, sorted};
ghost use Rattle.rd_parse.specs.Reading.{assigned, inner, read_argument, read_arguments, read_arguments_behind, read_expressions, read_keyword, read_more_arguments, read_more_expressions, read_positional};

use crate::expression::nested::{Inner, Rule};
use crate::expression::{Read, Tree};
use crate::halt::Halt;
use crate::take::{after, begins_with, expect, name};
use crate::terminal::{Terminal, terminal_of};
use rd_base::OutOfMemory;
use rd_syntax::Token;
use rd_tree::Name;
use std::alloc::Global;

/// An argument of a call.
#[derive(Drop)]
pub enum Given {
    Positional(Tree),
    Keyword(Name, Tree),
}

/// The arguments of a call by position, and those by name.
#[derive(Drop)]
pub struct Passed {
    pub positional: Vec<Tree>,
    pub keywords: Vec<(Name, Tree)>,
}

pub fn begins_expression(tokens: &[Token]) -> bool
    ensures { result ≡ sees (among begins_expression) tokens.now }
{
    match tokens.split_first() {
        Some((token, _)) => matches!(
            terminal_of(token),
            Terminal::Name
                | Terminal::Int
                | Terminal::Text
                | Terminal::Nothing
                | Terminal::True
                | Terminal::False
                | Terminal::LeftParen
                | Terminal::LeftSquare
                | Terminal::LeftCurly
                | Terminal::Minus
                | Terminal::Not
        ),
        None => false,
    }
}

/// A name, and the sign of a keyword behind it.
fn begins_keyword(tokens: &[Token]) -> bool
    ensures { result ≡ pair (hits name_of) assigned tokens.now }
{
    match tokens.split_first() {
        Some((token, rest)) => {
            matches!(terminal_of(token), Terminal::Name) && begins_with(rest, Terminal::Assign)
        }
        None => false,
    }
}

/// Whether an argument may begin here, once keywords were begun or not.
fn begins_argument(keywords: bool, tokens: &[Token]) -> bool
    ensures { result ≡ sees (among (begins_argument keywords)) tokens.now }
{
    if !keywords {
        return begins_expression(tokens);
    }
    match tokens.split_first() {
        Some((token, _)) => matches!(terminal_of(token), Terminal::Name),
        None => false,
    }
}

/// Whether keywords were begun.
fn behind(keywords: bool, argument: &Given) -> bool
    ensures { result ≡ behind keywords argument.now }
{
    match argument {
        Given::Positional(_) => keywords,
        Given::Keyword(_, _) => true,
    }
}

/// The arguments by position, and those by name.
pub fn sorted(alloc: Global, all: Vec<Given>) -> Result<Passed, OutOfMemory>
    ensures { IfOk result (λ s. (s.positional.items, s.keywords.items) ≡ sorted all.items) }
{
    let mut positional = Vec::new(alloc);
    let mut keywords = Vec::new(alloc);
    for argument in all {
        match argument {
            Given::Positional(value) => positional.push(value)?,
            Given::Keyword(name, value) => keywords.push((name, value))?,
        }
    }
    Ok(Passed {
        positional,
        keywords,
    })
}

impl<F: Fn(Global, Rule, usize, &[Token]) -> Result<(Tree, &[Token]), Halt<'_>>> Inner<F> {
    /// Expressions with commas between them, or none.
    #[tactic(auto, unfolding(crate::specs::Reading::read_expressions))]
    pub fn expressions<'a>(&self, depth: usize, tokens: &'a [Token]) -> Read<'a, Vec<Tree>>
        requires inner { Nests depth (F.pre self.now.read) (F.post self.now.read) }
        requires open { 0 < depth }
        ensures { Gives (λ x. (x.0.items, x.1.now)) result (read_expressions depth (inner depth) tokens.now) }
    {
        if !begins_expression(tokens) {
            return Ok((Vec::new(self.alloc), tokens));
        }
        let (first, rest) = self.nested(depth, tokens)?;
        self.more_expressions(depth, first, rest)
    }

    /// What was read with the expressions behind it.
    #[tactic(auto, unfolding(crate::specs::Reading::read_more_expressions))]
    pub fn more_expressions<'a>(
        &self,
        depth: usize,
        first: Tree,
        tokens: &'a [Token],
    ) -> Read<'a, Vec<Tree>>
        requires inner { Nests depth (F.pre self.now.read) (F.post self.now.read) }
        requires open { 0 < depth }
        ensures { Gives (λ x. (x.0.items, x.1.now)) result (read_more_expressions depth (inner depth) first tokens.now) }
    {
        let mut all = Vec::new(self.alloc);
        all.push(first)?;
        self.expressions_behind(depth, all, tokens)
    }

    /// The expressions behind those that were read, each behind a comma. A comma may end them.
    pub fn expressions_behind<'a>(
        &self,
        depth: usize,
        mut all: Vec<Tree>,
        tokens: &'a [Token],
    ) -> Read<'a, Vec<Tree>>
        requires inner { Nests depth (F.pre self.now.read) (F.post self.now.read) }
        requires open { 0 < depth }
        ensures { Gives (λ x. (x.0.items, x.1.now)) result (onto all.items (read_more (is w.Comma) (among begins_expression) (inner depth).expression) tokens.now) }
    {
        let mut rest = tokens;
        while let Some(behind) = after(rest, Terminal::Comma) {
            if !begins_expression(behind) {
                return Ok((all, behind));
            }
            let (next, end) = self.nested(depth, behind)?;
            all.push(next)?;
            rest = end;
        }
        Ok((all, rest))
    }

    #[tactic(auto, unfolding(crate::specs::Reading::read_keyword))]
    pub fn keyword<'a>(&self, depth: usize, tokens: &'a [Token]) -> Read<'a, Given>
        requires inner { Nests depth (F.pre self.now.read) (F.post self.now.read) }
        requires open { 0 < depth }
        ensures { Gives (λ x. (x.0, x.1.now)) result (read_keyword depth (inner depth) tokens.now) }
    {
        let (name, rest) = name(self.alloc, tokens)?;
        let rest = expect(rest, Terminal::Assign)?;
        let (value, rest) = self.nested(depth, rest)?;
        Ok((Given::Keyword(name, value), rest))
    }

    #[tactic(auto, unfolding(crate::specs::Reading::read_positional))]
    pub fn positional<'a>(&self, depth: usize, tokens: &'a [Token]) -> Read<'a, Given>
        requires inner { Nests depth (F.pre self.now.read) (F.post self.now.read) }
        requires open { 0 < depth }
        ensures { Gives (λ x. (x.0, x.1.now)) result (read_positional depth (inner depth) tokens.now) }
    {
        let (value, rest) = self.nested(depth, tokens)?;
        Ok((Given::Positional(value), rest))
    }

    #[tactic(auto, unfolding(crate::specs::Reading::read_argument))]
    pub fn argument<'a>(&self, depth: usize, keywords: bool, tokens: &'a [Token]) -> Read<'a, Given>
        requires inner { Nests depth (F.pre self.now.read) (F.post self.now.read) }
        requires open { 0 < depth }
        ensures { Gives (λ x. (x.0, x.1.now)) result (read_argument depth (inner depth) keywords tokens.now) }
    {
        if keywords || begins_keyword(tokens) {
            self.keyword(depth, tokens)
        } else {
            self.positional(depth, tokens)
        }
    }

    /// Arguments with commas between them, or none.
    #[tactic(auto, unfolding(crate::specs::Reading::read_arguments))]
    pub fn arguments<'a>(&self, depth: usize, tokens: &'a [Token]) -> Read<'a, Vec<Given>>
        requires inner { Nests depth (F.pre self.now.read) (F.post self.now.read) }
        requires open { 0 < depth }
        ensures { Gives (λ x. (x.0.items, x.1.now)) result (read_arguments depth (inner depth) tokens.now) }
    {
        if !begins_expression(tokens) {
            return Ok((Vec::new(self.alloc), tokens));
        }
        let (first, rest) = self.argument(depth, false, tokens)?;
        self.more_arguments(depth, first, rest)
    }

    /// What was read with the arguments behind it.
    #[tactic(auto, unfolding(crate::specs::Reading::read_more_arguments))]
    pub fn more_arguments<'a>(
        &self,
        depth: usize,
        first: Given,
        tokens: &'a [Token],
    ) -> Read<'a, Vec<Given>>
        requires inner { Nests depth (F.pre self.now.read) (F.post self.now.read) }
        requires open { 0 < depth }
        ensures { Gives (λ x. (x.0.items, x.1.now)) result (read_more_arguments depth (inner depth) first tokens.now) }
    {
        let keywords = behind(false, &first);
        let mut all = Vec::new(self.alloc);
        all.push(first)?;
        self.arguments_behind(depth, keywords, all, tokens)
    }

    /// The arguments behind those that were read, each behind a comma. A comma may end them.
    pub fn arguments_behind<'a>(
        &self,
        depth: usize,
        keywords: bool,
        mut all: Vec<Given>,
        tokens: &'a [Token],
    ) -> Read<'a, Vec<Given>>
        requires inner { Nests depth (F.pre self.now.read) (F.post self.now.read) }
        requires open { 0 < depth }
        ensures { Gives (λ x. (x.0.items, x.1.now)) result (onto all.items (read_arguments_behind depth (inner depth) keywords) tokens.now) }
    {
        let mut keywords = keywords;
        let mut rest = tokens;
        while let Some(begun) = after(rest, Terminal::Comma) {
            if !begins_argument(keywords, begun) {
                return Ok((all, begun));
            }
            let (next, end) = self.argument(depth, keywords, begun)?;
            keywords = behind(keywords, &next);
            all.push(next)?;
            rest = end;
        }
        Ok((all, rest))
    }
}
