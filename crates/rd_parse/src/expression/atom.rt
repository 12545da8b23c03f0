//! Atoms: names, calls, literals, and what stands in brackets.

ghost use Rattle.std.specs.Prelude.{◌≡◌};
ghost use Rattle.rd_parse.specs.Gives.{Gives};
ghost use Rattle.rd_parse.specs.Nests.{Nests};
ghost use Rattle.rd_parse.specs.Reading.{inner, read_atom, read_call, read_constant, read_group, read_named, read_number, read_text_literal};

use crate::expression::arguments::Given;
use crate::expression::build::called;
use crate::expression::nested::{Inner, Rule};
use crate::expression::{Read, Tree};
use crate::halt::Halt;
use crate::take::{begins_with, constant, expect, name, number, open};
use crate::terminal::{Terminal, terminal_of};
use crate::texts::texts;
use rd_syntax::Token;
use rd_tree::Node;
use rd_value::value::Value;
use std::alloc::Global;

#[tactic(auto, unfolding(crate::specs::Reading::read_number))]
fn whole_number<'a>(tokens: &'a [Token]) -> Read<'a, Tree>
    ensures { Gives (λ x. (x.0, x.1.now)) result (read_number tokens.now) }
{
    let (value, rest) = number(tokens)?;
    Ok((Node::Lit(Value::Int(value)), rest))
}

#[tactic(auto, unfolding(crate::specs::Reading::read_text_literal))]
fn text_literal<'a>(alloc: Global, tokens: &'a [Token]) -> Read<'a, Tree>
    ensures { Gives (λ x. (x.0, x.1.now)) result (read_text_literal tokens.now) }
{
    let (text, rest) = texts(alloc, tokens)?;
    Ok((Node::Lit(Value::Text(text)), rest))
}

#[tactic(auto, unfolding(crate::specs::Reading::read_constant))]
fn constant_literal<'a>(tokens: &'a [Token]) -> Read<'a, Tree>
    ensures { Gives (λ x. (x.0, x.1.now)) result (read_constant tokens.now) }
{
    let (value, rest) = constant(tokens)?;
    Ok((Node::Lit(value), rest))
}

impl<F: Fn(Global, Rule, usize, &[Token]) -> Result<(Tree, &[Token]), Halt<'_>>> Inner<F> {
    #[tactic(auto, unfolding(crate::specs::Reading::read_atom))]
    pub fn atom<'a>(&self, depth: usize, tokens: &'a [Token]) -> Read<'a, Tree>
        requires { Nests depth (F.pre self.now.read) (F.post self.now.read) }
        ensures { Gives (λ x. (x.0, x.1.now)) result (read_atom depth (inner depth) tokens.now) }
    {
        match tokens.split_first() {
            Some((token, _)) => match terminal_of(token) {
                Terminal::Name => self.named(depth, tokens),
                Terminal::Int => whole_number(tokens),
                Terminal::Text => text_literal(self.alloc, tokens),
                Terminal::Nothing | Terminal::True | Terminal::False => constant_literal(tokens),
                Terminal::LeftParen => self.group(depth, tokens),
                Terminal::LeftSquare => self.square(depth, tokens),
                _ => self.curly(depth, tokens),
            },
            None => self.curly(depth, tokens),
        }
    }

    /// A name alone, or a call.
    #[tactic(auto, unfolding(crate::specs::Reading::read_named))]
    pub fn named<'a>(&self, depth: usize, tokens: &'a [Token]) -> Read<'a, Tree>
        requires { Nests depth (F.pre self.now.read) (F.post self.now.read) }
        ensures { Gives (λ x. (x.0, x.1.now)) result (read_named depth (inner depth) tokens.now) }
    {
        let (name, rest) = name(self.alloc, tokens)?;
        if !begins_with(rest, Terminal::LeftParen) {
            return Ok((Node::Name(name), rest));
        }
        let (all, rest) = self.call(depth, rest)?;
        Ok((called(self.alloc, name, all)?, rest))
    }

    /// The arguments of a call.
    #[tactic(auto, unfolding(crate::specs::Reading::read_call))]
    pub fn call<'a>(&self, depth: usize, tokens: &'a [Token]) -> Read<'a, Vec<Given>>
        requires { Nests depth (F.pre self.now.read) (F.post self.now.read) }
        ensures { Gives (λ x. (x.0.items, x.1.now)) result (read_call depth (inner depth) tokens.now) }
    {
        let rest = open(depth, tokens, Terminal::LeftParen)?;
        let (all, rest) = self.arguments(depth, rest)?;
        Ok((all, expect(rest, Terminal::RightParen)?))
    }

    #[tactic(auto, unfolding(crate::specs::Reading::read_group))]
    pub fn group<'a>(&self, depth: usize, tokens: &'a [Token]) -> Read<'a, Tree>
        requires { Nests depth (F.pre self.now.read) (F.post self.now.read) }
        ensures { Gives (λ x. (x.0, x.1.now)) result (read_group depth (inner depth) tokens.now) }
    {
        let rest = open(depth, tokens, Terminal::LeftParen)?;
        let (tree, rest) = self.nested(depth, rest)?;
        Ok((tree, expect(rest, Terminal::RightParen)?))
    }
}
