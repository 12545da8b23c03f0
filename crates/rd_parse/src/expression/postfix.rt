//! An atom with the parts behind it. Each finished part is a level that stays open until the last part.

ghost use Rattle.std.specs.Prelude.{◌≡◌, ◌<◌, IfOk};
ghost use Rattle.rd_parse.specs.Reader.{pair, sees, hits, read_opening};
ghost use Rattle.rd_parse.specs.Terminal.{among};
ghost use Rattle.rd_parse.specs.Gives.{Gives};
ghost use Rattle.rd_parse.specs.Nests.{Nests};
ghost use Rattle.rd_parse.specs.Expressions.{begins_part, path_word};
ghost use Rattle.rd_parse.specs.Reading.{inner, no_call, read_dotted, read_index, read_list_in_brackets, read_method, read_part, read_parts, read_path, read_postfix};

use crate::expression::build::{Part, with_part};
use crate::expression::nested::{Inner, Rule};
use crate::expression::{Read, Tree};
use crate::halt::Halt;
use crate::take::{begins_with, expect, open, word};
use crate::terminal::{Terminal, terminal_of};
use rd_base::Items;
use rd_syntax::Token;
use std::alloc::Global;

fn begins_part(tokens: &[Token]) -> bool
    ensures { result ≡ sees (among begins_part) tokens.now }
{
    match tokens.split_first() {
        Some((token, _)) => matches!(terminal_of(token), Terminal::LeftSquare | Terminal::Dot),
        None => false,
    }
}

fn is_path(token: &Token) -> bool
    ensures { result ≡ hits path_word token.now }
{
    matches!(terminal_of(token), Terminal::Name) && token.text.as_str() == "path"
}

/// `path`, and no parenthesis behind it.
fn begins_path(tokens: &[Token]) -> bool
    ensures { result ≡ pair (hits path_word) no_call tokens.now }
{
    match tokens.split_first() {
        Some((token, rest)) => is_path(token) && !begins_with(rest, Terminal::LeftParen),
        None => false,
    }
}

#[tactic(auto, using(crate::proofs::Depth::opens_none, crate::proofs::Depth::opens_some))]
fn open_path<'a>(depth: usize, tokens: &'a [Token]) -> Result<&'a [Token], Halt<'a>>
    ensures gives { Gives (λ r. (tt, r.now)) result (read_opening path_word depth tokens.now) }
    ensures open { IfOk result (λ r. 0 < depth) }
{
    match tokens.split_first() {
        Some((token, rest)) if is_path(token) => {
            if depth > 0 {
                Ok(rest)
            } else {
                Err(Halt::Deep(tokens))
            }
        }
        _ => Err(Halt::Refused(tokens)),
    }
}

#[tactic(auto, unfolding(crate::specs::Reading::read_path))]
fn path<'a>(depth: usize, tokens: &'a [Token]) -> Read<'a, Part>
    ensures gives { Gives (λ x. (x.0, x.1.now)) result (read_path depth (inner depth) tokens.now) }
    ensures open { IfOk result (λ x. 0 < depth) }
{
    let rest = open_path(depth, tokens)?;
    Ok((Part::Path, rest))
}

impl<F: Fn(Global, Rule, usize, &[Token]) -> Result<(Tree, &[Token]), Halt<'_>>> Inner<F> {
    #[tactic(auto, unfolding(crate::specs::Reading::read_postfix))]
    pub fn postfix<'a>(&self, depth: usize, tokens: &'a [Token]) -> Read<'a, Tree>
        requires { Nests depth (F.pre self.now.read) (F.post self.now.read) }
        ensures { Gives (λ x. (x.0, x.1.now)) result (read_postfix depth (inner depth) tokens.now) }
    {
        let (first, rest) = self.atom(depth, tokens)?;
        self.parts(depth, first, rest)
    }

    pub fn parts<'a>(&self, depth: usize, receiver: Tree, tokens: &'a [Token]) -> Read<'a, Tree>
        requires { Nests depth (F.pre self.now.read) (F.post self.now.read) }
        ensures { Gives (λ x. (x.0, x.1.now)) result (read_parts depth (inner depth) receiver tokens.now) }
    {
        let mut tree = receiver;
        let mut rest = tokens;
        let mut depth = depth;
        while begins_part(rest) {
            let (part, after) = self.part(depth, rest)?;
            tree = with_part(self.alloc, tree, part)?;
            rest = after;
            depth -= 1;
        }
        Ok((tree, rest))
    }

    #[tactic(auto, unfolding(crate::specs::Reading::read_part))]
    pub fn part<'a>(&self, depth: usize, tokens: &'a [Token]) -> Read<'a, Part>
        requires { Nests depth (F.pre self.now.read) (F.post self.now.read) }
        ensures gives { Gives (λ x. (x.0, x.1.now)) result (read_part depth (inner depth) tokens.now) }
        ensures open { IfOk result (λ x. 0 < depth) }
    {
        if begins_with(tokens, Terminal::LeftSquare) {
            self.index(depth, tokens)
        } else {
            self.dotted(depth, tokens)
        }
    }

    #[tactic(auto, unfolding(crate::specs::Reading::read_index))]
    pub fn index<'a>(&self, depth: usize, tokens: &'a [Token]) -> Read<'a, Part>
        requires { Nests depth (F.pre self.now.read) (F.post self.now.read) }
        ensures gives { Gives (λ x. (x.0, x.1.now)) result (read_index depth (inner depth) tokens.now) }
        ensures open { IfOk result (λ x. 0 < depth) }
    {
        let rest = open(depth, tokens, Terminal::LeftSquare)?;
        let (index, rest) = self.nested(depth, rest)?;
        Ok((Part::Index(index), expect(rest, Terminal::RightSquare)?))
    }

    #[tactic(auto, unfolding(crate::specs::Reading::read_dotted))]
    pub fn dotted<'a>(&self, depth: usize, tokens: &'a [Token]) -> Read<'a, Part>
        requires { Nests depth (F.pre self.now.read) (F.post self.now.read) }
        ensures gives { Gives (λ x. (x.0, x.1.now)) result (read_dotted depth (inner depth) tokens.now) }
        ensures open { IfOk result (λ x. 0 < depth) }
    {
        let rest = expect(tokens, Terminal::Dot)?;
        if begins_path(rest) {
            path(depth, rest)
        } else {
            self.method(depth, rest)
        }
    }

    #[tactic(auto, unfolding(crate::specs::Reading::read_method))]
    pub fn method<'a>(&self, depth: usize, tokens: &'a [Token]) -> Read<'a, Part>
        requires { Nests depth (F.pre self.now.read) (F.post self.now.read) }
        ensures gives { Gives (λ x. (x.0, x.1.now)) result (read_method depth (inner depth) tokens.now) }
        ensures open { IfOk result (λ x. 0 < depth) }
    {
        let (name, rest) = word(self.alloc, tokens)?;
        let (all, rest) = self.list_in_brackets(depth, rest)?;
        let all = Items::from_vec(self.alloc, all)?;
        Ok((Part::Method(name, all), rest))
    }

    #[tactic(auto, unfolding(crate::specs::Reading::read_list_in_brackets))]
    pub fn list_in_brackets<'a>(&self, depth: usize, tokens: &'a [Token]) -> Read<'a, Vec<Tree>>
        requires { Nests depth (F.pre self.now.read) (F.post self.now.read) }
        ensures gives { Gives (λ x. (x.0.items, x.1.now)) result (read_list_in_brackets depth (inner depth) tokens.now) }
        ensures open { IfOk result (λ x. 0 < depth) }
    {
        let rest = open(depth, tokens, Terminal::LeftParen)?;
        let (all, rest) = self.expressions(depth, rest)?;
        Ok((all, expect(rest, Terminal::RightParen)?))
    }
}
