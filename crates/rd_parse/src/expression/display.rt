//! What stands in square and curly brackets.

ghost use Rattle.std.specs.Prelude.{◌<◌};
ghost use Rattle.rd_parse.specs.declared.terminal.Terminal.TheVariants as w;
ghost use Rattle.rd_parse.specs.Reader.{onto, read_more};
ghost use Rattle.rd_parse.specs.Terminal.{among, is};
ghost use Rattle.rd_parse.specs.Gives.{Gives};
ghost use Rattle.rd_parse.specs.Nests.{Nests};
ghost use Rattle.rd_parse.specs.Expressions.{begins_expression};
ghost use Rattle.rd_parse.specs.Reading.{inner, read_clause, read_condition, read_curly, read_items, read_list_of, read_more_pairs, read_pair, read_pairs, read_source, read_square};

use crate::expression::arguments::begins_expression;
use crate::expression::build::{Clause, comp};
use crate::expression::nested::{Inner, Rule};
use crate::expression::{Read, Tree};
use crate::halt::Halt;
use crate::take::{after, begins_with, expect, name, open};
use crate::terminal::Terminal;
use rd_base::Items;
use rd_syntax::Token;
use rd_tree::{Name, Node};
use std::alloc::Global;

impl<F: Fn(Global, Rule, usize, &[Token]) -> Result<(Tree, &[Token]), Halt<'_>>> Inner<F> {
    #[tactic(auto, unfolding(crate::specs::Reading::read_square))]
    pub fn square<'a>(&self, depth: usize, tokens: &'a [Token]) -> Read<'a, Tree>
        requires { Nests depth (F.pre self.now.read) (F.post self.now.read) }
        ensures { Gives (λ x. (x.0, x.1.now)) result (read_square depth (inner depth) tokens.now) }
    {
        let rest = open(depth, tokens, Terminal::LeftSquare)?;
        let (tree, rest) = self.items(depth, rest)?;
        Ok((tree, expect(rest, Terminal::RightSquare)?))
    }

    /// The items of a list, or a comprehension.
    #[tactic(auto, unfolding(crate::specs::Reading::read_items))]
    pub fn items<'a>(&self, depth: usize, tokens: &'a [Token]) -> Read<'a, Tree>
        requires inner { Nests depth (F.pre self.now.read) (F.post self.now.read) }
        requires open { 0 < depth }
        ensures { Gives (λ x. (x.0, x.1.now)) result (read_items depth (inner depth) tokens.now) }
    {
        if !begins_expression(tokens) {
            return Ok((Node::List(Items::new(self.alloc)), tokens));
        }
        let (first, rest) = self.nested(depth, tokens)?;
        if !begins_with(rest, Terminal::For) {
            return self.list_of(depth, first, rest);
        }
        let (clause, rest) = self.clause(depth, rest)?;
        Ok((comp(self.alloc, first, clause)?, rest))
    }

    #[tactic(auto, unfolding(crate::specs::Reading::read_list_of))]
    pub fn list_of<'a>(&self, depth: usize, first: Tree, tokens: &'a [Token]) -> Read<'a, Tree>
        requires inner { Nests depth (F.pre self.now.read) (F.post self.now.read) }
        requires open { 0 < depth }
        ensures { Gives (λ x. (x.0, x.1.now)) result (read_list_of depth (inner depth) first tokens.now) }
    {
        let (all, rest) = self.more_expressions(depth, first, tokens)?;
        Ok((Node::List(Items::from_vec(self.alloc, all)?), rest))
    }

    /// What a comprehension has behind its element.
    #[tactic(auto, unfolding(crate::specs::Reading::read_clause))]
    pub fn clause<'a>(&self, depth: usize, tokens: &'a [Token]) -> Read<'a, Clause>
        requires inner { Nests depth (F.pre self.now.read) (F.post self.now.read) }
        requires open { 0 < depth }
        ensures { Gives (λ x. (x.0, x.1.now)) result (read_clause depth (inner depth) tokens.now) }
    {
        let (source, rest) = self.source(depth, tokens)?;
        let (condition, rest) = self.condition(depth, rest)?;
        Ok(((source, condition), rest))
    }

    /// The name of a comprehension, and what it goes through.
    #[tactic(auto, unfolding(crate::specs::Reading::read_source))]
    pub fn source<'a>(&self, depth: usize, tokens: &'a [Token]) -> Read<'a, (Name, Tree)>
        requires inner { Nests depth (F.pre self.now.read) (F.post self.now.read) }
        requires open { 0 < depth }
        ensures { Gives (λ x. (x.0, x.1.now)) result (read_source depth (inner depth) tokens.now) }
    {
        let rest = expect(tokens, Terminal::For)?;
        let (name, rest) = name(self.alloc, rest)?;
        let rest = expect(rest, Terminal::In)?;
        let (iterable, rest) = self.nested_disjunction(depth, rest)?;
        Ok(((name, iterable), rest))
    }

    #[tactic(auto, unfolding(crate::specs::Reading::read_condition))]
    pub fn condition<'a>(&self, depth: usize, tokens: &'a [Token]) -> Read<'a, Items<Tree>>
        requires inner { Nests depth (F.pre self.now.read) (F.post self.now.read) }
        requires open { 0 < depth }
        ensures { Gives (λ x. (x.0, x.1.now)) result (read_condition depth (inner depth) tokens.now) }
    {
        if !begins_with(tokens, Terminal::If) {
            return Ok((Items::new(self.alloc), tokens));
        }
        let rest = expect(tokens, Terminal::If)?;
        let (test, rest) = self.nested_disjunction(depth, rest)?;
        let mut all = Vec::new(self.alloc);
        all.push(test)?;
        Ok((Items::from_vec(self.alloc, all)?, rest))
    }

    #[tactic(auto, unfolding(crate::specs::Reading::read_curly))]
    pub fn curly<'a>(&self, depth: usize, tokens: &'a [Token]) -> Read<'a, Tree>
        requires { Nests depth (F.pre self.now.read) (F.post self.now.read) }
        ensures { Gives (λ x. (x.0, x.1.now)) result (read_curly depth (inner depth) tokens.now) }
    {
        let rest = open(depth, tokens, Terminal::LeftCurly)?;
        let (all, rest) = self.pairs(depth, rest)?;
        let rest = expect(rest, Terminal::RightCurly)?;
        Ok((Node::Dict(Items::from_vec(self.alloc, all)?), rest))
    }

    #[tactic(auto, unfolding(crate::specs::Reading::read_pairs))]
    pub fn pairs<'a>(&self, depth: usize, tokens: &'a [Token]) -> Read<'a, Vec<(Tree, Tree)>>
        requires inner { Nests depth (F.pre self.now.read) (F.post self.now.read) }
        requires open { 0 < depth }
        ensures { Gives (λ x. (x.0.items, x.1.now)) result (read_pairs depth (inner depth) tokens.now) }
    {
        if !begins_expression(tokens) {
            return Ok((Vec::new(self.alloc), tokens));
        }
        let (first, rest) = self.pair(depth, tokens)?;
        self.more_pairs(depth, first, rest)
    }

    #[tactic(auto, unfolding(crate::specs::Reading::read_pair))]
    pub fn pair<'a>(&self, depth: usize, tokens: &'a [Token]) -> Read<'a, (Tree, Tree)>
        requires inner { Nests depth (F.pre self.now.read) (F.post self.now.read) }
        requires open { 0 < depth }
        ensures { Gives (λ x. (x.0, x.1.now)) result (read_pair depth (inner depth) tokens.now) }
    {
        let (key, rest) = self.nested(depth, tokens)?;
        let rest = expect(rest, Terminal::Colon)?;
        let (value, rest) = self.nested(depth, rest)?;
        Ok(((key, value), rest))
    }

    /// What was read with the pairs behind it.
    #[tactic(auto, unfolding(crate::specs::Reading::read_more_pairs))]
    pub fn more_pairs<'a>(
        &self,
        depth: usize,
        first: (Tree, Tree),
        tokens: &'a [Token],
    ) -> Read<'a, Vec<(Tree, Tree)>>
        requires inner { Nests depth (F.pre self.now.read) (F.post self.now.read) }
        requires open { 0 < depth }
        ensures { Gives (λ x. (x.0.items, x.1.now)) result (read_more_pairs depth (inner depth) first tokens.now) }
    {
        let mut all = Vec::new(self.alloc);
        all.push(first)?;
        self.pairs_behind(depth, all, tokens)
    }

    /// The pairs behind those that were read, each behind a comma. A comma may end them.
    pub fn pairs_behind<'a>(
        &self,
        depth: usize,
        mut all: Vec<(Tree, Tree)>,
        tokens: &'a [Token],
    ) -> Read<'a, Vec<(Tree, Tree)>>
        requires inner { Nests depth (F.pre self.now.read) (F.post self.now.read) }
        requires open { 0 < depth }
        ensures { Gives (λ x. (x.0.items, x.1.now)) result (onto all.items (read_more (is w.Comma) (among begins_expression) (read_pair depth (inner depth))) tokens.now) }
    {
        let mut rest = tokens;
        while let Some(behind) = after(rest, Terminal::Comma) {
            if !begins_expression(behind) {
                return Ok((all, behind));
            }
            let (next, end) = self.pair(depth, behind)?;
            all.push(next)?;
            rest = end;
        }
        Ok((all, rest))
    }
}
