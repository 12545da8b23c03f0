//! The operators, from the conditional down to the unary minus.

ghost use Rattle.std.specs.Prelude.{◌≡◌};
ghost use Rattle.rd_parse.specs.declared.terminal.Terminal.TheVariants as w;
ghost use Rattle.rd_parse.specs.Reader.{hits, sees, read_one, read_many};
ghost use Rattle.rd_parse.specs.Terminal.{is, among};
ghost use Rattle.rd_parse.specs.Gives.{Gives};
ghost use Rattle.rd_parse.specs.Nests.{Nests};
ghost use Rattle.rd_parse.specs.Expressions.{begins_comparison, comparison_of, plus_of, times_of};
ghost use Rattle.rd_parse.specs.Reading.{inner, read_and, read_choice, read_comparing, read_comparison, read_conditional, read_conjunction, read_disjunction, read_factor, read_inversion, read_negation, read_negative, read_not_in, read_or, read_plus, read_right_side, read_sum, read_term, read_times};

use crate::expression::build::{anded, chained, compared, cond, ored};
use crate::expression::nested::{Inner, Rule};
use crate::expression::{Read, Tree};
use crate::halt::Halt;
use crate::take::{begins_with, expect, open};
use crate::terminal::{Terminal, terminal_of};
use rd_base::Boxed;
use rd_syntax::Token;
use rd_tree::{Comparison, Node, Operator};
use std::alloc::Global;

fn begins_comparison(tokens: &[Token]) -> bool
    ensures { result ≡ sees (among begins_comparison) tokens.now }
{
    match tokens.split_first() {
        Some((token, _)) => matches!(
            terminal_of(token),
            Terminal::Equal
                | Terminal::NotEqual
                | Terminal::Less
                | Terminal::AtMost
                | Terminal::Greater
                | Terminal::AtLeast
                | Terminal::In
                | Terminal::Not
        ),
        None => false,
    }
}

fn comparison_of(token: &Token) -> Option<Comparison>
    ensures { result ≡ comparison_of token.now }
{
    match terminal_of(token) {
        Terminal::Equal => Some(Comparison::Eq),
        Terminal::NotEqual => Some(Comparison::Ne),
        Terminal::Less => Some(Comparison::Lt),
        Terminal::AtMost => Some(Comparison::Le),
        Terminal::Greater => Some(Comparison::Gt),
        Terminal::AtLeast => Some(Comparison::Ge),
        Terminal::In => Some(Comparison::In),
        _ => None,
    }
}

#[tactic(auto, unfolding(crate::specs::Reading::read_comparing))]
fn comparing<'a>(tokens: &'a [Token]) -> Read<'a, Comparison>
    ensures { Gives (λ x. (x.0, x.1.now)) result (read_comparing tokens.now) }
{
    match tokens.split_first() {
        Some((token, rest)) => match comparison_of(token) {
            Some(operator) => Ok((operator, rest)),
            None => not_in(tokens),
        },
        None => not_in(tokens),
    }
}

#[tactic(auto, unfolding(crate::specs::Reading::read_not_in))]
fn not_in<'a>(tokens: &'a [Token]) -> Read<'a, Comparison>
    ensures { Gives (λ x. (x.0, x.1.now)) result (read_not_in tokens.now) }
{
    let rest = expect(tokens, Terminal::Not)?;
    let rest = expect(rest, Terminal::In)?;
    Ok((Comparison::NotIn, rest))
}

fn plus_of(token: &Token) -> Option<Operator>
    ensures { result ≡ plus_of token.now }
{
    match terminal_of(token) {
        Terminal::Plus => Some(Operator::Add),
        Terminal::Minus => Some(Operator::Sub),
        _ => None,
    }
}

fn begins_sum_link(tokens: &[Token]) -> bool
    ensures { result ≡ sees (hits plus_of) tokens.now }
{
    match tokens.split_first() {
        Some((token, _)) => plus_of(token).is_some(),
        None => false,
    }
}

fn plus<'a>(tokens: &'a [Token]) -> Read<'a, Operator>
    ensures { Gives (λ x. (x.0, x.1.now)) result (read_one plus_of tokens.now) }
{
    match tokens.split_first() {
        Some((token, rest)) => match plus_of(token) {
            Some(operator) => Ok((operator, rest)),
            None => Err(Halt::Refused(tokens)),
        },
        None => Err(Halt::Refused(tokens)),
    }
}

fn times_of(token: &Token) -> Option<Operator>
    ensures { result ≡ times_of token.now }
{
    match terminal_of(token) {
        Terminal::Star => Some(Operator::Mul),
        Terminal::Slashes => Some(Operator::FloorDiv),
        Terminal::Percent => Some(Operator::Mod),
        _ => None,
    }
}

fn begins_term_link(tokens: &[Token]) -> bool
    ensures { result ≡ sees (hits times_of) tokens.now }
{
    match tokens.split_first() {
        Some((token, _)) => times_of(token).is_some(),
        None => false,
    }
}

fn times<'a>(tokens: &'a [Token]) -> Read<'a, Operator>
    ensures { Gives (λ x. (x.0, x.1.now)) result (read_one times_of tokens.now) }
{
    match tokens.split_first() {
        Some((token, rest)) => match times_of(token) {
            Some(operator) => Ok((operator, rest)),
            None => Err(Halt::Refused(tokens)),
        },
        None => Err(Halt::Refused(tokens)),
    }
}

impl<F: Fn(Global, Rule, usize, &[Token]) -> Result<(Tree, &[Token]), Halt<'_>>> Inner<F> {
    /// An expression.
    #[tactic(auto, unfolding(crate::specs::Reading::read_conditional))]
    pub fn expression<'a>(&self, depth: usize, tokens: &'a [Token]) -> Read<'a, Tree>
        requires { Nests depth (F.pre self.now.read) (F.post self.now.read) }
        ensures { Gives (λ x. (x.0, x.1.now)) result (read_conditional depth (inner depth) tokens.now) }
    {
        let (first, rest) = self.disjunction(depth, tokens)?;
        if !begins_with(rest, Terminal::If) {
            return Ok((first, rest));
        }
        let (choice, rest) = self.choice(depth, rest)?;
        Ok((cond(self.alloc, first, choice)?, rest))
    }

    /// The test of a conditional, and the other expression.
    #[tactic(auto, unfolding(crate::specs::Reading::read_choice))]
    pub fn choice<'a>(&self, depth: usize, tokens: &'a [Token]) -> Read<'a, (Tree, Tree)>
        requires { Nests depth (F.pre self.now.read) (F.post self.now.read) }
        ensures { Gives (λ x. (x.0, x.1.now)) result (read_choice depth (inner depth) tokens.now) }
    {
        let rest = expect(tokens, Terminal::If)?;
        let (test, rest) = self.disjunction(depth, rest)?;
        let rest = open(depth, rest, Terminal::Else)?;
        let (other, rest) = self.nested(depth, rest)?;
        Ok(((test, other), rest))
    }

    #[tactic(auto, unfolding(crate::specs::Reading::read_disjunction))]
    pub fn disjunction<'a>(&self, depth: usize, tokens: &'a [Token]) -> Read<'a, Tree>
        requires { Nests depth (F.pre self.now.read) (F.post self.now.read) }
        ensures { Gives (λ x. (x.0, x.1.now)) result (read_disjunction depth (inner depth) tokens.now) }
    {
        let (first, rest) = self.conjunction(depth, tokens)?;
        let (more, rest) = self.or_operands(depth, rest)?;
        Ok((ored(self.alloc, first, more)?, rest))
    }

    pub fn or_operands<'a>(&self, depth: usize, tokens: &'a [Token]) -> Read<'a, Vec<Tree>>
        requires { Nests depth (F.pre self.now.read) (F.post self.now.read) }
        ensures { Gives (λ x. (x.0.items, x.1.now)) result (read_many (hits (is w.Or)) (read_or depth (inner depth)) tokens.now) }
    {
        let mut all = Vec::new(self.alloc);
        let mut rest = tokens;
        while begins_with(rest, Terminal::Or) {
            let (next, after) = self.or_operand(depth, rest)?;
            all.push(next)?;
            rest = after;
        }
        Ok((all, rest))
    }

    #[tactic(auto, unfolding(crate::specs::Reading::read_or))]
    pub fn or_operand<'a>(&self, depth: usize, tokens: &'a [Token]) -> Read<'a, Tree>
        requires { Nests depth (F.pre self.now.read) (F.post self.now.read) }
        ensures { Gives (λ x. (x.0, x.1.now)) result (read_or depth (inner depth) tokens.now) }
    {
        let rest = expect(tokens, Terminal::Or)?;
        self.conjunction(depth, rest)
    }

    #[tactic(auto, unfolding(crate::specs::Reading::read_conjunction))]
    pub fn conjunction<'a>(&self, depth: usize, tokens: &'a [Token]) -> Read<'a, Tree>
        requires { Nests depth (F.pre self.now.read) (F.post self.now.read) }
        ensures { Gives (λ x. (x.0, x.1.now)) result (read_conjunction depth (inner depth) tokens.now) }
    {
        let (first, rest) = self.inversion(depth, tokens)?;
        let (more, rest) = self.and_operands(depth, rest)?;
        Ok((anded(self.alloc, first, more)?, rest))
    }

    pub fn and_operands<'a>(&self, depth: usize, tokens: &'a [Token]) -> Read<'a, Vec<Tree>>
        requires { Nests depth (F.pre self.now.read) (F.post self.now.read) }
        ensures { Gives (λ x. (x.0.items, x.1.now)) result (read_many (hits (is w.And)) (read_and depth (inner depth)) tokens.now) }
    {
        let mut all = Vec::new(self.alloc);
        let mut rest = tokens;
        while begins_with(rest, Terminal::And) {
            let (next, after) = self.and_operand(depth, rest)?;
            all.push(next)?;
            rest = after;
        }
        Ok((all, rest))
    }

    #[tactic(auto, unfolding(crate::specs::Reading::read_and))]
    pub fn and_operand<'a>(&self, depth: usize, tokens: &'a [Token]) -> Read<'a, Tree>
        requires { Nests depth (F.pre self.now.read) (F.post self.now.read) }
        ensures { Gives (λ x. (x.0, x.1.now)) result (read_and depth (inner depth) tokens.now) }
    {
        let rest = expect(tokens, Terminal::And)?;
        self.inversion(depth, rest)
    }

    #[tactic(auto, unfolding(crate::specs::Reading::read_inversion))]
    pub fn inversion<'a>(&self, depth: usize, tokens: &'a [Token]) -> Read<'a, Tree>
        requires { Nests depth (F.pre self.now.read) (F.post self.now.read) }
        ensures { Gives (λ x. (x.0, x.1.now)) result (read_inversion depth (inner depth) tokens.now) }
    {
        if begins_with(tokens, Terminal::Not) {
            self.negation(depth, tokens)
        } else {
            self.comparison(depth, tokens)
        }
    }

    #[tactic(auto, unfolding(crate::specs::Reading::read_negation))]
    pub fn negation<'a>(&self, depth: usize, tokens: &'a [Token]) -> Read<'a, Tree>
        requires { Nests depth (F.pre self.now.read) (F.post self.now.read) }
        ensures { Gives (λ x. (x.0, x.1.now)) result (read_negation depth (inner depth) tokens.now) }
    {
        let rest = open(depth, tokens, Terminal::Not)?;
        let (operand, rest) = self.nested_inversion(depth, rest)?;
        Ok((Node::Not(Boxed::new(self.alloc, operand)?), rest))
    }

    #[tactic(auto, unfolding(crate::specs::Reading::read_comparison))]
    pub fn comparison<'a>(&self, depth: usize, tokens: &'a [Token]) -> Read<'a, Tree>
        requires { Nests depth (F.pre self.now.read) (F.post self.now.read) }
        ensures { Gives (λ x. (x.0, x.1.now)) result (read_comparison depth (inner depth) tokens.now) }
    {
        let (left, rest) = self.sum(depth, tokens)?;
        if !begins_comparison(rest) {
            return Ok((left, rest));
        }
        let (side, rest) = self.right_side(depth, rest)?;
        Ok((compared(self.alloc, left, side)?, rest))
    }

    /// What stands right of the left operand.
    #[tactic(auto, unfolding(crate::specs::Reading::read_right_side))]
    pub fn right_side<'a>(&self, depth: usize, tokens: &'a [Token]) -> Read<'a, (Comparison, Tree)>
        requires { Nests depth (F.pre self.now.read) (F.post self.now.read) }
        ensures { Gives (λ x. (x.0, x.1.now)) result (read_right_side depth (inner depth) tokens.now) }
    {
        let (operator, rest) = comparing(tokens)?;
        let (right, rest) = self.sum(depth, rest)?;
        Ok(((operator, right), rest))
    }

    #[tactic(auto, unfolding(crate::specs::Reading::read_sum))]
    pub fn sum<'a>(&self, depth: usize, tokens: &'a [Token]) -> Read<'a, Tree>
        requires { Nests depth (F.pre self.now.read) (F.post self.now.read) }
        ensures { Gives (λ x. (x.0, x.1.now)) result (read_sum depth (inner depth) tokens.now) }
    {
        let (first, rest) = self.term(depth, tokens)?;
        let (more, rest) = self.sum_links(depth, rest)?;
        Ok((chained(self.alloc, first, more)?, rest))
    }

    pub fn sum_links<'a>(
        &self,
        depth: usize,
        tokens: &'a [Token],
    ) -> Read<'a, Vec<(Operator, Tree)>>
        requires { Nests depth (F.pre self.now.read) (F.post self.now.read) }
        ensures { Gives (λ x. (x.0.items, x.1.now)) result (read_many (hits plus_of) (read_plus depth (inner depth)) tokens.now) }
    {
        let mut all = Vec::new(self.alloc);
        let mut rest = tokens;
        while begins_sum_link(rest) {
            let (next, after) = self.sum_link(depth, rest)?;
            all.push(next)?;
            rest = after;
        }
        Ok((all, rest))
    }

    #[tactic(auto, unfolding(crate::specs::Reading::read_plus))]
    pub fn sum_link<'a>(&self, depth: usize, tokens: &'a [Token]) -> Read<'a, (Operator, Tree)>
        requires { Nests depth (F.pre self.now.read) (F.post self.now.read) }
        ensures { Gives (λ x. (x.0, x.1.now)) result (read_plus depth (inner depth) tokens.now) }
    {
        let (operator, rest) = plus(tokens)?;
        let (operand, rest) = self.term(depth, rest)?;
        Ok(((operator, operand), rest))
    }

    #[tactic(auto, unfolding(crate::specs::Reading::read_term))]
    pub fn term<'a>(&self, depth: usize, tokens: &'a [Token]) -> Read<'a, Tree>
        requires { Nests depth (F.pre self.now.read) (F.post self.now.read) }
        ensures { Gives (λ x. (x.0, x.1.now)) result (read_term depth (inner depth) tokens.now) }
    {
        let (first, rest) = self.factor(depth, tokens)?;
        let (more, rest) = self.term_links(depth, rest)?;
        Ok((chained(self.alloc, first, more)?, rest))
    }

    pub fn term_links<'a>(
        &self,
        depth: usize,
        tokens: &'a [Token],
    ) -> Read<'a, Vec<(Operator, Tree)>>
        requires { Nests depth (F.pre self.now.read) (F.post self.now.read) }
        ensures { Gives (λ x. (x.0.items, x.1.now)) result (read_many (hits times_of) (read_times depth (inner depth)) tokens.now) }
    {
        let mut all = Vec::new(self.alloc);
        let mut rest = tokens;
        while begins_term_link(rest) {
            let (next, after) = self.term_link(depth, rest)?;
            all.push(next)?;
            rest = after;
        }
        Ok((all, rest))
    }

    #[tactic(auto, unfolding(crate::specs::Reading::read_times))]
    pub fn term_link<'a>(&self, depth: usize, tokens: &'a [Token]) -> Read<'a, (Operator, Tree)>
        requires { Nests depth (F.pre self.now.read) (F.post self.now.read) }
        ensures { Gives (λ x. (x.0, x.1.now)) result (read_times depth (inner depth) tokens.now) }
    {
        let (operator, rest) = times(tokens)?;
        let (operand, rest) = self.factor(depth, rest)?;
        Ok(((operator, operand), rest))
    }

    #[tactic(auto, unfolding(crate::specs::Reading::read_factor))]
    pub fn factor<'a>(&self, depth: usize, tokens: &'a [Token]) -> Read<'a, Tree>
        requires { Nests depth (F.pre self.now.read) (F.post self.now.read) }
        ensures { Gives (λ x. (x.0, x.1.now)) result (read_factor depth (inner depth) tokens.now) }
    {
        if begins_with(tokens, Terminal::Minus) {
            self.negative(depth, tokens)
        } else {
            self.postfix(depth, tokens)
        }
    }

    #[tactic(auto, unfolding(crate::specs::Reading::read_negative))]
    pub fn negative<'a>(&self, depth: usize, tokens: &'a [Token]) -> Read<'a, Tree>
        requires { Nests depth (F.pre self.now.read) (F.post self.now.read) }
        ensures { Gives (λ x. (x.0, x.1.now)) result (read_negative depth (inner depth) tokens.now) }
    {
        let rest = open(depth, tokens, Terminal::Minus)?;
        let (operand, rest) = self.nested_factor(depth, rest)?;
        Ok((Node::Neg(Boxed::new(self.alloc, operand)?), rest))
    }
}
