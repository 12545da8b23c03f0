//! Expressions. `depth` is how many levels may be open.

ghost use Rattle.rd_parse.specs.Gives.{Gives};
ghost use Rattle.rd_parse.specs.Nests.{read_rule};
ghost use Rattle.rd_parse.specs.Reading.{read_expression};

mod arguments;
mod atom;
mod build;
mod display;
mod levels;
mod nested;
mod postfix;

use crate::halt::Halt;
pub use arguments::begins_expression;
use nested::{Inner, Rule};
use rd_syntax::Token;
use rd_tree::{Name, Node};
use std::alloc::Global;

pub type Tree = Node<Name>;

/// What was read, with the tokens behind it.
pub type Read<'a, T> = Result<(T, &'a [Token]), Halt<'a>>;

fn rule<'a>(
    alloc: Global,
    rule: Rule,
    depth: usize,
    tokens: &'a [Token],
) -> Result<(Tree, &'a [Token]), Halt<'a>>
    ensures { Gives (λ x. (x.0, x.1.now)) result (read_rule rule depth tokens.now) }
{
    let inner = Inner {
        alloc,
        read: self::rule,
    };
    match rule {
        Rule::Expression => inner.expression(depth, tokens),
        Rule::Disjunction => inner.disjunction(depth, tokens),
        Rule::Inversion => inner.inversion(depth, tokens),
        Rule::Factor => inner.factor(depth, tokens),
    }
}

/// An expression.
pub fn expression<'a>(alloc: Global, depth: usize, tokens: &'a [Token]) -> Read<'a, Tree>
    ensures { Gives (λ x. (x.0, x.1.now)) result (read_expression depth tokens.now) }
{
    rule(alloc, Rule::Expression, depth, tokens)
}
