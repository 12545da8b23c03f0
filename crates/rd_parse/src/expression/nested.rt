//! What stands one level further in. The rules are methods of `Inner`, so that only `read` calls itself.

ghost use Rattle.std.specs.Prelude.{◌<◌, ◌-◌};
ghost use Rattle.rd_parse.specs.Gives.{Gives};
ghost use Rattle.rd_parse.specs.Nests.{Nests, read_rule};
ghost use Rattle.rd_parse.specs.Reading.{inner};

use crate::expression::Tree;
use crate::halt::Halt;
use rd_syntax::Token;
use std::alloc::Global;

/// The rules that a nested text may have.
#[derive(Clone, Copy, Debug)]
pub enum Rule {
    Expression,
    Disjunction,
    Inversion,
    Factor,
}

/// What reads a nested text.
#[derive(Clone, Copy)]
pub struct Inner<F> {
    pub alloc: Global,
    pub read: F,
}

impl<F: Fn(Global, Rule, usize, &[Token]) -> Result<(Tree, &[Token]), Halt<'_>>> Inner<F> {
    fn rule<'a>(
        &self,
        rule: Rule,
        depth: usize,
        tokens: &'a [Token],
    ) -> Result<(Tree, &'a [Token]), Halt<'a>>
        requires inner { Nests depth (F.pre self.now.read) (F.post self.now.read) }
        requires open { 0 < depth }
        ensures { Gives (λ x. (x.0, x.1.now)) result (read_rule rule (depth - 1) tokens.now) }
    {
        (self.read)(self.alloc, rule, depth - 1, tokens)
    }

    #[tactic(auto, using(crate::proofs::Inner::expression_below))]
    pub fn nested<'a>(
        &self,
        depth: usize,
        tokens: &'a [Token],
    ) -> Result<(Tree, &'a [Token]), Halt<'a>>
        requires inner { Nests depth (F.pre self.now.read) (F.post self.now.read) }
        requires open { 0 < depth }
        ensures { Gives (λ x. (x.0, x.1.now)) result ((inner depth).expression tokens.now) }
    {
        self.rule(Rule::Expression, depth, tokens)
    }

    #[tactic(auto, using(crate::proofs::Inner::disjunction_below))]
    pub fn nested_disjunction<'a>(
        &self,
        depth: usize,
        tokens: &'a [Token],
    ) -> Result<(Tree, &'a [Token]), Halt<'a>>
        requires inner { Nests depth (F.pre self.now.read) (F.post self.now.read) }
        requires open { 0 < depth }
        ensures { Gives (λ x. (x.0, x.1.now)) result ((inner depth).disjunction tokens.now) }
    {
        self.rule(Rule::Disjunction, depth, tokens)
    }

    #[tactic(auto, using(crate::proofs::Inner::inversion_below))]
    pub fn nested_inversion<'a>(
        &self,
        depth: usize,
        tokens: &'a [Token],
    ) -> Result<(Tree, &'a [Token]), Halt<'a>>
        requires inner { Nests depth (F.pre self.now.read) (F.post self.now.read) }
        requires open { 0 < depth }
        ensures { Gives (λ x. (x.0, x.1.now)) result ((inner depth).inversion tokens.now) }
    {
        self.rule(Rule::Inversion, depth, tokens)
    }

    #[tactic(auto, using(crate::proofs::Inner::factor_below))]
    pub fn nested_factor<'a>(
        &self,
        depth: usize,
        tokens: &'a [Token],
    ) -> Result<(Tree, &'a [Token]), Halt<'a>>
        requires inner { Nests depth (F.pre self.now.read) (F.post self.now.read) }
        requires open { 0 < depth }
        ensures { Gives (λ x. (x.0, x.1.now)) result ((inner depth).factor tokens.now) }
    {
        self.rule(Rule::Factor, depth, tokens)
    }
}
