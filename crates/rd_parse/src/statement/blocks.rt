//! Statements with blocks. The rules are methods of `Body`, so that only `read` calls itself.

ghost use Rattle.std.specs.Prelude.{◌≡◌, ◌<◌, ◌++◌, ◌∷◌, [], OnOk};
ghost use Rattle.rd_parse.specs.Blocks.{ReadsBlocks};
ghost use Rattle.rd_parse.specs.Gives.{Gives};
ghost use Rattle.rd_parse.specs.Reader.{sees};
ghost use Rattle.rd_parse.specs.StatementReading.{read_alone, read_another_branch, read_behind_colon, read_block, read_branch, read_branches, read_choice, read_command, read_commands, read_for_each, read_indented, read_more_branches, read_more_commands, read_otherwise, read_some_commands, read_while_true};
ghost use Rattle.rd_parse.specs.Statements.{begins_statement, kept};
ghost use Rattle.rd_parse.specs.Terminal.{among};

use crate::expression::{Read, Tree, expression};
use crate::halt::Halt;
use crate::statement::Command;
use crate::statement::simple::{Said, line};
use crate::take::{begins_with, expect, name, open};
use crate::terminal::{Terminal, terminal_of};
use rd_base::{Items, OutOfMemory};
use rd_syntax::Token;
use rd_tree::Statement;
use std::alloc::Global;

/// A test with its block.
type Branch = (Tree, Items<Command>);

/// What reads the statements behind a colon.
#[derive(Clone, Copy)]
pub struct Body<F> {
    pub alloc: Global,
    pub read: F,
}

fn begins_statement(tokens: &[Token]) -> bool
    ensures { result ≡ sees (among begins_statement) tokens.now }
{
    match tokens.split_first() {
        Some((token, _)) => matches!(
            terminal_of(token),
            Terminal::If
                | Terminal::For
                | Terminal::While
                | Terminal::Return
                | Terminal::Raise
                | Terminal::Pass
                | Terminal::Name
                | Terminal::Int
                | Terminal::Text
                | Terminal::Nothing
                | Terminal::True
                | Terminal::False
                | Terminal::LeftParen
                | Terminal::LeftSquare
                | Terminal::LeftCurly
                | Terminal::Minus
                | Terminal::Not
        ),
        None => false,
    }
}

/// Puts the statement behind the others, if there is one.
fn keep(all: &mut Vec<Command>, statement: Option<Command>) -> Result<(), OutOfMemory>
    ensures { OnOk result (all.new.items ≡ all.old.items ++ kept (statement ∷ [])) }
{
    if let Some(statement) = statement {
        all.push(statement)?;
    }
    Ok(())
}

impl<F: Fn(Global, usize, &[Token]) -> Result<(Items<Command>, &[Token]), Halt<'_>>> Body<F> {
    #[tactic(auto, using(crate::proofs::Blocks::commands_below))]
    fn behind_colon<'a>(&self, depth: usize, tokens: &'a [Token]) -> Read<'a, Items<Command>>
        requires body { ReadsBlocks depth (F.pre self.now.read) (F.post self.now.read) }
        requires open { 0 < depth }
        ensures { Gives (λ x. (x.0, x.1.now)) result (read_behind_colon depth tokens.now) }
    {
        (self.read)(self.alloc, depth - 1, tokens)
    }

    /// A colon and the statements behind it.
    #[tactic(auto, unfolding(crate::specs::StatementReading::read_block))]
    pub fn block<'a>(&self, depth: usize, tokens: &'a [Token]) -> Read<'a, Items<Command>>
        requires { ReadsBlocks depth (F.pre self.now.read) (F.post self.now.read) }
        ensures { Gives (λ x. (x.0, x.1.now)) result (read_block depth (read_behind_colon depth) tokens.now) }
    {
        let rest = open(depth, tokens, Terminal::Colon)?;
        self.behind_colon(depth, rest)
    }

    #[tactic(auto, unfolding(crate::specs::StatementReading::read_branch))]
    fn branch<'a>(&self, depth: usize, tokens: &'a [Token]) -> Read<'a, Branch>
        requires { ReadsBlocks depth (F.pre self.now.read) (F.post self.now.read) }
        ensures { Gives (λ x. (x.0, x.1.now)) result (read_branch depth (read_behind_colon depth) tokens.now) }
    {
        let (test, rest) = expression(self.alloc, depth, tokens)?;
        let (body, rest) = self.block(depth, rest)?;
        Ok(((test, body), rest))
    }

    #[tactic(auto, unfolding(crate::specs::StatementReading::read_another_branch))]
    fn another_branch<'a>(&self, depth: usize, tokens: &'a [Token]) -> Read<'a, Branch>
        requires { ReadsBlocks depth (F.pre self.now.read) (F.post self.now.read) }
        ensures { Gives (λ x. (x.0, x.1.now)) result (read_another_branch depth (read_behind_colon depth) tokens.now) }
    {
        let rest = expect(tokens, Terminal::Elif)?;
        self.branch(depth, rest)
    }

    /// What was read with the branches behind it.
    #[tactic(auto, using(crate::proofs::Blocks::branches_begin))]
    fn more_branches<'a>(
        &self,
        depth: usize,
        first: Branch,
        tokens: &'a [Token],
    ) -> Read<'a, Vec<Branch>>
        requires { ReadsBlocks depth (F.pre self.now.read) (F.post self.now.read) }
        ensures { Gives (λ x. (x.0.items, x.1.now)) result (read_more_branches depth (read_behind_colon depth) first tokens.now) }
    {
        let mut all = Vec::new(self.alloc);
        all.push(first)?;
        let mut rest = tokens;
        while begins_with(rest, Terminal::Elif) {
            let (next, after) = self.another_branch(depth, rest)?;
            all.push(next)?;
            rest = after;
        }
        Ok((all, rest))
    }

    #[tactic(auto, unfolding(crate::specs::StatementReading::read_branches))]
    fn branches<'a>(&self, depth: usize, tokens: &'a [Token]) -> Read<'a, Vec<Branch>>
        requires { ReadsBlocks depth (F.pre self.now.read) (F.post self.now.read) }
        ensures { Gives (λ x. (x.0.items, x.1.now)) result (read_branches depth (read_behind_colon depth) tokens.now) }
    {
        let (first, rest) = self.branch(depth, tokens)?;
        self.more_branches(depth, first, rest)
    }

    /// The block of `else`, which is empty where there is none.
    #[tactic(auto, unfolding(crate::specs::StatementReading::read_otherwise))]
    fn otherwise<'a>(&self, depth: usize, tokens: &'a [Token]) -> Read<'a, Items<Command>>
        requires { ReadsBlocks depth (F.pre self.now.read) (F.post self.now.read) }
        ensures { Gives (λ x. (x.0, x.1.now)) result (read_otherwise depth (read_behind_colon depth) tokens.now) }
    {
        if !begins_with(tokens, Terminal::Else) {
            return Ok((Items::new(self.alloc), tokens));
        }
        let rest = expect(tokens, Terminal::Else)?;
        self.block(depth, rest)
    }

    #[tactic(auto, unfolding(crate::specs::StatementReading::read_choice))]
    fn choice<'a>(&self, depth: usize, tokens: &'a [Token]) -> Said<'a>
        requires { ReadsBlocks depth (F.pre self.now.read) (F.post self.now.read) }
        ensures { Gives (λ x. (x.0, x.1.now)) result (read_choice depth (read_behind_colon depth) tokens.now) }
    {
        let rest = expect(tokens, Terminal::If)?;
        let (branches, rest) = self.branches(depth, rest)?;
        let (otherwise, rest) = self.otherwise(depth, rest)?;
        let branches = Items::from_vec(self.alloc, branches)?;
        let statement = Statement::If {
            branches,
            otherwise,
        };
        Ok((Some(statement), rest))
    }

    #[tactic(auto, unfolding(crate::specs::StatementReading::read_for_each))]
    fn for_each<'a>(&self, depth: usize, tokens: &'a [Token]) -> Said<'a>
        requires { ReadsBlocks depth (F.pre self.now.read) (F.post self.now.read) }
        ensures { Gives (λ x. (x.0, x.1.now)) result (read_for_each depth (read_behind_colon depth) tokens.now) }
    {
        let rest = expect(tokens, Terminal::For)?;
        let (name, rest) = name(self.alloc, rest)?;
        let rest = expect(rest, Terminal::In)?;
        let (iterable, rest) = expression(self.alloc, depth, rest)?;
        let (body, rest) = self.block(depth, rest)?;
        let statement = Statement::For {
            name,
            iterable,
            body,
        };
        Ok((Some(statement), rest))
    }

    #[tactic(auto, unfolding(crate::specs::StatementReading::read_while_true))]
    fn while_true<'a>(&self, depth: usize, tokens: &'a [Token]) -> Said<'a>
        requires { ReadsBlocks depth (F.pre self.now.read) (F.post self.now.read) }
        ensures { Gives (λ x. (x.0, x.1.now)) result (read_while_true depth (read_behind_colon depth) tokens.now) }
    {
        let rest = expect(tokens, Terminal::While)?;
        let (test, rest) = expression(self.alloc, depth, rest)?;
        let (body, rest) = self.block(depth, rest)?;
        Ok((Some(Statement::While { test, body }), rest))
    }

    #[tactic(auto, unfolding(crate::specs::StatementReading::read_command))]
    fn command<'a>(&self, depth: usize, tokens: &'a [Token]) -> Said<'a>
        requires { ReadsBlocks depth (F.pre self.now.read) (F.post self.now.read) }
        ensures { Gives (λ x. (x.0, x.1.now)) result (read_command depth (read_behind_colon depth) tokens.now) }
    {
        match tokens.split_first() {
            Some((token, _)) => match terminal_of(token) {
                Terminal::If => self.choice(depth, tokens),
                Terminal::For => self.for_each(depth, tokens),
                Terminal::While => self.while_true(depth, tokens),
                _ => line(self.alloc, depth, tokens),
            },
            None => line(self.alloc, depth, tokens),
        }
    }

    /// What was read with the statements behind it.
    #[tactic(auto, using(crate::proofs::Blocks::commands_begin))]
    fn more_commands<'a>(
        &self,
        depth: usize,
        first: Option<Command>,
        tokens: &'a [Token],
    ) -> Read<'a, Vec<Command>>
        requires { ReadsBlocks depth (F.pre self.now.read) (F.post self.now.read) }
        ensures { Gives (λ x. (x.0.items, x.1.now)) result (read_more_commands depth (read_behind_colon depth) first tokens.now) }
    {
        let mut all = Vec::new(self.alloc);
        keep(&mut all, first)?;
        let mut rest = tokens;
        while begins_statement(rest) {
            let (next, after) = self.command(depth, rest)?;
            keep(&mut all, next)?;
            rest = after;
        }
        Ok((all, rest))
    }

    #[tactic(auto, unfolding(crate::specs::StatementReading::read_some_commands))]
    fn some_commands<'a>(&self, depth: usize, tokens: &'a [Token]) -> Read<'a, Vec<Command>>
        requires { ReadsBlocks depth (F.pre self.now.read) (F.post self.now.read) }
        ensures { Gives (λ x. (x.0.items, x.1.now)) result (read_some_commands depth (read_behind_colon depth) tokens.now) }
    {
        let (first, rest) = self.command(depth, tokens)?;
        self.more_commands(depth, first, rest)
    }

    /// Statements on lines of their own, further in.
    #[tactic(auto, unfolding(crate::specs::StatementReading::read_indented))]
    fn indented<'a>(&self, depth: usize, tokens: &'a [Token]) -> Read<'a, Items<Command>>
        requires { ReadsBlocks depth (F.pre self.now.read) (F.post self.now.read) }
        ensures { Gives (λ x. (x.0, x.1.now)) result (read_indented depth (read_behind_colon depth) tokens.now) }
    {
        let rest = expect(tokens, Terminal::Newline)?;
        let rest = expect(rest, Terminal::Indent)?;
        let (all, rest) = self.some_commands(depth, rest)?;
        let rest = expect(rest, Terminal::Dedent)?;
        Ok((Items::from_vec(self.alloc, all)?, rest))
    }

    /// A statement on the line of the colon.
    #[tactic(auto, unfolding(crate::specs::StatementReading::read_alone))]
    fn alone<'a>(&self, depth: usize, tokens: &'a [Token]) -> Read<'a, Items<Command>>
        ensures { Gives (λ x. (x.0, x.1.now)) result (read_alone depth (read_behind_colon depth) tokens.now) }
    {
        let (statement, rest) = line(self.alloc, depth, tokens)?;
        let mut all = Vec::new(self.alloc);
        keep(&mut all, statement)?;
        Ok((Items::from_vec(self.alloc, all)?, rest))
    }

    /// What stands behind a colon.
    #[tactic(auto, unfolding(crate::specs::StatementReading::read_commands))]
    pub fn commands<'a>(&self, depth: usize, tokens: &'a [Token]) -> Read<'a, Items<Command>>
        requires { ReadsBlocks depth (F.pre self.now.read) (F.post self.now.read) }
        ensures { Gives (λ x. (x.0, x.1.now)) result (read_commands depth (read_behind_colon depth) tokens.now) }
    {
        if begins_with(tokens, Terminal::Newline) {
            self.indented(depth, tokens)
        } else {
            self.alone(depth, tokens)
        }
    }
}
