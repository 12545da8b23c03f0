//! The names of statements.

ghost use Rattle.std.specs.Prelude.{◌≡◌, ◌++◌, ◌∷◌, OnOk, map};
ghost use Rattle.rd_names.specs.Special.{special_named};
ghost use Rattle.rd_names.specs.Uses.{joined};
ghost use Rattle.rd_code.specs.Mentions.{answer_mentions, named_in, named_in_block, named_in_statement};

use crate::mention::{Mentions, Role};
use rd_base::{Items, OutOfMemory, Text};
use rd_tree::{Node, Statement};

type Branch = (Node<Text>, Items<Statement<Text>>);

impl Mentions {
    fn answer(&mut self, answer: &Option<Node<Text>>) -> Result<(), OutOfMemory>
        ensures { OnOk result (self.new.all.items ≡ self.old.all.items ++ answer_mentions special_named answer.now) }
    {
        match answer {
            Some(value) => self.node(value),
            None => Ok(()),
        }
    }

    #[cycle(statements)]
    #[tactic(auto, using(crate::proofs::Mentions::behind))]
    fn statement(&mut self, statement: &Statement<Text>) -> Result<(), OutOfMemory>
        ensures { OnOk result (self.new.all.items ≡ self.old.all.items ++ named_in_statement statement.now) }
    {
        match statement {
            Statement::Assign { name, value } => {
                self.add(Role::Plain, name)?;
                self.node(value)
            }
            Statement::For {
                name,
                iterable,
                body,
            } => {
                self.add(Role::Plain, name)?;
                self.guarded(iterable, body.as_slice())
            }
            Statement::While { test, body } => self.guarded(test, body.as_slice()),
            Statement::If {
                branches,
                otherwise,
            } => {
                self.branches(branches.as_slice())?;
                self.block(otherwise.as_slice())
            }
            Statement::Return(value) => self.answer(value),
            Statement::Raise { class, text } => {
                self.add(Role::Class, class)?;
                self.node(text)
            }
            Statement::Pass => Ok(()),
            Statement::Expr(value) => self.node(value),
        }
    }

    /// An expression, and a block behind it.
    #[cycle(statements)]
    #[tactic(auto, using(crate::proofs::Mentions::behind))]
    fn guarded(&mut self, node: &Node<Text>, body: &[Statement<Text>]) -> Result<(), OutOfMemory>
        ensures { OnOk result (self.new.all.items ≡ self.old.all.items ++ (named_in node.now ++ named_in_block body.now)) }
    {
        self.node(node)?;
        self.block(body)
    }

    #[cycle(statements)]
    #[tactic(auto, using(crate::proofs::Mentions::behind))]
    pub fn block(&mut self, statements: &[Statement<Text>]) -> Result<(), OutOfMemory>
        ensures { OnOk result (self.new.all.items ≡ self.old.all.items ++ named_in_block statements.now) }
    {
        for statement in statements {
            self.statement(statement)?;
        }
        Ok(())
    }

    #[cycle(statements)]
    #[tactic(auto, using(crate::proofs::Mentions::behind))]
    fn branches(&mut self, branches: &[Branch]) -> Result<(), OutOfMemory>
        ensures { OnOk result (self.new.all.items ≡ self.old.all.items ++ (joined (map (λ b. named_in b.0 ++ named_in_block b.1) branches.now))) }
    {
        for branch in branches {
            self.guarded(&branch.0, branch.1.as_slice())?;
        }
        Ok(())
    }
}
