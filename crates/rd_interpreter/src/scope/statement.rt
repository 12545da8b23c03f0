//! Statements.

ghost use Rattle.std.specs.Prelude.{◌≡◌, ◌≤◌, map, Some};
ghost use Rattle.rd_interpreter.specs.Body as spec;
ghost use Rattle.rd_interpreter.specs.State.{each, loop};
ghost use Rattle.rd_interpreter.specs.Running.{Gives, all_done, branch_in, done, function_in, meant, put, state};
ghost use Rattle.rd_interpreter.specs.Turns.{left};

use crate::frame::Frame;
use crate::halt::{Halt, raise};
use crate::held::raising;
use crate::scope::Scope;
use crate::turns::Turns;
use rd_base::Items;
use rd_routine::Slot;
use rd_tree::{Node, Statement};
use rd_value::class::Class;
use rd_value::expr::Expr;
use rd_value::value::Value;

type Branch = (Node<Slot>, Items<Statement<Slot>>);

impl Scope<'_> {
    /// A statement, with what the function returns where it ends there.
    #[cycle(run)]
    #[tactic(auto, unfolding(crate::specs::Body::statement))]
    pub fn statement(
        &self,
        statement: &Statement<Slot>,
        frame: &mut Frame,
    ) -> Result<Option<Expr>, Halt>
        ensures gives { Gives result (state frame.new) (done self.now statement.now (state frame.old)) }
        ensures left { frame.new.left ≤ frame.old.left }
    {
        frame.spend(self.alloc, 1)?;
        match statement {
            Statement::Assign { name, value } => {
                let value = self.node(value, frame)?;
                frame.set(*name, Some(value))?;
                Ok(None)
            }
            Statement::For {
                name,
                iterable,
                body,
            } => {
                let items = self.iterable(iterable, frame)?;
                self.for_each(*name, items, body.as_slice(), frame)
            }
            Statement::While { test, body } => self.repeat(test, body.as_slice(), frame),
            Statement::If {
                branches,
                otherwise,
            } => self.branches(branches.as_slice(), otherwise.as_slice(), frame),
            Statement::Return(None) => Ok(Some(Expr::Val(Value::Nothing))),
            Statement::Return(Some(value)) => Ok(Some(self.node(value, frame)?)),
            Statement::Raise { class, text } => {
                let text = self.node(text, frame)?;
                self.raising(*class, &text, frame)
            }
            Statement::Pass => Ok(None),
            Statement::Expr(value) => {
                self.node(value, frame)?;
                Ok(None)
            }
        }
    }

    fn raising(&self, slot: Slot, text: &Expr, frame: &Frame) -> Result<Option<Expr>, Halt>
        ensures { Gives result (state frame.now) (spec.raise (function_in self.now) slot ((function_in self.now).class_of slot) text.now (state frame.now)) }
    {
        match self.class(slot) {
            Some(class) => raising(self.alloc, class, text),
            None => Err(self.no_name(slot)),
        }
    }

    /// Statements, until one ends the function.
    #[cycle(run)]
    pub fn block(&self, block: &[Statement<Slot>], frame: &mut Frame) -> Result<Option<Expr>, Halt>
        ensures gives { Gives result (state frame.new) (all_done self.now block.now (state frame.old)) }
        ensures left { frame.new.left ≤ frame.old.left }
    {
        for statement in block {
            if let Some(value) = self.statement(statement, frame)? {
                return Ok(Some(value));
            }
        }
        Ok(None)
    }

    /// The first branch whose test holds.
    #[cycle(run)]
    fn branches(
        &self,
        branches: &[Branch],
        otherwise: &[Statement<Slot>],
        frame: &mut Frame,
    ) -> Result<Option<Expr>, Halt>
        ensures gives { Gives result (state frame.new) (spec.branches (map (branch_in self.now) (map (λ b. (b.0, map (done self.now) b.1)) branches.now)) (all_done self.now otherwise.now) (state frame.old)) }
        ensures left { frame.new.left ≤ frame.old.left }
    {
        for (test, block) in branches {
            if self.holds(test, frame)? {
                return self.block(block.as_slice(), frame);
            }
        }
        self.block(otherwise, frame)
    }

    /// A turn for each item.
    #[cycle(run)]
    fn for_each(
        &self,
        slot: Slot,
        items: Turns,
        body: &[Statement<Slot>],
        frame: &mut Frame,
    ) -> Result<Option<Expr>, Halt>
        ensures gives { Gives result (state frame.new) (each (λ x t. all_done self.now body.now (put slot (Some x) t)) (left items) (state frame.old)) }
        ensures left { frame.new.left ≤ frame.old.left }
    {
        let mut items = items;
        while let Some(item) = items.next(self.alloc)? {
            frame.spend(self.alloc, 1)?;
            frame.set(slot, Some(item))?;
            if let Some(value) = self.block(body, frame)? {
                return Ok(Some(value));
            }
        }
        Ok(None)
    }

    /// Turns while a test holds.
    #[cycle(run)]
    fn repeat(
        &self,
        test: &Node<Slot>,
        body: &[Statement<Slot>],
        frame: &mut Frame,
    ) -> Result<Option<Expr>, Halt>
        ensures gives { Gives result (state frame.new) (loop (spec.tested (meant self.now test.now)) (all_done self.now body.now) (state frame.old)) }
        ensures left { frame.new.left ≤ frame.old.left }
    {
        // Each turn takes a step, so no more turns are needed.
        let mut turns = u64::from(frame.left()) + 1;
        while turns > 0 {
            if !self.holds(test, frame)? {
                return Ok(None);
            }
            if let Some(value) = self.block(body, frame)? {
                return Ok(Some(value));
            }
            turns -= 1;
        }
        Err(raise(self.alloc, Class::LimitError, "steps"))
    }
}
