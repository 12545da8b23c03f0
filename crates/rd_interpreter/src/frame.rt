//! The locals of a function while it runs.

ghost use Rattle.std.specs.Prelude.{◌≡◌, ◌<◌, ◌≤◌, ◌+◌, length, IfOk, OnOk};
ghost use Rattle.std.specs.Option.{option_copied};
ghost use Rattle.rd_interpreter.specs.Running.{Spends, local, put, state, with_left};

use crate::halt::{Halt, raise};
use rd_base::{Copies, OutOfMemory};
use rd_routine::Slot;
use rd_value::class::Class;
use rd_value::expr::Expr;
use std::alloc::Global;
use std::mem;

/// The values of the locals, and the steps that are left.
#[derive(Drop)]
pub struct Frame {
    pub locals: Vec<Option<Expr>>,
    pub left: u32,
}

impl Frame {
    /// The value of a local that has one.
    #[tactic(auto, unfolding(crate::specs::Running::state))]
    pub fn local(&self, slot: Slot) -> Option<&Expr>
        ensures { option_copied result ≡ (state self.now).names slot }
    {
        match self.locals.get(slot) {
            Some(Some(value)) => Some(value),
            _ => None,
        }
    }

    /// A copy of the value of a local, if it has one.
    pub fn copied(&self, alloc: Global, slot: Slot) -> Result<Option<Expr>, OutOfMemory>
        ensures { IfOk result (λ value. value ≡ (state self.now).names slot) }
    {
        match self.local(slot) {
            Some(value) => Ok(Some(value.copy(alloc)?)),
            None => Ok(None),
        }
    }

    /// The steps that are left.
    #[tactic(auto, unfolding(crate::specs::Running::state))]
    pub fn left(&self) -> u32
        ensures state { result ≡ (state self.now).left }
        ensures left { result ≡ self.now.left }
    {
        self.left
    }

    /// Has so many steps left.
    #[tactic(auto, unfolding(crate::specs::Running::state))]
    pub fn leave(&mut self, left: u32)
        ensures state { state self.new ≡ with_left left (state self.old) }
        ensures left { self.new.left ≡ left }
    {
        self.left = left;
    }

    /// Makes room for a local.
    fn grow(&mut self, slot: Slot) -> Result<(), OutOfMemory>
        ensures names { OnOk result (local self.new.locals.items ≡ local self.old.locals.items) }
        ensures room { OnOk result (slot < length self.new.locals.items) }
        ensures left { self.new.left ≡ self.old.left }
    {
        while self.locals.len() <= slot {
            self.locals.push(None)?;
        }
        Ok(())
    }

    /// Gives a local a value, or takes it away.
    pub fn set(&mut self, slot: Slot, value: Option<Expr>) -> Result<(), OutOfMemory>
        ensures set { OnOk result (state self.new ≡ put slot value (state self.old)) }
        ensures left { self.new.left ≡ self.old.left }
    {
        self.grow(slot)?;
        drop(mem::replace(&mut self.locals[slot], value));
        Ok(())
    }

    /// Takes so many steps.
    #[tactic(auto, unfolding(crate::specs::Running::state, crate::specs::State::took))]
    pub fn spend(&mut self, alloc: Global, steps: usize) -> Result<(), Halt>
        ensures steps { Spends result steps (state self.old) (state self.new) }
        ensures left { self.new.left ≤ self.old.left }
        ensures taken { OnOk result (self.new.left + steps ≡ self.old.left) }
    {
        if steps <= self.left as usize {
            self.left -= steps as u32;
            return Ok(());
        }
        Err(raise(alloc, Class::LimitError, "steps"))
    }
}
