//! What a part of a function knows.

ghost use Rattle.std.specs.Prelude.{◌≡◌};
ghost use Rattle.rd_value.specs.declared.class.Class.TheVariants.{NameError};
ghost use Rattle.rd_value.specs.Raise.{raised};
ghost use Rattle.rd_interpreter.specs.Body as spec;
ghost use Rattle.rd_interpreter.specs.Running.{Gives, Raises, function_in, state};

mod call;
mod expression;
mod operator;
mod statement;

use crate::frame::Frame;
use crate::halt::Halt;
use rd_base::Copies;
use rd_routine::{Routine, Slot};
use rd_value::class::Class;
use rd_value::expr::Expr;
use rd_value::raise::raised;
use std::alloc::Global;

/// A function with the helpers that it may call.
#[derive(Clone, Copy)]
pub struct Scope<'a> {
    pub alloc: Global,
    pub routine: &'a Routine,
    pub helpers: &'a [Routine],
    /// How many more helper calls may be open.
    pub spare: u32,
}

impl Scope<'_> {
    fn spelling(&self, slot: Slot) -> &str
        ensures { result.now ≡ (function_in self.now).spelling slot }
    {
        match self.routine.words.as_slice().get(slot) {
            Some(word) => word.spelling.as_str(),
            None => "",
        }
    }

    fn class(&self, slot: Slot) -> Option<Class>
        ensures { result ≡ (function_in self.now).class_of slot }
    {
        match self.routine.words.as_slice().get(slot) {
            Some(word) => word.class,
            None => None,
        }
    }

    /// The error of a name that stands for nothing.
    fn no_name(&self, slot: Slot) -> Halt
        ensures { Raises result (raised NameError ((function_in self.now).spelling slot)) }
    {
        match raised(self.alloc, Class::NameError, self.spelling(slot)) {
            Ok(error) => Halt::Raised(error),
            Err(_) => Halt::OutOfMemory,
        }
    }

    /// The value of a name.
    fn name(&self, slot: Slot, frame: &Frame) -> Result<Expr, Halt>
        ensures { Gives result (state frame.now) (spec.found (function_in self.now) slot ((state frame.now).names slot) (state frame.now)) }
    {
        match frame.local(slot) {
            Some(value) => Ok(value.copy(self.alloc)?),
            None => Err(self.no_name(slot)),
        }
    }
}
