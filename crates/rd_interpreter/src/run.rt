//! A function as a body.

ghost use Rattle.std.specs.Prelude.{◌≡◌, IfOk, map};
ghost use Rattle.rd_interpreter.specs.Body.{whole};
ghost use Rattle.rd_interpreter.specs.Running.{own, routine_of};

use crate::halt::Halt;
use crate::operation::append_values;
use crate::scope::Scope;
use rd_base::OutOfMemory;
use rd_routine::Routine;
use rd_value::expr::{Expr, Exprs};
use rd_value::limits::kept_expr;
use rd_value::value::{ErrorValue, Value};
use std::alloc::Global;

/// The most steps of a body.
const MOST_STEPS: u32 = 1_000_000;

/// The most helper calls that may be open at once.
const MOST_CALLS: u32 = 200;

/// What a body comes to where memory is left: an expression within the limits, or an error.
pub type Reduced = Result<Expr, ErrorValue>;

/// Runs a function as a body on one argument for each parameter.
pub fn reduce(
    alloc: Global,
    helpers: &[Routine],
    routine: &Routine,
    arguments: &[Value],
) -> Result<Reduced, OutOfMemory>
    ensures { IfOk result (λ answer. answer ≡ whole own (map routine_of helpers.now) (routine_of routine.now) arguments.now) }
{
    let mut all = Exprs::new(alloc);
    append_values(alloc, &mut all, arguments)?;
    let scope = Scope {
        alloc,
        routine,
        helpers,
        spare: MOST_CALLS,
    };
    match scope.run(all, MOST_STEPS) {
        Ok((expr, _)) => kept_expr(alloc, expr),
        Err(Halt::Raised(error)) => Ok(Err(error)),
        Err(Halt::OutOfMemory) => Err(OutOfMemory),
    }
}
