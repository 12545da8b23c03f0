//! Bodies to run, and what came of them.

ghost use Rattle.std.specs.Prelude.{◌≡◌, IfOk, length};
ghost use Rattle.std.specs.Arc.{arc_value};
ghost use Rattle.rd_body.specs.Home.{IsHomeReduction, IsKeptReduction, IsTaskIn};
ghost use Rattle.rd_body.specs.Jobs as spec;

use rd_base::{Copies, OutOfMemory, Text};
use rd_code::TaskCode;
use rd_interpreter::{Reduced, reduce};
use rd_value::expr::Expr;
use rd_value::failure::Failure;
use rd_value::value::Values;
use std::alloc::Global;
use std::sync::Arc;

/// What a body came to.
#[derive(PartialEq, Eq, Drop)]
pub enum Reduction {
    /// An expression within the limits.
    Expr(Expr),
    /// A failure, whose origin is the task.
    Failed(Failure),
}

/// The body of a task to run on one argument for each parameter.
#[derive(Drop)]
pub struct BodyJob {
    pub number: u64,
    pub code: Arc<TaskCode, Global>,
    pub args: Values,
    pub ghost one_each: { length args ≡ length (arc_value code).signature.parameters },
}

/// A job with what its body came to.
#[derive(Drop)]
pub struct Finished {
    job: BodyJob,
    reduction: Reduction,
    pub ghost right: { reduction ≡ spec.outcome (arc_value job.code) job.args },
}

impl Finished {
    pub fn job(&self) -> &BodyJob
        ensures { result.now ≡ self.now.job }
    {
        &self.job
    }

    /// What the body came to.
    pub fn reduction(&self) -> &Reduction
        ensures is { result.now ≡ spec.outcome (arc_value self.now.job.code) self.now.job.args }
        ensures at_home { IsHomeReduction (IsTaskIn (arc_value self.now.job.code).names) result.now }
        ensures within { IsKeptReduction result.now }
    {
        &self.reduction
    }
}

fn reduction_of(alloc: Global, origin: &Text, reduced: Reduced) -> Result<Reduction, OutOfMemory>
    ensures { IfOk result (λ r. r ≡ spec.reduction origin.now reduced) }
{
    match reduced {
        Ok(expr) => Ok(Reduction::Expr(expr)),
        Err(error) => Ok(Reduction::Failed(Failure {
            class: error.class,
            text: error.text,
            origin: origin.copy(alloc)?,
        })),
    }
}

/// Runs the body of a job.
pub fn run_body(alloc: Global, job: BodyJob) -> Result<Finished, OutOfMemory>
    ensures { IfOk result (λ finished. finished.job ≡ job) }
{
    let code = &*job.code;
    let reduced = reduce(alloc, code.routines(), code.routine(), job.args.as_slice())?;
    let reduction = reduction_of(alloc, &code.full_name, reduced)?;
    Ok(Finished { job, reduction })
}
