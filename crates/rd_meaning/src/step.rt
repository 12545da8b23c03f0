//! What a step comes to.

ghost use Rattle.rd_meaning.specs.Step.{ComesTo, step_in};

use rd_base::{OutOfMemory, Text};
use rd_value::failure::Failure;
use rd_value::value::ErrorValue;
use std::alloc::Global;

/// Why a step came to no value.
#[derive(PartialEq, Eq, Drop)]
pub enum StepError {
    /// The step has an error by its definition.
    Failed(Failure),
    OutOfMemory,
}

impl From<OutOfMemory> for StepError {
    ghost use Rattle.std.specs.Prelude.{◌≡◌};
    ghost use Rattle.rd_meaning.specs.declared.step.StepError.TheVariants.{OutOfMemory};

    ghost from_gives = { λ _ e. e ≡ OutOfMemory };

    fn from(_error: OutOfMemory) -> StepError {
        StepError::OutOfMemory
    }
}

/// The answer as that of a step with this origin.
pub fn stepped<T: Drop>(
    alloc: Global,
    origin: &str,
    answer: Result<T, ErrorValue>,
) -> Result<T, StepError>
    ensures { ComesTo result (step_in origin.now answer) }
{
    match answer {
        Ok(value) => Ok(value),
        Err(error) => {
            let origin = Text::from_str(alloc, origin)?;
            Err(StepError::Failed(Failure {
                class: error.class,
                text: error.text,
                origin,
            }))
        }
    }
}
