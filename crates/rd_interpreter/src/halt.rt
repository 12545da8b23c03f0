//! Why running a part of a body stopped.

ghost use Rattle.std.specs.Prelude.{◌≡◌};
ghost use Rattle.rd_interpreter.specs.Running.{Raises};

use rd_base::{OutOfMemory, Text};
use rd_value::class::Class;
use rd_value::value::ErrorValue;
use std::alloc::{AllocFailed, Global};

#[derive(Drop)]
pub enum Halt {
    Raised(ErrorValue),
    OutOfMemory,
}

impl From<OutOfMemory> for Halt {
    ghost use Rattle.std.specs.Prelude.{◌≡◌};
    ghost use Rattle.rd_interpreter.specs.declared.halt.Halt.TheVariants.{OutOfMemory};

    ghost from_gives = { λ _ h. h ≡ OutOfMemory };

    fn from(_error: OutOfMemory) -> Halt {
        Halt::OutOfMemory
    }
}

impl From<ErrorValue> for Halt {
    ghost use Rattle.std.specs.Prelude.{◌≡◌};
    ghost use Rattle.rd_interpreter.specs.declared.halt.Halt.TheVariants.{Raised};

    ghost from_gives = { λ e h. h ≡ Raised e };

    fn from(error: ErrorValue) -> Halt {
        Halt::Raised(error)
    }
}

impl<T: Drop> From<AllocFailed<T>> for Halt {
    ghost use Rattle.std.specs.Prelude.{◌≡◌};
    ghost use Rattle.rd_interpreter.specs.declared.halt.Halt.TheVariants.{OutOfMemory};

    ghost from_gives = { λ _ h. h ≡ OutOfMemory };

    fn from(error: AllocFailed<T>) -> Halt {
        drop(error);
        Halt::OutOfMemory
    }
}

/// An error of a class with a short text.
pub fn raise(alloc: Global, class: Class, text: &str) -> Halt
    ensures { Raises result (record { class = class; text = text.now }) }
{
    match Text::from_str(alloc, text) {
        Ok(text) => Halt::Raised(ErrorValue { class, text }),
        Err(_) => Halt::OutOfMemory,
    }
}
