use rd_base::OutOfMemory;
use rd_syntax::Token;
use std::alloc::{AllocError, AllocFailed};

/// Why reading stopped, with the tokens from there on.
#[derive(Drop)]
pub enum Halt<'a> {
    Memory,
    /// No text goes on with the first of these tokens.
    Refused(&'a [Token]),
    /// The first of these tokens opens one level too many.
    Deep(&'a [Token]),
}

impl<'a> From<AllocError> for Halt<'a> {
    ghost use Rattle.std.specs.Prelude.{◌≡◌};
    ghost use Rattle.rd_parse.specs.declared.halt.Halt.TheVariants.{Memory};

    ghost from_gives = { λ _ e. e ≡ Memory };

    fn from(_error: AllocError) -> Halt<'a> {
        Halt::Memory
    }
}

impl<'a, T: Drop> From<AllocFailed<T>> for Halt<'a> {
    ghost use Rattle.std.specs.Prelude.{◌≡◌};
    ghost use Rattle.rd_parse.specs.declared.halt.Halt.TheVariants.{Memory};

    ghost from_gives = { λ _ e. e ≡ Memory };

    fn from(error: AllocFailed<T>) -> Halt<'a> {
        drop(error);
        Halt::Memory
    }
}

impl<'a> From<OutOfMemory> for Halt<'a> {
    ghost use Rattle.std.specs.Prelude.{◌≡◌};
    ghost use Rattle.rd_parse.specs.declared.halt.Halt.TheVariants.{Memory};

    ghost from_gives = { λ _ e. e ≡ Memory };

    fn from(_error: OutOfMemory) -> Halt<'a> {
        Halt::Memory
    }
}
