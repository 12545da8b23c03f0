use rd_base::OutOfMemory;
use std::alloc::{AllocError, AllocFailed};

/// How far reading came.
#[derive(Clone, Copy)]
pub(crate) struct Spot<'a> {
    /// What is left.
    pub rest: &'a [u8],
    /// What is left from the last item begun on.
    pub last: &'a [u8],
}

/// Why reading stopped, with what is left from the item on at which it did.
#[derive(Drop)]
pub(crate) enum Halt<'a> {
    Memory,
    Refused(&'a [u8]),
}

/// What was read, and how far reading came.
pub(crate) type Read<'a, T> = Result<(T, Spot<'a>), Halt<'a>>;

impl<'a> From<AllocError> for Halt<'a> {
    ghost use Rattle.std.specs.Prelude.{◌≡◌};
    ghost use Rattle.rd_bencode.specs.declared.read.spot.Halt.TheVariants.{Memory};

    ghost from_gives = { λ _ e. e ≡ Memory };

    fn from(_error: AllocError) -> Halt<'a> {
        Halt::Memory
    }
}

impl<'a, T: Drop> From<AllocFailed<T>> for Halt<'a> {
    ghost use Rattle.std.specs.Prelude.{◌≡◌};
    ghost use Rattle.rd_bencode.specs.declared.read.spot.Halt.TheVariants.{Memory};

    ghost from_gives = { λ _ e. e ≡ Memory };

    fn from(error: AllocFailed<T>) -> Halt<'a> {
        drop(error);
        Halt::Memory
    }
}

impl<'a> From<OutOfMemory> for Halt<'a> {
    ghost use Rattle.std.specs.Prelude.{◌≡◌};
    ghost use Rattle.rd_bencode.specs.declared.read.spot.Halt.TheVariants.{Memory};

    ghost from_gives = { λ _ e. e ≡ Memory };

    fn from(_error: OutOfMemory) -> Halt<'a> {
        Halt::Memory
    }
}
