//! Whole inputs.

ghost use Rattle.std.specs.Prelude.{◌≡◌, ◌-◌, length};
ghost use Rattle.rd_bencode.specs.Reader.{Gives, Outcome, place};
ghost use Rattle.rd_bencode.specs.Whole.{Answers, all_read};

use crate::read::error::ReadError;
use crate::read::spot::{Halt, Read, Spot};

/// The spot at the begin of an input.
pub(crate) fn begin<'a>(bytes: &'a [u8]) -> Spot<'a>
    ensures { place result ≡ (bytes.now, bytes.now) }
{
    Spot {
        rest: bytes,
        last: bytes,
    }
}

/// The error at the item from which on this is left.
pub(crate) fn refusal(bytes: &[u8], left: &[u8]) -> ReadError
    ensures { result ≡ ReadError.NotCanonical (length bytes.now - length left.now) }
{
    ReadError::NotCanonical {
        at: bytes.len().saturating_sub(left.len()) as u64,
    }
}

/// What was read, where nothing is left behind it.
pub(crate) fn whole<'a, T: Drop>(bytes: &'a [u8], read: Read<'a, T>) -> Result<T, ReadError>
    ensures { (reading : Outcome T) → Gives (λ x. (x.0, place x.1)) read.entry reading → Answers bytes.now result (all_read reading) }
{
    match read {
        Ok((value, spot)) => {
            if spot.rest.is_empty() {
                Ok(value)
            } else {
                Err(refusal(bytes, spot.rest))
            }
        }
        Err(Halt::Memory) => Err(ReadError::OutOfMemory),
        Err(Halt::Refused(left)) => Err(refusal(bytes, left)),
    }
}
