//! Whole numbers in texts.

ghost use Rattle.std.specs.Prelude.{◌≡◌, ℕ, Option, pos};
ghost use Rattle.std.specs.Option.{option_map};
ghost use Rattle.rd_interpreter.specs.Builtins as spec;
ghost use Rattle.rd_interpreter.specs.Number.{capped, digit_at};
ghost use Rattle.rd_interpreter.specs.Running.{Answers, Raises};
ghost use Rattle.rd_interpreter.specs.Texts.{below_zero, digits, digits_from, signed, whole_number};

use crate::builtins::out_of_range;
use crate::halt::{Halt, raise};
use crate::texts::stripped;
use rd_value::class::Class;
use rd_value::value::Value;
use std::alloc::Global;

fn digit(byte: u8) -> Option<u64>
    ensures { result ≡ digit_at byte }
{
    match byte {
        b'0'..=b'9' => Some(u64::from(byte - b'0')),
        _ => None,
    }
}

/// The number of digits, or the greatest of 64 bits where it is more.
fn number_of(bytes: &[u8]) -> Option<u64>
    ensures { result ≡ option_map capped (digits_from 0 bytes.now) }
{
    let mut number = 0u64;
    for byte in bytes {
        let Some(more) = digit(*byte) else {
            return None;
        };
        number = number.saturating_mul(10).saturating_add(more);
    }
    Some(number)
}

/// The number of one digit or more, or the greatest of 64 bits where it is more.
fn magnitude(bytes: &[u8]) -> Option<u64>
    ensures { result ≡ option_map capped (digits bytes.now) }
{
    if bytes.is_empty() {
        return None;
    }
    number_of(bytes)
}

/// The error of a text that is no whole number.
fn no_number(alloc: Global) -> Halt
    ensures { Raises result spec.no_number }
{
    raise(alloc, Class::ValueError, "not a whole number")
}

/// A number that is 0 or more.
fn positive(alloc: Global, magnitude: Option<u64>) -> Result<Value, Halt>
    ensures { (number : Option ℕ) → magnitude ≡ option_map capped number → Answers result (spec.whole (option_map pos number)) }
{
    let Some(magnitude) = magnitude else {
        return Err(no_number(alloc));
    };
    match 0i64.checked_add_unsigned(magnitude) {
        Some(number) => Ok(Value::Int(number)),
        None => Err(out_of_range(alloc)),
    }
}

/// A number that is 0 or less.
fn negative(alloc: Global, magnitude: Option<u64>) -> Result<Value, Halt>
    ensures { (number : Option ℕ) → magnitude ≡ option_map capped number → Answers result (spec.whole (option_map below_zero number)) }
{
    let Some(magnitude) = magnitude else {
        return Err(no_number(alloc));
    };
    match 0i64.checked_sub_unsigned(magnitude) {
        Some(number) => Ok(Value::Int(number)),
        None => Err(out_of_range(alloc)),
    }
}

/// The whole number of a sign and digits.
fn signed(alloc: Global, text: &[u8]) -> Result<Value, Halt>
    ensures { Answers result (spec.whole (signed text.now)) }
{
    match text {
        [] => Err(no_number(alloc)),
        [b'+', rest @ ..] => positive(alloc, magnitude(rest)),
        [b'-', rest @ ..] => negative(alloc, magnitude(rest)),
        _ => positive(alloc, magnitude(text)),
    }
}

/// The whole number that a text is, also with whitespace around it.
pub fn whole(alloc: Global, text: &str) -> Result<Value, Halt>
    ensures { Answers result (spec.whole (whole_number text.now)) }
{
    signed(alloc, stripped(text).as_bytes())
}
