//! Items: integers, byte strings, and the begins and ends of lists, as BEP 3 has them.

ghost use Rattle.std.specs.Prelude.{◌≡◌, true};
ghost use Rattle.std.specs.Option.{option_map};
ghost use Rattle.rd_bencode.specs.Reader as spec;
ghost use Rattle.rd_bencode.specs.Reader.{Gives, place};
ghost use Rattle.rd_bencode.specs.RecordReaders as records;

use crate::read::spot::{Halt, Read, Spot};
use itoa::Buffer;

fn is_digit(byte: u8) -> bool
    ensures { result ≡ spec.is_digit byte }
{
    byte >= b'0' && byte <= b'9'
}

/// The number with one digit more, where it is none too great.
fn with_digit(n: u64, byte: u8) -> Option<u64>
    requires { spec.is_digit byte ≡ true }
    ensures { result ≡ spec.with_digit n byte }
{
    n.checked_mul(10)?.checked_add(u64::from(byte - b'0'))
}

/// The number of the digits in front.
fn leading(bytes: &[u8]) -> Option<u64>
    ensures { result ≡ spec.leading 0 bytes.now }
{
    let mut n: u64 = 0;
    for byte in bytes {
        if !is_digit(*byte) {
            return Some(n);
        }
        n = with_digit(n, *byte)?;
    }
    Some(n)
}

fn behind<'a>(text: &[u8], bytes: &'a [u8]) -> Option<&'a [u8]>
    ensures { option_map (λ r. r.now) result ≡ spec.behind text.now bytes.now }
{
    bytes.strip_prefix(text)
}

fn cut(n: u64, bytes: &[u8]) -> Option<(&[u8], &[u8])>
    ensures { option_map (λ p. (p.0.now, p.1.now)) result ≡ spec.cut n bytes.now }
{
    bytes.split_at_checked(n as usize)
}

/// A byte string whose length has its one spelling, and what stands behind it.
fn string_at(bytes: &[u8]) -> Option<(&[u8], &[u8])>
    ensures { option_map (λ p. (p.0.now, p.1.now)) result ≡ spec.string_at bytes.now }
{
    let n = leading(bytes)?;
    let rest = behind(Buffer::new().format(n).as_bytes(), bytes)?;
    let rest = behind(b":", rest)?;
    cut(n, rest)
}

fn minus(n: u64) -> Option<i64>
    ensures { result ≡ spec.negative n }
{
    let m = i64::try_from(n.checked_sub(1)?).ok()?;
    Some(-1 - m)
}

fn plus(n: u64) -> Option<i64>
    ensures { result ≡ spec.positive n }
{
    i64::try_from(n).ok()
}

/// The number behind a sign or without one.
fn signed(bytes: &[u8]) -> Option<i64>
    ensures { result ≡ spec.signed bytes.now }
{
    match bytes.split_first() {
        Some((b'-', digits)) => minus(leading(digits)?),
        Some(_) => plus(leading(bytes)?),
        None => None,
    }
}

/// An integer behind its `i` in its one spelling, and what stands behind it.
fn integer_at(bytes: &[u8]) -> Option<(i64, &[u8])>
    ensures { option_map (λ p. (p.0, p.1.now)) result ≡ spec.integer_at bytes.now }
{
    let n = signed(bytes)?;
    let rest = behind(Buffer::new().format(n).as_bytes(), bytes)?;
    let rest = behind(b"e", rest)?;
    Some((n, rest))
}

fn letter_at(bytes: &[u8]) -> Option<(u8, &[u8])>
    ensures { option_map (λ p. (p.0, p.1.now)) result ≡ spec.letter_at bytes.now }
{
    let (letter, rest) = behind(b"1:", bytes)?.split_first()?;
    Some((*letter, rest))
}

/// A byte string.
pub(crate) fn string<'a>(spot: Spot<'a>) -> Read<'a, &'a [u8]>
    ensures { Gives (λ x. (x.0.now, place x.1)) result (spec.read_string (place spot.entry)) }
{
    match string_at(spot.rest) {
        Some((bytes, rest)) => Ok((
            bytes,
            Spot {
                rest,
                last: spot.rest,
            },
        )),
        None => Err(Halt::Refused(spot.rest)),
    }
}

/// A byte string of one byte.
pub(crate) fn letter<'a>(spot: Spot<'a>) -> Read<'a, u8>
    ensures { Gives (λ x. (x.0, place x.1)) result (spec.read_letter (place spot.entry)) }
{
    match letter_at(spot.rest) {
        Some((letter, rest)) => Ok((
            letter,
            Spot {
                rest,
                last: spot.rest,
            },
        )),
        None => Err(Halt::Refused(spot.rest)),
    }
}

fn integer_in(bytes: &[u8]) -> Option<(i64, &[u8])>
    ensures { option_map (λ p. (p.0, p.1.now)) result ≡ spec.integer bytes.now }
{
    match bytes.split_first() {
        Some((b'i', rest)) => integer_at(rest),
        _ => None,
    }
}

/// An integer.
pub(crate) fn integer<'a>(spot: Spot<'a>) -> Read<'a, i64>
    ensures { Gives (λ x. (x.0, place x.1)) result (spec.read_integer (place spot.entry)) }
{
    match integer_in(spot.rest) {
        Some((n, rest)) => Ok((
            n,
            Spot {
                rest,
                last: spot.rest,
            },
        )),
        None => Err(Halt::Refused(spot.rest)),
    }
}

/// A number behind its `i`, in its one spelling, and what stands behind it.
fn natural_at(bytes: &[u8]) -> Option<(u64, &[u8])>
    ensures { option_map (λ p. (p.0, p.1.now)) result ≡ records.natural_at bytes.now }
{
    let n = leading(bytes)?;
    let digits_end = behind(Buffer::new().format(n).as_bytes(), bytes)?;
    Some((n, behind(b"e", digits_end)?))
}

fn natural_in(bytes: &[u8]) -> Option<(u64, &[u8])>
    ensures { option_map (λ p. (p.0, p.1.now)) result ≡ records.natural bytes.now }
{
    match bytes.split_first() {
        Some((b'i', rest)) => natural_at(rest),
        _ => None,
    }
}

/// An integer from 0 on.
#[tactic(auto, unfolding(crate::specs::RecordReaders::read_natural))]
pub(crate) fn natural<'a>(spot: Spot<'a>) -> Read<'a, u64>
    ensures { Gives (λ x. (x.0, place x.1)) result (records.read_natural (place spot.entry)) }
{
    match natural_in(spot.rest) {
        Some((n, rest)) => Ok((
            n,
            Spot {
                rest,
                last: spot.rest,
            },
        )),
        None => Err(Halt::Refused(spot.rest)),
    }
}

/// Whether an item begins here.
pub(crate) fn begins_item(bytes: &[u8]) -> bool
    ensures { result ≡ spec.begins_item bytes.now }
{
    match bytes.first() {
        Some(byte) => *byte == b'i' || *byte == b'l' || is_digit(*byte),
        None => false,
    }
}

/// The begin of a list.
pub(crate) fn open<'a>(spot: Spot<'a>) -> Result<Spot<'a>, Halt<'a>>
    ensures { Gives (λ s. (tt, place s)) result (spec.read_open (place spot.entry)) }
{
    match spot.rest.split_first() {
        Some((b'l', rest)) => Ok(Spot {
            rest,
            last: spot.rest,
        }),
        _ => Err(Halt::Refused(spot.rest)),
    }
}

/// The end of a list.
pub(crate) fn close<'a>(spot: Spot<'a>) -> Result<Spot<'a>, Halt<'a>>
    ensures { Gives (λ s. (tt, place s)) result (spec.read_close (place spot.entry)) }
{
    if begins_item(spot.rest) {
        return Err(Halt::Refused(spot.rest));
    }
    match spot.rest.split_first() {
        Some((b'e', rest)) => Ok(Spot {
            rest,
            last: spot.last,
        }),
        _ => Err(Halt::Refused(spot.last)),
    }
}
