//! What byte strings and integers mean where they stand.

ghost use Rattle.std.specs.Prelude.{◌≡◌, Some, None};
ghost use Rattle.rd_bencode.specs.Meaning as spec;
ghost use Rattle.rd_bencode.specs.Reader.{Gives, mean, place};
ghost use Rattle.rd_bencode.specs.RecordReaders as records;
ghost use Rattle.rd_bencode.specs.Values as values;

use crate::read::item::string;
use crate::read::spot::{Halt, Read, Spot};
use rd_base::{Digest, Path, PathError, Text};
use rd_value::class::Class;
use std::alloc::Global;

/// The text of a byte string.
#[tactic(auto, using(crate::proofs::Meaning::is_text, crate::proofs::Meaning::no_text))]
fn text_of<'a>(alloc: Global, bytes: &[u8], spot: Spot<'a>) -> Read<'a, Text>
    ensures { Gives (λ x. (x.0, place x.1)) result (mean (spec.text_of bytes.now) (place spot.entry)) }
{
    match str::from_utf8(bytes) {
        Ok(text) => Ok((Text::from_str(alloc, text)?, spot)),
        Err(_) => Err(Halt::Refused(spot.last)),
    }
}

/// A text.
#[tactic(auto, unfolding(crate::specs::Values::read_text))]
pub(crate) fn text<'a>(alloc: Global, spot: Spot<'a>) -> Read<'a, Text>
    ensures { Gives (λ x. (x.0, place x.1)) result (values.read_text (place spot.entry)) }
{
    let (bytes, spot) = string(spot)?;
    text_of(alloc, bytes, spot)
}

fn path_in<'a>(alloc: Global, text: &str, spot: Spot<'a>) -> Read<'a, Path>
    ensures { Gives (λ x. (x.0, place x.1)) result (mean (spec.path_of text.now) (place spot.entry)) }
{
    match Path::new(alloc, text) {
        Ok(path) => Ok((path, spot)),
        Err(PathError::PathRefused) => Err(Halt::Refused(spot.last)),
        Err(PathError::OutOfMemory) => Err(Halt::Memory),
    }
}

/// The path of a byte string.
#[tactic(auto, using(crate::proofs::Meaning::no_path_text))]
pub(crate) fn path_of<'a>(alloc: Global, bytes: &[u8], spot: Spot<'a>) -> Read<'a, Path>
    ensures { Gives (λ x. (x.0, place x.1)) result (mean (spec.path_of bytes.now) (place spot.entry)) }
{
    match str::from_utf8(bytes) {
        Ok(text) => path_in(alloc, text, spot),
        Err(_) => Err(Halt::Refused(spot.last)),
    }
}

/// The digest of a byte string.
#[tactic(auto, unfolding(crate::specs::Meaning::digest_of))]
pub(crate) fn digest_of<'a>(bytes: &[u8], spot: Spot<'a>) -> Read<'a, Digest>
    ensures { Gives (λ x. (x.0, place x.1)) result (mean (spec.digest_of bytes.now) (place spot.entry)) }
{
    if bytes.len() != 32 {
        return Err(Halt::Refused(spot.last));
    }
    let mut digest = [0; 32];
    digest.copy_from_slice(bytes);
    Ok((Digest(digest), spot))
}

/// A path.
#[tactic(auto, unfolding(crate::specs::RecordReaders::read_path))]
pub(crate) fn path<'a>(alloc: Global, spot: Spot<'a>) -> Read<'a, Path>
    ensures { Gives (λ x. (x.0, place x.1)) result (records.read_path (place spot.entry)) }
{
    let (bytes, spot) = string(spot)?;
    path_of(alloc, bytes, spot)
}

/// A digest.
#[tactic(auto, unfolding(crate::specs::RecordReaders::read_digest))]
pub(crate) fn digest<'a>(spot: Spot<'a>) -> Read<'a, Digest>
    ensures { Gives (λ x. (x.0, place x.1)) result (records.read_digest (place spot.entry)) }
{
    let (bytes, spot) = string(spot)?;
    digest_of(bytes, spot)
}

/// The one of these classes that has this name.
fn class_among(classes: &[Class], bytes: &[u8]) -> Option<Class>
    ensures { result ≡ spec.class_in classes.now bytes.now }
{
    for class in classes {
        if bytes == class.name().as_bytes() {
            return Some(*class);
        }
    }
    None
}

#[tactic(auto, unfolding(crate::specs::Meaning::class_of))]
fn class_in(bytes: &[u8]) -> Option<Class>
    ensures { result ≡ spec.class_of bytes.now }
{
    let classes = [
        Class::Exception,
        Class::ValueError,
        Class::TypeError,
        Class::KeyError,
        Class::IndexError,
        Class::ZeroDivisionError,
        Class::OverflowError,
        Class::FileNotFoundError,
        Class::PermissionError,
        Class::RuntimeError,
        Class::RecursionError,
        Class::AttributeError,
        Class::NameError,
        Class::LimitError,
    ];
    class_among(&classes, bytes)
}

/// The class of a byte string.
pub(crate) fn class_of<'a>(bytes: &[u8], spot: Spot<'a>) -> Read<'a, Class>
    ensures { Gives (λ x. (x.0, place x.1)) result (mean (spec.class_of bytes.now) (place spot.entry)) }
{
    match class_in(bytes) {
        Some(class) => Ok((class, spot)),
        None => Err(Halt::Refused(spot.last)),
    }
}

/// A class.
#[tactic(auto, unfolding(crate::specs::RecordReaders::read_class))]
pub(crate) fn class<'a>(spot: Spot<'a>) -> Read<'a, Class>
    ensures { Gives (λ x. (x.0, place x.1)) result (records.read_class (place spot.entry)) }
{
    let (bytes, spot) = string(spot)?;
    class_of(bytes, spot)
}

fn flag_in(n: i64) -> Option<bool>
    ensures { result ≡ spec.flag_of n }
{
    match n {
        0 => Some(false),
        1 => Some(true),
        _ => None,
    }
}

/// The flag of an integer.
pub(crate) fn flag_of<'a>(n: i64, spot: Spot<'a>) -> Read<'a, bool>
    ensures { Gives (λ x. (x.0, place x.1)) result (mean (spec.flag_of n) (place spot.entry)) }
{
    match flag_in(n) {
        Some(flag) => Ok((flag, spot)),
        None => Err(Halt::Refused(spot.last)),
    }
}
