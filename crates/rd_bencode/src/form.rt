//! The form of blobs and of task structures, apart from what they mean. Nothing here takes memory, and lists in lists are
//! counted.

pub mod laws;

ghost use Rattle.std.specs.Prelude.{◌≡◌, ◌↔◌, ◌<◌, ◌≤◌, ◌+◌, ◌^◌, ℕ, List, length, Option, Some, IsTrue, IfSome, IfNone, true};
ghost use Rattle.std.specs.Option.{option_map};
ghost use Rattle.std.specs.List.{list_all};
ghost use Rattle.rd_bencode.specs.Form.{IsItem, IsBlob, IsNamed, IsTaskForm, number, is_spelled, is_spelled_below};
ghost use Rattle.rd_bencode.specs.Front as front;
ghost use Rattle.rd_bencode.specs.Meaning.{text_of};
ghost use Rattle.rd_bencode.specs.Reader as reader;
ghost use Rattle.rd_bencode.specs.declared.kind.Kind.{Kind};

use crate::kind::Kind;

/// How the digits of integers and lengths are written.
#[derive(Clone, Copy)]
pub enum Spelling {
    /// Zeros may stand in front.
    Any,
    /// No zero stands in front of another digit, and 0 has no minus.
    One,
}

fn is_digit(byte: u8) -> bool
    ensures { result ≡ reader.is_digit byte }
{
    byte >= b'0' && byte <= b'9'
}

/// The digits in front, and what stands behind them.
fn split_digits(bytes: &[u8]) -> (&[u8], &[u8])
    ensures digits { result.0.now ≡ front.digits bytes.now }
    ensures behind { result.1.now ≡ front.behind_digits bytes.now }
{
    for (i, byte) in bytes.iter().enumerate() {
        if !is_digit(*byte) {
            return bytes.split_at(i);
        }
    }
    (bytes, &[])
}

/// The number that digits spell, where it is none too great.
fn number(digits: &[u8]) -> Option<u64>
    requires { list_all reader.is_digit digits.now ≡ true }
    ensures some { IfSome result (λ n. n ≡ number digits.now) }
    ensures none { IfNone result (2 ^ 64 ≤ number digits.now) }
{
    let mut n: u64 = 0;
    for digit in digits {
        n = n.checked_mul(10)?.checked_add(u64::from(*digit - b'0'))?;
    }
    Some(n)
}

/// Whether these digits are a number.
fn is_spelled(spelling: Spelling, digits: &[u8]) -> bool
    ensures { result ≡ is_spelled spelling digits.now }
{
    match (spelling, digits) {
        (_, []) => false,
        (Spelling::One, [first, _, ..]) => *first != b'0',
        _ => true,
    }
}

/// Whether these digits are a number behind a minus.
fn is_spelled_below(spelling: Spelling, digits: &[u8]) -> bool
    ensures { result ≡ is_spelled_below spelling digits.now }
{
    match (spelling, digits) {
        (_, []) => false,
        (Spelling::One, [first, ..]) => *first != b'0',
        _ => true,
    }
}

/// As many bytes as these digits say, and what stands behind them.
fn cut<'a>(digits: &[u8], bytes: &'a [u8]) -> Option<(&'a [u8], &'a [u8])>
    requires { list_all reader.is_digit digits.now ≡ true }
    ensures { option_map (λ p. (p.0.now, p.1.now)) result ≡ reader.cut (number digits.now) bytes.now }
{
    let length = number(digits)?;
    bytes.split_at_checked(length as usize)
}

/// The string in front, and what stands behind it.
fn front_string(spelling: Spelling, bytes: &[u8]) -> Option<(&[u8], &[u8])>
    ensures { option_map (λ p. (p.0.now, p.1.now)) result ≡ front.front_string spelling bytes.now }
{
    let (digits, rest) = split_digits(bytes);
    if !is_spelled(spelling, digits) {
        return None;
    }
    cut(digits, rest.strip_prefix(b":")?)
}

/// What stands behind an integer, from the byte behind its `i` on.
fn behind_integer(spelling: Spelling, bytes: &[u8]) -> Option<&[u8]>
    ensures { option_map (λ r. r.now) result ≡ front.behind_integer spelling bytes.now }
{
    match bytes.split_first()? {
        (b'-', bytes) => behind_minus(spelling, bytes),
        _ => behind_plain(spelling, bytes),
    }
}

fn behind_plain(spelling: Spelling, bytes: &[u8]) -> Option<&[u8]>
    ensures { option_map (λ r. r.now) result ≡ front.behind_plain spelling bytes.now }
{
    let (digits, rest) = split_digits(bytes);
    if !is_spelled(spelling, digits) {
        return None;
    }
    rest.strip_prefix(b"e")
}

fn behind_minus(spelling: Spelling, bytes: &[u8]) -> Option<&[u8]>
    ensures { option_map (λ r. r.now) result ≡ front.behind_minus spelling bytes.now }
{
    let (digits, rest) = split_digits(bytes);
    if !is_spelled_below(spelling, digits) {
        return None;
    }
    rest.strip_prefix(b"e")
}

/// What stands behind the integer or the string in front.
fn behind_plain_item(spelling: Spelling, bytes: &[u8]) -> Option<&[u8]>
    ensures { option_map (λ r. r.now) result ≡ front.behind_plain_item spelling bytes.now }
{
    match bytes.split_first()? {
        (b'i', rest) => behind_integer(spelling, rest),
        _ => {
            let (_, rest) = front_string(spelling, bytes)?;
            Some(rest)
        }
    }
}

/// One step over the parts of lists of which so many are open: how many are open then, and what is left.
fn step(spelling: Spelling, lists: usize, bytes: &[u8]) -> Option<(usize, &[u8])>
    requires { lists + length bytes.now < 2 ^ 64 }
    ensures { option_map (λ p. (p.0, p.1.now)) result ≡ front.step spelling lists bytes.now }
{
    match bytes.split_first()? {
        (b'l', rest) => Some((lists + 1, rest)),
        (b'e', rest) => Some((lists.saturating_sub(1), rest)),
        _ => Some((lists, behind_plain_item(spelling, bytes)?)),
    }
}

/// What stands behind the parts and the end of a list.
fn behind_parts(spelling: Spelling, bytes: &[u8]) -> Option<&[u8]>
    ensures found { IfSome result (λ rest. front.Closes spelling 1 bytes.now rest.now) }
    ensures only { (rest : List ℕ) → front.Closes spelling 1 bytes.now rest → option_map (λ r. r.now) result ≡ Some rest }
{
    let mut lists = 1;
    let mut rest = bytes;
    for _ in 0..bytes.len() {
        (lists, rest) = step(spelling, lists, rest)?;
        if lists == 0 {
            return Some(rest);
        }
    }
    None
}

/// What stands behind the item in front.
fn behind_item(spelling: Spelling, bytes: &[u8]) -> Option<&[u8]>
    ensures found { IfSome result (λ rest. front.InFront spelling bytes.now rest.now) }
    ensures only { (rest : List ℕ) → front.InFront spelling bytes.now rest → option_map (λ r. r.now) result ≡ Some rest }
{
    match bytes.strip_prefix(b"l") {
        Some(rest) => behind_parts(spelling, rest),
        None => behind_plain_item(spelling, bytes),
    }
}

/// Whether this is one whole item.
fn is_item(spelling: Spelling, bytes: &[u8]) -> bool
    ensures { IsTrue result ↔ IsItem spelling bytes.now }
{
    match behind_item(spelling, bytes) {
        Some(rest) => rest.is_empty(),
        None => false,
    }
}

/// The one of these kinds whose text stands in front as a string, and what stands behind it.
fn kind_among<'a>(kinds: &[Kind], bytes: &'a [u8]) -> Option<(Kind, &'a [u8])>
    ensures { option_map (λ p. (p.0, p.1.now)) result ≡ front.kind_among kinds.now bytes.now }
{
    for kind in kinds {
        if let Some(rest) = bytes.strip_prefix(kind.front().as_bytes()) {
            return Some((*kind, rest));
        }
    }
    None
}

/// The kind whose text stands in front as a string, and what stands behind it.
#[tactic(auto, unfolding(crate::specs::Front::front_kind))]
fn front_kind(bytes: &[u8]) -> Option<(Kind, &[u8])>
    ensures { option_map (λ p. (p.0, p.1.now)) result ≡ front.front_kind bytes.now }
{
    let kinds = [
        Kind::Task,
        Kind::Args,
        Kind::Value,
        Kind::Expr,
        Kind::Writes,
        Kind::Children,
        Kind::Footprint,
        Kind::Evaluation,
        Kind::Call,
        Kind::Execution,
    ];
    kind_among(&kinds, bytes)
}

/// A blob's kind, and what stands in it.
fn frame(bytes: &[u8]) -> Option<(Kind, &[u8])>
    ensures { option_map (λ p. (p.0, p.1.now)) result ≡ front.framed bytes.now }
{
    let (kind, rest) = front_kind(bytes.strip_prefix(b"l")?)?;
    Some((kind, rest.strip_suffix(b"e")?))
}

/// The kind and the structure of a blob.
pub fn unwrap_kind(bytes: &[u8]) -> Option<(Kind, &[u8])>
    // The bytes are the blob of this structure, which is one item.
    ensures found { IfSome result (λ p. IsBlob bytes.now p.0 p.1.now) }

    // The blob of such a structure is unwrapped.
    ensures only { (k : Kind) (structure : List ℕ) → IsBlob bytes.now k structure → let found : Option (Kind × List ℕ) = Some (k, structure) in option_map (λ p. (p.0, p.1.now)) result ≡ found }
{
    let (kind, structure) = frame(bytes)?;
    if is_item(Spelling::Any, structure) {
        Some((kind, structure))
    } else {
        None
    }
}

#[tactic(auto, using(crate::proofs::Meaning::is_text, crate::proofs::Meaning::no_text))]
fn text(bytes: &[u8]) -> Option<&str>
    ensures { option_map (λ t. t.now) result ≡ text_of bytes.now }
{
    match str::from_utf8(bytes) {
        Ok(text) => Some(text),
        Err(_) => None,
    }
}

/// The text of the string in front of a list.
fn front_name(structure: &[u8]) -> Option<&str>
    ensures { option_map (λ t. t.now) result ≡ front.front_name structure.now }
{
    let (name, _) = front_string(Spelling::Any, structure.strip_prefix(b"l")?)?;
    text(name)
}

/// The first part of a task structure. Zeros may stand in front of its length.
pub fn task_name(structure: &[u8]) -> Option<&str>
    // The structure begins as a list whose first part is this text.
    ensures found { IfSome result (λ t. IsNamed structure.now t.now) }

    // The name of such a structure is given.
    ensures only { (name : List ℕ) → IsNamed structure.now name → option_map (λ t. t.now) result ≡ Some name }
{
    front_name(structure)
}

/// Whether this has the form of a task structure.
pub fn is_task_form(structure: &[u8]) -> bool
    ensures { IsTrue result ↔ IsTaskForm structure.now }
{
    match task_name(structure) {
        Some(_) => is_item(Spelling::One, structure),
        None => false,
    }
}
