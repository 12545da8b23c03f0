//! How many canonical bytes a value has.

ghost use Rattle.std.specs.Prelude.{◌≡◌, ◌≤◌, min, map, length, decimal};
ghost use Rattle.std.specs.Fmt.{signed_decimal};
ghost use Rattle.rd_value.specs.Canon.{string, joined, keyed, canon};
ghost use Rattle.rd_value.specs.Limits.{size};

use crate::value::Value;
use itoa::Buffer;

fn digits(n: usize) -> u32
    ensures value { result ≡ length (decimal n) }
    ensures short { result ≤ 40 }
{
    Buffer::new().format(n).len() as u32
}

fn signed_digits(n: i64) -> u32
    ensures value { result ≡ length (signed_decimal n) }
    ensures short { result ≤ 40 }
{
    Buffer::new().format(n).len() as u32
}

/// The size of a byte string.
pub(crate) fn string_size(bytes: &[u8]) -> u32
    ensures { result ≡ min (length (string bytes.now)) u32.MAX }
{
    let n = bytes.len();
    match u32::try_from(n) {
        Ok(n32) => n32.saturating_add(digits(n) + 1),
        Err(_) => u32::MAX,
    }
}

#[cycle(size)]
pub(crate) fn items_size(items: &[Value]) -> u32
    ensures { result ≡ min (length (joined (map (canon (λ f. f)) items.now))) u32.MAX }
{
    let mut total: u32 = 0;
    for item in items {
        total = total.saturating_add(item.size());
    }
    total
}

#[cycle(size)]
fn pairs_size(pairs: &[(Value, Value)]) -> u32
    ensures { result ≡ min (length (joined (map keyed (map (λ p. (canon (λ f. f) p.0, canon (λ f. f) p.1)) pairs.now)))) u32.MAX }
{
    let mut total: u32 = 0;
    for (key, item) in pairs {
        total = total.saturating_add(key.size()).saturating_add(item.size());
    }
    total
}

impl Value {
    /// The number of its canonical bytes, or the greatest number of the type where there are more.
    #[cycle(size)]
    pub fn size(&self) -> u32
        ensures { result ≡ min (size (λ f. f) self.now) u32.MAX }
    {
        match self {
            Value::Nothing => 5,
            Value::Bool(_) => 8,
            Value::Int(n) => {
                let n = *n;
                signed_digits(n) + 2
            }
            Value::Text(t) => string_size(t.as_str().as_bytes()),
            Value::List(items) => items_size(items.as_slice()).saturating_add(5),
            Value::Dict(pairs) => pairs_size(pairs.as_slice()).saturating_add(5),
            Value::File(f) => string_size(f.path.as_str().as_bytes())
                .saturating_add(string_size(&f.digest.0))
                .saturating_add(5),
            Value::Error(e) => string_size(e.class.name().as_bytes())
                .saturating_add(string_size(e.text.as_str().as_bytes()))
                .saturating_add(5),
        }
    }
}
