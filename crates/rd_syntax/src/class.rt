ghost use Rattle.std.specs.Prelude.{◌≡◌, ◌<◌, IfSome};
ghost use Rattle.rd_syntax.specs.Bytes as bytes;

/// A quote, in which a text stands.
#[derive(Clone, Copy, Debug)]
pub(crate) enum Quote {
    Single,
    Double,
}

impl Quote {
    pub(crate) fn byte(self) -> u8
        ensures { result ≡ bytes.quote_byte self }
    {
        match self {
            Quote::Single => b'\'',
            Quote::Double => b'"',
        }
    }
}

/// What a byte is to the lexer.
#[derive(Clone, Copy, Debug)]
pub(crate) enum Class {
    Letter,
    Underscore,
    Digit,
    Quote(Quote),
    Backslash,
    Hash,
    Space,
    Tab,
    Feed,
    Return,
    /// A sign by itself, which another byte may lengthen.
    Sign,
    /// The first half of a sign of two bytes.
    Half,
    /// A byte of a character past ASCII.
    High,
    Other,
}

#[tactic(auto, unfolding(crate::specs::Bytes::class_of))]
pub(crate) fn class_of(byte: u8) -> Class
    ensures { result ≡ bytes.class_of byte }
{
    match byte {
        128..=255 => Class::High,
        b'\n' => Class::Feed,
        b'\r' => Class::Return,
        b' ' => Class::Space,
        b'\t' => Class::Tab,
        b'#' => Class::Hash,
        b'\'' => Class::Quote(Quote::Single),
        b'"' => Class::Quote(Quote::Double),
        b'\\' => Class::Backslash,
        b'_' => Class::Underscore,
        b'0'..=b'9' => Class::Digit,
        b'a'..=b'z' | b'A'..=b'Z' => Class::Letter,
        b'.'
        | b','
        | b'='
        | b'@'
        | b'('
        | b')'
        | b':'
        | b'-'
        | b'|'
        | b'['
        | b']'
        | b'{'
        | b'}'
        | b'+'
        | b'<'
        | b'>'
        | b'*'
        | b'%' => Class::Sign,
        b'!' | b'/' => Class::Half,
        _ => Class::Other,
    }
}

/// What a byte behind a backslash stands for.
pub(crate) fn escape_of(byte: u8) -> Option<u8>
    ensures { result ≡ bytes.escape_of byte }
{
    match byte {
        b'\\' => Some(b'\\'),
        b'\'' => Some(b'\''),
        b'"' => Some(b'"'),
        b'n' => Some(b'\n'),
        b'r' => Some(b'\r'),
        b't' => Some(b'\t'),
        _ => None,
    }
}

/// The value of a hexadecimal digit.
pub(crate) fn hex_of(byte: u8) -> Option<u8>
    ensures value { result ≡ bytes.hex_of byte }
    ensures digit { IfSome result (λ digit. digit < 16) }
{
    match byte {
        b'0'..=b'9' => Some(byte - b'0'),
        b'a'..=b'f' => Some(byte - b'a' + 10),
        b'A'..=b'F' => Some(byte - b'A' + 10),
        _ => None,
    }
}

/// Two bytes that are one sign.
pub(crate) fn is_double(first: u8, second: u8) -> bool
    ensures { result ≡ bytes.is_double first second }
{
    (second == b'=' && (first == b'=' || first == b'+' || first == b'<' || first == b'>'))
        || (first == b'-' && second == b'>')
}

/// The second byte of a sign that begins with a half.
pub(crate) fn other_half(first: u8) -> u8
    ensures { result ≡ bytes.other_half first }
{
    if first == b'/' { b'/' } else { b'=' }
}

/// Whether this digit may follow a number with this value.
pub(crate) fn continues_number(value: u64, byte: u8) -> bool
    ensures { result ≡ bytes.continues_number value byte }
{
    let digit = u64::from(byte.saturating_sub(b'0'));
    value >= 1 && value <= (9_223_372_036_854_775_807 - digit) / 10
}

pub(crate) fn is_open(byte: u8) -> bool
    ensures { result ≡ bytes.is_open byte }
{
    byte == b'(' || byte == b'[' || byte == b'{'
}

pub(crate) fn is_close(byte: u8) -> bool
    ensures { result ≡ bytes.is_close byte }
{
    byte == b')' || byte == b']' || byte == b'}'
}
