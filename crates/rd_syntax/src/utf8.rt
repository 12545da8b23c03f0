ghost use Rattle.std.specs.Prelude.{◌≡◌};
ghost use Rattle.rd_syntax.specs.Utf8 as spec;

/// What is still to come of a character past ASCII.
#[derive(Clone, Copy, Debug)]
pub(crate) enum Tail {
    /// One more byte.
    One,
    Two,
    Three,
    /// Behind the byte 0xE0, of which the shorter characters are left out.
    LongTwo,
    /// Behind the byte 0xED, of which the surrogates are left out.
    NoSurrogate,
    /// Behind the byte 0xF0, of which the shorter characters are left out.
    LongThree,
    /// Behind the byte 0xF4, of which what is past the last character is left out.
    LastThree,
}

/// What comes behind the first byte of a character past ASCII.
#[tactic(auto, unfolding(crate::specs::Utf8::lead_of))]
pub(crate) fn lead_of(byte: u8) -> Option<Tail>
    ensures { result ≡ spec.lead_of byte }
{
    match byte {
        0xC2..=0xDF => Some(Tail::One),
        0xE0 => Some(Tail::LongTwo),
        0xED => Some(Tail::NoSurrogate),
        0xE1..=0xEF => Some(Tail::Two),
        0xF0 => Some(Tail::LongThree),
        0xF1..=0xF3 => Some(Tail::Three),
        0xF4 => Some(Tail::LastThree),
        _ => None,
    }
}

/// Whether this byte may come next.
#[tactic(auto, unfolding(crate::specs::Utf8::follows))]
pub(crate) fn follows(tail: Tail, byte: u8) -> bool
    ensures { result ≡ spec.follows tail byte }
{
    match tail {
        Tail::LongTwo => 0xA0 <= byte && byte <= 0xBF,
        Tail::NoSurrogate => 0x80 <= byte && byte <= 0x9F,
        Tail::LongThree => 0x90 <= byte && byte <= 0xBF,
        Tail::LastThree => 0x80 <= byte && byte <= 0x8F,
        Tail::One | Tail::Two | Tail::Three => 0x80 <= byte && byte <= 0xBF,
    }
}

/// What comes behind that byte.
pub(crate) fn rest_of(tail: Tail) -> Option<Tail>
    ensures { result ≡ spec.rest_of tail }
{
    match tail {
        Tail::One => None,
        Tail::Two | Tail::LongTwo | Tail::NoSurrogate => Some(Tail::One),
        Tail::Three | Tail::LongThree | Tail::LastThree => Some(Tail::Two),
    }
}
