//! How names are spelled.

ghost use Rattle.std.specs.Prelude.{◌≡◌};
ghost use Rattle.std.specs.List.{list_all};
ghost use Rattle.rd_names.specs.Spelling as spec;

use rd_syntax::is_reserved;

fn begins_name(byte: u8) -> bool
    ensures { result ≡ spec.begins_name byte }
{
    (b'a' <= byte && byte <= b'z') || (b'A' <= byte && byte <= b'Z') || byte == b'_'
}

fn continues_name(byte: u8) -> bool
    ensures { result ≡ spec.continues_name byte }
{
    begins_name(byte) || (b'0' <= byte && byte <= b'9')
}

fn has_start(text: &[u8]) -> bool
    ensures { result ≡ spec.has_start text.now }
{
    match text {
        [first, ..] => begins_name(*first),
        [] => false,
    }
}

fn has_name_bytes(text: &str) -> bool
    ensures { result ≡ list_all spec.continues_name text.now }
{
    text.as_bytes().iter().all(|byte| continues_name(*byte))
}

/// Whether the text is a NAME.
pub fn is_name(text: &str) -> bool
    ensures { result ≡ spec.is_name text.now }
{
    has_start(text.as_bytes()) && has_name_bytes(text) && !is_reserved(text)
}

/// Whether the text is NAMEs joined by dots.
pub(crate) fn is_dotted(text: &str) -> bool
    ensures { result ≡ spec.is_dotted text.now }
{
    text.split('.').all(|part| is_name(part))
}
