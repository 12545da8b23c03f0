//! Numbers and byte strings, as BEP 3 writes them.

ghost use Rattle.std.specs.Prelude.{◌≡◌, ◌++◌, OnOk, codes};
ghost use Rattle.std.specs.Fmt.{signed_decimal};
ghost use Rattle.rd_value.specs.Canon.{string};
ghost use Rattle.rd_bencode.specs.Records.{number, digest_string};

use itoa::Buffer;
use rd_base::{Digest, OutOfMemory};

/// Adds a byte string.
pub(crate) fn push_string(out: &mut Vec<u8>, bytes: &[u8]) -> Result<(), OutOfMemory>
    ensures { OnOk result (out.new.items ≡ out.old.items ++ string bytes.now) }
{
    let length = bytes.len();
    out.extend_from_slice(Buffer::new().format(length).as_bytes())?;
    out.push(b':')?;
    out.extend_from_slice(bytes)?;
    Ok(())
}

/// Adds a text.
pub fn push_text(out: &mut Vec<u8>, text: &str) -> Result<(), OutOfMemory>
    ensures { OnOk result (out.new.items ≡ out.old.items ++ string text.now) }
{
    push_string(out, text.as_bytes())
}

/// Adds a digest.
pub(crate) fn push_digest(out: &mut Vec<u8>, digest: &Digest) -> Result<(), OutOfMemory>
    ensures { OnOk result (out.new.items ≡ out.old.items ++ digest_string digest.now) }
{
    push_string(out, &digest.0)
}

/// Adds a number.
pub(crate) fn push_number(out: &mut Vec<u8>, n: u64) -> Result<(), OutOfMemory>
    ensures { OnOk result (out.new.items ≡ out.old.items ++ number n) }
{
    out.push(b'i')?;
    out.extend_from_slice(Buffer::new().format(n).as_bytes())?;
    out.push(b'e')?;
    Ok(())
}

/// Adds a number that may be below 0.
pub(crate) fn push_signed(out: &mut Vec<u8>, n: i64) -> Result<(), OutOfMemory>
    ensures { OnOk result (out.new.items ≡ out.old.items ++ (codes "i" ++ signed_decimal n ++ codes "e")) }
{
    out.push(b'i')?;
    out.extend_from_slice(Buffer::new().format(n).as_bytes())?;
    out.push(b'e')?;
    Ok(())
}
