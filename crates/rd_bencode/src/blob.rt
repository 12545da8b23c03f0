//! Blobs: what is kept under a digest.

ghost use Rattle.std.specs.Prelude.{◌≡◌, IfOk};
ghost use Rattle.sha2.specs.Sha256.{sha256};
ghost use Rattle.rd_bencode.specs.Blob.{blob};

use crate::kind::Kind;
use crate::write::string::push_text;
use itoa::Buffer;
use rd_base::{Bytes, OutOfMemory};
use sha2::{Digest, Sha256};
use std::alloc::Global;

/// The blob of a structure: the list of the kind's text and the structure.
pub fn wrap(alloc: Global, kind: Kind, structure: &[u8]) -> Result<Bytes, OutOfMemory>
    ensures { IfOk result (λ bytes. bytes ≡ blob kind structure.now) }
{
    let mut out = Vec::new(alloc);
    out.push(b'l')?;
    push_text(&mut out, kind.text())?;
    out.extend_from_slice(structure)?;
    out.push(b'e')?;
    Bytes::from_vec(alloc, out)
}

/// The SHA-256 of FIPS 180-4.
pub fn digest_bytes(bytes: &[u8]) -> rd_base::Digest
    ensures { result.0 ≡ sha256 bytes.now }
{
    rd_base::Digest(Sha256::digest(bytes))
}

/// The SHA-256 of the blob of a structure.
pub fn digest_of(kind: Kind, structure: &[u8]) -> rd_base::Digest
    ensures { result.0 ≡ sha256 (blob kind structure.now) }
{
    let text = kind.text();
    let length = text.len();
    let mut hasher = Sha256::new();
    hasher.update(b"l");
    hasher.update(Buffer::new().format(length).as_bytes());
    hasher.update(b":");
    hasher.update(text.as_bytes());
    hasher.update(structure);
    hasher.update(b"e");
    rd_base::Digest(hasher.finalize())
}
