use crate::Bytes;
use crate::digest::Digest;

/// What stands at a path.
#[derive(Clone, Copy, Debug, PartialEq, Eq)]
pub enum Seen {
    Absent,
    /// A file of more than 16,777,216 bytes.
    Long,
    /// A file whose bytes have this SHA-256.
    Held(Digest),
}

/// Two different byte strings under one digest.
#[derive(Debug, Drop)]
pub struct Collision {
    pub digest: Digest,
    pub kept: Bytes,
    pub offered: Bytes,
}
