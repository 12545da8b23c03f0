//! Rows with bytes that don't stand in a text, or that nobody sees there.

use std::alloc::Global;

/// The byte that the part behind a backslash begins with, and the rest.
fn escape(part: &str) -> Option<(u8, &str)> {
    if let Some(rest) = part.strip_prefix('n') {
        return Some((b'\n', rest));
    }
    if let Some(rest) = part.strip_prefix('r') {
        return Some((b'\r', rest));
    }
    if let Some(rest) = part.strip_prefix('t') {
        return Some((b'\t', rest));
    }
    let (digits, rest) = part.strip_prefix('x')?.split_at_checked(2)?;
    Some((u8::from_str_radix(digits, 16).ok()?, rest))
}

/// The bytes of a row. Each backslash begins an escape.
pub fn unescaped(alloc: Global, row: &str) -> Option<Vec<u8>> {
    let mut parts = row.split('\\');
    let mut bytes = Vec::from_slice(alloc, parts.next()?.as_bytes()).ok()?;
    for part in parts {
        let (byte, rest) = escape(part)?;
        bytes.push(byte).ok()?;
        bytes.extend_from_slice(rest.as_bytes()).ok()?;
    }
    Some(bytes)
}
