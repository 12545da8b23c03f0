ghost use Rattle.std.specs.Prelude.{◌≡◌, ◌==◌, true, false, IfOk};
ghost use Rattle.std.specs.List.{list_all};
ghost use Rattle.std.specs.Cmp.Lexicographic.{pointwise};
ghost use Rattle.std.proofs.Common.{rules};
ghost use Rattle.std.specs.Cmp.Rules.{comparing, hashing};
ghost use Rattle.std.specs.Hash as fed;
ghost use Rattle.rd_base.specs.Path as spec;
ghost use Rattle.rd_base.specs.Path.{is_path};

use crate::copies::Copies;
use crate::memory::OutOfMemory;
use crate::text::Text;
use std::alloc::Global;
use std::hash::{Hash, Hasher};
use std::marker::Model;

/// The greatest number of bytes of a path.
pub const LONGEST: usize = 1024;

/// A lawful path, which contracts see as the list of its bytes.
///
/// It is relative, has 1 to 1,024 bytes, no control character and no part that is empty, `.` or `..`,
/// and doesn't lie in the program's own folder `.redun`.
#[derive(Debug, Drop)]
pub struct Path {
    text: Text,
}

impl Model for Path {
    ghost use Rattle.std.specs.Prelude.{◌≡◌, ℕ, List, true};
    ghost use Rattle.rd_base.specs.Path.{is_path};

    ghost Value = { List ℕ };

    ghost view = { λ p. p.text };

    ghost invariant = { λ p. is_path p.text ≡ true };
}

/// Why a text is made no path.
#[derive(Clone, Copy, Debug, PartialEq, Eq)]
pub enum PathError {
    PathRefused,
    OutOfMemory,
}

fn has_plain_bytes(text: &str) -> bool
    ensures { result ≡ list_all spec.is_plain text.now }
{
    text.as_bytes()
        .iter()
        .all(|byte| 32 <= *byte && *byte != 127)
}

fn is_name(part: &str) -> bool
    ensures { result ≡ spec.is_name part.now }
{
    !part.is_empty() && part != "." && part != ".."
}

fn has_names(text: &str) -> bool
    ensures { result ≡ list_all spec.is_name (spec.parts text.now) }
{
    text.split('/').all(|part| is_name(part))
}

fn is_own(text: &str) -> bool
    ensures { result ≡ spec.is_own text.now }
{
    text == ".redun" || text.starts_with(".redun/")
}

fn is_lawful(text: &str) -> bool
    ensures { result ≡ is_path text.now }
{
    !text.is_empty()
        && text.len() <= LONGEST
        && has_plain_bytes(text)
        && has_names(text)
        && !is_own(text)
}

impl Path {
    pub fn new(alloc: Global, text: &str) -> Result<Path, PathError>
        ensures ok { IfOk result (λ p. p ≡ text.now) }
        ensures refused { is_path text.now ≡ false → result ≡ Err PathError.PathRefused }
        ensures lawful { result ≡ Err PathError.PathRefused → is_path text.now ≡ false }
    {
        if !is_lawful(text) {
            return Err(PathError::PathRefused);
        }
        match Text::from_str(alloc, text) {
            Ok(text) => Ok(Path { text }),
            Err(OutOfMemory) => Err(PathError::OutOfMemory),
        }
    }

    pub fn as_str(&self) -> &str
        ensures value { result.now ≡ self.now }
        ensures lawful { is_path self.now ≡ true }
    {
        self.text.as_str()
    }
}

impl Copies for Path {
    fn copy(&self, alloc: Global) -> Result<Path, OutOfMemory> {
        let text = self.text.copy(alloc)?;
        Ok(Path { text })
    }
}

impl PartialEq for Path {
    ghost eq = { pointwise ◌==◌ };

    ghost laws = { Prim.search (comparing, rules) };

    fn eq(&self, other: &Path) -> bool {
        self.text == other.text
    }
}

impl Eq for Path {
    ghost laws = { Prim.search (comparing, rules) };
}

impl Hash for Path {
    ghost hash_input = { fed.str };

    ghost respects_eq = { Prim.search (hashing, rules) };

    fn hash<H: Hasher>(&self, state: &mut H) {
        self.text.hash(state);
    }
}
