ghost use Rattle.std.specs.Prelude.{◌≡◌, IfOk};

use crate::class::Class;
use rd_base::{Copies, Digest, Items, OutOfMemory, Path, Text};
use std::alloc::Global;

/// An error as a value: what `catch` hands to the task that recovers.
#[derive(PartialEq, Eq, Hash, Drop)]
pub struct ErrorValue {
    pub class: Class,
    pub text: Text,
}

/// A file as a value: its path, and the SHA-256 of its bytes.
#[derive(PartialEq, Eq, Hash, Drop)]
pub struct FileValue {
    pub path: Path,
    pub digest: Digest,
}

/// A value, whose files carry an `F`: a digest in the program, their text in the definitions.
#[derive(PartialEq, Eq, Hash, Drop)]
pub enum Datum<F> {
    Nothing,
    Bool(bool),
    Int(i64),
    Text(Text),
    List(Items<Datum<F>>),
    /// Keys and values in the order of insertion.
    Dict(Items<(Datum<F>, Datum<F>)>),
    File(F),
    Error(ErrorValue),
}

pub type Value = Datum<FileValue>;

pub type Values = Items<Value>;

/// What an operation comes to where memory is left.
pub type Answer = Result<Value, ErrorValue>;

/// The keys and values of a dict.
pub type Pairs = Items<(Value, Value)>;

impl Copies for ErrorValue {
    fn copy(&self, alloc: Global) -> Result<ErrorValue, OutOfMemory> {
        Ok(ErrorValue {
            class: self.class,
            text: self.text.copy(alloc)?,
        })
    }
}

impl Copies for FileValue {
    fn copy(&self, alloc: Global) -> Result<FileValue, OutOfMemory> {
        Ok(FileValue {
            path: self.path.copy(alloc)?,
            digest: self.digest,
        })
    }
}

impl<F: Copies> Copies for Datum<F> {
    fn copy(&self, alloc: Global) -> Result<Datum<F>, OutOfMemory> {
        match self {
            Datum::Nothing => Ok(Datum::Nothing),
            Datum::Bool(b) => Ok(Datum::Bool(*b)),
            Datum::Int(n) => Ok(Datum::Int(*n)),
            Datum::Text(t) => Ok(Datum::Text(t.copy(alloc)?)),
            Datum::List(items) => Ok(Datum::List(items.copy(alloc)?)),
            Datum::Dict(pairs) => Ok(Datum::Dict(pairs.copy(alloc)?)),
            Datum::File(f) => Ok(Datum::File(f.copy(alloc)?)),
            Datum::Error(e) => Ok(Datum::Error(e.copy(alloc)?)),
        }
    }
}
