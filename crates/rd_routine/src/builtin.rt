//! The functions that every module has.

/// A function of the language.
#[derive(Clone, Copy, Debug, PartialEq, Eq)]
pub enum Builtin {
    Len,
    Str,
    Int,
    Range,
    Sum,
    Min,
    Max,
    Sorted,
    Abs,
}
