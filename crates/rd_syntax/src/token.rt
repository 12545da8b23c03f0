ghost use Rattle.std.specs.Prelude.{◌≡◌, IfOk};

use rd_base::{Copies, Items, OutOfMemory, Text};
use std::alloc::Global;

/// What a token is.
#[derive(Clone, Copy, Debug, PartialEq, Eq, Hash)]
pub enum TokenKind {
    Name,
    Reserved,
    Int,
    Text,
    Sign,
    Newline,
    Indent,
    Dedent,
    End,
}

/// Offsets of bytes in the source, a byte order mark counted.
#[derive(Clone, Copy, Debug, PartialEq, Eq, Hash)]
pub struct Span {
    pub start: u32,
    pub end: u32,
}

#[derive(PartialEq, Eq, Hash, Drop)]
pub struct Token {
    pub kind: TokenKind,
    /// The spelling of a name, a reserved word, a number or a sign, and the value of a text. Empty for the other kinds.
    pub text: Text,
    pub span: Span,
    /// The line of the first character, the first line being 1.
    pub line: u32,
}

pub type Tokens = Items<Token>;

impl Copies for Token {
    fn copy(&self, alloc: Global) -> Result<Token, OutOfMemory> {
        Ok(Token {
            kind: self.kind,
            text: self.text.copy(alloc)?,
            span: self.span,
            line: self.line,
        })
    }
}
