//! The tokens of a source.
#![tactic(auto)]

mod class;
mod layout;
mod lexer;
mod lines;
mod source;
mod texts;
mod token;
mod utf8;
mod words;

pub use source::{MAX_SOURCE, SourceError, lex};
pub use token::{Span, Token, TokenKind, Tokens};
pub use words::is_reserved;

#[cfg(test)]
mod tests;
