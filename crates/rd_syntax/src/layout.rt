ghost use Rattle.std.specs.Prelude.{◌≡◌, ◌<◌, ◌≤◌, ◌++◌, [], ◌∷◌, length, take, OnOk};
ghost use Rattle.rd_syntax.specs.Layout as layout;

use crate::class::{is_close, is_open};
use crate::token::Span;
use rd_base::OutOfMemory;
use std::alloc::Global;
use std::marker::Model;

/// A place in the source: how many bytes stand before it, the line of the byte there, and the line of the byte before it.
#[derive(Clone, Copy, Debug)]
pub(crate) struct Position {
    pub(crate) at: u32,
    pub(crate) line: u32,
    pub(crate) last: u32,
}

impl Position {
    /// The place behind this byte.
    pub(crate) fn next(self, byte: u8) -> Position
        requires at { self.at < 4294967295 }
        requires line { self.line < 4294967295 }
        ensures { result ≡ layout.next self byte }
    {
        Position {
            at: self.at + 1,
            line: if byte == b'\n' {
                self.line + 1
            } else {
                self.line
            },
            last: self.line,
        }
    }

    pub(crate) fn to(self, end: Position) -> Span
        ensures { result ≡ layout.between self end }
    {
        Span {
            start: self.at,
            end: end.at,
        }
    }
}

/// Where a line has come to.
#[derive(Clone, Copy, Debug)]
pub(crate) enum Place {
    /// No token stands before, and the line began here.
    Before { from: u32 },
    /// Only spaces and tabs stand before, from the line's start on.
    Start { from: u32, tab: bool },
    /// Behind a token, with so many brackets open.
    Inside { depth: u32 },
}

impl Place {
    /// Behind a space or a tab.
    pub(crate) fn past_space(self, tab: bool) -> Place
        ensures { result ≡ layout.past_space tab self }
    {
        match self {
            Place::Start { from, tab: before } => Place::Start {
                from,
                tab: tab || before,
            },
            place => place,
        }
    }

    /// Behind a line's end.
    pub(crate) fn past_line(self, behind: Position) -> Place
        ensures { result ≡ layout.past_line self behind }
    {
        match self {
            Place::Before { .. } => Place::Before { from: behind.at },
            Place::Inside { depth } if depth > 0 => self,
            _ => Place::Start {
                from: behind.at,
                tab: false,
            },
        }
    }

    /// How many brackets are open.
    pub(crate) fn depth(self) -> u32
        ensures { result ≡ layout.depth_of self }
    {
        match self {
            Place::Inside { depth } => depth,
            Place::Before { .. } | Place::Start { .. } => 0,
        }
    }
}

/// How many brackets are open behind a sign.
pub(crate) fn past_sign(sign: &[u8], depth: u32) -> u32
    requires { depth < 4294967295 }
    ensures { result ≡ layout.past_sign sign.now depth }
{
    match sign.first() {
        Some(first) if is_open(*first) => depth + 1,
        Some(first) if is_close(*first) => depth.saturating_sub(1),
        _ => depth,
    }
}

/// The columns of the open blocks, from the outermost on.
#[derive(Drop)]
pub(crate) struct Blocks {
    columns: Vec<u32>,
}

impl Model for Blocks {
    ghost use Rattle.std.specs.Prelude.{ℕ, List};

    ghost Value = { List ℕ };

    ghost view = { λ blocks. blocks.columns.items };
}

impl Blocks {
    pub(crate) fn new(alloc: Global) -> Blocks
        ensures { result ≡ [] }
    {
        Blocks {
            columns: Vec::new(alloc),
        }
    }

    pub(crate) fn len(&self) -> usize
        ensures { result ≡ length self.now }
    {
        self.columns.len()
    }

    pub(crate) fn open(&mut self, column: u32) -> Result<(), OutOfMemory>
        ensures { OnOk result (self.new ≡ self.old ++ column ∷ []) }
    {
        self.columns.push(column)?;
        Ok(())
    }

    /// Closes the blocks behind the first `kept`.
    pub(crate) fn close(&mut self, kept: usize)
        ensures { self.new ≡ take kept self.old }
    {
        self.columns.truncate(kept);
    }

    /// How many of the blocks, from the outermost on, are no deeper than this column.
    pub(crate) fn kept(&self, column: u32) -> usize
        ensures value { result ≡ layout.kept_of column self.now }
        ensures within { result ≤ length self.now }
    {
        self.columns.iter().take_while(|x| **x <= column).count()
    }

    /// The column of the last of the first `kept` blocks.
    pub(crate) fn top(&self, kept: usize) -> u32
        requires { kept ≤ length self.now }
        ensures { result ≡ layout.top_of kept self.now }
    {
        if kept == 0 { 0 } else { self.columns[kept - 1] }
    }
}
