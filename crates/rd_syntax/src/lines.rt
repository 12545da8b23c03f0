//! Lines, blocks and the source's end.

ghost use Rattle.std.specs.Prelude.{◌≡◌, ◌≤◌, ◌-◌, ◌++◌, [], ◌∷◌, length, take, OnOk};
ghost use Rattle.rd_syntax.specs.Machine as spec;
ghost use Rattle.rd_syntax.specs.Layout as layout;
ghost use Rattle.rd_syntax.specs.Outcome.{Becomes, IsSmall};
ghost use Rattle.rd_syntax.specs.declared.token.TokenKind.TheVariants as TokenKind;

use crate::layout::{Place, Position};
use crate::lexer::{Lexer, Stop};
use crate::token::{Token, TokenKind};
use rd_base::{OutOfMemory, Text};
use std::alloc::Global;

impl Lexer {
    /// Appends a token of no bytes.
    fn push_mark(&mut self, alloc: Global, kind: TokenKind, line: u32) -> Result<(), OutOfMemory>
        ensures { OnOk result (self.new ≡ record self.old { tokens = self.old.tokens ++ layout.mark_at kind line self.old.here ∷ [] }) }
    {
        self.tokens.push(
            alloc,
            Token {
                kind,
                text: Text::from_str(alloc, "")?,
                span: self.here.to(self.here),
                line,
            },
        )
    }

    /// Appends the token of a line's end.
    fn push_newline(
        &mut self,
        alloc: Global,
        from: Position,
        behind: Position,
    ) -> Result<(), OutOfMemory>
        ensures { OnOk result (self.new ≡ record self.old { tokens = self.old.tokens ++ layout.mark TokenKind.Newline from behind ∷ [] }) }
    {
        self.tokens.push(
            alloc,
            Token {
                kind: TokenKind::Newline,
                text: Text::from_str(alloc, "")?,
                span: from.to(behind),
                line: from.line,
            },
        )
    }

    /// Closes the blocks behind the first `kept`, with a token each.
    fn close_blocks(&mut self, alloc: Global, kept: usize, line: u32) -> Result<(), OutOfMemory>
        requires { kept ≤ length self.old.stack }
        ensures { OnOk result (self.new ≡ record self.old { stack = take kept self.old.stack; tokens = self.old.tokens ++ layout.dedents (length self.old.stack - kept) line self.old.here }) }
    {
        let deeper = self.stack.len() - kept;
        for _closed in 0..deeper {
            self.push_mark(alloc, TokenKind::Dedent, line)?;
        }
        self.stack.close(kept);
        Ok(())
    }

    /// Opens or closes blocks for a line whose first token stands in this column.
    #[tactic(auto, unfolding(crate::specs::Layout::line_at))]
    fn open_line(&mut self, alloc: Global, column: u32) -> Result<(), Stop>
        ensures { Becomes result self.new (spec.entered_lexer self.old (layout.line_at column self.old.stack self.old.here)) }
    {
        let kept = self.stack.kept(column);
        if self.stack.top(kept) == column {
            self.close_blocks(alloc, kept, self.here.line)?;
            Ok(())
        } else if kept == self.stack.len() {
            self.push_mark(alloc, TokenKind::Indent, self.here.line)?;
            self.stack.open(column)?;
            Ok(())
        } else {
            Err(Stop::Refused)
        }
    }

    /// What a token's first byte does to the blocks.
    pub(crate) fn enter(&mut self, alloc: Global) -> Result<(), Stop>
        ensures { Becomes result self.new (spec.entered_lexer self.old (layout.enter (spec.spot self.old))) }
    {
        match self.place {
            Place::Inside { .. } => Ok(()),
            Place::Before { from } if self.here.at == from => Ok(()),
            Place::Before { .. } | Place::Start { tab: true, .. } => Err(Stop::Refused),
            Place::Start { from, tab: false } => {
                self.open_line(alloc, self.here.at.saturating_sub(from))
            }
        }
    }

    /// A line's end, which began at `from`.
    pub(crate) fn end_line(
        &mut self,
        alloc: Global,
        from: Position,
        byte: u8,
    ) -> Result<(), OutOfMemory>
        requires { IsSmall self.old.here (layout.depth_of self.old.place) }
        ensures { OnOk result (self.new ≡ spec.end_line from self.old byte) }
    {
        let behind = self.here.next(byte);
        if let Place::Inside { depth: 0 } = self.place {
            self.push_newline(alloc, from, behind)?;
        }
        self.place = self.place.past_line(behind);
        Ok(())
    }

    /// The tokens at the source's end.
    pub(crate) fn end(&mut self, alloc: Global) -> Result<(), Stop>
        ensures { Becomes result self.new (spec.ended_lexer self.old (layout.ending (spec.spot self.old))) }
    {
        let line = self.here.last;
        match self.place {
            Place::Before { .. } | Place::Start { .. } => {}
            Place::Inside { depth: 0 } => self.push_mark(alloc, TokenKind::Newline, line)?,
            Place::Inside { .. } => return Err(Stop::Refused),
        }
        self.close_blocks(alloc, 0, line)?;
        self.push_mark(alloc, TokenKind::End, line)?;
        Ok(())
    }
}
