//! What stands in quotes.

ghost use Rattle.std.specs.Prelude.{◌≡◌, ◌<◌, false, OnOk, encode_utf8};
ghost use Rattle.std.specs.Str.{IsUtf8};
ghost use Rattle.rd_syntax.specs.Machine as spec;
ghost use Rattle.rd_syntax.specs.Layout as layout;
ghost use Rattle.rd_syntax.specs.declared.lexer.Mode.TheVariants as Mode;
ghost use Rattle.rd_syntax.specs.Outcome.{Gives, IsSmall};

use crate::class::{Class, Quote, class_of, escape_of, hex_of};
use crate::lexer::{Lexer, Mode, Stop};
use crate::token::TokenKind;
use crate::utf8::{Tail, follows, lead_of, rest_of};
use rd_base::OutOfMemory;
use std::alloc::Global;

impl Lexer {
    /// Appends the character of this number to what the token holds.
    fn push_character(&mut self, alloc: Global, code: u8) -> Result<(), OutOfMemory>
        ensures { OnOk result (self.new ≡ spec.written self.old (encode_utf8 code)) }
    {
        if code < 0x80 {
            return self.text.push(alloc, code);
        }
        self.text.push(alloc, 0xC0 + code / 64)?;
        self.text.push(alloc, 0x80 + code % 64)?;
        Ok(())
    }

    /// Inside a text.
    pub(crate) fn in_quoted(
        &mut self,
        alloc: Global,
        quote: Quote,
        long: bool,
        class: Class,
        byte: u8,
    ) -> Result<Mode, Stop>
        requires small { IsSmall self.old.here (layout.depth_of self.old.place) }
        requires utf8 { long ≡ false → IsUtf8 self.old.text }
        ensures { Gives result self.new (spec.quoted_step quote long class self.old byte) }
    {
        let inside = Mode::Quoted { quote, long };
        match class {
            Class::Quote(_) if byte == quote.byte() => {
                if long {
                    return Ok(Mode::SeenOne { quote });
                }
                self.end_piece(alloc, TokenKind::Text, self.here.next(byte))?;
                Ok(Mode::Between)
            }
            Class::Backslash => Ok(Mode::Escape { quote, long }),
            Class::Feed if long => self.push_byte(alloc, b'\n', inside),
            Class::Return if long => Ok(Mode::QuotedReturn { quote, long }),
            Class::Feed | Class::Return => Err(Stop::Refused),
            Class::High => match lead_of(byte) {
                Some(tail) => self.push_byte(alloc, byte, Mode::QuotedTail { quote, long, tail }),
                None => Err(Stop::Refused),
            },
            _ => self.push_byte(alloc, byte, inside),
        }
    }

    /// Behind one quote.
    pub(crate) fn in_opened(&mut self, alloc: Global, quote: Quote, byte: u8) -> Result<Mode, Stop>
        requires small { IsSmall self.old.here (layout.depth_of self.old.place) }
        requires utf8 { IsUtf8 self.old.text }
        ensures { Gives result self.new (spec.step_in (Mode.Opened quote) self.old byte) }
    {
        if byte == quote.byte() {
            return Ok(Mode::Twice { quote });
        }
        self.in_quoted(alloc, quote, false, class_of(byte), byte)
    }

    /// Behind two quotes: an empty text, or the begin of a long one.
    pub(crate) fn in_twice(&mut self, alloc: Global, quote: Quote, byte: u8) -> Result<Mode, Stop>
        requires small { IsSmall self.old.here (layout.depth_of self.old.place) }
        requires utf8 { IsUtf8 self.old.text }
        ensures { Gives result self.new (spec.step_in (Mode.Twice quote) self.old byte) }
    {
        if byte == quote.byte() {
            return Ok(Mode::Quoted { quote, long: true });
        }
        self.end_piece(alloc, TokenKind::Text, self.here)?;
        self.begin(alloc, class_of(byte), byte)
    }

    /// Behind one quote in a long text.
    pub(crate) fn in_seen_one(
        &mut self,
        alloc: Global,
        quote: Quote,
        byte: u8,
    ) -> Result<Mode, Stop>
        requires { IsSmall self.old.here (layout.depth_of self.old.place) }
        ensures { Gives result self.new (spec.step_in (Mode.SeenOne quote) self.old byte) }
    {
        if byte == quote.byte() {
            return Ok(Mode::SeenTwo { quote });
        }
        self.text.push(alloc, quote.byte())?;
        self.in_quoted(alloc, quote, true, class_of(byte), byte)
    }

    /// Behind two quotes in a long text.
    pub(crate) fn in_seen_two(
        &mut self,
        alloc: Global,
        quote: Quote,
        byte: u8,
    ) -> Result<Mode, Stop>
        requires small { IsSmall self.old.here (layout.depth_of self.old.place) }
        requires utf8 { IsUtf8 self.old.text }
        ensures { Gives result self.new (spec.step_in (Mode.SeenTwo quote) self.old byte) }
    {
        if byte == quote.byte() {
            self.end_piece(alloc, TokenKind::Text, self.here.next(byte))?;
            return Ok(Mode::Between);
        }
        self.text.push(alloc, quote.byte())?;
        self.text.push(alloc, quote.byte())?;
        self.in_quoted(alloc, quote, true, class_of(byte), byte)
    }

    /// Behind a carriage return in a long text.
    pub(crate) fn in_quoted_return(
        &mut self,
        alloc: Global,
        quote: Quote,
        long: bool,
        class: Class,
    ) -> Result<Mode, Stop>
        ensures { Gives result self.new (spec.quoted_return_step quote long class self.old) }
    {
        match class {
            Class::Feed => self.push_byte(alloc, b'\n', Mode::Quoted { quote, long }),
            _ => Err(Stop::Refused),
        }
    }

    /// Behind a backslash.
    pub(crate) fn in_escape(
        &mut self,
        alloc: Global,
        quote: Quote,
        long: bool,
        byte: u8,
    ) -> Result<Mode, Stop>
        ensures { Gives result self.new (spec.step_in (Mode.Escape quote long) self.old byte) }
    {
        match escape_of(byte) {
            Some(meant) => self.push_byte(alloc, meant, Mode::Quoted { quote, long }),
            None if byte == b'x' => Ok(Mode::Hex { quote, long }),
            None => Err(Stop::Refused),
        }
    }

    /// Behind a backslash and `x`.
    pub(crate) fn in_hex(&mut self, quote: Quote, long: bool, byte: u8) -> Result<Mode, Stop>
        ensures { Gives result self.new (spec.step_in (Mode.Hex quote long) self.old byte) }
    {
        match hex_of(byte) {
            Some(high) => Ok(Mode::HexDigit { quote, long, high }),
            None => Err(Stop::Refused),
        }
    }

    /// Behind a backslash, `x` and a digit.
    pub(crate) fn in_hex_digit(
        &mut self,
        alloc: Global,
        quote: Quote,
        long: bool,
        high: u8,
        byte: u8,
    ) -> Result<Mode, Stop>
        requires { high < 16 }
        ensures { Gives result self.new (spec.step_in (Mode.HexDigit quote long high) self.old byte) }
    {
        match hex_of(byte) {
            Some(low) => {
                self.push_character(alloc, 16 * high + low)?;
                Ok(Mode::Quoted { quote, long })
            }
            None => Err(Stop::Refused),
        }
    }

    /// Inside a character past ASCII.
    pub(crate) fn in_quoted_tail(
        &mut self,
        alloc: Global,
        quote: Quote,
        long: bool,
        tail: Tail,
        byte: u8,
    ) -> Result<Mode, Stop>
        ensures { Gives result self.new (spec.step_in (Mode.QuotedTail quote long tail) self.old byte) }
    {
        if !follows(tail, byte) {
            return Err(Stop::Refused);
        }
        let mode = match rest_of(tail) {
            Some(tail) => Mode::QuotedTail { quote, long, tail },
            None => Mode::Quoted { quote, long },
        };
        self.push_byte(alloc, byte, mode)
    }
}
