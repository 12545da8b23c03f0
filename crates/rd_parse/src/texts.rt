//! Texts that stand beside each other are one.

ghost use Rattle.std.specs.Prelude.{◌≡◌, string_bytes};
ghost use Rattle.rd_parse.specs.Reader.{hits, sees};
ghost use Rattle.rd_parse.specs.Terminal.{text_of};
ghost use Rattle.rd_parse.specs.Gives.{Gives};
ghost use Rattle.rd_parse.specs.Reading.{read_more_texts, read_texts};

use crate::halt::Halt;
use crate::take::text;
use crate::terminal::{Terminal, terminal_of};
use rd_base::Text;
use rd_syntax::Token;
use std::alloc::Global;

pub fn begins_text(tokens: &[Token]) -> bool
    ensures { result ≡ sees (hits text_of) tokens.now }
{
    match tokens.split_first() {
        Some((token, _)) => matches!(terminal_of(token), Terminal::Text),
        None => false,
    }
}

/// The texts behind one that was read, joined to it.
fn more_texts<'a>(
    alloc: Global,
    first: String,
    tokens: &'a [Token],
) -> Result<(Text, &'a [Token]), Halt<'a>>
    ensures { Gives (λ x. (x.0, x.1.now)) result (read_more_texts (string_bytes first) tokens.now) }
{
    let mut all = first;
    let mut rest = tokens;
    while begins_text(rest) {
        let (next, after) = text(alloc, rest)?;
        all.push_str(next.as_str())?;
        rest = after;
    }
    Ok((Text::from_string(alloc, all)?, rest))
}

#[tactic(auto, unfolding(crate::specs::Reading::read_texts))]
pub fn texts<'a>(alloc: Global, tokens: &'a [Token]) -> Result<(Text, &'a [Token]), Halt<'a>>
    ensures { Gives (λ x. (x.0, x.1.now)) result (read_texts tokens.now) }
{
    let (first, rest) = text(alloc, tokens)?;
    let first = String::from_str(alloc, first.as_str())?;
    more_texts(alloc, first, rest)
}
