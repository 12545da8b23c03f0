//! Import lines, of which nothing is kept. `depth` is how many levels may be open.

ghost use Rattle.std.specs.Prelude.{◌≡◌};
ghost use Rattle.rd_parse.specs.declared.terminal.Terminal.TheVariants as w;
ghost use Rattle.rd_parse.specs.Reader.{hits};
ghost use Rattle.rd_parse.specs.Noting.{read_past};
ghost use Rattle.rd_parse.specs.Terminal.{is};
ghost use Rattle.rd_parse.specs.Gives.{Gives};
ghost use Rattle.rd_parse.specs.ModuleReading.{read_another_name, read_import_line, read_names, read_names_behind, read_names_in, read_part_of_path, read_path};

use crate::annotation::Behind;
use crate::take::{after, begins_with, expect, open, this_word};
use crate::terminal::Terminal;
use rd_syntax::Token;

#[tactic(auto, unfolding(crate::specs::ModuleReading::read_part_of_path))]
fn part_of_path<'a>(tokens: &'a [Token]) -> Behind<'a>
    ensures { Gives (λ r. (tt, r.now)) result (read_part_of_path tokens.now) }
{
    let rest = expect(tokens, Terminal::Dot)?;
    expect(rest, Terminal::Name)
}

#[tactic(auto, unfolding(crate::specs::ModuleReading::read_path))]
fn path<'a>(tokens: &'a [Token]) -> Behind<'a>
    ensures { Gives (λ r. (tt, r.now)) result (read_path tokens.now) }
{
    let mut rest = tokens;
    while begins_with(rest, Terminal::Dot) {
        rest = part_of_path(rest)?;
    }
    Ok(rest)
}

#[tactic(auto, unfolding(crate::specs::ModuleReading::read_another_name))]
fn another_name<'a>(tokens: &'a [Token]) -> Behind<'a>
    ensures { Gives (λ r. (tt, r.now)) result (read_another_name tokens.now) }
{
    let rest = expect(tokens, Terminal::Comma)?;
    expect(rest, Terminal::Name)
}

fn other_names<'a>(tokens: &'a [Token]) -> Behind<'a>
    ensures { Gives (λ r. (tt, r.now)) result (read_past (hits (is w.Comma)) read_another_name tokens.now) }
{
    let mut rest = tokens;
    while begins_with(rest, Terminal::Comma) {
        rest = another_name(rest)?;
    }
    Ok(rest)
}

#[tactic(auto, unfolding(crate::specs::ModuleReading::read_names))]
fn names<'a>(tokens: &'a [Token]) -> Behind<'a>
    ensures { Gives (λ r. (tt, r.now)) result (read_names tokens.now) }
{
    let rest = expect(tokens, Terminal::Name)?;
    other_names(rest)
}

/// The names behind the first one in brackets. A comma may end them.
#[tactic(auto, unfolding(crate::specs::ModuleReading::read_names_behind))]
fn names_behind<'a>(tokens: &'a [Token]) -> Behind<'a>
    ensures { Gives (λ r. (tt, r.now)) result (read_names_behind tokens.now) }
{
    let mut rest = tokens;
    while let Some(behind) = after(rest, Terminal::Comma) {
        if !begins_with(behind, Terminal::Name) {
            return Ok(behind);
        }
        rest = expect(behind, Terminal::Name)?;
    }
    Ok(rest)
}

#[tactic(auto, unfolding(crate::specs::ModuleReading::read_names_in))]
fn names_in<'a>(depth: usize, tokens: &'a [Token]) -> Behind<'a>
    ensures { Gives (λ r. (tt, r.now)) result (read_names_in depth tokens.now) }
{
    let rest = open(depth, tokens, Terminal::LeftParen)?;
    let rest = expect(rest, Terminal::Name)?;
    let rest = names_behind(rest)?;
    expect(rest, Terminal::RightParen)
}

#[tactic(auto, unfolding(crate::specs::ModuleReading::read_import_line))]
pub fn import_line<'a>(depth: usize, tokens: &'a [Token]) -> Behind<'a>
    ensures { Gives (λ r. (tt, r.now)) result (read_import_line depth tokens.now) }
{
    let rest = expect(tokens, Terminal::From)?;
    let rest = this_word(rest, "redun")?;
    let rest = path(rest)?;
    let rest = expect(rest, Terminal::Import)?;
    let rest = if begins_with(rest, Terminal::Name) {
        names(rest)?
    } else {
        names_in(depth, rest)?
    };
    expect(rest, Terminal::Newline)
}
