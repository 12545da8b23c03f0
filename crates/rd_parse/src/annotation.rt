//! Annotations, of which nothing is kept. `depth` is how many levels may be open.

ghost use Rattle.std.specs.Prelude.{◌≡◌, ◌<◌};
ghost use Rattle.rd_parse.specs.declared.terminal.Terminal.TheVariants as w;
ghost use Rattle.rd_parse.specs.Reader.{hits};
ghost use Rattle.rd_parse.specs.Noting.{read_past};
ghost use Rattle.rd_parse.specs.Terminal.{is};
ghost use Rattle.rd_parse.specs.Gives.{Gives};
ghost use Rattle.rd_parse.specs.StatementReading.{read_annotated, read_annotation, read_another, read_another_part, read_dotted_name, read_inner_annotation, read_kind, read_long_name, read_of_kinds, read_others, read_union_part};

use crate::halt::Halt;
use crate::take::{begins_with, expect, open};
use crate::terminal::Terminal;
use rd_syntax::Token;

/// What stands behind what was read.
pub type Behind<'a> = Result<&'a [Token], Halt<'a>>;

#[tactic(auto, unfolding(crate::specs::StatementReading::read_dotted_name))]
fn dotted_name<'a>(tokens: &'a [Token]) -> Behind<'a>
    ensures { Gives (λ r. (tt, r.now)) result (read_dotted_name tokens.now) }
{
    let rest = expect(tokens, Terminal::Dot)?;
    expect(rest, Terminal::Name)
}

fn dotted_names<'a>(tokens: &'a [Token]) -> Behind<'a>
    ensures { Gives (λ r. (tt, r.now)) result (read_past (hits (is w.Dot)) read_dotted_name tokens.now) }
{
    let mut rest = tokens;
    while begins_with(rest, Terminal::Dot) {
        rest = dotted_name(rest)?;
    }
    Ok(rest)
}

#[tactic(auto, unfolding(crate::specs::StatementReading::read_long_name))]
fn long_name<'a>(tokens: &'a [Token]) -> Behind<'a>
    ensures { Gives (λ r. (tt, r.now)) result (read_long_name tokens.now) }
{
    let rest = expect(tokens, Terminal::Name)?;
    dotted_names(rest)
}

#[tactic(auto, unfolding(crate::specs::StatementReading::read_kind))]
fn kind<'a>(tokens: &'a [Token]) -> Behind<'a>
    ensures { Gives (λ r. (tt, r.now)) result (read_kind tokens.now) }
{
    if begins_with(tokens, Terminal::Name) {
        return long_name(tokens);
    }
    if begins_with(tokens, Terminal::Nothing) {
        return expect(tokens, Terminal::Nothing);
    }
    expect(tokens, Terminal::Text)
}

/// An annotation.
#[cycle(annotation)]
#[tactic(auto, unfolding(crate::specs::StatementReading::read_union))]
pub fn annotation<'a>(depth: usize, tokens: &'a [Token]) -> Behind<'a>
    ensures { Gives (λ r. (tt, r.now)) result (read_annotation depth tokens.now) }
{
    let rest = union_part(depth, tokens)?;
    parts_behind(depth, rest)
}

#[cycle(annotation)]
fn parts_behind<'a>(depth: usize, tokens: &'a [Token]) -> Behind<'a>
    ensures { Gives (λ r. (tt, r.now)) result (read_past (hits (is w.Bar)) (read_another_part depth (read_inner_annotation depth)) tokens.now) }
{
    let mut rest = tokens;
    while begins_with(rest, Terminal::Bar) {
        rest = another_part(depth, rest)?;
    }
    Ok(rest)
}

#[cycle(annotation)]
#[tactic(auto, unfolding(crate::specs::StatementReading::read_another_part))]
fn another_part<'a>(depth: usize, tokens: &'a [Token]) -> Behind<'a>
    ensures { Gives (λ r. (tt, r.now)) result (read_another_part depth (read_inner_annotation depth) tokens.now) }
{
    let rest = expect(tokens, Terminal::Bar)?;
    union_part(depth, rest)
}

#[cycle(annotation)]
#[tactic(auto, unfolding(crate::specs::StatementReading::read_union_part))]
fn union_part<'a>(depth: usize, tokens: &'a [Token]) -> Behind<'a>
    ensures { Gives (λ r. (tt, r.now)) result (read_union_part depth (read_inner_annotation depth) tokens.now) }
{
    let rest = kind(tokens)?;
    if begins_with(rest, Terminal::LeftSquare) {
        return of_kinds(depth, rest);
    }
    Ok(rest)
}

/// Annotations in brackets.
#[cycle(annotation)]
#[tactic(auto, unfolding(crate::specs::StatementReading::read_of_kinds))]
fn of_kinds<'a>(depth: usize, tokens: &'a [Token]) -> Behind<'a>
    ensures { Gives (λ r. (tt, r.now)) result (read_of_kinds depth (read_inner_annotation depth) tokens.now) }
{
    let rest = open(depth, tokens, Terminal::LeftSquare)?;
    let rest = nested(depth, rest)?;
    let rest = others(depth, rest)?;
    expect(rest, Terminal::RightSquare)
}

#[cycle(annotation)]
#[tactic(auto, unfolding(crate::specs::StatementReading::read_others))]
fn others<'a>(depth: usize, tokens: &'a [Token]) -> Behind<'a>
    requires { 0 < depth }
    ensures { Gives (λ r. (tt, r.now)) result (read_others depth (read_inner_annotation depth) tokens.now) }
{
    let mut rest = tokens;
    while begins_with(rest, Terminal::Comma) {
        rest = another(depth, rest)?;
    }
    Ok(rest)
}

#[cycle(annotation)]
#[tactic(auto, unfolding(crate::specs::StatementReading::read_another))]
fn another<'a>(depth: usize, tokens: &'a [Token]) -> Behind<'a>
    requires { 0 < depth }
    ensures { Gives (λ r. (tt, r.now)) result (read_another depth (read_inner_annotation depth) tokens.now) }
{
    let rest = expect(tokens, Terminal::Comma)?;
    nested(depth, rest)
}

/// An annotation one level further in.
#[cycle(annotation)]
#[tactic(auto, using(crate::proofs::InnerAnnotation::annotation_below))]
fn nested<'a>(depth: usize, tokens: &'a [Token]) -> Behind<'a>
    requires { 0 < depth }
    ensures { Gives (λ r. (tt, r.now)) result (read_inner_annotation depth tokens.now) }
{
    annotation(depth - 1, tokens)
}

/// What may stand behind a name: a colon and an annotation.
#[tactic(auto, unfolding(crate::specs::StatementReading::read_annotated))]
pub fn annotated<'a>(depth: usize, tokens: &'a [Token]) -> Behind<'a>
    ensures { Gives (λ r. (tt, r.now)) result (read_annotated depth tokens.now) }
{
    if !begins_with(tokens, Terminal::Colon) {
        return Ok(tokens);
    }
    let rest = expect(tokens, Terminal::Colon)?;
    annotation(depth, rest)
}
