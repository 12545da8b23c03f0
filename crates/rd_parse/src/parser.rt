//! From tokens to modules.

ghost use Rattle.std.specs.Prelude.{◌≡◌, IfOk, List};
ghost use Rattle.rd_syntax.specs.Sources.{IfRefused, IsOrMemory};
ghost use Rattle.rd_syntax.specs.declared.source.SourceError.TheVariants.{Refused};
ghost use Rattle.rd_syntax.specs.declared.token.Token.{Token};
ghost use Rattle.rd_parse.specs.Modules.{IsModule};
ghost use Rattle.rd_parse.specs.Refusals.{RefusedAt, last_line, line_at};
ghost use Rattle.rd_tree.specs.declared.tree.Module.{Module};

use crate::halt::Halt;
use crate::module::whole;
use crate::take::MAX_NESTING;
use rd_syntax::{SourceError, Token, Tokens};
use rd_tree::Module;
use std::alloc::Global;

/// The line of the last token, or the first line where there is no token.
fn last_line(tokens: &[Token]) -> u32
    ensures { result ≡ last_line tokens.now }
{
    match tokens.last() {
        Some(token) => token.line,
        None => 1,
    }
}

/// The refusal at the first of the tokens left.
fn refusal(all: &[Token], left: &[Token]) -> SourceError
    ensures { result ≡ Refused (line_at all.now left.now) }
{
    match left.split_first() {
        Some((token, _)) => SourceError::Refused { line: token.line },
        None => SourceError::Refused {
            line: last_line(all),
        },
    }
}

/// The module that the tokens spell.
pub fn parse(alloc: Global, tokens: &Tokens) -> Result<Module, SourceError>
    // The tokens spell the module.
    ensures found { IfOk result (λ m. IsModule tokens.now m) }

    // A module that the tokens spell is read, unless memory runs out.
    ensures only { (m : Module) → IsModule tokens.now m → IsOrMemory result m }

    // A refusal is at the line of the first token that no module's tokens go on with, or that opens a level too many.
    ensures line { IfRefused result (λ line. RefusedAt tokens.now line) }
{
    let all = tokens.as_slice();
    match whole(alloc, MAX_NESTING, all) {
        Ok((module, rest)) => {
            if rest.is_empty() {
                Ok(module)
            } else {
                Err(refusal(all, rest))
            }
        }
        Err(Halt::Memory) => Err(SourceError::OutOfMemory),
        Err(Halt::Refused(rest)) => Err(refusal(all, rest)),
        Err(Halt::Deep(rest)) => Err(refusal(all, rest)),
    }
}

/// Tokens spell at most one module.
pub fn one_module()
    ensures { (tokens : List Token) (m n : Module) → IsModule tokens m → IsModule tokens n → m ≡ n }
{}
