//! Statements, and the blocks of them. `depth` is how many levels may be open.

ghost use Rattle.std.specs.Prelude.{◌≡◌};
ghost use Rattle.rd_parse.specs.Gives.{Gives};
ghost use Rattle.rd_parse.specs.StatementReading.{read_a_block, read_behind_colon, read_commands};

mod blocks;
mod simple;

use crate::expression::Read;
use crate::halt::Halt;
use blocks::Body;
use rd_base::Items;
use rd_syntax::Token;
use rd_tree::{Name, Statement};
use std::alloc::Global;

type Command = Statement<Name>;

/// What stands behind a colon.
fn commands<'a>(
    alloc: Global,
    depth: usize,
    tokens: &'a [Token],
) -> Result<(Items<Command>, &'a [Token]), Halt<'a>>
    ensures { Gives (λ x. (x.0, x.1.now)) result (read_commands depth (read_behind_colon depth) tokens.now) }
{
    let body = Body {
        alloc,
        read: self::commands,
    };
    body.commands(depth, tokens)
}

/// A colon and the statements behind it.
pub fn block<'a>(alloc: Global, depth: usize, tokens: &'a [Token]) -> Read<'a, Items<Command>>
    ensures { Gives (λ x. (x.0, x.1.now)) result (read_a_block depth tokens.now) }
{
    let body = Body {
        alloc,
        read: self::commands,
    };
    body.block(depth, tokens)
}
