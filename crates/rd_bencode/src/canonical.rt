//! Which structures are canonical.

ghost use Rattle.std.specs.Prelude.{◌↔◌, IsTrue, IfOk};
ghost use Rattle.rd_bencode.specs.Canonical.{IsCanonical, TellsRead};

use crate::form::is_task_form;
use crate::kind::Kind;
use crate::read::args::read_args;
use crate::read::children::read_children;
use crate::read::digests::read_digests;
use crate::read::error::ReadError;
use crate::read::execution::read_execution;
use crate::read::expr::read_expr;
use crate::read::footprint::read_footprint;
use crate::read::value::read_value;
use crate::read::writes::read_writes;
use rd_base::OutOfMemory;
use std::alloc::Global;

/// Whether something was read.
fn is_read<T: Drop>(read: Result<T, ReadError>) -> Result<bool, OutOfMemory>
    ensures { IfOk result (λ told. TellsRead read told) }
{
    match read {
        Ok(_) => Ok(true),
        Err(ReadError::NotCanonical { .. }) => Ok(false),
        Err(ReadError::OutOfMemory) => Err(OutOfMemory),
    }
}

/// Whether a structure is canonical for its kind.
pub fn is_canonical(alloc: Global, kind: Kind, structure: &[u8]) -> Result<bool, OutOfMemory>
    ensures { IfOk result (λ told. IsTrue told ↔ IsCanonical kind structure.now) }
{
    match kind {
        Kind::Task => Ok(is_task_form(structure)),
        Kind::Args => is_read(read_args(alloc, structure)),
        Kind::Value => is_read(read_value(alloc, structure)),
        Kind::Expr => is_read(read_expr(alloc, structure)),
        Kind::Writes => is_read(read_writes(alloc, structure)),
        Kind::Children => is_read(read_children(alloc, structure)),
        Kind::Footprint => is_read(read_footprint(alloc, structure)),
        Kind::Evaluation => is_read(read_digests(alloc, 4, structure)),
        Kind::Call => is_read(read_digests(alloc, 5, structure)),
        Kind::Execution => is_read(read_execution(alloc, structure)),
    }
}
