//! What a loop goes through, item by item.

ghost use Rattle.rd_interpreter.specs.Source.{Begins};

mod begin;
pub mod source;

pub use crate::turns::begin::through;
use crate::turns::source::Source;
use rd_base::OutOfMemory;
use rd_value::expr::Expr;
use std::alloc::Global;

/// What is gone through, and the place of the next item: its number, or its first byte in a text.
#[derive(Drop)]
pub struct Turns {
    pub source: Source,
    pub place: usize,
    pub ghost begins: { Begins source place },
}

impl Turns {
    ghost use Rattle.std.specs.Prelude.{◌≡◌, IfOk};
    ghost use Rattle.rd_interpreter.specs.Source.{left_of};
    ghost use Rattle.rd_interpreter.specs.Turns.{LeftAre, left};

    /// Begins at the first item.
    #[tactic(auto, unfolding(crate::specs::Turns::left))]
    pub fn begun(source: Source) -> Turns
        ensures { left result ≡ left_of source 0 }
    {
        Turns { source, place: 0 }
    }

    /// The next item.
    #[tactic(auto, unfolding(crate::specs::Turns::left))]
    pub fn next(&mut self, alloc: Global) -> Result<Option<Expr>, OutOfMemory>
        ensures { IfOk result (LeftAre (left self.old) (left self.new)) }
    {
        match self.source.item(alloc, self.place)? {
            Some((item, behind)) => {
                self.place = behind;
                Ok(Some(item))
            }
            None => Ok(None),
        }
    }
}
