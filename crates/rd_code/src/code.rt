//! The code of a task.

ghost use Rattle.std.specs.Prelude.{◌≡◌, IfOk, map};
ghost use Rattle.rd_code.specs.Numbering as spec;

use crate::named::{Helpers, NamedUses};
use crate::numbering::{numbered, numbered_helpers, words_of};
use rd_base::{Items, OutOfMemory, Text};
use rd_routine::Routine;
use rd_tree::Block;
use rd_value::signature::Signature;
use std::alloc::Global;

/// The code of a task: what its body and the helpers that it reaches are, and what each name is that isn't local there.
#[derive(PartialEq, Eq, Drop)]
pub struct TaskCode {
    pub full_name: Text,
    pub signature: Signature,
    pub body: Block,
    /// The helpers that are reached, ascending by name in byte order.
    pub helpers: Helpers,
    /// The names that are used and aren't local, ascending in byte order.
    pub names: NamedUses,
    routine: Routine,
    routines: Items<Routine>,
    ghost numbered: { routine ≡ spec.numbered (spec.word_in helpers names) signature.parameters body },
    ghost all_numbered: { routines ≡ map (spec.numbered_helper (spec.word_in helpers names)) helpers },
}

impl TaskCode {
    /// The code of a task with these parts. Its names are numbered once, here.
    pub fn new(
        alloc: Global,
        full_name: Text,
        signature: Signature,
        body: Block,
        helpers: Helpers,
        names: NamedUses,
    ) -> Result<TaskCode, OutOfMemory>
        ensures name { IfOk result (λ code. code.full_name ≡ full_name) }
        ensures signature { IfOk result (λ code. code.signature ≡ signature) }
        ensures body { IfOk result (λ code. code.body ≡ body) }
        ensures helpers { IfOk result (λ code. code.helpers ≡ helpers) }
        ensures names { IfOk result (λ code. code.names ≡ names) }
    {
        let words = words_of(alloc, helpers.as_slice(), names.as_slice())?;
        let routine = numbered(
            alloc,
            &words,
            signature.parameters.as_slice(),
            body.as_slice(),
        )?;
        let routines = numbered_helpers(alloc, &words, helpers.as_slice())?;
        Ok(TaskCode {
            full_name,
            signature,
            body,
            helpers,
            names,
            routine,
            routines,
        })
    }

    /// The body with numbers in the place of names.
    pub fn routine(&self) -> &Routine
        ensures { let code = self.now in result.now ≡ spec.numbered (spec.word_in code.helpers code.names) code.signature.parameters code.body }
    {
        &self.routine
    }

    /// The helpers with numbers in the place of names.
    pub fn routines(&self) -> &[Routine]
        ensures { let code = self.now in result.now ≡ map (spec.numbered_helper (spec.word_in code.helpers code.names)) code.helpers }
    {
        self.routines.as_slice()
    }
}
