//! A text that is being made, within the limits of a value.

ghost use Rattle.std.specs.Prelude.{◌≡◌, [], Option, None, Some, IsTrue, IfOk, OnOk};
ghost use Rattle.std.specs.Option.{option_map};
ghost use Rattle.rd_value.specs.declared.value.Datum.TheVariants as value;
ghost use Rattle.rd_interpreter.specs.Draft.{added};

use rd_base::{OutOfMemory, Text};
use rd_value::limits::MAX_SIZE;
use std::alloc::Global;
use std::marker::Model;

/// A text that is being made. One that is longer than every value is forgotten.
#[derive(Drop)]
pub struct Draft {
    text: String,
    is_long: bool,
}

impl Model for Draft {
    ghost use Rattle.std.specs.Prelude.{ℕ, List, Option, None, Some, if◌then◌else◌, string_bytes};

    ghost Value = { Option (List ℕ) };

    ghost view = { λ d. if d.is_long then None else Some (string_bytes d.text) };
}

impl Draft {
    pub fn new(alloc: Global) -> Draft
        ensures { result ≡ Some [] }
    {
        Draft {
            text: String::new(alloc),
            is_long: false,
        }
    }

    /// Adds a text at the end.
    #[tactic(auto, unfolding(crate::specs::Draft::bounded))]
    pub fn push(&mut self, text: &str) -> Result<(), OutOfMemory>
        ensures { OnOk result (self.new ≡ added self.old text.now) }
    {
        if self.is_long {
            return Ok(());
        }
        if self.text.len().saturating_add(text.len()) > MAX_SIZE as usize {
            self.is_long = true;
            return Ok(());
        }
        self.text.push_str(text)?;
        Ok(())
    }

    /// More isn't added.
    pub fn is_long(&self) -> bool
        ensures { IsTrue result → self.now ≡ None }
    {
        self.is_long
    }

    /// The text, unless it is too long.
    pub fn finish(self, alloc: Global) -> Result<Option<Text>, OutOfMemory>
        ensures { IfOk result (λ text. text ≡ self) }
    {
        let Draft { text, is_long } = self;
        if is_long {
            return Ok(None);
        }
        Ok(Some(Text::from_string(alloc, text)?))
    }
}
