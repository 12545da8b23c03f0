//! The code of tasks, as it is written and with numbers in the place of names.
#![tactic(auto)]

mod code;
mod firsts;
mod known;
mod mention;
mod named;
mod numbering;
mod renaming;

pub use code::TaskCode;
pub use firsts::put_first;
pub use known::{built_in, class_named};
pub use mention::{Mention, Role, mentions_of};
pub use named::{Helper, Helpers, NamedUse, NamedUses, UseKind};
pub use renaming::{Renaming, renamed_block};
