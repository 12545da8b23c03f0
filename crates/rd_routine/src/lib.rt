//! Functions with numbers in the place of names.
#![tactic(auto)]

mod builtin;
mod routine;
mod special;

pub use builtin::Builtin;
pub use routine::{Callee, Parameter, Routine, Slot, Word};
pub use special::{Form, Special, form_of};
