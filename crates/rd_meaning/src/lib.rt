//! The operators on values and the expansions of expressions, each equal to its definition.
#![tactic(auto)]

mod apply;
mod binding;
mod divide;
mod expand;
pub mod index;
mod number;
mod order;
mod repeat;
mod step;
#[cfg(test)]
mod tests;

pub use apply::{apply_op, binary, unary};
pub use binding::{NamedValues, bind};
pub use expand::{expand_catch, expand_map};
pub use step::StepError;
