//! The structure of a task: canonical bytes that say what its code is.
#![tactic(auto)]

pub mod laws;
mod node;
mod statement;
mod structure;

pub use structure::write_structure;
