//! The tasks of a module, with their code.
#![tactic(auto)]

mod code;
mod functions;
pub mod laws;
mod reach;
mod registry;
mod task;
mod tree;

pub use registry::{Registry, register};
pub use task::TaskId;
