//! Runs the bodies of tasks.
#![tactic(auto)]

pub mod crossing;
mod job;
pub mod laws;

pub use job::{BodyJob, Finished, Reduction, run_body};
