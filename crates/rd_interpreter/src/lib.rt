//! Runs the body of a task.
#![tactic(auto)]

mod binding;
mod builtins;
mod display;
mod draft;
mod frame;
mod halt;
mod held;
mod making;
pub mod method;
mod methods;
mod operation;
mod run;
mod scope;
mod template;
mod texts;
mod turns;

pub use run::{Reduced, reduce};
