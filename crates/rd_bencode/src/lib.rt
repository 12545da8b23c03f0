//! Canonical bytes: one spelling of each value, expression and record, and their SHA-256.
#![tactic(auto)]

mod blob;
mod canonical;
mod form;
mod kind;
pub mod laws;
mod read;
mod record;
mod write;

pub use blob::{digest_bytes, digest_of, wrap};
pub use canonical::is_canonical;
pub use form::laws::{one_item_in_front, written_is_one_item};
pub use form::{is_task_form, task_name, unwrap_kind};
pub use kind::Kind;
pub use read::args::read_args;
pub use read::children::read_children;
pub use read::error::ReadError;
pub use read::execution::read_execution;
pub use read::expr::read_expr;
pub use read::footprint::read_footprint;
pub use read::value::read_value;
pub use read::writes::read_writes;
pub use record::{
    CallKey, CallKeys, Ending, Execution, Footprint, Job, JobState, Jobs, NamedDigests,
    PathDigests, SeenPaths,
};
pub use write::expr::write_expr;
pub use write::record::{
    write_args, write_children, write_execution, write_footprint, write_writes,
};
pub use write::string::push_text;
pub use write::value::{push_value, write_value};
