//! The rules of names.
#![tactic(auto)]

mod known;
mod locals;
mod names;
mod options;
mod refusal;
mod repeats;
mod special;
mod spelling;
mod uses;

pub use names::{check_names, first_namespace};
pub use options::full_name;
pub use refusal::RegisterError;
pub use special::special_named;
pub use spelling::is_name;

#[cfg(test)]
mod tests;
