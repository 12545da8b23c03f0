//! Writers of canonical bytes.

pub mod expr;
pub mod record;
pub(crate) mod string;
pub mod value;
