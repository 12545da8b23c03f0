//! Readers of canonical bytes, with the place of the item at which reading stops.

mod above;
pub mod args;
pub mod children;
pub(crate) mod digests;
pub mod error;
pub mod execution;
pub mod expr;
pub mod footprint;
mod item;
mod meaning;
mod spot;
pub mod value;
mod whole;
pub mod writes;
