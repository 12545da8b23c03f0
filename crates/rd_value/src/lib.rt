//! Values and expressions.
#![tactic(auto)]

pub mod book;
pub mod class;
mod compare;
pub mod crossing;
mod depth;
pub mod erasure;
pub mod error;
pub mod expr;
mod expr_depth;
mod expr_size;
pub mod failure;
pub mod lawful;
pub mod limits;
pub mod make;
pub mod operators;
pub mod raise;
pub mod repr;
pub mod same;
pub mod signature;
mod size;
#[cfg(test)]
mod tests;
mod truth;
pub mod value;
