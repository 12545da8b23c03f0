//! The trees of sources.
#![tactic(auto)]

mod tree;

pub use tree::{
    Block, Comparison, Function, Module, Name, Node, Operator, Parameter, Statement, TaskOption,
};
