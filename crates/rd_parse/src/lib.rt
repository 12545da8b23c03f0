//! From tokens to trees.
#![tactic(auto)]

mod annotation;
mod expression;
mod function;
mod halt;
mod import;
mod literal;
mod module;
mod parser;
mod statement;
mod take;
mod terminal;
mod texts;

pub use halt::Halt;
pub use literal::{one_literal, parse_literal};
pub use parser::{one_module, parse};
pub use rd_code::{Helper, Helpers, NamedUse, NamedUses, TaskCode, UseKind};
pub use rd_tree::{Block, Module};
pub use take::MAX_NESTING;
