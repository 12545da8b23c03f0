//! Whole sources.

ghost use Rattle.std.specs.Prelude.{◌≡◌, ℕ, List, IfOk};
ghost use Rattle.rd_syntax.specs.Sources.{IfRefused, IsOrMemory};
ghost use Rattle.rd_tree.specs.declared.tree.Module.{Module};
ghost use Rattle.rd_names.specs.Refusals.{told};
ghost use Rattle.rd_registry.specs.Registry.{Registers};
ghost use Rattle.rd_top.specs.Source.{IsRefused, IsWorkflow, refusal_of, tree_read};

use rd_names::RegisterError;
use rd_parse::parse;
use rd_registry::{Registry, register};
use rd_syntax::{SourceError, lex};
use rd_tree::Module;
use std::alloc::Global;

/// A module whose names keep the rules, and its tasks.
#[derive(Drop)]
pub struct Workflow {
    pub tree: Module,
    pub registry: Registry,
}

/// The refusal for a name, at its line.
fn refusal(error: RegisterError) -> SourceError
    ensures { result ≡ refusal_of (told error) }
{
    match error {
        RegisterError::UnknownName { line }
        | RegisterError::DoubleName { line }
        | RegisterError::BadOption { line } => SourceError::Refused { line },
        RegisterError::OutOfMemory => SourceError::OutOfMemory,
    }
}

/// The workflow of a source.
pub fn read_source(alloc: Global, source: &[u8]) -> Result<Workflow, SourceError>
    // What is read is the source's module, whose names keep the rules.
    ensures found { IfOk result (λ w. IsWorkflow source.now w.tree) }

    // Its tasks are the module's.
    ensures registered { IfOk result (λ w. Registers w.tree w.registry) }

    // A source that has such a module has it read, unless memory runs out.
    ensures only { (m : Module) → IsWorkflow source.now m → IsOrMemory (tree_read result) m }

    // A refusal is at the line of the tokens, of the grammar or of the names.
    ensures line { IfRefused result (λ line. IsRefused source.now line) }
{
    let tokens = lex(alloc, source)?;
    let tree = parse(alloc, &tokens)?;
    match register(alloc, &tree) {
        Ok(registry) => Ok(Workflow { tree, registry }),
        Err(error) => Err(refusal(error)),
    }
}

/// A source has at most one module whose names keep the rules.
pub fn one_module()
    ensures { (source : List ℕ) (m n : Module) → IsWorkflow source m → IsWorkflow source n → m ≡ n }
{}
