//! The words of a command line.

ghost use Rattle.std.specs.Prelude.{◌≡◌, ◌≢◌, ◌⊎◌, ◌∷◌, ◌↔◌, ℕ, List, IfOk, IsTrue, MatchOption, map, string_bytes};
ghost use Rattle.std.specs.List.{AllPairs, AllZip};
ghost use Rattle.rd_top.specs.Command.{AreArguments, Argument, IsArgument, IsOperand, IsRun, Means, names_of};

mod arguments;

use crate::command::arguments::arguments;
use rd_base::{OutOfMemory, Path, PathError, Text};
use rd_meaning::NamedValues;
use std::alloc::Global;

/// A run of a task in a file.
#[derive(Drop)]
pub struct Command {
    pub file: Path,
    pub task: Text,
    pub arguments: NamedValues,
}

fn is_operand(word: &str) -> bool
    ensures { IsTrue result ↔ IsOperand word.now }
{
    word == "-" || !word.starts_with('-')
}

/// The command that the words ask for, where they ask for one.
pub fn read_command(alloc: Global, words: &[String]) -> Result<Option<Command>, OutOfMemory>
    ensures { IfOk result (λ asked. MatchOption asked
        ((file task : List ℕ) (given : List Argument) → IsRun (map string_bytes words.now) file task given → ⊥)
        (λ command. IsRun (map string_bytes words.now) command.file command.task command.arguments)) }
{
    match words {
        [run, file, task, more @ ..] => {
            if run.as_str() != "run"
                || !is_operand(file.as_str())
                || !is_operand(task.as_str())
                || task.as_str().is_empty()
            {
                return Ok(None);
            }
            let Some(arguments) = arguments(alloc, more)? else {
                return Ok(None);
            };
            match Path::new(alloc, file.as_str()) {
                Ok(file) => Ok(Some(Command {
                    file,
                    task: Text::from_str(alloc, task.as_str())?,
                    arguments,
                })),
                Err(PathError::PathRefused) => Ok(None),
                Err(PathError::OutOfMemory) => Err(OutOfMemory),
            }
        }
        _ => Ok(None),
    }
}
