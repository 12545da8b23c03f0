//! The call that the program makes.

ghost use Rattle.std.specs.Prelude.{◌≡◌, ◌≢◌, ◌⊎◌, ◌++◌, pos, Ok, IfOk, OnOk, map, string_bytes};
ghost use Rattle.rd_base.specs.Sink.{added};
ghost use Rattle.rd_base.specs.Causes.{Rose};
ghost use Rattle.rd_value.specs.Repr.{repr};
ghost use Rattle.rd_value.specs.declared.value.Datum.TheVariants.{Int};
ghost use Rattle.rd_value.specs.declared.expr.Lazy.TheVariants.{Val};
ghost use Rattle.rd_tree.specs.declared.tree.Module.{Module};
ghost use Rattle.rd_registry.specs.Registry.{Registers};
ghost use Rattle.rd_registry.specs.Words.{find_word};
ghost use Rattle.rd_top.specs.Running.{own};
ghost use Rattle.rd_top.specs.declared.serial.Ending.TheVariants.{SourceRefused};
ghost use Rattle.rd_top.specs.Arguments.{HoldNoFiles};
ghost use Rattle.rd_top.specs.Answered.{OfModule, OfText, Comes, Answers, Written, Answered, Completes};
ghost use Rattle.rd_top.specs.Printed.{PrintedIsFresh, line_of, status_of};
ghost use Rattle.rd_top.specs.Shown as shown;

use crate::command::read_command;
use crate::disk::{Disk, DiskError, Found};
use crate::evaluate::{Stop, evaluate};
use crate::print::print;
use crate::shown::{push_failure, push_value};
use crate::source::read_source;
use rd_base::{Copies, Items, OutOfMemory, Sink, SinkFailed, Status, Text};
use rd_registry::Registry;
use rd_syntax::SourceError;
use rd_tree::Module;
use rd_value::expr::{Expr, NamedExprs};
use rd_value::failure::Outcome;
use rd_value::repr::push_repr;
use rd_value::value::Value;
use std::alloc::Global;

/// What a command came to, before anything is printed.
#[derive(Drop)]
pub enum Ending {
    Outcome(Outcome),
    WordsRefused,
    /// At this line.
    SourceRefused(u32),
    DiskUnavailable,
    TooLarge,
    NotFound(Text),
}

/// The arguments of the root expression.
fn root_arguments(alloc: Global, arguments: &[(Text, Value)]) -> Result<NamedExprs, OutOfMemory>
    ensures { IfOk result (λ named. named ≡ map (λ a. (a.0, Val a.1)) arguments.now) }
{
    let mut named = Items::new(alloc);
    for (name, value) in arguments {
        named.push(alloc, (name.copy(alloc)?, Expr::Val(value.copy(alloc)?)))?;
    }
    Ok(named)
}

/// The full name of the task that a word names.
fn task_named(alloc: Global, registry: &Registry, word: &Text) -> Result<Option<Text>, OutOfMemory>
    ensures { (m : Module) → Registers m registry.now → IfOk result (λ name. name ≡ find_word m word.now) }
{
    match registry.find_word(word) {
        Some(task) => Ok(Some(Text::from_str(alloc, registry.full_name(task))?)),
        None => Ok(None),
    }
}

/// Evaluates the task of a module that a word names, called with the arguments.
fn run_task(
    alloc: Global,
    module: &Module,
    registry: &Registry,
    word: &Text,
    arguments: &[(Text, Value)],
) -> Result<Ending, OutOfMemory>
    requires registered { Registers «module».now registry.now }
    requires no_files { HoldNoFiles arguments.now }
    ensures { IfOk result (OfModule «module».now word.now arguments.now) }
{
    let Some(task) = task_named(alloc, registry, word)? else {
        return Ok(Ending::NotFound(word.copy(alloc)?));
    };
    let root = Expr::Call {
        task,
        positional: Items::new(alloc),
        keywords: root_arguments(alloc, arguments)?,
    };
    if !root.within() {
        return Ok(Ending::WordsRefused);
    }
    match evaluate(alloc, module, registry, &root) {
        Ok(outcome) => Ok(Ending::Outcome(outcome)),
        Err(Stop::TooLarge) => Ok(Ending::TooLarge),
        Err(Stop::OutOfMemory) => Err(OutOfMemory),
    }
}

fn run_source(
    alloc: Global,
    source: &[u8],
    word: &Text,
    arguments: &[(Text, Value)],
) -> Result<Ending, OutOfMemory>
    requires { HoldNoFiles arguments.now }
    ensures { IfOk result (OfText source.now word.now arguments.now) }
{
    match read_source(alloc, source) {
        Ok(workflow) => run_task(alloc, &workflow.tree, &workflow.registry, word, arguments),
        Err(SourceError::Refused { line }) => Ok(Ending::SourceRefused(line)),
        Err(SourceError::OutOfMemory) => Err(OutOfMemory),
    }
}

fn run<D: Disk>(alloc: Global, words: &[String], disk: &mut D) -> Result<Ending, OutOfMemory>
    ensures comes { IfOk result (Comes (map string_bytes words.now) (D.files disk.old)) }
    ensures cause { result ≡ Ok Ending.DiskUnavailable → Rose (D.faults disk.old) (D.faults disk.new) }
    ensures files { D.files disk.new ≡ D.files disk.old }
{
    let command = match read_command(alloc, words)? {
        Some(command) => command,
        None => return Ok(Ending::WordsRefused),
    };
    match disk.read(alloc, &command.file) {
        Ok(Found::Bytes(source)) => run_source(
            alloc,
            source.as_slice(),
            &command.task,
            command.arguments.as_slice(),
        ),
        Ok(Found::Long) => Ok(Ending::SourceRefused(1)),
        Ok(Found::Absent) => Ok(Ending::NotFound(Text::from_str(alloc, command.file.as_str())?)),
        Err(DiskError::Failed) => Ok(Ending::DiskUnavailable),
        Err(DiskError::OutOfMemory) => Err(OutOfMemory),
    }
}

fn push_words(line: &mut String, text: &str, word: &str) -> Result<(), OutOfMemory>
    ensures { OnOk result (string_bytes line.new ≡ string_bytes line.old ++ shown.line (text.now ++ word.now)) }
{
    line.push_str(text)?;
    line.push_str(word)?;
    line.push_str("\n")?;
    Ok(())
}

fn push_number(line: &mut String, number: u32) -> Result<(), OutOfMemory>
    ensures { OnOk result (string_bytes line.new ≡ string_bytes line.old ++ repr own (Int (pos number))) }
{
    let value = Value::Int(i64::from(number));
    let pushed = push_repr(line, &value);
    drop(value);
    pushed
}

fn push_refusal(line: &mut String, number: u32) -> Result<(), OutOfMemory>
    ensures { OnOk result (string_bytes line.new ≡ string_bytes line.old ++ line_of (SourceRefused number)) }
{
    line.push_str("source refused at line ")?;
    push_number(line, number)?;
    line.push_str("\n")?;
    Ok(())
}

fn push_line(line: &mut String, ending: &Ending) -> Result<(), OutOfMemory>
    ensures { OnOk result (string_bytes line.new ≡ string_bytes line.old ++ line_of ending.now) }
{
    match ending {
        Ending::Outcome(Outcome::Value(value)) => push_value(line, value),
        Ending::Outcome(Outcome::Failed(failure)) => push_failure(line, failure),
        Ending::WordsRefused => push_words(line, "words refused", ""),
        Ending::SourceRefused(number) => push_refusal(line, *number),
        Ending::DiskUnavailable => push_words(line, "disk unavailable", ""),
        Ending::TooLarge => push_words(line, "too large", ""),
        Ending::NotFound(word) => push_words(line, "not found: ", word.as_str()),
    }
}

fn status(ending: &Ending) -> Status
    ensures { result ≡ status_of ending.now }
{
    match ending {
        Ending::Outcome(Outcome::Value(_)) => Status::Done,
        Ending::Outcome(Outcome::Failed(_)) => Status::WorkflowError,
        Ending::WordsRefused => Status::WordsRefused,
        Ending::SourceRefused(line) => Status::SourceRefused { line: *line },
        Ending::DiskUnavailable => Status::DiskUnavailable,
        Ending::TooLarge => Status::TooLarge,
        Ending::NotFound(_) => Status::NotFound,
    }
}

/// The status of a command, and the line that it prints.
fn answer<D: Disk>(
    alloc: Global,
    words: &[String],
    disk: &mut D,
) -> Result<(Status, String), OutOfMemory>
    ensures answered { IfOk result (λ r. Answers (map string_bytes words.now) (D.files disk.old) r.0 (string_bytes r.1)) }
    ensures cause { IfOk result (λ r. r.0 ≡ Status.DiskUnavailable → Rose (D.faults disk.old) (D.faults disk.new)) }
    ensures never_output { IfOk result (λ r. r.0 ≢ Status.OutputFailed) }
    ensures files { D.files disk.new ≡ D.files disk.old }
{
    let ending = run(alloc, words, disk)?;
    let mut line = String::new(alloc);
    push_line(&mut line, &ending)?;
    Ok((status(&ending), line))
}

/// Prints a line, and gives its status where all of it was written.
fn end<S: Sink>(out: &mut S, line: &str, status: Status) -> Status
    ensures written { Written status line.now result (S.written out.old) (S.written out.new) }
    ensures cause { result ≡ Status.OutputFailed → status ≢ Status.OutputFailed → Rose (S.faults out.old) (S.faults out.new) }
{
    match print(out, line) {
        Ok(()) => status,
        Err(SinkFailed) => Status::OutputFailed,
    }
}

/// Runs the task of a workflow's file: `run FILE TASK [NAME=VALUE]..` prints its value or its error.
///
/// FILE is a lawful path, TASK has one byte or more, and neither begins with `-`, except `-` itself. Each NAME is a name
/// of the language and there once. A VALUE is the literal that it spells, and else its own text.
/// Statuses: 0 and 1 for a value and an error of the workflow, 2 for other words, 3 for a file that is no source, 5 where
/// the disk failed, 6 for want of memory, 7 for an evaluation past its limits, 10 where the sink failed,
/// 11 where there is no such file or task. Each but 10 prints its line.
pub fn redun_serial<D: Disk, S: Sink>(
    alloc: Global,
    words: &[String],
    disk: &mut D,
    out: &mut S,
) -> Status
    // A value or an error that is printed is fresh evaluation's.
    ensures printed_is_fresh { PrintedIsFresh (map string_bytes words.now) (D.files disk.old) result (S.written out.old) (S.written out.new) }
    // Each status comes by the command's checks, with its line; where the sink failed, a front of another status's line was added.
    ensures answered { Answered (map string_bytes words.now) (D.files disk.old) result (S.written out.old) (S.written out.new) }
    // The disk is unavailable only where its count of faults rose, and the output fails only where the sink's did.
    ensures disk { result ≡ Status.DiskUnavailable → Rose (D.faults disk.old) (D.faults disk.new) }
    ensures output { result ≡ Status.OutputFailed → Rose (S.faults out.old) (S.faults out.new) }
    // A task that is there is run where its evaluation fits and no count of faults rose, unless memory runs out.
    ensures complete { Completes (map string_bytes words.now) (D.files disk.old) (Rose (D.faults disk.old) (D.faults disk.new)) (Rose (S.faults out.old) (S.faults out.new)) result }
    // The files stay as they were.
    ensures files { D.files disk.new ≡ D.files disk.old }
{
    match answer(alloc, words, disk) {
        Ok((status, line)) => end(out, line.as_str(), status),
        Err(OutOfMemory) => end(out, "out of memory\n", Status::OutOfMemory),
    }
}

#[cfg(test)]
mod tests;
