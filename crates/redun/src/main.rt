//! The program: its words, the current folder and standard output.
#![tactic(auto)]

mod output;

use output::Output;
use rd_base::Status;
use rd_top::{Folder, redun_serial};
use std::process::ExitCode;
use std::{env, io};

/// The words after the program's name.
fn words(rt: &HostRuntime) -> io::Result<Vec<String>> {
    let words = env::args(rt)?.skip(1).collect(rt.alloc())?;
    Ok(words)
}

/// What the program answers where it can't get its words.
fn refuse(rt: &HostRuntime, error: &io::Error) -> Status {
    let (status, line) = match error.kind() {
        io::ErrorKind::OutOfMemory => (Status::OutOfMemory, "out of memory"),
        _ => (Status::WordsRefused, "words refused"),
    };
    match rt.println(line) {
        Ok(()) => status,
        Err(_) => Status::OutputFailed,
    }
}

fn run(rt: &HostRuntime) -> Status {
    match words(rt) {
        Ok(words) => {
            let mut folder = Folder::new(rt);
            let mut output = Output::new(rt);
            redun_serial(rt.alloc(), words.as_slice(), &mut folder, &mut output)
        }
        Err(error) => refuse(rt, &error),
    }
}

fn main(rt: HostRuntime) -> ExitCode {
    ExitCode::from(run(&rt).number())
}
