use super::redun_serial;
use crate::disk::MemoryDisk;
use rd_base::{MemorySink, Path};
use std::alloc::Global;

/// What there is at `w.py`.
enum File {
    Nothing,
    Text(&'static str),
    /// Its read fails.
    Unreadable,
}

/// What there is at `w.py`, the words, and the line and the status that they come to.
struct Case {
    file: File,
    words: &'static [&'static str],
    line: &'static str,
    status: u8,
}

const RUN: &[&str] = &["run", "w.py", "main"];

const CASES: [Case; 8] = [
    Case {
        file: File::Text("@task\ndef main(who): return who\n"),
        words: &["run", "w.py", "main", "who=World"],
        line: "'World'\n",
        status: 0,
    },
    Case {
        file: File::Text("@task\ndef main(): return 1 // 0\n"),
        words: RUN,
        line: "error in main: ZeroDivisionError: 'division by zero'\n",
        status: 1,
    },
    Case {
        file: File::Text("@task\ndef main(): return main()\n"),
        words: RUN,
        line: "too large\n",
        status: 7,
    },
    Case {
        file: File::Text("@task\ndef main(): return who\n"),
        words: RUN,
        line: "source refused at line 2\n",
        status: 3,
    },
    Case {
        file: File::Text(""),
        words: RUN,
        line: "not found: main\n",
        status: 11,
    },
    Case {
        file: File::Nothing,
        words: RUN,
        line: "not found: w.py\n",
        status: 11,
    },
    Case {
        file: File::Unreadable,
        words: RUN,
        line: "disk unavailable\n",
        status: 5,
    },
    Case {
        file: File::Nothing,
        words: &["fly"],
        line: "words refused\n",
        status: 2,
    },
];

/// Only an allocation that is made to fail brings this line: no test can ask for it.
const WANT_OF_MEMORY: &str = "out of memory\n";

fn strings(alloc: Global, words: &[&str]) -> Option<Vec<String>> {
    let mut strings = Vec::new(alloc);
    for word in words {
        let string = String::from_str(alloc, word).ok()?;
        strings.push(string).ok()?;
    }
    Some(strings)
}

fn disk_of(alloc: Global, file: &File) -> Option<MemoryDisk> {
    let mut disk = MemoryDisk::new(alloc);
    match file {
        File::Nothing => {}
        File::Text(text) => {
            let path = Path::new(alloc, "w.py").ok()?;
            disk.write(alloc, &path, text.as_bytes()).ok()?;
        }
        File::Unreadable => disk.fail_at(alloc, 1).ok()?,
    }
    Some(disk)
}

/// A sink that takes its line whole or byte by byte, until so many writes were made. The next one fails.
#[derive(Clone, Copy)]
struct Planned {
    is_narrow: bool,
    writes: usize,
}

fn sink_of(alloc: Global, planned: Planned) -> Option<MemorySink> {
    let mut sink = MemorySink::new(alloc);
    let failing = (planned.writes as u64).saturating_add(1);
    sink.fail_at(alloc, failing).ok()?;
    if planned.is_narrow {
        sink.narrow();
    }
    Some(sink)
}

/// The status that is to come, and how many bytes of the line.
fn wanted(case: &Case, planned: Planned) -> (u8, usize) {
    let whole = case.line.len();
    let needed = if planned.is_narrow { whole } else { 1 };
    if planned.writes < needed {
        (10, planned.writes)
    } else {
        (case.status, whole)
    }
}

/// How a run ends: as it is to, for want of memory, or otherwise.
#[derive(Clone, Copy, Debug, PartialEq, Eq)]
enum End {
    Right,
    WantsMemory,
    Wrong,
}

fn judged(case: &Case, planned: Planned, status: u8, written: &[u8]) -> End {
    let is_of_case = case.line.as_bytes().starts_with(written);
    let is_of_memory = WANT_OF_MEMORY.as_bytes().starts_with(written);
    if is_of_case && (status, written.len()) == wanted(case, planned) {
        End::Right
    } else if status == 6 && written == WANT_OF_MEMORY.as_bytes()
        || status == 10 && (is_of_case || is_of_memory)
    {
        End::WantsMemory
    } else {
        End::Wrong
    }
}

fn run(alloc: Global, case: &Case, planned: Planned) -> Option<End> {
    let words = strings(alloc, case.words)?;
    let mut disk = disk_of(alloc, &case.file)?;
    let mut out = sink_of(alloc, planned)?;
    let status = redun_serial(alloc, words.as_slice(), &mut disk, &mut out);
    Some(judged(case, planned, status.number(), out.bytes()))
}

/// Where one allocation is made to fail, a second run finds the memory that the first one wanted.
fn ends(alloc: Global, case: &Case, planned: Planned) -> Option<End> {
    match run(alloc, case, planned) {
        None | Some(End::WantsMemory) => run(alloc, case, planned),
        end => end,
    }
}

#[test]
fn whole_sinks(rt: HostRuntime) {
    for case in &CASES {
        for writes in 0..=1 {
            let planned = Planned {
                is_narrow: false,
                writes,
            };
            let end = ends(rt.alloc(), case, planned);
            assert_eq!(rt; end, Some(End::Right), "at {writes}: {}", case.line);
        }
    }
}

#[test]
fn narrow_sinks(rt: HostRuntime) {
    for case in &CASES {
        for writes in 0..=case.line.len() {
            let planned = Planned {
                is_narrow: true,
                writes,
            };
            let end = ends(rt.alloc(), case, planned);
            assert_eq!(rt; end, Some(End::Right), "at {writes}: {}", case.line);
        }
    }
}
