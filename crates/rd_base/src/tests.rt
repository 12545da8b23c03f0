use crate::{
    Boxed, Bytes, Clock, Collision, Copies, Digest, Faults, FixedClock, Items, MemorySink,
    OutOfMemory, Path, PathError, Sink, SinkFailed, Status, Text,
};
use std::alloc::Global;
use std::hash::{DefaultHasher, Hash, Hasher};
use std::process::Abort;

fn path(alloc: Global, text: &str) -> Result<Path, OutOfMemory> {
    match Path::new(alloc, text) {
        Ok(path) => Ok(path),
        Err(_) => Err(OutOfMemory),
    }
}

fn is_lawful(rt: &impl Abort, alloc: Global, text: &str) -> Result<bool, OutOfMemory> {
    match Path::new(alloc, text) {
        Ok(path) => {
            assert_eq!(rt; path.as_str(), text);
            Ok(true)
        }
        Err(PathError::PathRefused) => Ok(false),
        Err(PathError::OutOfMemory) => Err(OutOfMemory),
    }
}

fn repeated(alloc: Global, part: char, count: u16) -> Result<String, OutOfMemory> {
    let mut text = String::new(alloc);
    for _ in 0..count {
        text.push(part)?;
    }
    Ok(text)
}

fn collision(alloc: Global) -> Collision {
    Collision {
        digest: Digest([7; 32]),
        kept: Bytes::new(alloc),
        offered: Bytes::new(alloc),
    }
}

fn hashed<T: Hash>(value: &T) -> u64 {
    let mut hasher = DefaultHasher::new();
    value.hash(&mut hasher);
    hasher.finish()
}

fn copied<T: Copies>(alloc: Global, value: &T) -> Result<T, OutOfMemory> {
    value.copy(alloc)
}

// A test makes a second try where memory ran out: where one allocation is made to fail, the second finds what the first
// one wanted.

fn path_table(rt: &impl Abort, alloc: Global) -> Result<(), OutOfMemory> {
    for (text, want) in [
        ("a", true),
        ("a/b c/d.txt", true),
        ("é", true),
        (" ~", true),
        (".a/..b/...", true),
        (".redunx", true),
        (".redun2/x", true),
        ("a/.redun", true),
        ("", false),
        ("/", false),
        ("/a", false),
        ("a/", false),
        ("a//b", false),
        (".", false),
        ("./a", false),
        ("a/.", false),
        ("..", false),
        ("../a", false),
        ("a/..", false),
        ("a/../b", false),
        (".redun", false),
        (".redun/x", false),
        ("a\0", false),
        ("a\nb", false),
        ("\x1f", false),
        ("\x7f", false),
    ] {
        let lawful = is_lawful(rt, alloc, text)?;
        assert_eq!(rt; lawful, want, "at {text:?}");
    }
    Ok(())
}

#[test]
fn paths(rt: HostRuntime) -> Result<(), OutOfMemory> {
    let alloc = rt.alloc();
    path_table(&rt, alloc).or_else(|_| path_table(&rt, alloc))
}

fn two_paths(rt: &impl Abort, alloc: Global) -> Result<(), OutOfMemory> {
    let first = path(alloc, "a/b")?;
    let same = copied(alloc, &first)?;
    let other = path(alloc, "a/c")?;
    assert!(rt; first == same);
    assert!(rt; first != other);
    assert_eq!(rt; hashed(&first), hashed(&same));
    assert!(rt; hashed(&first) != hashed(&other));
    Ok(())
}

#[test]
fn compared_paths(rt: HostRuntime) -> Result<(), OutOfMemory> {
    let alloc = rt.alloc();
    two_paths(&rt, alloc).or_else(|_| two_paths(&rt, alloc))
}

fn long_paths(rt: &impl Abort, alloc: Global) -> Result<(), OutOfMemory> {
    for (part, count, want) in [
        ('a', 1024, true),
        ('a', 1025, false),
        ('é', 512, true),
        ('é', 513, false),
    ] {
        let text = repeated(alloc, part, count)?;
        let lawful = is_lawful(rt, alloc, text.as_str())?;
        assert_eq!(rt; lawful, want, "at {part} {count}");
    }
    Ok(())
}

#[test]
fn longest_paths(rt: HostRuntime) -> Result<(), OutOfMemory> {
    let alloc = rt.alloc();
    long_paths(&rt, alloc).or_else(|_| long_paths(&rt, alloc))
}

fn sink_writes(rt: &impl Abort, alloc: Global) -> Result<(), OutOfMemory> {
    let mut sink = MemorySink::new(alloc);
    sink.fail_at(alloc, 2)?;
    let first = sink.write(b"ab").map_err(|_| OutOfMemory)?;
    assert_eq!(rt; first, 2);
    assert_eq!(rt; sink.write(b"x"), Err(SinkFailed));
    assert_eq!(rt; sink.bytes(), b"ab".as_slice());
    assert_eq!(rt; sink.write(b""), Ok(0));
    sink.narrow();
    for piece in [b"cd".as_slice(), b"e"] {
        let taken = sink.write(piece).map_err(|_| OutOfMemory)?;
        assert_eq!(rt; taken, 1);
    }
    assert_eq!(rt; sink.write(b""), Ok(0));
    let shown = format!(in alloc; "{sink:?}")?;
    let want = "MemorySink { bytes: [97, 98, 99, 101], is_narrow: true, \
                faults: Faults { calls: 6, failing: [2], count: 1 } }";
    assert_eq!(rt; shown.as_str(), want);
    Ok(())
}

#[test]
fn sinks(rt: HostRuntime) -> Result<(), OutOfMemory> {
    let alloc = rt.alloc();
    sink_writes(&rt, alloc).or_else(|_| sink_writes(&rt, alloc))
}

fn planned_faults(rt: &impl Abort, alloc: Global) -> Result<(), OutOfMemory> {
    let mut faults = Faults::new(alloc);
    faults.fail_at(3)?;
    faults.fail_at(1)?;
    for want in [true, false, true, false] {
        assert_eq!(rt; faults.begin_call(), want);
    }
    faults.add();
    let shown = format!(in alloc; "{faults:?}")?;
    assert_eq!(rt;
        shown.as_str(),
        "Faults { calls: 4, failing: [3, 1], count: 3 }"
    );
    Ok(())
}

#[test]
fn faults(rt: HostRuntime) -> Result<(), OutOfMemory> {
    let alloc = rt.alloc();
    planned_faults(&rt, alloc).or_else(|_| planned_faults(&rt, alloc))
}

#[test]
fn clocks(rt: HostRuntime) {
    for (set, want) in [
        (0, 0),
        (9_223_372_036_854_775_806, 9_223_372_036_854_775_806),
        (9_223_372_036_854_775_807, 9_223_372_036_854_775_807),
        (9_223_372_036_854_775_808, 9_223_372_036_854_775_807),
        (18_446_744_073_709_551_615, 9_223_372_036_854_775_807),
    ] {
        let mut clock = FixedClock(set);
        assert_eq!(rt; clock.now(), want);
        assert_eq!(rt; clock.now(), want);
    }
}

fn status_numbers(rt: &impl Abort, alloc: Global) -> Result<(), OutOfMemory> {
    let path = path(alloc, "a")?;
    for (status, want) in [
        (Status::Done, 0),
        (Status::WorkflowError, 1),
        (Status::WordsRefused, 2),
        (Status::SourceRefused { line: 9 }, 3),
        (Status::KeeperUnavailable, 4),
        (Status::DiskUnavailable, 5),
        (Status::OutOfMemory, 6),
        (Status::TooLarge, 7),
        (Status::WriteConflict { path }, 8),
        (Status::Collided(collision(alloc)), 9),
        (Status::OutputFailed, 10),
        (Status::NotFound, 11),
        (
            Status::Damaged {
                digest: Digest([0; 32]),
            },
            12,
        ),
    ] {
        assert_eq!(rt; status.number(), want);
    }
    Ok(())
}

#[test]
fn statuses(rt: HostRuntime) -> Result<(), OutOfMemory> {
    let alloc = rt.alloc();
    status_numbers(&rt, alloc).or_else(|_| status_numbers(&rt, alloc))
}

fn shared_items(rt: &impl Abort, alloc: Global) -> Result<(), OutOfMemory> {
    let mut first = Bytes::new(alloc);
    assert_eq!(rt; first.len(), 0);
    first.push(alloc, 1)?;
    first.push(alloc, 2)?;
    let mut second = copied(alloc, &first)?;
    assert!(rt; first == second);
    assert_eq!(rt; hashed(&first), hashed(&second));
    second.push(alloc, 3)?;
    assert_eq!(rt; first.as_slice(), [1, 2].as_slice());
    assert_eq!(rt; second.as_slice(), [1, 2, 3].as_slice());
    first.push(alloc, 4)?;
    assert_eq!(rt; first.as_slice(), [1, 2, 4].as_slice());
    assert!(rt; first != second);
    let third = copied(alloc, &first)?;
    let shared = first.into_vec(alloc)?;
    assert_eq!(rt; shared.as_slice(), [1, 2, 4].as_slice());
    let owned = third.into_vec(alloc)?;
    assert_eq!(rt; owned.as_slice(), [1, 2, 4].as_slice());
    let fourth = Items::from_vec(alloc, owned)?;
    let fifth = Items::from_slice(alloc, &[1, 2, 4])?;
    assert!(rt; fourth == fifth);
    Ok(())
}

#[test]
fn items(rt: HostRuntime) -> Result<(), OutOfMemory> {
    let alloc = rt.alloc();
    shared_items(&rt, alloc).or_else(|_| shared_items(&rt, alloc))
}

fn shared_texts(rt: &impl Abort, alloc: Global) -> Result<(), OutOfMemory> {
    let first = Text::from_str(alloc, "é")?;
    let pair = copied(alloc, &(first, Digest([5; 32])))?;
    assert_eq!(rt; pair.0.as_str(), "é");
    assert_eq!(rt; pair.1.0, [5; 32]);
    let same = Text::from_string(alloc, String::from_str(alloc, "é")?)?;
    let other = Text::from_str(alloc, "e")?;
    assert!(rt; pair.0 == same);
    assert!(rt; pair.0 != other);
    assert_eq!(rt; hashed(&pair.0), hashed(&same));
    assert!(rt; hashed(&same) != hashed(&other));
    Ok(())
}

#[test]
fn texts(rt: HostRuntime) -> Result<(), OutOfMemory> {
    let alloc = rt.alloc();
    shared_texts(&rt, alloc).or_else(|_| shared_texts(&rt, alloc))
}

fn shared_boxes(rt: &impl Abort, alloc: Global) -> Result<(), OutOfMemory> {
    let first = Boxed::new(alloc, 3_u8)?;
    let second = copied(alloc, &first)?;
    drop(first);
    assert_eq!(rt; *second.get(), 3);
    let same = Boxed::new(alloc, 3_u8)?;
    let other = Boxed::new(alloc, 4_u8)?;
    assert!(rt; second == same);
    assert!(rt; second != other);
    assert_eq!(rt; hashed(&second), hashed(&same));
    Ok(())
}

#[test]
fn boxes(rt: HostRuntime) -> Result<(), OutOfMemory> {
    let alloc = rt.alloc();
    shared_boxes(&rt, alloc).or_else(|_| shared_boxes(&rt, alloc))
}
