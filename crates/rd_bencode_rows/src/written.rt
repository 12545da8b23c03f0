//! What writers write of values made here.

use rd_base::{Bytes, Digest, Path, Seen, Text};
use rd_bencode::{
    CallKey, CallKeys, Ending, Execution, Footprint, Job, JobState, Jobs, Kind, NamedDigests,
    PathDigests, SeenPaths, digest_of, wrap, write_args, write_children, write_execution,
    write_expr, write_footprint, write_value, write_writes,
};
use rd_value::class::Class;
use rd_value::expr::{Expr, Exprs, NamedExprs};
use rd_value::failure::Failure;
use rd_value::value::{Pairs, Value, Values};
use std::alloc::Global;

/// Digests whose bytes can be printed.
const TASK: Digest = Digest([b't'; 32]);

const ARGS: Digest = Digest([b'a'; 32]);

const KEY: CallKey = CallKey {
    task: TASK,
    args: ARGS,
};

fn show(rt: &HostRuntime, what: &str, bytes: &Bytes) -> Option<()> {
    let text = str::from_utf8(bytes.as_slice()).ok()?;
    println!(rt; "{what} => {text}").ok()
}

fn text(alloc: Global, text: &str) -> Option<Text> {
    Text::from_str(alloc, text).ok()
}

fn path(alloc: Global, text: &str) -> Option<Path> {
    Path::new(alloc, text).ok()
}

/// `[True, None]`
fn list(alloc: Global) -> Option<Value> {
    let mut items = Values::new(alloc);
    items.push(alloc, Value::Bool(true)).ok()?;
    items.push(alloc, Value::Nothing).ok()?;
    Some(Value::List(items))
}

/// `{'b': 1, 'a': [True, None]}`
fn dict(alloc: Global) -> Option<Value> {
    let mut pairs = Pairs::new(alloc);
    let b = Value::Text(text(alloc, "b")?);
    pairs.push(alloc, (b, Value::Int(1))).ok()?;
    let a = Value::Text(text(alloc, "a")?);
    pairs.push(alloc, (a, list(alloc)?)).ok()?;
    Some(Value::Dict(pairs))
}

/// `g(1)`
fn call(alloc: Global) -> Option<Expr> {
    let mut positional = Exprs::new(alloc);
    positional.push(alloc, Expr::Val(Value::Int(1))).ok()?;
    Some(Expr::Call {
        task: text(alloc, "g")?,
        positional,
        keywords: NamedExprs::new(alloc),
    })
}

fn footprint(alloc: Global) -> Option<Footprint> {
    let mut tasks = NamedDigests::new(alloc);
    tasks.push(alloc, (text(alloc, "m.f")?, TASK)).ok()?;
    let mut inputs = Vec::new(alloc);
    inputs.push((path(alloc, "p")?, Seen::Absent)).ok()?;
    inputs.push((path(alloc, "q")?, Seen::Long)).ok()?;
    inputs.push((path(alloc, "r")?, Seen::Held(ARGS))).ok()?;
    let inputs = SeenPaths::from_vec(alloc, inputs).ok()?;
    let mut writes = PathDigests::new(alloc);
    writes.push(alloc, (path(alloc, "w")?, TASK)).ok()?;
    Some(Footprint {
        tasks,
        inputs,
        writes,
    })
}

fn execution(alloc: Global) -> Option<Execution> {
    let mut jobs = Vec::new(alloc);
    let job = Job {
        parent: 0,
        key: KEY,
        state: JobState::Reused,
    };
    jobs.push(job).ok()?;
    let ending = Ending::Failed(Failure {
        class: Class::ValueError,
        text: text(alloc, "no")?,
        origin: text(alloc, "m.f")?,
    });
    Some(Execution {
        serial: 7,
        moment: 5,
        root: call(alloc)?,
        ending,
        jobs: Jobs::from_vec(alloc, jobs).ok()?,
    })
}

fn show_terms(rt: &HostRuntime) -> Option<()> {
    let alloc = rt.alloc();
    let bytes = write_value(alloc, &dict(alloc)?).ok()?;
    show(rt, "{'b': 1, 'a': [True, None]}", &bytes)?;
    let bytes = write_expr(alloc, &call(alloc)?).ok()?;
    show(rt, "g(1)", &bytes)
}

fn show_blobs(rt: &HostRuntime) -> Option<()> {
    let alloc = rt.alloc();
    let one = write_value(alloc, &Value::Int(1)).ok()?;
    show(
        rt,
        "the value 1",
        &wrap(alloc, Kind::Value, one.as_slice()).ok()?,
    )?;
    let none = write_args(alloc, &Values::new(alloc)).ok()?;
    show(
        rt,
        "no arguments",
        &wrap(alloc, Kind::Args, none.as_slice()).ok()?,
    )?;
    let none = write_writes(alloc, &PathDigests::new(alloc)).ok()?;
    show(
        rt,
        "no writes",
        &wrap(alloc, Kind::Writes, none.as_slice()).ok()?,
    )
}

fn show_records(rt: &HostRuntime) -> Option<()> {
    let alloc = rt.alloc();
    let mut keys = Vec::new(alloc);
    keys.push(KEY).ok()?;
    let keys = CallKeys::from_vec(alloc, keys).ok()?;
    show(rt, "a child", &write_children(alloc, &keys).ok()?)?;
    let footprint = footprint(alloc)?;
    show(rt, "a footprint", &write_footprint(alloc, &footprint).ok()?)?;
    let execution = execution(alloc)?;
    show(
        rt,
        "an execution",
        &write_execution(alloc, &execution).ok()?,
    )
}

fn show_digest(rt: &HostRuntime) -> Option<()> {
    print!(rt; "the digest of the value 1 => ").ok()?;
    for byte in digest_of(Kind::Value, b"i1e").0 {
        print!(rt; "{byte:02x}").ok()?;
    }
    println!(rt).ok()
}

pub fn show_written(rt: &HostRuntime) -> Option<()> {
    show_terms(rt)?;
    show_blobs(rt)?;
    show_records(rt)?;
    show_digest(rt)
}
