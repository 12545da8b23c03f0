ghost use Rattle.std.specs.Prelude.{◌≡◌, IfOk};

use crate::class::Class;
use crate::value::{Datum, FileValue, Value};
use rd_base::{Boxed, Copies, Items, OutOfMemory, Path, Text};
use std::alloc::Global;

/// The operator of a lazy operation.
#[derive(Clone, Copy, Debug, PartialEq, Eq, Hash)]
pub enum OpKind {
    Add,
    Sub,
    Mul,
    FloorDiv,
    Mod,
    Neg,
    Eq,
    Ne,
    Lt,
    Le,
    Gt,
    Ge,
    Index,
}

/// An expression over values whose files carry an `F`. All but `Val` are lazy.
#[derive(PartialEq, Eq, Hash, Drop)]
pub enum Lazy<F> {
    Val(Datum<F>),
    /// A call of the task with this full name.
    Call {
        task: Text,
        positional: Items<Lazy<F>>,
        keywords: Items<(Text, Lazy<F>)>,
    },
    /// The file at a path as it stood when the run began.
    Input(Path),
    Op {
        op: OpKind,
        parts: Items<Lazy<F>>,
    },
    ListOf(Items<Lazy<F>>),
    DictOf(Items<(Datum<F>, Lazy<F>)>),
    Cond {
        test: Boxed<Lazy<F>>,
        when_true: Boxed<Lazy<F>>,
        when_false: Boxed<Lazy<F>>,
    },
    Map {
        task: Text,
        list: Boxed<Lazy<F>>,
    },
    /// Where `tried` fails with an error that the class catches, the call of the task `recover` with it.
    Catch {
        tried: Boxed<Lazy<F>>,
        class: Class,
        recover: Text,
    },
}

pub type Expr = Lazy<FileValue>;

pub type Exprs = Items<Expr>;

pub type NamedExprs = Items<(Text, Expr)>;

pub type ExprPairs = Items<(Value, Expr)>;

impl<F: Copies> Copies for Lazy<F> {
    fn copy(&self, alloc: Global) -> Result<Lazy<F>, OutOfMemory> {
        match self {
            Lazy::Val(value) => Ok(Lazy::Val(value.copy(alloc)?)),
            Lazy::Call {
                task,
                positional,
                keywords,
            } => Ok(Lazy::Call {
                task: task.copy(alloc)?,
                positional: positional.copy(alloc)?,
                keywords: keywords.copy(alloc)?,
            }),
            Lazy::Input(path) => Ok(Lazy::Input(path.copy(alloc)?)),
            Lazy::Op { op, parts } => Ok(Lazy::Op {
                op: *op,
                parts: parts.copy(alloc)?,
            }),
            Lazy::ListOf(parts) => Ok(Lazy::ListOf(parts.copy(alloc)?)),
            Lazy::DictOf(pairs) => Ok(Lazy::DictOf(pairs.copy(alloc)?)),
            Lazy::Cond {
                test,
                when_true,
                when_false,
            } => Ok(Lazy::Cond {
                test: test.copy(alloc)?,
                when_true: when_true.copy(alloc)?,
                when_false: when_false.copy(alloc)?,
            }),
            Lazy::Map { task, list } => Ok(Lazy::Map {
                task: task.copy(alloc)?,
                list: list.copy(alloc)?,
            }),
            Lazy::Catch {
                tried,
                class,
                recover,
            } => Ok(Lazy::Catch {
                tried: tried.copy(alloc)?,
                class: *class,
                recover: recover.copy(alloc)?,
            }),
        }
    }
}
