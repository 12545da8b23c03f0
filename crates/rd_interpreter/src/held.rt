//! What a body holds: values, and what isn't settled yet.

ghost use Rattle.std.specs.Prelude.{Ok};
ghost use Rattle.rd_value.specs.declared.value.Datum.TheVariants as value;
ghost use Rattle.rd_value.specs.declared.expr.Lazy.TheVariants as lazy;
ghost use Rattle.rd_value.specs.Operators.{bad_operand};
ghost use Rattle.rd_interpreter.specs.Held as spec;
ghost use Rattle.rd_interpreter.specs.Body.{path_of, raising};
ghost use Rattle.rd_interpreter.specs.Running.{Answers, Raises, own};

use crate::halt::{Halt, raise};
use rd_base::{Copies, Text};
use rd_value::class::Class;
use rd_value::expr::Expr;
use rd_value::raise::raised;
use rd_value::value::Value;
use std::alloc::Global;

/// The error of what isn't settled, where a settled value has to stand.
pub fn not_settled(alloc: Global) -> Halt
    ensures { Raises result spec.not_settled }
{
    raise(alloc, Class::TypeError, "lazy value")
}

/// The error of an operand of another kind.
pub fn bad_operand(alloc: Global) -> Halt
    ensures { Raises result bad_operand }
{
    raise(alloc, Class::TypeError, "bad operand")
}

/// What the language takes as true.
pub fn truth(alloc: Global, expr: &Expr) -> Result<bool, Halt>
    ensures { Answers result (spec.truth_of expr.now) }
{
    match expr {
        Expr::Val(value) => Ok(value.truth()),
        Expr::ListOf(items) => Ok(!items.as_slice().is_empty()),
        Expr::DictOf(pairs) => Ok(!pairs.as_slice().is_empty()),
        _ => Err(not_settled(alloc)),
    }
}

/// The path of a file, also of one that isn't settled.
pub fn path(alloc: Global, expr: &Expr) -> Result<Expr, Halt>
    ensures { Answers result (path_of own expr.now) }
{
    match expr {
        Expr::Val(Value::File(file)) => path_text(alloc, file.path.as_str()),
        Expr::Val(_) => Err(Halt::from(raised(alloc, Class::AttributeError, "path")?)),
        Expr::Input(path) => path_text(alloc, path.as_str()),
        _ => Err(not_settled(alloc)),
    }
}

fn path_text(alloc: Global, path: &str) -> Result<Expr, Halt>
    ensures { Answers result (Ok (lazy.Val (value.Text path.now))) }
{
    Ok(Expr::Val(Value::Text(Text::from_str(alloc, path)?)))
}

/// The error of a class with a text that is a value.
pub fn raising(alloc: Global, class: Class, text: &Expr) -> Result<Option<Expr>, Halt>
    ensures { Answers result (raising class text.now) }
{
    match text {
        Expr::Val(Value::Text(text)) => Err(Halt::from(raised(alloc, class, text.as_str())?)),
        Expr::Val(_) => Err(bad_operand(alloc)),
        _ => Err(not_settled(alloc)),
    }
}
