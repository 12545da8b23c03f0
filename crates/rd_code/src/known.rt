//! The builtins and the error classes by their names.

ghost use Rattle.std.specs.Prelude.{◌≡◌, is_some};
ghost use Rattle.rd_names.specs.Names.{is_among, offered, error_classes};
ghost use Rattle.rd_code.specs.Known as spec;

use rd_routine::{Builtin, Callee, Special};
use rd_value::class::Class;

/// What a builtin's name stands for.
pub fn built_in(name: &str) -> Option<Callee>
    ensures value { result ≡ spec.built_in name.now }
    ensures offered { is_some result ≡ is_among offered name.now }
{
    match name {
        "len" => Some(Callee::Builtin(Builtin::Len)),
        "str" => Some(Callee::Builtin(Builtin::Str)),
        "int" => Some(Callee::Builtin(Builtin::Int)),
        "range" => Some(Callee::Builtin(Builtin::Range)),
        "sum" => Some(Callee::Builtin(Builtin::Sum)),
        "min" => Some(Callee::Builtin(Builtin::Min)),
        "max" => Some(Callee::Builtin(Builtin::Max)),
        "sorted" => Some(Callee::Builtin(Builtin::Sorted)),
        "abs" => Some(Callee::Builtin(Builtin::Abs)),
        "cond" => Some(Callee::Special(Special::Cond)),
        "catch" => Some(Callee::Special(Special::Catch)),
        "map_" => Some(Callee::Special(Special::Map)),
        _ => None,
    }
}

/// An error class by its name.
pub fn class_named(name: &str) -> Option<Class>
    ensures value { result ≡ spec.class_named name.now }
    ensures known { is_some result ≡ is_among error_classes name.now }
{
    match name {
        "Exception" => Some(Class::Exception),
        "ValueError" => Some(Class::ValueError),
        "TypeError" => Some(Class::TypeError),
        "KeyError" => Some(Class::KeyError),
        "IndexError" => Some(Class::IndexError),
        "ZeroDivisionError" => Some(Class::ZeroDivisionError),
        "OverflowError" => Some(Class::OverflowError),
        "FileNotFoundError" => Some(Class::FileNotFoundError),
        "PermissionError" => Some(Class::PermissionError),
        "RuntimeError" => Some(Class::RuntimeError),
        "RecursionError" => Some(Class::RecursionError),
        "AttributeError" => Some(Class::AttributeError),
        "NameError" => Some(Class::NameError),
        "LimitError" => Some(Class::LimitError),
        _ => None,
    }
}
