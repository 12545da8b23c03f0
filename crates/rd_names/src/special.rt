//! The names of the calls that make an expression of their own.

ghost use Rattle.std.specs.Prelude.{◌≡◌};
ghost use Rattle.rd_names.specs.Special as spec;

use rd_routine::Special;

/// What a call of this name makes, if that is special.
pub fn special_named(name: &str) -> Option<Special>
    ensures { result ≡ spec.special_named name.now }
{
    match name {
        "cond" => Some(Special::Cond),
        "catch" => Some(Special::Catch),
        "map_" => Some(Special::Map),
        _ => None,
    }
}
