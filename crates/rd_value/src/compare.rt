//! How two values stand to each other.

ghost use Rattle.std.specs.Prelude.{◌≡◌, ◌&&◌, ◌||◌, ◌==◌, map, length, drop};
ghost use Rattle.std.specs.Cmp.Lexicographic.{slice_partial_cmp};
ghost use Rattle.std.specs.Ordering.{is_eq, is_some_and};
ghost use Rattle.rd_value.specs.Compare as spec;
ghost use Rattle.rd_value.specs.Compare.{compared, equal, finds_pair, finds_pairs};

use crate::value::{ErrorValue, FileValue, Value};
use std::cmp::Ordering;

fn is_equal(order: Option<Ordering>) -> bool
    ensures { result ≡ is_some_and is_eq order }
{
    matches!(order, Some(Ordering::Equal))
}

fn equal_if(equal: bool) -> Option<Ordering>
    ensures { result ≡ spec.equal_if equal }
{
    equal.then_some(Ordering::Equal)
}

fn same_file(a: &FileValue, b: &FileValue) -> bool
    ensures { result ≡ spec.same_file a.now b.now }
{
    a.path == b.path && a.digest == b.digest
}

fn same_error(a: &ErrorValue, b: &ErrorValue) -> bool
    ensures { result ≡ spec.same_error a.now b.now }
{
    a.class.name() == b.class.name() && a.text == b.text
}

#[cycle(compare)]
fn compared_items(items: &[Value], others: &[Value]) -> Option<Ordering>
    ensures { result ≡ slice_partial_cmp (λ test y. test y) (map (compared (λ f. f)) items.now) others.now }
{
    let mut rest = others;
    for item in items {
        let Some((other, after)) = rest.split_first() else {
            return Some(Ordering::Greater);
        };
        match item.compared(other) {
            Some(Ordering::Equal) => rest = after,
            unequal => return unequal,
        }
    }
    if rest.is_empty() {
        Some(Ordering::Equal)
    } else {
        Some(Ordering::Less)
    }
}

/// Whether some pair is equal to this one.
#[cycle(compare)]
fn has_pair(pair: &(Value, Value), others: &[(Value, Value)]) -> bool
    ensures { result ≡ finds_pair (compared (λ f. f) pair.now.0, compared (λ f. f) pair.now.1) others.now }
{
    for other in others {
        if is_equal(pair.0.compared(&other.0)) && is_equal(pair.1.compared(&other.1)) {
            return true;
        }
    }
    false
}

/// The same from a place on, which spares a search where the pair is there, or else in all.
#[cycle(compare)]
fn has_pair_from(pair: &(Value, Value), rest: &[(Value, Value)], others: &[(Value, Value)]) -> bool
    ensures { result ≡ (finds_pair (compared (λ f. f) pair.now.0, compared (λ f. f) pair.now.1) rest.now
        || finds_pair (compared (λ f. f) pair.now.0, compared (λ f. f) pair.now.1) others.now) }
{
    has_pair(pair, rest) || has_pair(pair, others)
}

fn behind_first(pairs: &[(Value, Value)]) -> &[(Value, Value)]
    ensures { result.now ≡ drop 1 pairs.now }
{
    match pairs.split_first() {
        Some((_, rest)) => rest,
        None => pairs,
    }
}

/// Whether two dicts are equal. Dicts of one order take no search.
#[cycle(compare)]
fn equal_pairs(pairs: &[(Value, Value)], others: &[(Value, Value)]) -> bool
    ensures { let tests = map (λ p. (compared (λ f. f) p.0, compared (λ f. f) p.1)) pairs.now in
        result ≡ ((length tests == length others.now) && finds_pairs tests others.now) }
{
    if pairs.len() != others.len() {
        return false;
    }
    let mut rest = others;
    for pair in pairs {
        if !has_pair_from(pair, rest, others) {
            return false;
        }
        rest = behind_first(rest);
    }
    true
}

impl Value {
    /// Equal where `==` finds both equal, else their order. There is none for two that are neither
    /// two numbers, two texts nor two lists, nor for two lists whose first unequal items have none.
    #[cycle(compare)]
    pub fn compared(&self, other: &Value) -> Option<Ordering>
        ensures { result ≡ compared (λ f. f) self.now other.now }
    {
        match (self, other) {
            (Value::Nothing, Value::Nothing) => Some(Ordering::Equal),
            (Value::Bool(a), Value::Bool(b)) => Some(i64::from(*a).cmp(&i64::from(*b))),
            (Value::Bool(a), Value::Int(b)) => Some(i64::from(*a).cmp(b)),
            (Value::Int(a), Value::Bool(b)) => Some(a.cmp(&i64::from(*b))),
            (Value::Int(a), Value::Int(b)) => Some(a.cmp(b)),
            (Value::Text(a), Value::Text(b)) => Some(a.as_str().cmp(b.as_str())),
            (Value::List(a), Value::List(b)) => compared_items(a.as_slice(), b.as_slice()),
            (Value::Dict(a), Value::Dict(b)) => equal_if(equal_pairs(a.as_slice(), b.as_slice())),
            (Value::File(a), Value::File(b)) => equal_if(same_file(a, b)),
            (Value::Error(a), Value::Error(b)) => equal_if(same_error(a, b)),
            _ => None,
        }
    }

    /// The operator `==`: a Bool is its number, and the pairs of a dict have no order.
    pub fn equal(&self, other: &Value) -> bool
        ensures { result ≡ equal (λ f. f) self.now other.now }
    {
        is_equal(self.compared(other))
    }
}
