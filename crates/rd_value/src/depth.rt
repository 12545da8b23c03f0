//! How deep values are.

ghost use Rattle.std.specs.Prelude.{◌≡◌, min, map};
ghost use Rattle.rd_value.specs.Depth.{depth, greatest, greater};

use crate::value::Value;

#[cycle(depth)]
pub(crate) fn items_depth(items: &[Value]) -> u8
    ensures { result ≡ min (greatest (map depth items.now)) u8.MAX }
{
    let mut deepest: u8 = 0;
    for item in items {
        deepest = deepest.max(item.depth());
    }
    deepest
}

#[cycle(depth)]
fn pairs_depth(pairs: &[(Value, Value)]) -> u8
    ensures { result ≡ min (greatest (map greater (map (λ p. (depth p.0, depth p.1)) pairs.now))) u8.MAX }
{
    let mut deepest: u8 = 0;
    for (key, item) in pairs {
        deepest = deepest.max(key.depth()).max(item.depth());
    }
    deepest
}

impl Value {
    /// The number of its levels, or the greatest number of the type where there are more.
    #[cycle(depth)]
    pub fn depth(&self) -> u8
        ensures { result ≡ min (depth self.now) u8.MAX }
    {
        match self {
            Value::List(items) => items_depth(items.as_slice()).saturating_add(1),
            Value::Dict(pairs) => pairs_depth(pairs.as_slice()).saturating_add(1),
            _ => 1,
        }
    }
}
