//! What the language takes as true.

ghost use Rattle.std.specs.Prelude.{◌≡◌};
ghost use Rattle.rd_value.specs.Truth.{truth};

use crate::value::Value;

impl Value {
    /// False for None, False, 0 and an empty text, list or dict, else true.
    pub fn truth(&self) -> bool
        ensures { result ≡ truth self.now }
    {
        match self {
            Value::Nothing => false,
            Value::Bool(b) => *b,
            Value::Int(n) => *n != 0,
            Value::Text(text) => !text.as_str().is_empty(),
            Value::List(items) => !items.as_slice().is_empty(),
            Value::Dict(pairs) => !pairs.as_slice().is_empty(),
            Value::File(_) | Value::Error(_) => true,
        }
    }
}
