//! What is true of every value.

ghost use Rattle.std.specs.Prelude.{◌≡◌, FitsSigned, length};
ghost use Rattle.std.specs.Int.{w64};
ghost use Rattle.rd_value.specs.Lawful.{IsLawful};

use crate::value::Value;
use rd_base::Digest;

fn is_in_range(_n: i64)
    ensures { FitsSigned w64 _n }
{}

fn has_32_bytes(digest: &Digest)
    ensures { length digest.now.0 ≡ 32 }
{
    let bytes: &[u8] = &digest.0;
    let _ = bytes.len();
}

/// Shows what a reader of a value may assume. It walks the whole value.
pub fn lawful(value: &Value)
    ensures { IsLawful value.now }
{
    match value {
        Value::Text(text) => {
            let _ = text.as_str();
        }
        Value::File(file) => {
            let _ = file.path.as_str();
            has_32_bytes(&file.digest);
        }
        Value::Error(error) => {
            let _ = error.text.as_str();
        }
        Value::List(items) => {
            for item in items.as_slice() {
                lawful(item);
            }
        }
        Value::Dict(pairs) => {
            for (key, item) in pairs.as_slice() {
                lawful(key);
                lawful(item);
            }
        }
        Value::Nothing => {}
        Value::Bool(_) => {}
        Value::Int(n) => {
            let n = *n;
            is_in_range(n);
        }
    }
}
