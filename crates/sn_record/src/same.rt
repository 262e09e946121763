//! Whether two records are the same.
ghost use Rattle.std.specs.Prelude.{◌≡◌, ◌↔◌, IsTrue};

use crate::record::Record;
use crate::value::Value;

/// Whether two values are the same. It goes as deep as the first one is nested.
pub fn is_same_value(a: &Value, b: &Value) -> bool
    ensures { IsTrue result ↔ (a.now ≡ b.now) }
{
    match a {
        Value::Int(m) => match b {
            Value::Int(n) => *m == *n,
            Value::Text(_) | Value::List(_) => false,
        },
        Value::Text(s) => match b {
            Value::Text(t) => s.as_slice() == t.as_slice(),
            Value::Int(_) | Value::List(_) => false,
        },
        Value::List(xs) => match b {
            Value::List(ys) => {
                let others = ys.as_slice();
                if xs.len() != others.len() {
                    return false;
                }
                for (i, value) in xs.as_slice().iter().enumerate() {
                    if !is_same_value(value, &others[i]) {
                        return false;
                    }
                }
                true
            }
            Value::Int(_) | Value::Text(_) => false,
        },
    }
}

/// Whether two records have the same labels, with the same values. It costs time in their sizes.
pub fn is_same_record(a: &Record, b: &Record) -> bool
    ensures { IsTrue result ↔ (a.now ≡ b.now) }
{
    let entries = a.as_slice();
    let others = b.as_slice();
    if entries.len() != others.len() {
        return false;
    }
    for (i, entry) in entries.iter().enumerate() {
        let other = &others[i];
        if entry.0 != other.0 || !is_same_value(&entry.1, &other.1) {
            return false;
        }
    }
    true
}
