ghost use Rattle.std.specs.Prelude.{◌≡◌, map};
ghost use Rattle.sn_net.specs.BoxValues.{all_equal, are_equal};

use sn_record::Value;

/// Whether both are of one kind and equal. It goes as deep in calls as `left` is nested.
#[cycle(equality)]
fn same(left: &Value, right: &Value) -> bool
    ensures { result ≡ are_equal left.now right.now }
{
    match (left, right) {
        (Value::Int(left), Value::Int(right)) => left == right,
        (Value::Text(left), Value::Text(right)) => left.as_slice() == right.as_slice(),
        (Value::List(left), Value::List(right)) => all_same(left.as_slice(), right.as_slice()),
        _ => false,
    }
}

/// Whether there are as many on both sides, each equal to the one at its place.
#[cycle(equality)]
pub fn all_same(left: &[Value], right: &[Value]) -> bool
    ensures { result ≡ all_equal (map are_equal left.now) right.now }
{
    if left.len() != right.len() {
        return false;
    }
    for (i, value) in left.iter().enumerate() {
        if !same(value, &right[i]) {
            return false;
        }
    }
    true
}
