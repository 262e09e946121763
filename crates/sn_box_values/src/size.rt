ghost use Rattle.sn_record.specs.Value.{IsSound};
ghost use Rattle.sn_box_values.specs.Size.{IsSizeOf};

use sn_record::Value;

/// How deep a value is nested, and what it weighs.
#[derive(Clone, Copy)]
pub struct Size {
    pub levels: u32,
    pub weight: u32,
}

/// It goes as deep in calls as the value is nested.
pub fn size_of(whole: &Value) -> Size
    requires { IsSound whole.now }
    ensures { IsSizeOf whole.now result }
{
    match whole {
        Value::Int(_) => Size {
            levels: 0,
            weight: 1,
        },
        Value::Text(text) => Size {
            levels: 0,
            weight: 1 + text.len() as u32,
        },
        Value::List(values) => {
            let mut levels = 0;
            let mut weight = 1;
            for value in values.as_slice() {
                let size = size_of(value);
                levels = size.levels.max(levels);
                weight += size.weight;
            }
            Size {
                levels: levels + 1,
                weight,
            }
        }
    }
}
