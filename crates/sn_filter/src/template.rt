ghost use Rattle.std.specs.Prelude.{◌≡◌, ◌∷◌, [], All, IsTrue, IfOk, IfSome, OnOk};
ghost use Rattle.std.specs.FinMap.{empty, get};
ghost use Rattle.sn_record.specs.Record.{FitsLabel, Matches};
ghost use Rattle.sn_net.specs.Filter.{is_from, target};
ghost use Rattle.sn_net.specs.Answer.{part_value, template_record as answered_record, with_parts, with_value};
ghost use Rattle.sn_filter.specs.Outcome.{Gives};

use crate::outcome::Stop;
use sn_list::Memory;
use sn_net::{Part, RecordTags, Template};
use sn_record::{Kind, Label, LabelSet, Record, Value};
use sn_tagexpr::eval;
use std::alloc::Global;

/// A copy of what a record has at a label.
fn value_at(alloc: Global, taken: &Record, label: Label) -> Result<Option<Value>, Memory>
    ensures value { IfOk result (λ found. found ≡ get taken.now label) }
    ensures fits { IfOk result (λ found. IfSome found (FitsLabel label)) }
{
    match taken.get(label) {
        Some(value) => Ok(Some(value.copy(alloc)?)),
        None => Ok(None),
    }
}

/// The value that a part gives its label, where `taken` has what it takes.
fn value_of(
    alloc: Global,
    part: &Part,
    pattern: &LabelSet,
    taken: &Record,
) -> Result<Option<Value>, Stop>
    requires from { IsTrue (is_from pattern.now part.now) }
    requires matches { Matches taken.now pattern.now }
    ensures value { Gives (part_value taken.now part.now) result }
    ensures fits { IfOk result (λ found. IfSome found (FitsLabel (target part.now))) }
{
    match part {
        Part::Copy(label) => Ok(value_at(alloc, taken, *label)?),
        Part::Rename(_, old) => {
            let kind = Kind::Field;
            Ok(value_at(alloc, taken, Label { kind, id: *old })?)
        }
        Part::Compute(_, expr) => Ok(Some(Value::Int(eval(expr, &RecordTags(taken))?))),
    }
}

/// Sets the value, if there is one, at the label.
fn set_value(made: &mut Record, label: Label, value: Option<Value>) -> Result<(), Memory>
    requires { IfSome value (FitsLabel label) }
    ensures { OnOk result (made.new ≡ with_value made.old label value) }
{
    match value {
        None => Ok(()),
        Some(value) => match made.set(label, value) {
            Ok(_) => Ok(()),
            Err(_) => Err(Memory),
        },
    }
}

/// The record in which the parts are set, from left to right. It has room for them and no more: where it inherits, its
/// entries are moved to those that it inherits.
fn record_of(
    alloc: Global,
    parts: &[Part],
    pattern: &LabelSet,
    taken: &Record,
) -> Result<Record, Stop>
    requires from { All (λ part. IsTrue (is_from pattern.now part)) parts.now }
    requires matches { Matches taken.now pattern.now }
    ensures { Gives (with_parts taken.now parts.now empty) result }
{
    let mut made = Record::with_capacity(alloc, parts.len())?;
    for part in parts {
        let value = value_of(alloc, part, pattern, taken)?;
        set_value(&mut made, part.target(), value)?;
    }
    Ok(made)
}

/// The record of a template, with what it inherits from `taken`.
pub fn template_record(
    alloc: Global,
    template: &Template,
    pattern: &LabelSet,
    taken: &Record,
) -> Result<Record, Stop>
    requires from { All (λ part. IsTrue (is_from pattern.now part)) template.now.parts }
    requires matches { Matches taken.now pattern.now }
    ensures { Gives (answered_record taken.now pattern.now template.now) result }
{
    let made = record_of(alloc, template.parts.as_slice(), pattern, taken)?;
    Ok(made.inheriting(taken, pattern)?)
}

/// The record of a template of one part, whose value is set in what stays of the record that is given up. So it takes no room
/// of its own.
fn part_record(
    alloc: Global,
    part: &Part,
    pattern: &LabelSet,
    taken: Record,
) -> Result<Record, Stop>
    requires from { IsTrue (is_from pattern.now part.now) }
    requires matches { Matches taken pattern.now }
    ensures { Gives (answered_record taken pattern.now (record { parts = part.now ∷ [] })) result }
{
    let value = value_of(alloc, part, pattern, &taken)?;
    let mut made = Record::new(alloc).inheriting_owned(taken, pattern)?;
    set_value(&mut made, part.target(), value)?;
    Ok(made)
}

/// As `template_record`, of a record that is given up once each part has its value.
pub fn template_record_owned(
    alloc: Global,
    template: &Template,
    pattern: &LabelSet,
    taken: Record,
) -> Result<Record, Stop>
    requires from { All (λ part. IsTrue (is_from pattern.now part)) template.now.parts }
    requires matches { Matches taken pattern.now }
    ensures { Gives (answered_record taken pattern.now template.now) result }
{
    match template.parts.as_slice() {
        [part] => part_record(alloc, part, pattern, taken),
        parts => {
            let made = record_of(alloc, parts, pattern, &taken)?;
            Ok(made.inheriting_owned(taken, pattern)?)
        }
    }
}
