use crate::filter::tag;
use sn_record::{Record, Value};
use sn_tagexpr::Tags;

/// The tags of a record, as expressions see them.
#[derive(Drop)]
pub struct RecordTags<'a>(pub &'a Record);

impl Tags for RecordTags<'_> {
    ghost use Rattle.std.specs.FinMap.{contains_key};
    ghost use Rattle.sn_net.specs.Filter.{tag as tag_label};
    ghost use Rattle.sn_net.specs.Answer.{tag_number};

    ghost has = { λ tags id. contains_key tags.0.now (tag_label id) };

    ghost number = { λ tags id. tag_number tags.0.now id };

    fn tag(&self, id: u32) -> i64 {
        match self.0.get(tag(id)) {
            Some(Value::Int(n)) => *n,
            _ => 0,
        }
    }
}
