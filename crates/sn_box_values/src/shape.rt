use sn_record::Value;

/// What a value is, with its contents lent.
#[derive(Clone, Copy)]
pub enum Shape<'a> {
    Int(i64),
    Text(&'a [u8]),
    List(&'a [Value]),
}
