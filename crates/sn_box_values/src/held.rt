use sn_record::Value;
use std::alloc::Global;
use std::rc::Rc;

/// How a value is held: an Int in its place, and any other where several may share it.
#[derive(Drop)]
pub enum Held {
    Int(i64),
    Shared(Rc<Value, Global>),
}
