use sn_record::Item;

/// An entry of a stream.
#[derive(Drop)]
pub enum StreamItem {
    Item(Item),
    /// The end of what comes of one item.
    Mark,
    /// The end of the stream.
    End,
}
