use sn_model::Outcome;

/// What came of a turn of the owner.
#[derive(Clone, Copy)]
pub enum Turn {
    /// Something was done.
    Went,
    /// There is nothing to do until an answer comes.
    Idle,
    Ended(Outcome),
}
