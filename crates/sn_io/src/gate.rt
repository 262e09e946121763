/// Called round each call of a box, by the thread that makes the call. No answer depends on it.
///
/// It lets a test see and order the calls.
pub trait Gate: Sync {
    /// Before the call with this number.
    fn enter(&self, call: u64);

    /// After the call with this number.
    fn leave(&self, call: u64);
}

/// Lets each call pass.
#[derive(Clone, Copy, PartialEq, Eq)]
pub struct OpenGate;

impl Gate for OpenGate {
    fn enter(&self, _call: u64) {}

    fn leave(&self, _call: u64) {}
}
