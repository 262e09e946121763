/// Why an expression has no value.
#[derive(Clone, Copy, PartialEq, Eq, Debug)]
pub enum ExprFault {
    /// A number past 64 bits.
    Overflow,
    /// A division by 0.
    DivZero,
}
