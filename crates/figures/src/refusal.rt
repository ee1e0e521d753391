//! Why some bytes are not read as a figure.

/// The answers to bytes that are no figure, or too large a one.
#[derive(Clone, Copy, PartialEq, Eq, Debug)]
pub enum Refusal {
    /// 5: not digits only, none at all, or a leading 0 that is not the only digit.
    NotAFigure = 5,
    /// 6: above 2^64 - 1.
    OutOfRange = 6,
}
