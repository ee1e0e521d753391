//! Fields of a row.

/// A field of a row, as it is written.
#[derive(Clone, Copy)]
pub enum Field<'a> {
    /// Bytes as they are.
    Text(&'a [u8]),
    /// A character, in UTF-8.
    Letter(char),
    /// A number, in decimal digits.
    Figure(u64),
    /// A number below 0, by its size: a minus, and decimal digits.
    Minus(u64),
}
