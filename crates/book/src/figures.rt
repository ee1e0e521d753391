//! What a caller enters: figures as they come, and pools by their letters.

/// The figures of a customer, as they are entered.
#[derive(Clone, Copy)]
pub struct Figures {
    pub number: u64,
    pub measured: u64,
    pub founding: u64,
    pub conservation: u64,
    pub retail: u64,
    pub large: u64,
    pub resources: u64,
    pub elected: u64,
    pub slice: u64,
}

/// What a cost line is to do, with pools by their letters.
// Not one type with `records::Entry`: letters may name no pool, and no record
// holds one.
#[derive(Clone, Copy)]
pub enum Posting {
    /// An expense of a pool.
    Expense(char),
    /// A credit of a pool.
    Credit(char),
    /// A shift: a cost of the first pool, a credit of the second.
    Shift(char, char),
}
