//! Cost lines.
use crate::pool::Pool;
use register::Keyed;

/// What a cost line does: an expense raises its pool's cost side, a credit its
/// credit side; a shift raises the cost side of its first pool and the credit
/// side of its second.
#[derive(Clone, Copy)]
pub enum Entry {
    Expense(Pool),
    Credit(Pool),
    Shift(Pool, Pool),
}

/// A cost line's record.
#[derive(Clone, Copy)]
pub struct CostLine {
    pub number: u32,
    pub entry: Entry,
    pub cents: u64,
}

impl CostLine {
    /// A line of no number and no cents, for places that a register has not written yet.
    pub const BLANK: CostLine = CostLine {
        number: 0,
        entry: Entry::Expense(Pool::Composite),
        cents: 0,
    };
}

impl Keyed for CostLine {
    ghost key = { λ l. l.number };

    fn number(&self) -> u32 {
        self.number
    }
}
