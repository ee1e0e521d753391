//! Customers.
use register::Keyed;

/// A customer's record: loads in thousandths of an average megawatt.
#[derive(Clone, Copy)]
pub struct Customer {
    pub number: u32,
    /// The measured load.
    pub measured: u32,
    /// The resources at founding.
    pub founding: u32,
    pub conservation: u32,
    /// The retail load.
    pub retail: u32,
    /// The new large loads.
    pub large: u32,
    pub resources: u32,
    /// The elected Tier 2 load.
    pub elected: u32,
    /// The slice amount.
    pub slice: u32,
    /// The high water mark.
    pub mark: u32,
    /// The load lifted off the mark and not landed yet.
    pub transit: u32,
    /// The Rate Period High Water Mark.
    pub rhwm: u32,
}

impl Customer {
    /// A record of zeros, for places that a register has not written yet.
    pub const BLANK: Customer = Customer {
        number: 0,
        measured: 0,
        founding: 0,
        conservation: 0,
        retail: 0,
        large: 0,
        resources: 0,
        elected: 0,
        slice: 0,
        mark: 0,
        transit: 0,
        rhwm: 0,
    };
}

impl Keyed for Customer {
    ghost key = { λ c. c.number };

    fn number(&self) -> u32 {
        self.number
    }
}
