//! One side of all four pools.

/// The cost side, or the credit side, of the four pools, in cents.
#[derive(Clone, Copy)]
pub struct Sides {
    pub composite: u64,
    pub nonslice: u64,
    pub slice: u64,
    pub tier2: u64,
}
