//! The four cost pools.

/// A cost pool.
#[derive(Clone, Copy, PartialEq, Eq, Debug)]
pub enum Pool {
    /// C.
    Composite,
    /// N.
    NonSlice,
    /// S.
    Slice,
    /// T.
    Tier2,
}
