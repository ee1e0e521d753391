//! The stages of a book, each over the divider that it holds.
use crate::sides::Sides;
use units::Header;

/// A book that takes customers in.
#[derive(Drop)]
pub struct Intake<D> {
    pub(crate) divider: D,
    pub(crate) header: Header,
}

/// A founded book: marks and cost lines may change.
#[derive(Drop)]
pub struct OpenBook<D> {
    pub(crate) divider: D,
    pub(crate) header: Header,
    pub(crate) granted: u64,
    pub(crate) costs: Sides,
    pub(crate) credits: Sides,
}

/// A book whose RHWMs are written: it bills.
// A type of its own with the fields of an open book, so that no call takes a
// book of another stage.
#[derive(Drop)]
pub struct ClosedBook<D> {
    pub(crate) divider: D,
    pub(crate) header: Header,
    pub(crate) granted: u64,
    pub(crate) costs: Sides,
    pub(crate) credits: Sides,
}
