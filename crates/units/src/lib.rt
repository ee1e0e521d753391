//! The quantities of the rate book, each with its range in its type, and the one table of ranges.
#![tactic(auto)]

mod cents;
mod header;
mod load;
mod ranges;

pub use cents::Cents;
pub use header::Header;
pub use load::Load;
pub use ranges::{
    CAPABILITY, CENTS, CONSERVATION, ELECTED, FOUNDING, FOUNDING_TOTAL, Kind, LARGE, LOAD, Letter,
    MEASURED, Measure, NUMBER, RESOURCES, RETAIL, Refusal, SLICE, count, form, in_range, kind_at,
    range,
};
