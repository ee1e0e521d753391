//! Rows of text: bytes parted at a separator, and fields joined by commas.
#![tactic(auto)]

mod field;
mod parting;
mod writing;

pub use field::Field;
pub use parting::{separators, split};
pub use writing::write;
