//! Lines of a page, without their end byte: a reader and a writer, and the round trip.
#![tactic(auto)]

mod asking;
mod fault;
mod letters;
mod line;
mod reading;
mod taking;
mod writing;

pub use asking::is_name;
pub use fault::{Fault, Refusal};
pub use line::Line;
pub use reading::read;
pub use writing::write;
