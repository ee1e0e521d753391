//! What is printed for a page: its listing, or the row of its fault.
#![tactic(auto)]

mod listing_of;
mod printed;

pub use printed::{Printed, ROOM, print_page};
