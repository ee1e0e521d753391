//! A page of lines, from its bytes to a closed and billed book, or to its fault.
#![tactic(auto)]

mod acting;
mod fault;
mod remaining;
mod settling;
mod taking;
mod whole;

pub use fault::{Cause, Fault, Refusal, fault_row};
pub use whole::{Billed, bill_page};
