//! The records that a rate book keeps, and the figures that are drawn from them.
#![tactic(auto)]

mod cost_line;
mod customer;
mod figures;
mod pool;

pub use cost_line::{CostLine, Entry};
pub use customer::Customer;
pub use pool::Pool;
