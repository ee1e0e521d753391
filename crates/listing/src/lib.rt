//! The listing of a closed book: a row for each customer, and the sums.
#![tactic(auto)]

mod fields;
mod refusal;
mod rows_of;

pub use refusal::Refusal;
pub use rows_of::{ROW, customer_row, sum_row};
