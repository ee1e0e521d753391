//! The rate book, in stages: an intake takes customers in and is founded; an
//! open book moves marks and cost lines and is closed; a closed book bills.
//!
//! A book holds its divider and plain numbers. The registers of customers and
//! cost lines, and the sheets, are given to each call. A call that refuses
//! leaves all of them as they were, but for landings that send their load home.
//! What a call answers and what its register keeps are clauses of their own,
//! since callers cite them one by one.
#![tactic(auto)]

mod amounts;
mod billing;
mod closing;
mod entering;
mod entries;
mod figures;
mod founding;
mod lines;
mod marks;
mod parcel;
mod refusal;
mod sharing;
mod sides;
mod stages;
mod weighing;

pub use figures::{Figures, Posting};
pub use parcel::Parcel;
pub use refusal::Refusal;
pub use sides::Sides;
pub use stages::{ClosedBook, Intake, OpenBook};
