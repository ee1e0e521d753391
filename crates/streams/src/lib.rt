//! What a program reads from and writes to, and how it ends where one of them fails.
#![tactic(auto)]

mod failure;
mod sink;
mod source;

pub use failure::{Failure, conclude};
pub use sink::Sink;
pub use source::Source;
