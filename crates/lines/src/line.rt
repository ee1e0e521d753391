//! Lines by what they hold.
use book::{Figures, Posting};

/// A line of a page. Its figures are plain numbers: a line that was read has
/// each in its range, and one that is to be written is asked.
#[derive(Clone, Copy)]
pub enum Line<'a> {
    /// H: the loads that a book is made for, in thousandths of an average
    /// megawatt.
    Header {
        founding_total: u64,
        capability: u64,
    },
    /// C: a customer. The name is a part of the page.
    Customer {
        name: &'a [u8],
        figures: Figures,
    },
    /// E, R or A: an expense, a credit or a shift.
    Cost {
        number: u32,
        posting: Posting,
        cents: u64,
    },
    /// G: a grant of mark.
    Grant {
        customer: u32,
        load: u64,
    },
    /// T: a transfer of mark.
    Transfer {
        giver: u32,
        receiver: u32,
        load: u64,
    },
}
