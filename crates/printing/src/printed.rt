//! What a page comes to is printed.
ghost use Rattle.std.specs.Prelude.{◌≡◌, ◌≤◌, length};
ghost use Rattle.rows.specs.Rows.{over};
ghost use Rattle.listing.specs.Listing.{longest};
ghost use Rattle.page.specs.Answers.{fault_row};
ghost use Rattle.printing.specs.Listings.{Prints};

use crate::listing_of::write_listing;
use divider::Divider;
use page::{Fault, bill_page, fault_row};

/// The bytes that there must be room for: a row for each of 512 customers, and the sums.
pub const ROOM: usize = 513 * listing::ROW;

/// What was printed for a page: how many bytes, and the fault where the page is refused.
#[derive(Clone, Copy)]
pub struct Printed {
    pub length: usize,
    pub fault: Option<Fault>,
}

// Writes the row of a fault, and answers how many bytes it has.
fn write_fault(fault: Fault, buffer: &mut [u8]) -> usize
    requires { longest ≤ length buffer.old }
    ensures count { result ≡ length (fault_row fault) }
    ensures after { buffer.new ≡ over (fault_row fault) buffer.old }
{
    fault_row(fault, buffer).unwrap_or(0)
}

/// Prints what a page comes to at the front of a buffer: the listing of its
/// closed and billed book, or the row of its fault.
///
/// The listing has a row for each customer, in the order of the page, and then
/// the row of sums. The marks of the rows add up to the founding total and the
/// grants, the RHWMs to the capability, and the charges in each pool to its
/// cost, which is the one drawn from the page's lines. All charges add up to the
/// page's expenses less its credits. The bytes of the buffer past what is
/// printed stay as they were.
pub fn print_page<D: Divider + Drop>(divider: D, page: &[u8], buffer: &mut [u8; ROOM]) -> Printed
    ensures prints { Prints D.Divider.meaning divider page.now buffer.old result buffer.new }
    ensures fits { result.length ≤ length buffer.new }
{
    match bill_page(divider, page) {
        Ok(mut billed) => Printed {
            length: write_listing(&mut billed, page, buffer),
            fault: None,
        },
        Err(fault) => Printed {
            length: write_fault(fault, buffer),
            fault: Some(fault),
        },
    }
}
