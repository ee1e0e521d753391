//! A whole page, from its first line to the bills.
ghost use Rattle.std.specs.Prelude.{◌≡◌, ◌≤◌, [], map, length, replicate, pos};
ghost use Rattle.register.specs.Register.{room, records};
ghost use Rattle.rows.specs.Rows.{parts_after};
ghost use Rattle.lines.specs.Lines.{line_of};
ghost use Rattle.page.specs.Pages.{Leads, ComesTo, OnlyOutcome};
ghost use Rattle.page.specs.Steps.{Bodies};
ghost use Rattle.page.specs.Billed.{closed_as, RestBlank};
ghost use Rattle.page.specs.Sums.{PageAddsUp};

use crate::acting::act_all;
use crate::fault::{Cause, Fault, Refusal};
use crate::remaining::Lines;
use crate::settling::{found, settle};
use crate::taking::{enter_all, header_of};
use book::{ClosedBook, Intake};
use divider::Divider;
use records::{CostLine, Customer};
use register::Register;

// A page without its last byte, which ends it.
fn body(page: &[u8]) -> Result<&[u8], Refusal>
    ensures { Bodies page.now result }
{
    if page.len() > 65_536 {
        return Err(Refusal::TooLong);
    }
    page.strip_suffix(b"\n").ok_or(Refusal::Unended)
}

// Does what the lines after the header say, and settles the book at the last.
fn lead<D: Divider + Drop>(
    intake: Intake<D>,
    rest: Option<&[u8]>,
    customers: &mut Register<'_, Customer>,
    charges: &mut [i64],
) -> Result<ClosedBook<D>, Fault>
    requires { length (parts_after 10 rest) ≤ 65536 }
    ensures { Leads D.Divider.meaning (room customers.old) 512 intake (records customers.old) charges.old (map line_of (parts_after 10 rest.entry)) result (records customers.new) charges.new }
{
    let lines = enter_all(&intake, Lines { number: 2, rest }, customers)?;
    let line = lines.here();
    let mut book = found(intake, customers).map_err(|(_, refusal)| Cause::Book(refusal).at(line))?;
    let last = act_all(
        &mut book,
        lines,
        customers,
        &mut Register::new(&mut [CostLine::BLANK; 512]),
    )?;
    settle(book, customers, charges).map_err(|refusal| Cause::Book(refusal).at(last))
}

/// A closed and billed book, with the records of its customers, which are the
/// first `standing` of `customers`, and their charges. The places past them are
/// blank.
// Memory and how many records stand in it, as `Register::of` takes them.
#[derive(Drop)]
pub struct Billed<D> {
    pub book: ClosedBook<D>,
    pub customers: [Customer; 512],
    pub standing: usize,
    pub charges: [i64; 2048],
}

// Takes a page to its closed and billed book, by a register and a sheet that are lent.
fn bill_in<D: Divider + Drop>(
    divider: D,
    page: &[u8],
    customers: &mut Register<'_, Customer>,
    charges: &mut [i64; 2048],
) -> Result<Billed<D>, Fault>
    requires empty { records customers.old ≡ [] }
    requires room { room customers.old ≡ 512 }
    requires zeros { charges.old ≡ replicate 2048 (pos 0) }
    ensures comes { ComesTo D.Divider.meaning divider page.now (closed_as result) }
    ensures rest { RestBlank result }
{
    let body = body(page).map_err(|refusal| Cause::from(refusal).at(0))?;
    let (first, rest) = rows::split(body, b'\n');
    let header = header_of(first).map_err(|cause| cause.at(1))?;
    let intake = Intake::new(divider, header);
    let book = lead(intake, rest, customers, charges)?;
    let records = customers.records();
    let standing = records.len();
    let mut listed = [Customer::BLANK; 512];
    listed[..standing].copy_from_slice(records);
    Ok(Billed {
        book,
        customers: listed,
        standing,
        charges: *charges,
    })
}

/// Takes a page to its closed and billed book.
///
/// Asks whether the page has at most 65,536 bytes (1) and ends with byte 10
/// (2). Line 1 is the header, and no other line is one (10); customers' lines
/// come before all others (11). Each line is read before 10 and 11 are put.
/// The book is founded at the first line after the customers', or at the end;
/// cost lines are posted, loads granted and transferred, and at the end the
/// book is closed and billed in C, N, S and T. What the lines or the book
/// refuse is told with the number of the line; at the end, of the last.
///
/// The marks add up to the founding total and the grants, the RHWMs to the
/// capability, and the charges in each pool to its cost, which is the one drawn
/// from the page's lines. All charges add up to the page's expenses less its
/// credits.
pub fn bill_page<D: Divider + Drop>(divider: D, page: &[u8]) -> Result<Billed<D>, Fault>
    ensures comes { ComesTo D.Divider.meaning divider page.now (closed_as result) }
    ensures only { OnlyOutcome D.Divider.meaning divider page.now (closed_as result) }
    ensures rest { RestBlank result }
    ensures sums { PageAddsUp page.now (closed_as result) }
{
    // Fixed memory and no Vec: a page is billed without a heap. It is lent as it
    // is made, since memory that a `let` binds is cleared twice.
    bill_in(
        divider,
        page,
        &mut Register::new(&mut [Customer::BLANK; 512]),
        &mut [0; 2048],
    )
}
