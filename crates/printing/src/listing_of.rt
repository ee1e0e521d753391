//! The listing of a billed page.
ghost use Rattle.std.specs.Prelude.{◌≡◌, ◌+◌, ◌*◌, ◌≤◌, true, map, length, is_some};
ghost use Rattle.std.specs.List.{All};
ghost use Rattle.register.specs.Records.{lookup};
ghost use Rattle.register.specs.Register.{records};
ghost use Rattle.rows.specs.Rows.{over, parts_after};
ghost use Rattle.book.specs.Customers.{key};
ghost use Rattle.lines.specs.Lines.{line_of};
ghost use Rattle.lines.specs.Questions.{a_name};
ghost use Rattle.listing.specs.Listing.{customer_row, sum_row, longest};
ghost use Rattle.page.specs.Pages.{page_lines};
ghost use Rattle.page.specs.Billed.{closed_of};
ghost use Rattle.printing.specs.Listings.{numbers, rows_of, listing};
ghost use Rattle.printing.specs.Steps.{CustomersFirst, Listable};

use book::ClosedBook;
use lines::Line;
use listing::{customer_row, sum_row};
use page::Billed;
use records::Customer;
use register::Register;

// Writes the row of a customer who stands, and answers how many bytes it has.
fn write_row<D>(
    book: &ClosedBook<D>,
    customers: &Register<'_, Customer>,
    charges: &[i64],
    number: u32,
    name: &[u8],
    buffer: &mut [u8],
) -> usize
    requires stands { is_some (lookup key number (records customers.now)) ≡ true }
    requires wide { 4 * length (records customers.now) ≤ length charges.now }
    requires name { a_name name.now ≡ true }
    requires room { longest ≤ length buffer.old }
    ensures count { result ≡ length (customer_row (records customers.now) charges.now number name.now) }
    ensures short { result ≤ longest }
    ensures after { buffer.new ≡ over (customer_row (records customers.now) charges.now number name.now) buffer.old }
{
    customer_row(book, customers, charges, number, name, buffer).unwrap_or(0)
}

// Writes the row of sums, and answers how many bytes it has.
fn write_sums<D>(
    book: &ClosedBook<D>,
    customers: &Register<'_, Customer>,
    buffer: &mut [u8],
) -> usize
    requires { longest ≤ length buffer.old }
    ensures count { result ≡ length (sum_row book.now.costs book.now.credits (records customers.now)) }
    ensures after { buffer.new ≡ over (sum_row book.now.costs book.now.credits (records customers.now)) buffer.old }
{
    sum_row(book, customers, buffer).unwrap_or(0)
}

// Writes the rows of lines up to the first that is no customer's, and answers
// how many bytes they have.
fn write_rows<D>(
    book: &ClosedBook<D>,
    customers: &Register<'_, Customer>,
    charges: &[i64],
    lines: Option<&[u8]>,
    buffer: &mut [u8],
) -> usize
    requires first { CustomersFirst (map line_of (parts_after 10 lines)) }
    requires stand { All (λ n. is_some (lookup key n (records customers.now)) ≡ true) (numbers (map line_of (parts_after 10 lines))) }
    requires wide { 4 * length (records customers.now) ≤ length charges.now }
    requires room { longest * (length (numbers (map line_of (parts_after 10 lines))) + 1) ≤ length buffer.old }
    ensures count { result ≡ length (rows_of (records customers.now) charges.now (map line_of (parts_after 10 lines.entry))) }
    ensures few { result ≤ longest * length (numbers (map line_of (parts_after 10 lines.entry))) }
    ensures after { buffer.new ≡ over (rows_of (records customers.now) charges.now (map line_of (parts_after 10 lines.entry))) buffer.old }
{
    let mut at = 0;
    let mut rest = lines;
    while let Some(bytes) = rest {
        let (line, after) = rows::split(bytes, b'\n');
        let Ok(read) = lines::read(line) else {
            break;
        };
        let Line::Customer { name, figures } = read else {
            break;
        };
        let number = figures.number as u32;
        at += write_row(book, customers, charges, number, name, &mut buffer[at..]);
        rest = after;
    }
    at
}

/// Writes the listing of a billed page at the front of a buffer, and answers
/// how many bytes it has.
pub(crate) fn write_listing<D>(billed: &mut Billed<D>, page: &[u8], buffer: &mut [u8]) -> usize
    requires listable { Listable (map line_of (page_lines page.now)) (closed_of billed.old) }
    requires room { length buffer.old ≡ 513 * longest }
    ensures count { result ≡ length (listing (closed_of billed.old) (map line_of (page_lines page.now))) }
    ensures after { buffer.new ≡ over (listing (closed_of billed.old) (map line_of (page_lines page.now))) buffer.old }
{
    let body = &page[..page.len().saturating_sub(1)];
    let (_, lines) = rows::split(body, b'\n');
    let (book, charges) = (&billed.book, &billed.charges);
    let customers = Register::of(&mut billed.customers, billed.standing);
    let at = write_rows(book, &customers, charges, lines, buffer);
    at + write_sums(book, &customers, &mut buffer[at..])
}
