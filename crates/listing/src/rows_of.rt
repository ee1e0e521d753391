//! The rows of a listing.
ghost use Rattle.std.specs.Prelude.{◌≡◌};
ghost use Rattle.register.specs.Register.{records};
ghost use Rattle.listing.specs.Listing.{customer_row, sum_row, Short, ListsCustomer, ListsSums};

use crate::fields::{charge, cost, sums};
use crate::refusal::Refusal;
use book::ClosedBook;
use records::{Customer, Pool};
use register::Register;
use rows::Field;

/// The most bytes of a row.
pub const ROW: usize = 225;

/// Writes the row of a customer at the front of a buffer, and answers its
/// length: number, name, mark, RHWM, Above-RHWM load, and the charges in C, N,
/// S and T, with a minus before a negative one, and the end byte.
///
/// Asks whether the customer stands (25), whether the charges sheet has four
/// places for each customer (22), whether the name is lawful (7), and whether
/// the buffer is long enough (9), which one of `ROW` bytes is.
pub fn customer_row<D>(
    _book: &ClosedBook<D>,
    customers: &Register<'_, Customer>,
    charges: &[i64],
    number: u32,
    name: &[u8],
    buffer: &mut [u8],
) -> Result<usize, Refusal>
    ensures lists { ListsCustomer (records customers.now) charges.now number name.now buffer.old result buffer.new }
    ensures short { Short (customer_row (records customers.now) charges.now number name.now) result }
{
    let at = customers.find(number).map_err(|_| Refusal::Missing)?;
    let records = customers.records();
    let n = records.len();
    if charges.len() < 4 * n {
        return Err(Refusal::ShortSheet);
    }
    if !lines::is_name(name) {
        return Err(Refusal::NotAName);
    }
    let customer = records[at];
    let fields = [
        Field::Figure(u64::from(customer.number)),
        Field::Text(name),
        Field::Figure(u64::from(customer.mark)),
        Field::Figure(u64::from(customer.rhwm)),
        Field::Figure(u64::from(customer.above_rhwm_load())),
        charge(charges, n, at, Pool::Composite),
        charge(charges, n, at, Pool::NonSlice),
        charge(charges, n, at, Pool::Slice),
        charge(charges, n, at, Pool::Tier2),
    ];
    rows::write(&fields, b"\n", buffer).ok_or(Refusal::NoRoom)
}

/// Writes the row of sums at the front of a buffer, and answers its length:
/// 0, SUM, the sums of marks, RHWMs and Above-RHWM loads, the costs of the
/// pools C, N, S and T, and the end byte.
///
/// Asks whether the buffer is long enough (9), which one of `ROW` bytes is.
pub fn sum_row<D>(
    book: &ClosedBook<D>,
    customers: &Register<'_, Customer>,
    buffer: &mut [u8],
) -> Result<usize, Refusal>
    ensures lists { ListsSums book.now.costs book.now.credits (records customers.now) buffer.old result buffer.new }
    ensures short { Short (sum_row book.now.costs book.now.credits (records customers.now)) result }
{
    let (marks, rhwms, above) = sums(customers.records());
    let fields = [
        Field::Figure(0),
        Field::Text(b"SUM"),
        Field::Figure(marks),
        Field::Figure(rhwms),
        Field::Figure(above),
        cost(book, Pool::Composite),
        cost(book, Pool::NonSlice),
        cost(book, Pool::Slice),
        cost(book, Pool::Tier2),
    ];
    rows::write(&fields, b"\n", buffer).ok_or(Refusal::NoRoom)
}
