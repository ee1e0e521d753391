//! Lines after the customers' act on the open book.
ghost use Rattle.std.specs.Prelude.{◌≡◌, ◌+◌, true, length, IfOk};
ghost use Rattle.units.specs.Ranges.{admits, cents_figure, load_figure};
ghost use Rattle.register.specs.Register.{room, records};
ghost use Rattle.book.specs.Lines.{Posts};
ghost use Rattle.book.specs.Marks.{Grants};
ghost use Rattle.lines.specs.Lines.{line_of};
ghost use Rattle.page.specs.Pages.{Moves, Plays};
ghost use Rattle.page.specs.Steps.{Answered, LineActs, readings, outcome};

use crate::fault::{Cause, Fault, Refusal};
use crate::remaining::Lines;
use book::{OpenBook, Posting};
use lines::Line;
use records::{CostLine, Customer};
use register::Register;
use units::{Cents, Load};

// Posts a cost line.
fn post<D>(
    book: &mut OpenBook<D>,
    costs: &mut Register<'_, CostLine>,
    number: u32,
    posting: Posting,
    cents: u64,
) -> Result<(), Cause>
    requires { admits cents_figure cents ≡ true }
    ensures done { Answered (λ a. Posts book.old (room costs.old) (records costs.old) number posting cents a book.new (records costs.new)) tt result }
    ensures places { room costs.new ≡ room costs.old }
{
    book.post(costs, number, posting, Cents::new(cents)?)?;
    Ok(())
}

// Grants a load.
fn grant<D>(
    book: &mut OpenBook<D>,
    customers: &mut Register<'_, Customer>,
    number: u32,
    load: u64,
) -> Result<(), Cause>
    requires { admits load_figure load ≡ true }
    ensures { Answered (λ a. Grants book.old (records customers.old) number load a book.new (records customers.new)) tt result }
{
    book.grant(customers, number, Load::new(load)?)?;
    Ok(())
}

// Moves a load from one customer's mark to another's.
fn transfer<D>(
    book: &OpenBook<D>,
    customers: &mut Register<'_, Customer>,
    giver: u32,
    receiver: u32,
    load: u64,
) -> Result<(), Cause>
    requires { admits load_figure load ≡ true }
    ensures { Answered (λ a. Moves (records customers.old) giver receiver load a (records customers.new)) tt result }
{
    let parcel = book.lift(customers, giver, Load::new(load)?)?;
    book.land(customers, parcel, receiver)?;
    Ok(())
}

// Does what a line says.
//
// A call of the book borrows the book and one register, so the three stay apart.
fn act<D>(
    book: &mut OpenBook<D>,
    line: &[u8],
    customers: &mut Register<'_, Customer>,
    costs: &mut Register<'_, CostLine>,
) -> Result<(), Cause>
    ensures done { LineActs (room costs.old) book.old (records customers.old) (records costs.old) (line_of line.now) result book.new (records customers.new) (records costs.new) }
    ensures places { room costs.new ≡ room costs.old }
{
    match lines::read(line)? {
        Line::Header { .. } => Err(Cause::Page(Refusal::HeaderPlace)),
        Line::Customer { .. } => Err(Cause::Page(Refusal::LateCustomer)),
        Line::Cost {
            number,
            posting,
            cents,
        } => post(book, costs, number, posting, cents),
        Line::Grant { customer, load } => grant(book, customers, customer, load),
        Line::Transfer {
            giver,
            receiver,
            load,
        } => transfer(book, customers, giver, receiver, load),
    }
}

/// Does what lines say, up to the last or to a fault, and answers the number of
/// the last, or of the line before where there is none.
pub(crate) fn act_all<D>(
    book: &mut OpenBook<D>,
    lines: Lines<'_>,
    customers: &mut Register<'_, Customer>,
    costs: &mut Register<'_, CostLine>,
) -> Result<usize, Fault>
    ensures done { Plays (room costs.old) book.old (records customers.old) (records costs.old) lines.entry.number (readings lines.entry) (outcome result book.new (records customers.new) (records costs.new)) }
    ensures last { IfOk result (λ last. last + 1 ≡ lines.entry.number + length (readings lines.entry)) }
{
    let mut last = lines.number - 1;
    for (number, line) in lines {
        act(book, line, customers, costs).map_err(|cause| cause.at(number))?;
        last = number;
    }
    Ok(last)
}
