//! A line is written.
ghost use Rattle.std.specs.Prelude.{◌≡◌, ◌≤◌, map, length};
ghost use Rattle.rows.specs.Rows.{spelled};
ghost use Rattle.units.specs.Ranges.{count};
ghost use Rattle.lines.specs.Lines.{header, customer, cost, grant, transfer, contents, Writes};
ghost use Rattle.lines.specs.Writing.{Shaped, WritesFields};

use crate::asking::ask;
use crate::fault::{Fault, Refusal};
use crate::line::Line;
use book::{Figures, Posting};
use rows::Field;
use units::Letter;

// Asks what is asked of each field after the letter, then whether the buffer
// is long enough, and writes the fields.
fn write_fields(letter: Letter, fields: &[Field<'_>], buffer: &mut [u8]) -> Result<usize, Fault>
    requires { (Shaped letter fields.now) × (length fields.now ≡ count letter) }
    ensures { WritesFields letter (map spelled fields.now) buffer.old result buffer.new }
{
    for (i, field) in fields[1..].iter().enumerate() {
        ask(letter, i + 2, *field, fields[i])?;
    }
    rows::write(fields, b"", buffer).ok_or(Fault::of_line(Refusal::NoRoom))
}

// Writes a header's line.
fn write_header(founding_total: u64, capability: u64, buffer: &mut [u8]) -> Result<usize, Fault>
    ensures { Writes (header founding_total capability) buffer.old result buffer.new }
{
    let fields = [
        Field::Text(b"H"),
        Field::Figure(founding_total),
        Field::Figure(capability),
    ];
    write_fields(Letter::Header, &fields, buffer)
}

// Writes a customer's line.
fn write_customer(name: &[u8], figures: Figures, buffer: &mut [u8]) -> Result<usize, Fault>
    ensures { Writes (customer name.now figures) buffer.old result buffer.new }
{
    let fields = [
        Field::Text(b"C"),
        Field::Figure(figures.number),
        Field::Text(name),
        Field::Figure(figures.measured),
        Field::Figure(figures.founding),
        Field::Figure(figures.conservation),
        Field::Figure(figures.retail),
        Field::Figure(figures.large),
        Field::Figure(figures.resources),
        Field::Figure(figures.elected),
        Field::Figure(figures.slice),
    ];
    write_fields(Letter::Customer, &fields, buffer)
}

// Writes a cost line.
fn write_cost(number: u32, posting: Posting, cents: u64, buffer: &mut [u8]) -> Result<usize, Fault>
    ensures { Writes (cost number posting cents) buffer.old result buffer.new }
{
    let number = Field::Figure(u64::from(number));
    let cents = Field::Figure(cents);
    match posting {
        Posting::Expense(pool) => {
            let fields = [Field::Text(b"E"), number, Field::Letter(pool), cents];
            write_fields(Letter::Expense, &fields, buffer)
        }
        Posting::Credit(pool) => {
            let fields = [Field::Text(b"R"), number, Field::Letter(pool), cents];
            write_fields(Letter::Credit, &fields, buffer)
        }
        Posting::Shift(first, second) => {
            let (first, second) = (Field::Letter(first), Field::Letter(second));
            let fields = [Field::Text(b"A"), number, first, second, cents];
            write_fields(Letter::Shift, &fields, buffer)
        }
    }
}

// Writes a grant's line.
fn write_grant(customer: u32, load: u64, buffer: &mut [u8]) -> Result<usize, Fault>
    ensures { Writes (grant customer load) buffer.old result buffer.new }
{
    let fields = [
        Field::Text(b"G"),
        Field::Figure(u64::from(customer)),
        Field::Figure(load),
    ];
    write_fields(Letter::Grant, &fields, buffer)
}

// Writes a transfer's line.
fn write_transfer(giver: u32, receiver: u32, load: u64, buffer: &mut [u8]) -> Result<usize, Fault>
    ensures { Writes (transfer giver receiver load) buffer.old result buffer.new }
{
    let fields = [
        Field::Text(b"T"),
        Field::Figure(u64::from(giver)),
        Field::Figure(u64::from(receiver)),
        Field::Figure(load),
    ];
    write_fields(Letter::Transfer, &fields, buffer)
}

/// Writes a line at the front of a buffer, and answers its length.
///
/// Asks, field by field, whether a figure is in its range (6), whether a name
/// has 1 to 24 bytes from 32 to 126 without the comma (7), and whether a
/// pool's letter is C, N, S or T and, in a shift, the second unlike the first
/// (8); then whether the buffer is long enough (9), with field 0. What is
/// written is read again as the same line; a refusal leaves the buffer as it
/// was.
pub fn write(line: &Line<'_>, buffer: &mut [u8]) -> Result<usize, Fault>
    ensures { Writes (contents line.now) buffer.old result buffer.new }
{
    match *line {
        Line::Header {
            founding_total,
            capability,
        } => write_header(founding_total, capability, buffer),
        Line::Customer { name, figures } => write_customer(name, figures, buffer),
        Line::Cost {
            number,
            posting,
            cents,
        } => write_cost(number, posting, cents, buffer),
        Line::Grant { customer, load } => write_grant(customer, load, buffer),
        Line::Transfer {
            giver,
            receiver,
            load,
        } => write_transfer(giver, receiver, load, buffer),
    }
}
