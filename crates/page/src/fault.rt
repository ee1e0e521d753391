//! What is wrong with a page, and where.
ghost use Rattle.std.specs.Prelude.{◌≡◌, ◌≤◌, length};
ghost use Rattle.listing.specs.Listing.{Short};
ghost use Rattle.page.specs.Answers.{number, field, layer, fault_row, Tells};
ghost use Rattle.page.specs.declared.fault.Cause.TheVariants.{Page, Line, Book};
ghost use Rattle.book.specs.declared.refusal.Refusal.TheVariants.{OutOfRange};
ghost use Rattle.page.specs.Pages.{at_line};

use rows::Field;

/// A question to a page that is answered no.
#[derive(Clone, Copy, PartialEq, Eq, Debug)]
pub enum Refusal {
    /// 1: the page has more than 65,536 bytes.
    TooLong = 1,
    /// 2: the page does not end with byte 10.
    Unended = 2,
    /// 10: the first line is no header, or a later one is.
    HeaderPlace = 10,
    /// 11: a customer's line stands after a line of another kind.
    LateCustomer = 11,
}

/// Why a page is refused: by the page itself, by one of its lines, or by the
/// book.
#[derive(Clone, Copy, PartialEq, Eq, Debug)]
pub enum Cause {
    Page(Refusal),
    Line(lines::Fault),
    Book(book::Refusal),
}

impl From<Refusal> for Cause {
    ghost from_gives = { λ e f. f ≡ Page e };

    fn from(e: Refusal) -> Cause {
        Cause::Page(e)
    }
}

impl From<lines::Fault> for Cause {
    ghost from_gives = { λ e f. f ≡ Line e };

    fn from(e: lines::Fault) -> Cause {
        Cause::Line(e)
    }
}

impl From<book::Refusal> for Cause {
    ghost from_gives = { λ e f. f ≡ Book e };

    fn from(e: book::Refusal) -> Cause {
        Cause::Book(e)
    }
}

/// A figure that is outside its range is refused as the book refuses it.
impl From<units::Refusal> for Cause {
    ghost from_gives = { λ e f. f ≡ Book OutOfRange };

    fn from(e: units::Refusal) -> Cause {
        Cause::Book(book::Refusal::from(e))
    }
}

impl Cause {
    /// The fault of a line for this cause.
    pub(crate) fn at(self, line: usize) -> Fault
        ensures { result ≡ at_line line self }
    {
        Fault { line, cause: self }
    }

    /// The number by which the refusal is known.
    pub fn number(self) -> u8
        ensures { result ≡ number self }
    {
        match self {
            Cause::Page(refusal) => refusal as u8,
            Cause::Line(fault) => fault.refusal.number(),
            Cause::Book(refusal) => refusal.number(),
        }
    }

    /// The field that it names; 0 for none, as the row of a fault writes it.
    pub fn field(self) -> usize
        ensures { result ≡ field self }
    {
        match self {
            Cause::Page(Refusal::HeaderPlace | Refusal::LateCustomer) => 1,
            Cause::Line(fault) => fault.field,
            _ => 0,
        }
    }

    // The name of its layer.
    fn layer(self) -> &'static [u8]
        ensures is { result.now ≡ layer self }
        ensures few { length (layer self) ≤ 24 }
    {
        match self {
            Cause::Page(_) => b"page",
            Cause::Line(_) => b"line",
            Cause::Book(_) => b"book",
        }
    }
}

/// The fault of a page: the line that it names, 0 for none, and the cause.
// Line 0 and no Option, since the row of a fault writes it so.
#[derive(Clone, Copy, PartialEq, Eq, Debug)]
pub struct Fault {
    pub line: usize,
    pub cause: Cause,
}

/// Writes the row of a fault at the front of a buffer, and answers its
/// length: F, the layer, the line, the field, the number, and the end byte.
///
/// Asks whether the buffer is long enough (9), which one of `listing::ROW`
/// bytes is.
pub fn fault_row(fault: Fault, buffer: &mut [u8]) -> Result<usize, listing::Refusal>
    ensures tells { Tells fault buffer.old result buffer.new }
    ensures short { Short (fault_row fault) result }
{
    let fields = [
        Field::Text(b"F"),
        Field::Text(fault.cause.layer()),
        Field::Figure(fault.line as u64),
        Field::Figure(fault.cause.field() as u64),
        Field::Figure(u64::from(fault.cause.number())),
    ];
    rows::write(&fields, b"\n", buffer).ok_or(listing::Refusal::NoRoom)
}
