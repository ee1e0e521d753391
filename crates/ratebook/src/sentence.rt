//! What is wrong with a page, in words. The texts stand here, and in no Display
//! of the refusals, since the page programs alone print them.
use page::{Cause, Fault, Refusal};
use std::fmt;
use std::str::from_utf8;

// The part at a place of some bytes, from 1 on; none past the last.
fn part(bytes: &[u8], separator: u8, place: usize) -> &[u8] {
    bytes
        .split(|byte| *byte == separator)
        .nth(place.saturating_sub(1))
        .unwrap_or(b"")
}

// Why bytes are no figure.
fn no_figure_words(bytes: &[u8]) -> &'static str {
    if bytes.is_empty() {
        "nothing stands where a figure is wanted"
    } else if bytes.iter().all(u8::is_ascii_digit) {
        "a figure has no leading zero"
    } else {
        "a figure has digits only, without signs, points or spaces"
    }
}

// What is wrong with a figure.
fn figure_words(refusal: figures::Refusal, bytes: &[u8]) -> &'static str {
    match refusal {
        figures::Refusal::NotAFigure => no_figure_words(bytes),
        figures::Refusal::OutOfRange => "the figure is outside its range",
    }
}

// What is wrong with a line.
fn line_words(refusal: lines::Refusal, bytes: &[u8]) -> &'static str {
    match refusal {
        lines::Refusal::UnknownLetter => "a line begins with H, C, E, R, A, G or T and a comma",
        lines::Refusal::FieldCount => "the line has too few or too many fields for its letter",
        lines::Refusal::Figure(refusal) => figure_words(refusal, bytes),
        lines::Refusal::NotAName => "a name has 1 to 24 printable ASCII characters",
        lines::Refusal::UnknownPool =>
            "a pool is C, N, S or T, and a shift names two different ones",
        lines::Refusal::NoRoom => "the line does not fit",
    }
}

// What is wrong with the page itself.
fn page_words(refusal: Refusal) -> &'static str {
    match refusal {
        Refusal::TooLong => "the page has more than 65,536 bytes",
        Refusal::Unended => "the last line is not ended by byte 10",
        Refusal::HeaderPlace => "the H line is line 1, and no other line is one",
        Refusal::LateCustomer => "C lines stand before all other lines but H",
    }
}

// What the book refuses.
fn book_words(refusal: book::Refusal) -> &'static str {
    match refusal {
        book::Refusal::OutOfRange => "a figure is outside its range",
        book::Refusal::UnknownPool => "a pool is not known, or a shift names one twice",
        book::Refusal::Full => "there are 512 customers, or 512 cost lines, already",
        book::Refusal::Taken => "another line has this number",
        book::Refusal::ShortSheet => "a sheet is too short",
        book::Refusal::NoFoundingWeight => "no customer has a founding weight above 0",
        book::Refusal::Spoiled => "the records are not those of a book",
        book::Refusal::Missing => "no customer has this number",
        book::Refusal::NoLoad => "the load is 0",
        book::Refusal::OverGranted => "the grants would pass 50,000 thousandths",
        book::Refusal::AlreadyLifted => "the giver has a load on the way",
        book::Refusal::OverMark => "the load is more than the giver's mark",
        book::Refusal::NotOnTheWay => "the giver has no load on the way",
        book::Refusal::NoReceiver => "no customer has the receiver's number",
        book::Refusal::SameCustomer => "giver and receiver are the same customer",
        book::Refusal::OverSide => "a side of a pool would pass 400,000,000,000 cents",
        book::Refusal::OnTheWay => "a load is on the way",
        book::Refusal::UnknownLetter => "the pool is not known",
        book::Refusal::NoWeight => "a pool has a cost, but no customer has a weight in it",
    }
}

// The most bytes of a field that a sentence quotes.
const QUOTED: usize = 40;

// A field as it is quoted: not where it is empty or long, or has bytes that
// would not show or would act on a terminal.
fn quoted(bytes: &[u8]) -> Option<&str> {
    let plain = (1..=QUOTED).contains(&bytes.len())
        && bytes.iter().all(|byte| matches!(byte, b' '..=b'~'));
    if plain { from_utf8(bytes).ok() } else { None }
}

/// What is wrong with a page, and where, in a sentence.
#[derive(Clone, Copy)]
pub(crate) struct Sentence<'a> {
    pub(crate) page: &'a [u8],
    pub(crate) fault: Fault,
}

impl fmt::Display for Sentence<'_> {
    fn fmt<W: fmt::Write>(&self, f: &mut fmt::Formatter<W>) -> fmt::Result {
        let line = self.fault.line;
        match self.fault.cause {
            Cause::Page(refusal) if line == 0 => write!(f, "{}", page_words(refusal)),
            Cause::Page(refusal) => write!(f, "line {line}, field 1: {}", page_words(refusal)),
            Cause::Line(lines::Fault { field: 0, refusal }) => {
                write!(f, "line {line}: {}", line_words(refusal, b""))
            }
            Cause::Line(lines::Fault { field, refusal }) => {
                let bytes = part(part(self.page, b'\n', line), b',', field);
                let words = line_words(refusal, bytes);
                match quoted(bytes) {
                    Some(text) => write!(f, "line {line}, field {field}: {text}: {words}"),
                    None => write!(f, "line {line}, field {field}: {words}"),
                }
            }
            Cause::Book(refusal) => write!(f, "line {line}: {}", book_words(refusal)),
        }
    }
}
