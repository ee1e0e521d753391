//! A page is read, and what it comes to is written.
ghost use Rattle.std.specs.Prelude.{◌≡◌};
ghost use Rattle.std.specs.Process.{exit_status};
ghost use Rattle.ratebook.specs.Answers.{Answers, TakesPage, fault_status};

use crate::reading::read_page;
use crate::sentence::Sentence;
use divider::Divider;
use page::Fault;
use printing::{ROOM, print_page};
use std::process::ExitCode;
use streams::{Failure, Sink, Source};

// The status of a page, by its fault: 0 for a listing, 1 for the row of a fault.
fn status_of(fault: Option<Fault>) -> ExitCode
    ensures { exit_status result ≡ fault_status fault }
{
    match fault {
        None => ExitCode::SUCCESS,
        Some(_) => ExitCode::FAILURE,
    }
}

// Answers a page, in memory that it is lent.
fn answer_in<D: Divider + Drop, R: Source, W: Sink, E: Sink>(
    divider: D,
    name: &str,
    input: &mut R,
    output: &mut W,
    errors: &mut E,
    memory: &mut [u8; 65_537],
    buffer: &mut [u8; ROOM],
) -> Result<ExitCode, Failure<R::Error, W::Error, E::Error>>
    ensures answers { Answers D.Divider.meaning divider (R.left input.old) (W.held output.old) (W.held output.new) (E.held errors.old) (E.held errors.new) result }
    ensures taken { TakesPage (R.left input.old) (R.left input.new) result }
{
    // A match at each, since `map_err` gets no proof where the error it makes names types that
    // only the result has.
    let length = match read_page(input, memory) {
        Ok(length) => length,
        Err(error) => return Err(Failure::Reading(error)),
    };
    let page = &memory[..length];
    let printed = print_page(divider, page, buffer);
    let status = status_of(printed.fault);
    if let Err(error) = output.write_all(&buffer[..printed.length]) {
        return Err(Failure::Writing(error, status));
    }
    if let Some(fault) = printed.fault {
        let sentence = Sentence { page, fault };
        if let Err(error) = errors.write_line(format_args!("{name}: {sentence}")) {
            return Err(Failure::Reporting(error));
        }
    }
    Ok(status)
}

/// Reads a page to its end, and writes what is printed for it: its listing, or the row of its
/// fault, of which a sentence on `errors` says what is wrong.
pub(crate) fn answer_page<D: Divider + Drop, R: Source, W: Sink, E: Sink>(
    divider: D,
    name: &str,
    input: &mut R,
    output: &mut W,
    errors: &mut E,
) -> Result<ExitCode, Failure<R::Error, W::Error, E::Error>>
    ensures answers { Answers D.Divider.meaning divider (R.left input.old) (W.held output.old) (W.held output.new) (E.held errors.old) (E.held errors.new) result }
    ensures taken { TakesPage (R.left input.old) (R.left input.new) result }
{
    // Fixed memory and no Vec: what a page takes at most is known, and can't run
    // out. One byte more than a page may have shows that one is too long.
    answer_in(
        divider,
        name,
        input,
        output,
        errors,
        &mut [0; 65_537],
        &mut [0; ROOM],
    )
}
