//! A page program: a page on standard input, its listing or its fault on
//! standard output, and a sentence for people on standard error.
#![tactic(auto)]

ghost use Rattle.std.specs.Prelude.{◌≡◌, true, None, is_some};
ghost use Rattle.std.specs.Io.KnownBytes.{Keeps};
ghost use Rattle.ratebook.specs.Answers.{Answers, Helps, TakesPage, asks_help};

mod answering;
mod reading;
mod sentence;

use answering::answer_page;
use divider::Divider;
use std::process::ExitCode;
use streams::{Failure, Sink, Source};

const USAGE: &str = "reads a page of lines from standard input, and prints its listing

The page has at most 65,536 bytes; each line ends with byte 10. Line 1 is H
with the founding total and the capability; C lines name the customers; E, R
and A lines are expenses, credits and shifts, G lines grants, T lines
transfers. The listing has a row for each customer and the row of sums. A page
that is refused gives one row, F,layer,line,field,number, and status 1.";

// Whether a word asks for help.
fn asks_help(word: Option<&str>) -> bool
    ensures { result ≡ asks_help word.entry }
{
    word.is_some_and(|word| word == "--help")
}

// Says how the program is used.
fn help<R, W, E: Sink>(
    name: &str,
    word: Option<&str>,
    errors: &mut E,
) -> Result<ExitCode, Failure<R, W, E::Error>>
    ensures { Helps word.entry result }
{
    let usage = format_args!(
        "usage: {name} < PAGE\n\n{name} {USAGE}\n\nexample: bin/{name} < examples/worked.page"
    );
    match errors.write_line(usage) {
        Err(error) => Err(Failure::Reporting(error)),
        Ok(()) if asks_help(word) => Ok(ExitCode::SUCCESS),
        Ok(()) => Ok(ExitCode::FAILURE),
    }
}

/// Runs the program of a divider. With a word after its name it says on `errors` how it is used,
/// with status 0 if that is what the word asks for, else 1. With none it takes what its source
/// has left as a page, and writes what is printed for it: its listing, with status 0, or the row
/// of its fault, with status 1 and a sentence on `errors`. It fails where what it is lent fails,
/// and only there.
pub fn run<D: Divider + Drop, R: Source, W: Sink, E: Sink>(
    divider: D,
    name: &str,
    word: Option<&str>,
    input: &mut R,
    output: &mut W,
    errors: &mut E,
) -> Result<ExitCode, Failure<R::Error, W::Error, E::Error>>
    ensures helps { is_some word.entry ≡ true → Helps word.entry result × Keeps (W.held output.old) (W.held output.new) }
    ensures unread { is_some word.entry ≡ true → Keeps (R.left input.old) (R.left input.new) }
    ensures answers { word.entry ≡ None → Answers D.Divider.meaning divider (R.left input.old) (W.held output.old) (W.held output.new) (E.held errors.old) (E.held errors.new) result }
    ensures taken { word.entry ≡ None → TakesPage (R.left input.old) (R.left input.new) result }
{
    if word.is_some() {
        return help(name, word, errors);
    }
    answer_page(divider, name, input, output, errors)
}
