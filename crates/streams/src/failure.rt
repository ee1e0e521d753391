//! Why a program stops, and how it ends then.
ghost use Rattle.std.specs.Process.{exit_status};
ghost use Rattle.streams.specs.Ending.{Concludes};

use crate::sink::Sink;
use std::error::Error;
use std::fmt::{Debug, Display};
use std::io::{ErrorKind, Write};
use std::process::ExitCode;
use std::{fmt, io};

/// What failed of the three that a program is lent, with its error. A program that is written
/// over any `Source` and any two of `Sink` has no other errors.
#[derive(Debug, Drop)]
pub enum Failure<R, W, E> {
    /// The input is not read to its end.
    Reading(R),
    /// The output is not written in full; the status is the one that the program ends with
    /// where all of it is.
    Writing(W, ExitCode),
    /// A sentence for people is not written in full.
    Reporting(E),
}

impl<R: Display, W: Display, E: Display> Display for Failure<R, W, E> {
    fn fmt<F: fmt::Write>(&self, f: &mut fmt::Formatter<F>) -> fmt::Result {
        match self {
            Failure::Reading(error) => write!(f, "the input cannot be read: {error}"),
            Failure::Writing(error, _) => write!(f, "the output cannot be written: {error}"),
            Failure::Reporting(error) => write!(f, "standard error cannot be written: {error}"),
        }
    }
}

impl<R: Debug + Display + Drop, W: Debug + Display + Drop, E: Debug + Display + Drop> Error
    for Failure<R, W, E> {}

/// Ends a program of this name: returns its status, and says on `errors` in a sentence what
/// failed, with status 1. Where the output failed because its reader has gone away, as in
/// `program | head -1`, nothing is said, and the status is that of the program.
pub fn conclude<E: Write>(
    name: &str,
    answer: Result<ExitCode, Failure<io::Error, io::Error, io::Error>>,
    errors: &mut E,
) -> ExitCode
    ensures { Concludes answer (exit_status result) (E.contents errors.old) (E.contents errors.new) }
{
    let failure = match answer {
        Ok(status) => return status,
        Err(Failure::Writing(error, status)) if error.kind() == ErrorKind::BrokenPipe => {
            return status;
        }
        Err(failure) => failure,
    };
    // Where standard error fails too, there is nowhere left to report it.
    let _ = errors.write_line(format_args!("{name}: {failure}"));
    ExitCode::FAILURE
}
