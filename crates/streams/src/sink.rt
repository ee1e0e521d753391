//! What a program writes to.
ghost use Rattle.std.specs.Prelude.{◌≢◌, ℕ, List, None, Option, OnOk, OnErr, IfErr, IfSome};
ghost use Rattle.std.specs.Fmt.{with_newline};
ghost use Rattle.std.specs.Io.KnownBytes.{Appends};
ghost use Rattle.std.specs.IoError.{error_kind};
ghost use Rattle.streams.specs.Written.{AppendsFront};

use std::fmt::{Display, InlineText};
use std::io::{ErrorKind, Write};
use std::{fmt, io};

// How many bytes a line may have that goes out in one piece.
const PIECE: usize = 1024;

/// What takes bytes. Code over any sink can neither make an error of it nor let one go.
pub trait Sink {
    // Not `Drop`: then it could be let go.
    type Error;

    // The bytes that it holds, where they are known.
    ghost held: { Self → Option (List ℕ) } = { λ _. None };

    /// Writes all of some bytes; where it fails, a front of them is written.
    fn write_all(&mut self, bytes: &[u8]) -> Result<(), Self::Error>
        ensures whole { OnOk result (Appends (held self.old) (held self.new) bytes.now) }
        ensures front { OnErr result (AppendsFront (held self.old) (held self.new) bytes.now) };

    /// Writes a text for people, and ends its line.
    fn write_line<T: Display + Drop>(&mut self, text: T) -> Result<(), Self::Error>
        ensures { OnOk result (IfSome (with_newline (T.output text)) (Appends (held self.old) (held self.new))) };
}

impl<W: Write> Sink for W {
    type Error = io::Error;

    ghost held = { λ w. W.contents w };

    // A write that a signal interrupts is tried again. std's own `write_all` does the same, and
    // says less of what is written where it fails.
    fn write_all(&mut self, bytes: &[u8]) -> io::Result<()>
        ensures whole { OnOk result (Appends (W.contents self.old) (W.contents self.new) bytes.now) }
        ensures front { OnErr result (AppendsFront (W.contents self.old) (W.contents self.new) bytes.now) }
        ensures retried { IfErr result (λ e. error_kind e ≢ ErrorKind.Interrupted) }
    {
        let mut at = 0;
        for _ in 0..u64::MAX {
            if at >= bytes.len() {
                return Ok(());
            }
            match Write::write(self, &bytes[at..]) {
                Ok(0) => return Err(io::Error::from(ErrorKind::WriteZero)),
                Ok(count) => at += count,
                Err(error) if error.kind() == ErrorKind::Interrupted => {}
                Err(error) => return Err(error),
            }
        }
        Err(io::Error::from(ErrorKind::TimedOut))
    }

    // In one piece where it fits: of two programs that write to one file, a line of the one could
    // stand within a line of the other otherwise.
    fn write_line<T: Display + Drop>(&mut self, text: T) -> io::Result<()> {
        let mut line = InlineText::<PIECE>::new();
        if fmt::Write::writeln(&mut line, &text).is_ok() {
            return Write::write_all(self, line.as_str().as_bytes());
        }
        self.writeln(text)
    }
}
