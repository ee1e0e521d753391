//! What a program reads from.
ghost use Rattle.std.specs.Prelude.{◌≢◌, ℕ, List, None, Option, IfErr};
ghost use Rattle.std.specs.Io.{ReadsAtMost};
ghost use Rattle.std.specs.Io.KnownBytes.{ReadConsumes};
ghost use Rattle.std.specs.IoError.{error_kind};

use std::io;
use std::io::{ErrorKind, Read};

/// A source of bytes. Code over any source can neither make an error of it nor let one go,
/// so it fails where the source does, and only there.
pub trait Source {
    // Not `Drop`: then it could be let go.
    type Error;

    // The bytes that it has left, where they are known.
    ghost left: { Self → Option (List ℕ) } = { λ _. None };

    /// Reads to the front of a buffer, and returns how many bytes; 0 is the end, or a buffer
    /// of no bytes. Where it fails it takes nothing.
    fn read(&mut self, buffer: &mut [u8]) -> Result<usize, Self::Error>
        ensures bound { ReadsAtMost result buffer.new }
        ensures bytes { ReadConsumes (left self.old) (left self.new) result buffer.new };
}

impl<R: Read> Source for R {
    type Error = io::Error;

    ghost left = { λ r. R.remaining r };

    // A read that a signal interrupts is tried again.
    fn read(&mut self, buffer: &mut [u8]) -> io::Result<usize>
        ensures bound { ReadsAtMost result buffer.new }
        ensures bytes { ReadConsumes (R.remaining self.old) (R.remaining self.new) result buffer.new }
        ensures retried { IfErr result (λ e. error_kind e ≢ ErrorKind.Interrupted) }
    {
        for _ in 0..u64::MAX {
            match Read::read(self, buffer) {
                Err(error) if error.kind() == ErrorKind::Interrupted => {}
                answer => return answer,
            }
        }
        Err(io::Error::from(ErrorKind::TimedOut))
    }
}
