//! A page is read to its end.
ghost use Rattle.std.specs.Prelude.{◌≤◌, ◌<◌, length, take, IfOk};
ghost use Rattle.std.specs.Io.KnownBytes.{Consumes, IsAtEnd};

use streams::Source;

/// Reads into a buffer, up to the end of the source or until the buffer is full,
/// and returns how many bytes it read.
pub(crate) fn read_page<R: Source>(input: &mut R, buffer: &mut [u8]) -> Result<usize, R::Error>
    ensures fits { IfOk result (λ n. n ≤ length buffer.new) }
    ensures bytes { IfOk result (λ n. Consumes (R.left input.old) (R.left input.new) (take n buffer.new)) }
    ensures whole { IfOk result (λ n. n < length buffer.new → IsAtEnd (R.left input.new)) }
{
    let mut at = 0;
    let end = buffer.len();
    while at < end {
        let count = input.read(&mut buffer[at..end])?;
        if count == 0 {
            break;
        }
        at += count;
    }
    Ok(at)
}
