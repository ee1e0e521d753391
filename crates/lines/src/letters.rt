//! The letters of lines.
ghost use Rattle.std.specs.Prelude.{◌≡◌};
ghost use Rattle.lines.specs.Letters.{letter_of};

use units::Letter;

/// The letter of a line, by its first field.
// An Option and no TryFrom, since `Letter` is a type of another crate.
pub(crate) fn letter_of(bytes: &[u8]) -> Option<Letter>
    ensures { result ≡ letter_of bytes.now }
{
    let [byte] = bytes else {
        return None;
    };
    match *byte as char {
        'H' => Some(Letter::Header),
        'C' => Some(Letter::Customer),
        'E' => Some(Letter::Expense),
        'R' => Some(Letter::Credit),
        'A' => Some(Letter::Shift),
        'G' => Some(Letter::Grant),
        'T' => Some(Letter::Transfer),
        _ => None,
    }
}
