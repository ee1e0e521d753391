//! Figures: whole numbers as people type them, in decimal digits with no leading zero.
#![tactic(auto)]

ghost use Rattle.std.specs.Prelude.{◌≡◌, ◌-◌, false, IfOk, IfErr, decimal};
ghost use Rattle.std.specs.List.{fold, AllPass, Any};
ghost use Rattle.std.specs.Char.{is_ascii_digit};
ghost use Rattle.figures.specs.Figure.{number, figure, appended};

mod refusal;

pub use refusal::Refusal;

impl Refusal {
    /// The number by which this refusal is known.
    pub fn number(self) -> u8
        ensures { result ≡ number self }
    {
        self as u8
    }
}

// A number with one digit more, where it still fits.
fn append(value: Option<u64>, digit: u8) -> Option<u64>
    ensures { result ≡ appended value digit }
{
    value?.checked_mul(10)?.checked_add(u64::from(digit))
}

// The number that digits spell, where it still fits, if all bytes are digits.
fn value(bytes: &[u8]) -> Result<Option<u64>, Refusal>
    ensures digits { IfOk result (λ _. AllPass is_ascii_digit bytes.now) }
    ensures value { IfOk result (λ v. v ≡ fold (λ v b. appended v (b - 48)) (Some 0) bytes.now) }
    ensures refusal { IfErr result (λ e. e ≡ Refusal.NotAFigure) }
    ensures other { IfErr result (λ _. Any (λ b. is_ascii_digit b ≡ false) bytes.now) }
{
    bytes.iter().try_fold(Some(0), |value, byte| {
        if byte.is_ascii_digit() {
            Ok(append(value, *byte - b'0'))
        } else {
            Err(Refusal::NotAFigure)
        }
    })
}

/// Reads a figure.
///
/// Asks whether it is digits only, at least one, with no leading 0 unless it
/// is 0 (5), then whether it is at most 2^64 - 1 (6), however many digits it
/// has. What is read is what `{}` writes of the number.
pub fn read(bytes: &[u8]) -> Result<u64, Refusal>
    ensures reads { result ≡ figure bytes.now }
    ensures written { IfOk result (λ n. bytes.now ≡ decimal n) }
{
    if matches!(bytes, [] | [b'0', _, ..]) {
        return Err(Refusal::NotAFigure);
    }
    value(bytes)?.ok_or(Refusal::OutOfRange)
}
