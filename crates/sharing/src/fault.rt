//! Why a request is refused.
ghost use Rattle.std.specs.Prelude.{◌≡◌};
ghost use Rattle.sharing.specs.Request.{number};

use divider::Refusal;
use std::fmt;

/// The answers to a request that can't be read or can't be met. The words of
/// a request are counted from 1: the rule, the total, the weights.
#[derive(Clone, Copy, Drop)]
pub enum Fault {
    /// 3: the first word names no rule.
    UnknownRule,
    /// 4: there is no total.
    NoTotal,
    /// This word's refusal as a figure.
    Word {
        word: usize,
        refusal: figures::Refusal,
    },
    /// 41 or 42: the divider's refusal.
    Division(Refusal),
    /// There is not enough memory for the answer.
    NoMemory,
}

impl Fault {
    /// The number by which this fault is known; want of memory has none.
    pub fn number(self) -> Option<u8>
        ensures { result ≡ number self }
    {
        // Case by case, since a case that holds a value is no number.
        match self {
            Fault::UnknownRule => Some(3),
            Fault::NoTotal => Some(4),
            Fault::Word { refusal, .. } => Some(refusal.number()),
            Fault::Division(e) => Some(e.number()),
            Fault::NoMemory => None,
        }
    }
}

impl fmt::Display for Fault {
    fn fmt<W: fmt::Write>(&self, f: &mut fmt::Formatter<W>) -> fmt::Result {
        match self {
            Fault::UnknownRule => write!(f, "the first word must name a rule: largest or running"),
            Fault::NoTotal => write!(f, "the total is missing: write it after the rule"),
            Fault::Word {
                word,
                refusal: figures::Refusal::NotAFigure,
            } => write!(
                f,
                "word {word} is no whole number: write digits only, with no leading zero"
            ),
            Fault::Word {
                word,
                refusal: figures::Refusal::OutOfRange,
            } => write!(f, "word {word} is above 18446744073709551615"),
            Fault::Division(Refusal::SheetLength) => {
                write!(f, "the sheet is not as long as the weights")
            }
            Fault::Division(Refusal::NoWeight) => {
                write!(f, "the weights add up to 0: give at least one above 0")
            }
            Fault::Division(Refusal::TooLarge) => write!(
                f,
                "the weights, or the total times their sum, pass 9223372036854775807: \
                 count in larger units"
            ),
            Fault::NoMemory => write!(f, "there is not enough memory"),
        }
    }
}
