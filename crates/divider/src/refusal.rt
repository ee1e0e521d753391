//! Why a divider refuses.
ghost use Rattle.std.specs.Prelude.{◌≡◌};
ghost use Rattle.divider.specs.Questions.{number};

/// The answers of a divider to a request that it can't meet.
#[derive(Clone, Copy, PartialEq, Eq, Debug)]
pub enum Refusal {
    /// 40: the sheet is not as long as the weights.
    SheetLength = 40,
    /// 41: the weights add up to 0.
    NoWeight = 41,
    /// 42: the sum of the weights, or the total times it, is above 2^63 - 1.
    TooLarge = 42,
}

impl Refusal {
    /// The number by which this refusal is known.
    pub fn number(self) -> u8
        ensures { result ≡ number self }
    {
        self as u8
    }
}
