//! Why a row is refused.
ghost use Rattle.std.specs.Prelude.{◌≡◌};
ghost use Rattle.listing.specs.Answers.{number};

/// The question that a row fails.
#[derive(Clone, Copy, PartialEq, Eq, Debug)]
pub enum Refusal {
    /// 25: no customer of the number stands.
    Missing = 25,
    /// 22: the charges sheet has not four places for each customer.
    ShortSheet = 22,
    /// 7: the name has not 1 to 24 bytes from 32 to 126 without the comma.
    NotAName = 7,
    /// 9: the buffer is too short for the row.
    NoRoom = 9,
}

impl Refusal {
    /// The number by which this refusal is known.
    pub fn number(self) -> u8
        ensures { result ≡ number self }
    {
        self as u8
    }
}
