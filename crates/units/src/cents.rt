//! Cost amounts.
ghost use Rattle.std.specs.Prelude.{◌≡◌, ◌*◌, ◌^◌, ◌<◌, MatchResult};
ghost use Rattle.units.specs.Ranges.{cents_figure, Within};

use crate::load::Load;
use crate::ranges::{CENTS, Refusal};

/// A cost amount: whole cents, from 1 to 100,000,000,000.
// Not one type with `Load`, so that money never stands where a load is wanted.
#[derive(Clone, Copy)]
pub struct Cents {
    amount: u64,
    ghost within: { Within cents_figure amount },
}

impl Cents {
    /// The cost amount of so many cents, or refusal 6.
    pub fn new(amount: u64) -> Result<Cents, Refusal>
        ensures { MatchResult result (λ cents. (Within cents_figure amount) × (cents.amount ≡ amount)) (λ _. Within cents_figure amount → ⊥) }
    {
        if !CENTS.admits(amount) {
            return Err(Refusal::OutOfRange);
        }
        Ok(Cents { amount })
    }

    /// Its cents.
    pub fn amount(self) -> u64
        ensures { result ≡ self.amount }
    {
        self.amount
    }

    /// The product of a cost amount and a load, which is always below 2^63.
    pub fn times(self, load: Load) -> u64
        ensures product { result ≡ self.amount * load.thousandths }
        ensures bound { result < 2 ^ 63 }
    {
        self.amount * load.thousandths()
    }
}
