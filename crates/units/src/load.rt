//! Loads.
ghost use Rattle.std.specs.Prelude.{◌≡◌, ◌*◌, ◌^◌, ◌<◌, MatchResult};
ghost use Rattle.units.specs.Ranges.{load_figure, Within};

use crate::ranges::{LOAD, Refusal};

/// A load: whole thousandths of an average megawatt, from 0 to 20,050,000.
#[derive(Clone, Copy)]
pub struct Load {
    pub(crate) thousandths: u64,
    ghost within: { Within load_figure thousandths },
}

impl Load {
    /// The load of so many thousandths, or refusal 6.
    pub fn new(thousandths: u64) -> Result<Load, Refusal>
        ensures { MatchResult result (λ load. (Within load_figure thousandths) × (load.thousandths ≡ thousandths)) (λ _. Within load_figure thousandths → ⊥) }
    {
        if !LOAD.admits(thousandths) {
            return Err(Refusal::OutOfRange);
        }
        Ok(Load { thousandths })
    }

    /// Its thousandths of an average megawatt.
    pub fn thousandths(self) -> u64
        ensures { result ≡ self.thousandths }
    {
        self.thousandths
    }

    /// The product of two loads, which is always below 2^63.
    pub fn times(self, other: Load) -> u64
        ensures product { result ≡ self.thousandths * other.thousandths }
        ensures bound { result < 2 ^ 63 }
    {
        self.thousandths * other.thousandths
    }
}
