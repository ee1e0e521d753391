//! The header of a book.
ghost use Rattle.std.specs.Prelude.{◌≡◌, MatchResult};
ghost use Rattle.units.specs.Ranges.{total_figure, capability_figure, Within};

use crate::load::Load;
use crate::ranges::{CAPABILITY, FOUNDING_TOTAL, Refusal};

/// The loads that a book is made for: the founding total, from 1 to
/// 20,000,000 thousandths of an average megawatt, and the capability, the
/// RHWM Tier 1 System Capability, from 0 to 20,000,000.
#[derive(Clone, Copy)]
pub struct Header {
    founding_total: u64,
    capability: u64,
    ghost total_within: { Within total_figure founding_total },
    ghost capability_within: { Within capability_figure capability },
}

impl Header {
    /// The header of these loads, in thousandths, or refusal 6.
    pub fn new(founding_total: u64, capability: u64) -> Result<Header, Refusal>
        ensures { MatchResult result (λ header. (Within total_figure founding_total) × (Within capability_figure capability) × (header.founding_total ≡ founding_total) × (header.capability ≡ capability)) (λ _. Within total_figure founding_total → Within capability_figure capability → ⊥) }
    {
        if !FOUNDING_TOTAL.admits(founding_total) || !CAPABILITY.admits(capability) {
            return Err(Refusal::OutOfRange);
        }
        Ok(Header {
            founding_total,
            capability,
        })
    }

    /// The load that the founding marks add up to.
    pub fn founding_total(self) -> Load
        ensures { result.thousandths ≡ self.founding_total }
    {
        Load {
            thousandths: self.founding_total,
        }
    }

    /// The load that the RHWMs add up to.
    pub fn capability(self) -> Load
        ensures { result.thousandths ≡ self.capability }
    {
        Load {
            thousandths: self.capability,
        }
    }
}
