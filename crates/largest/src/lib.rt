//! Largest remainder: whole parts first, and the units left over to the largest remainders.
//!
//! No memory is allocated: while it works, the sheet holds each weight's whole
//! part and remainder packed into one number, remainder × unit + whole part,
//! where the unit is a power of two above the total. The smallest remainder
//! that is served is found by bisection, so that a division takes one
//! division for each weight, at most log2 (sum), rounded up, passes over the
//! sheet that only compare, and three more passes.
#![tactic(auto)]

ghost use Rattle.largest.specs.Largest.{by_remainders};
ghost use Rattle.largest.specs.Remainders.{remainders_fair};

use divider::{Divider, Refusal, weigh};

mod packing;

use packing::Packing;

/// Gives each weight the whole part of its exact share; the units left over
/// go one each to the largest remainders, of equals to the earlier place.
#[derive(Clone, Copy, Debug)]
pub struct LargestRemainder;

impl Divider for LargestRemainder {
    ghost meaning = { λ _. by_remainders };

    ghost fair = { λ d. remainders_fair };

    fn divide(&self, total: u64, weights: &[u64], sheet: &mut [u64]) -> Result<(), Refusal> {
        let sum = weigh(total, weights, sheet.len())?;
        let packing = Packing::new(total, sum);
        let left = packing.split(weights, sheet);
        let cut = packing.cut_at(sheet, left);
        packing.raise(cut, sheet);
        packing.unpack(cut, sheet);
        Ok(())
    }
}
