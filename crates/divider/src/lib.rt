//! Dividers: rules that divide a total by weights, and say who bears the odd units.
//!
//! A divider is given a total and a list of weights, and fills a sheet with
//! one share for each weight. The trait says what all dividers have in common;
//! code over a `D: Divider` is proved once, for every one of them.
#![tactic(auto)]

ghost use Rattle.std.specs.Prelude.{◌≡◌, ℕ, List, sum};
ghost use Rattle.divider.specs.Questions.{Passes, Weighed, Divided};
ghost use Rattle.divider.specs.Shares.{Fair};

mod refusal;

pub use refusal::Refusal;

/// A rule that divides a total by weights.
///
/// Its meaning is a fixed list of shares for every total and weights that pass
/// the questions on them. Every maker shows the law, that these shares are
/// fair: they add up to the total, and each is the whole part of
/// total × weight / sum of weights, or one more where that leaves a remainder.
pub trait Divider {
    ghost meaning: { Self → ℕ → List ℕ → List ℕ };

    /// Fills `sheet` with the shares of `total` by `weights`.
    ///
    /// Asks, in this order, whether the sheet is as long as the weights (40),
    /// whether the weights add up to more than 0 (41), and whether their sum
    /// and `total` times it are at most 2^63 - 1 (42). It refuses in these
    /// cases only, and then leaves the sheet as it was.
    fn divide(&self, total: u64, weights: &[u64], sheet: &mut [u64]) -> Result<(), Refusal>
        ensures { Divided total weights.now (meaning self.now total weights.now) sheet.old sheet.new result };

    ghost fair: { (d : Self) (total : ℕ) (weights : List ℕ) → Passes total weights → Fair total weights (meaning d total weights) };
}

/// The largest sum of weights, and the largest total times it, that is divided.
pub const LIMIT: u64 = 0x7fff_ffff_ffff_ffff;

// The sum of the weights, however large.
fn sum_of(weights: &[u64]) -> u128
    ensures { result ≡ sum weights.now }
{
    weights.iter().map(|weight| u128::from(*weight)).sum()
}

/// Puts a divider's questions in their order, and answers the sum of the weights.
///
/// `places` is the length of the sheet. The makers of dividers begin with it.
pub fn weigh(total: u64, weights: &[u64], places: usize) -> Result<u64, Refusal>
    ensures { Weighed total weights.now places result }
{
    if places != weights.len() {
        return Err(Refusal::SheetLength);
    }
    let sum = sum_of(weights);
    if sum == 0 {
        return Err(Refusal::NoWeight);
    }
    let limit = u128::from(LIMIT);
    if sum > limit || u128::from(total) * sum > limit {
        return Err(Refusal::TooLarge);
    }
    Ok(sum as u64)
}
