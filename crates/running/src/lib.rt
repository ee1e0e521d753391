//! Running sums: each share is what the total's running quotient gains at its place.
#![tactic(auto)]

ghost use Rattle.running.specs.Running.{by_running};
ghost use Rattle.running.specs.RunningLemmas.{running_fair};

use divider::{Divider, Refusal, weigh};

/// Gives the weight at a place the whole part of
/// total × (weights up to and with it) / sum, less the same figure for the
/// weights before it.
#[derive(Clone, Copy, Debug)]
pub struct RunningSums;

impl Divider for RunningSums {
    ghost meaning = { λ _. by_running };

    ghost fair = { λ d. running_fair };

    fn divide(&self, total: u64, weights: &[u64], sheet: &mut [u64]) -> Result<(), Refusal> {
        let sum = weigh(total, weights, sheet.len())?;
        let mut through: u64 = 0;
        let mut given: u64 = 0;
        // By index: nothing is known of what a `zip` with `iter_mut` wrote, and to copy the
        // weights first and pass over the sheet alone is slower.
        for (i, weight) in weights.iter().enumerate() {
            through += *weight;
            let quotient = total * through / sum;
            sheet[i] = quotient - given;
            given = quotient;
        }
        Ok(())
    }
}
