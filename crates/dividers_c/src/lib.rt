//! The dividers for callers in C and Rust.
//!
//! Each function takes a total, the weights and the sheet, a slice as a
//! pointer and then a length. It answers 0 where the sheet holds the shares,
//! else the number of the first question that fails (40, 41 or 42), and then
//! the sheet is as it was. No memory is allocated.
#![tactic(auto)]

ghost use Rattle.largest.specs.Largest.{by_remainders};
ghost use Rattle.running.specs.Running.{by_running};
ghost use Rattle.dividers_c.specs.Answers.{Answered};

use divider::Divider;
use largest::LargestRemainder;
use running::RunningSums;

// Divides, and answers by a number, since C has no Result.
fn answer<D: Divider>(divider: &D, total: u64, weights: &[u64], sheet: &mut [u64]) -> u8
    ensures { Answered total weights.now (D.Divider.meaning divider.now total weights.now) sheet.old sheet.new result }
{
    match divider.divide(total, weights, sheet) {
        Ok(()) => 0,
        Err(refusal) => refusal.number(),
    }
}

// Two functions, since C has no generic one.

/// Divides `total` by `weights` by largest remainder.
#[unsafe(no_mangle)]
pub extern "C" fn divide_largest(total: u64, weights: &[u64], sheet: &mut [u64]) -> u8
    ensures { Answered total weights.now (by_remainders total weights.now) sheet.old sheet.new result }
{
    answer(&LargestRemainder, total, weights, sheet)
}

/// Divides `total` by `weights` by running sums.
#[unsafe(no_mangle)]
pub extern "C" fn divide_running(total: u64, weights: &[u64], sheet: &mut [u64]) -> u8
    ensures { Answered total weights.now (by_running total weights.now) sheet.old sheet.new result }
{
    answer(&RunningSums, total, weights, sheet)
}
