//! A total shared out by weights, as a table that shows who got the odd units, and why.
#![tactic(auto)]

ghost use Rattle.std.specs.Prelude.{◌≡◌, ℕ, ◌≤◌, List, ◌++◌, map, length, IfOk, None, string_bytes, codes, sum_by, OnOk};
ghost use Rattle.sharing.specs.declared.fault.Fault.TheVariants.{Division, NoMemory};
ghost use Rattle.divider.specs.Shares.{whole, rest};
ghost use Rattle.divider.specs.Questions.{asked};
ghost use Rattle.sharing.specs.Table.{by_rule, four, row, lines, table, Ready, Answers};
ghost use Rattle.largest.specs.Remainders.{remainders_fair};
ghost use Rattle.running.specs.RunningLemmas.{running_fair};
ghost use Rattle.sharing.specs.declared.rule.Rule.TheVariants.{Largest, Running};

use divider::{Divider, Refusal, weigh};
use largest::LargestRemainder;
use running::RunningSums;
use std::alloc::{AllocError, AllocFailed, Global};
use std::fmt;

mod fault;
mod request;
mod rule;

pub use fault::Fault;
pub use request::answer;
pub use rule::Rule;

impl Divider for Rule {
    ghost meaning = { by_rule };

    ghost fair = { elim [ Largest ↦ remainders_fair | Running ↦ running_fair ] };

    fn divide(&self, total: u64, weights: &[u64], sheet: &mut [u64]) -> Result<(), Refusal> {
        match self {
            Rule::Largest => LargestRemainder.divide(total, weights, sheet),
            Rule::Running => RunningSums.divide(total, weights, sheet),
        }
    }
}

impl From<Refusal> for Fault {
    ghost from_gives = { λ e f. f ≡ Division e };

    fn from(e: Refusal) -> Fault {
        Fault::Division(e)
    }
}

// std has several errors that mean want of memory here, and a caller's `?`
// takes each.
impl From<AllocError> for Fault {
    ghost from_gives = { λ e f. f ≡ NoMemory };

    fn from(_e: AllocError) -> Fault {
        Fault::NoMemory
    }
}

impl<T: Drop> From<AllocFailed<T>> for Fault {
    ghost from_gives = { λ e f. f ≡ NoMemory };

    fn from(_e: AllocFailed<T>) -> Fault {
        Fault::NoMemory
    }
}

impl From<fmt::Error> for Fault {
    ghost from_gives = { λ e f. f ≡ NoMemory };

    fn from(_e: fmt::Error) -> Fault {
        Fault::NoMemory
    }
}

// Appends a line of the table.
fn write_row(
    text: &mut String,
    place: usize,
    weight: u64,
    whole: u64,
    rest: u64,
    share: u64,
) -> Result<(), AllocError>
    ensures { OnOk result (string_bytes text.new ≡ string_bytes text.old ++ row place weight whole rest share) }
{
    write!(text, "{place},{weight},{whole},{rest},{share}\n")
}

// Appends the sums under the table.
fn write_sums(
    text: &mut String,
    weights: u64,
    wholes: u64,
    rests: u64,
    shares: u64,
) -> Result<(), AllocError>
    ensures { OnOk result (string_bytes text.new ≡ string_bytes text.old ++ (codes "sum," ++ four weights wholes rests shares)) }
{
    write!(text, "sum,{weights},{wholes},{rests},{shares}\n")
}

// Appends the lines of all weights, and answers the sums of the whole parts and of the remainders.
fn write_lines(
    text: &mut String,
    total: u64,
    sum: u64,
    weights: &[u64],
    shares: &[u64],
) -> Result<(u64, u64), AllocError>
    requires { (Ready total sum weights.now) × (length shares.now ≡ length weights.now) }
    ensures { IfOk result (λ sums. (string_bytes text.new ≡ string_bytes text.old ++ lines total weights.now shares.now (length weights.now)) × (sums.0 ≡ sum_by (whole total sum) weights.now) × (sums.1 ≡ sum_by (rest total sum) weights.now)) }
{
    let mut wholes: u64 = 0;
    let mut rests: u64 = 0;
    for (i, (weight, share)) in weights.iter().zip(shares).enumerate() {
        let product = total * *weight;
        let (whole, rest) = (product / sum, product % sum);
        write_row(text, i + 1, *weight, whole, rest, *share)?;
        wholes += whole;
        rests += rest;
    }
    Ok((wholes, rests))
}

// The shares of a total, on a sheet of their own.
fn shares_of<D: Divider>(
    heap: Global,
    divider: &D,
    total: u64,
    weights: &[u64],
) -> Result<Vec<u64>, Fault>
    requires { asked total weights.now (length weights.now) ≡ None }
    ensures { Answers total weights.now (λ sheet. sheet.items ≡ D.Divider.meaning divider.now total weights.now) result }
{
    let mut sheet = vec![in heap; 0; weights.len()]?;
    divider.divide(total, weights, &mut sheet)?;
    Ok(sheet)
}

/// The table of a division: a line for each weight with its place, the
/// weight, the whole part and the remainder of its exact share, and its
/// share, and a line with the sums of these columns.
///
/// It is refused as the divider refuses, or for want of memory.
pub fn table<D: Divider>(
    heap: Global,
    divider: &D,
    total: u64,
    weights: &[u64],
) -> Result<String, Fault>
    ensures { Answers total weights.now (λ text. string_bytes text ≡ table total weights.now (D.Divider.meaning divider.now total weights.now)) result }
{
    let sum = weigh(total, weights, weights.len())?;
    let shares = shares_of(heap, divider, total, weights)?;
    let mut text = String::new(heap);
    let (wholes, rests) = write_lines(&mut text, total, sum, weights, &shares)?;
    write_sums(&mut text, sum, wholes, rests, total)?;
    Ok(text)
}
