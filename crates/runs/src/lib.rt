//! Runs of a book: any calls in any order, from founding on, and the law that
//! holds after every one of them, under every divider within its laws.
#![tactic(auto)]

ghost use Rattle.std.specs.Prelude.{◌≡◌, MatchResult, IfOk, ◌≢◌};
ghost use Rattle.register.specs.Register.{records, Kept};
ghost use Rattle.book.specs.Customers.{key};
ghost use Rattle.book.specs.Rates.{Founds};
ghost use Rattle.book.specs.declared.refusal.Refusal.TheVariants.{Spoiled};
ghost use Rattle.runs.specs.Runs.{Founded, Entered, StaysSound, StaysReconciled, AlwaysSound};

use book::{Intake, OpenBook, Refusal};
use divider::Divider;
use records::Customer;
use register::Register;

/// Founds a book: divides the founding total by founding weights, and writes
/// the marks.
///
/// Asks whether weights and shares have at least as many places as there are
/// customers (22), whether the sum of the founding weights is above 0 (23),
/// and whether that sum, and the founding total times it, are at most 2^63 - 1
/// (24); a refusal hands the intake back. The marks add up to the founding
/// total, and none is a whole unit off its exact share. Over customers that all
/// came by accepted enters, every run of the book is sound: marks balance, the
/// RHWMs add up to the capability, the charges to the costs, none of these is a
/// whole unit off its exact share, and neither this call nor a later one answers
/// 24; a closed book has nothing on the way, and keeps the costs of its lines.
pub fn found<D: Divider>(
    intake: Intake<D>,
    customers: &mut Register<'_, Customer>,
    weights: &mut [u64],
    shares: &mut [u64],
) -> Result<OpenBook<D>, (Intake<D>, Refusal)>
    ensures done { Founds D.Divider.meaning intake (records customers.old) weights.old shares.old result (records customers.new) weights.new shares.new }
    ensures kept { Kept customers.old customers.new }
    ensures marks { IfOk result (λ b. Founded intake.header.founding_total (records customers.new)) }
    ensures runs { MatchResult result (λ b. Entered (records customers.old) → StaysSound D.Divider.meaning intake.header.founding_total intake.header.capability b (records customers.new)) (λ back. Entered (records customers.old) → back.1 ≢ Spoiled) }
    ensures closes { IfOk result (λ b. Entered (records customers.old) → StaysReconciled D.Divider.meaning b (records customers.new)) }
{
    intake.found(customers, weights, shares)
}

/// Every run of every book, under every divider within its laws, ours or
/// another's, is sound.
pub fn books_stay_sound()
    ensures { AlwaysSound }
{}
