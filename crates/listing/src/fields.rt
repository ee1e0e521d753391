//! Money and sums, as fields of a row.
ghost use Rattle.std.specs.Prelude.{◌≡◌, ◌*◌, ◌<◌, ◌≤◌, length, sum_by};
ghost use Rattle.std.specs.Fmt.{signed_decimal};
ghost use Rattle.rows.specs.Rows.{spelled};
ghost use Rattle.records.specs.Figures.{above_rhwm};
ghost use Rattle.book.specs.Sides.{cost as pool_cost};
ghost use Rattle.listing.specs.Listing.{charge_at};

use book::ClosedBook;
use records::{Customer, Pool};
use rows::Field;

/// The charge in a pool of the customer at a place, of so many customers, with
/// a minus before a negative one.
#[tactic(auto, using(crate::proofs::Listed::figure_few))]
pub(crate) fn charge<'a>(charges: &[i64], customers: usize, at: usize, pool: Pool) -> Field<'a>
    requires wide { 4 * customers ≤ length charges.now }
    requires stands { at < customers }
    ensures bytes { spelled result ≡ signed_decimal (charge_at charges.now customers at pool) }
    ensures few { length (spelled result) ≤ 24 }
{
    let cents = charges[pool.order() * customers + at];
    if cents < 0 {
        Field::Minus(cents.unsigned_abs())
    } else {
        Field::Figure(cents.unsigned_abs())
    }
}

/// The cost of a pool: its cost side less its credit side, with a minus before
/// a negative one.
#[tactic(auto, using(crate::proofs::Listed::figure_few))]
pub(crate) fn cost<'a, D>(book: &ClosedBook<D>, pool: Pool) -> Field<'a>
    ensures bytes { spelled result ≡ signed_decimal (pool_cost book.now.costs book.now.credits pool) }
    ensures few { length (spelled result) ≤ 24 }
{
    let (costs, credits) = book.sides(pool);
    if costs < credits {
        Field::Minus(credits - costs)
    } else {
        Field::Figure(costs - credits)
    }
}

/// The sums of the customers' marks, RHWMs and Above-RHWM loads.
pub(crate) fn sums(customers: &[Customer]) -> (u64, u64, u64)
    requires { length customers.now ≤ 512 }
    ensures { result ≡ (sum_by (λ c. c.mark) customers.now, sum_by (λ c. c.rhwm) customers.now, sum_by above_rhwm customers.now) }
{
    (
        customers.iter().map(|c| u64::from(c.mark)).sum(),
        customers.iter().map(|c| u64::from(c.rhwm)).sum(),
        customers
            .iter()
            .map(|c| u64::from(c.above_rhwm_load()))
            .sum(),
    )
}
