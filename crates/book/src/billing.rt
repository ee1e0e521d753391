//! A closed book bills its customers, pool by pool.
ghost use Rattle.std.specs.Prelude.{◌≡◌, ℕ, ◌^◌, ◌<◌, pos, ◌-ℤ◌, map, length, slice_index};
ghost use Rattle.register.specs.Register.{records};
ghost use Rattle.book.specs.Rates.{like, size, Bills};
ghost use Rattle.book.specs.Sides.{side, cost};

use crate::refusal::Refusal;
use crate::sharing::divide_by;
use crate::stages::ClosedBook;
use crate::weighing::{divisible, sum_of, wide};
use divider::Divider;
use records::{Customer, Pool};
use register::Register;

// A share of a cost, with the sign of the cost.
fn charge(share: u64, costs: u64, credits: u64) -> i64
    requires { share < 2 ^ 63 }
    ensures { result ≡ like (pos costs -ℤ pos credits) share }
{
    let share = share as i64;
    if costs < credits { -share } else { share }
}

// Fills a part of the charges with the shares of a cost.
fn fill_charges(part: &mut [i64], shares: &[u64], costs: u64, credits: u64)
    requires each { length shares.now ≡ length part.old }
    requires small { (k : ℕ) → k < length shares.now → slice_index shares.now k < 2 ^ 63 }
    ensures { part.new ≡ map (like (pos costs -ℤ pos credits)) shares.now }
{
    // By place, since nothing is known of what a `zip` with `iter_mut` wrote.
    for (i, share) in shares.iter().enumerate() {
        part[i] = charge(*share, costs, credits);
    }
}

impl<D> ClosedBook<D> {
    /// The cost side and the credit side of a pool, in cents.
    pub fn sides(&self, pool: Pool) -> (u64, u64)
        ensures costs { result.0 ≡ side self.now.costs pool }
        ensures credits { result.1 ≡ side self.now.credits pool }
    {
        (self.costs.side(pool), self.credits.side(pool))
    }

    // The size of what a pool costs.
    fn size(&self, pool: Pool) -> u64
        ensures { result ≡ size (cost self.now.costs self.now.credits pool) }
    {
        let (costs, credits) = self.sides(pool);
        costs.abs_diff(credits)
    }
}

impl<D: Divider> ClosedBook<D> {
    /// Divides a pool's cost by the customers' weights in it, and writes the
    /// charges, with the sign of the cost, into the pool's part of `charges`:
    /// of four parts in the order C, N, S, T, a place for each customer in
    /// each.
    ///
    /// The weights and the shares stand in the first places of the sheets
    /// afterwards. A cost of 0 writes zeros, and leaves both sheets as they
    /// were. Asks whether the letter names a pool (36), whether both sheets
    /// have a place for each customer and `charges` has four (22), and, unless
    /// the cost is 0, whether the weights add up to more than 0 (37), and
    /// whether their sum, and the size of the cost times it, are at most
    /// 2^63 - 1 (24).
    pub fn bill(
        &self,
        customers: &Register<'_, Customer>,
        letter: char,
        weights: &mut [u64],
        shares: &mut [u64],
        charges: &mut [i64],
    ) -> Result<(), Refusal>
        ensures { Bills D.Divider.meaning self.now (records customers.now) letter weights.old shares.old charges.old result weights.new shares.new charges.new }
    {
        let Some(pool) = Pool::of(letter) else {
            return Err(Refusal::UnknownLetter);
        };
        let records = customers.records();
        let n = records.len();
        if !wide(n, weights, shares) || charges.len() < 4 * n {
            return Err(Refusal::ShortSheet);
        }
        let from = pool.order() * n;
        let size = self.size(pool);
        if size == 0 {
            charges[from..from + n].fill(0);
            return Ok(());
        }
        let weight = |customer: &Customer| customer.pool_weight(pool);
        let sum = sum_of(records, weight);
        if sum == 0 {
            return Err(Refusal::NoWeight);
        }
        if !divisible(size, sum) {
            return Err(Refusal::Spoiled);
        }
        divide_by(&self.divider, size, records, weight, weights, shares);
        let (costs, credits) = self.sides(pool);
        fill_charges(&mut charges[from..from + n], &shares[..n], costs, credits);
        Ok(())
    }
}
