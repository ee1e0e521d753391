//! Dividing by what customers weigh, and writing the shares into their records.
ghost use Rattle.std.specs.Prelude.{◌≡◌, ℕ, ◌^◌, ◌<◌, ◌≤◌, true, List, length, take, slice_index};
ghost use Rattle.std.specs.Fn.{FnReturnsAt};
ghost use Rattle.std.specs.List.{All, AllZip};
ghost use Rattle.divider.specs.Questions.{Passes};
ghost use Rattle.register.specs.Register.{records, Kept};
ghost use Rattle.book.specs.Customers.{key};
ghost use Rattle.book.specs.Rates.{on_top, Sheets};
ghost use Rattle.book.specs.Weights.{Weighed};
ghost use Rattle.book.specs.Written.{KeepsNumber, Written};

use crate::weighing::write_weights;
use divider::Divider;
use records::Customer;
use register::Register;

// Divides a total by the first `n` weights, into the first `n` shares.
fn divide_first<D: Divider>(divider: &D, total: u64, n: usize, weights: &[u64], shares: &mut [u64])
    requires weighed { n ≤ length weights.now }
    requires wide { n ≤ length shares.old }
    requires passes { Passes total (take n weights.now) }
    ensures { shares.new ≡ on_top (D.Divider.meaning divider.now total (take n weights.now)) shares.old }
{
    let _ = divider.divide(total, &weights[..n], &mut shares[..n]);
}

// Divides a total by what the customers weigh, over the first places of both
// sheets. They are lent to each call of the book, so no struct holds them.
pub(crate) fn divide_by<D: Divider, F: Fn(&Customer) -> u64>(
    divider: &D,
    total: u64,
    customers: &[Customer],
    weight: F,
    weights: &mut [u64],
    shares: &mut [u64],
)
    requires callable { F.IsAlwaysCallable weight }
    requires weighed { length customers.now ≤ length weights.old }
    requires wide { length customers.now ≤ length shares.old }
    requires passes { (by : List ℕ) → AllZip (FnReturnsAt F.Fn weight) customers.now by → Passes total by }
    ensures { Weighed (FnReturnsAt F.Fn weight) customers.now (λ by. Sheets (D.Divider.meaning divider.now) total by true weights.old shares.old weights.new shares.new) }
{
    write_weights(customers, weight, weights);
    divide_first(divider, total, customers.len(), weights, shares);
}

// Writes the shares into the records, each at its place, as `write` says.
fn write_shares<F: Fn(Customer, u32) -> Customer>(
    customers: &mut Register<'_, Customer>,
    shares: &[u64],
    write: F,
)
    requires callable { F.IsAlwaysCallable write }
    requires keeps { All (KeepsNumber (F.post write)) (records customers.old) }
    requires each { length shares.now ≡ length (records customers.old) }
    requires small { (k : ℕ) → k < length shares.now → slice_index shares.now k < 2 ^ 32 }
    ensures done { Written (F.post write) shares.now (records customers.old) (records customers.new) }
    ensures kept { Kept customers.old customers.new }
{
    // By place, since a register lends its records to be read, and takes them back one by one.
    for (i, share) in shares.iter().enumerate() {
        let row = write(customers.records()[i], *share as u32);
        let _ = customers.replace_at(i, row);
    }
}

// Divides a total by what the customers weigh, as `weight` says, and writes
// the shares into their records, as `write` says.
pub(crate) fn share_out<D: Divider, F: Fn(&Customer) -> u64, G: Fn(Customer, u32) -> Customer>(
    divider: &D,
    total: u64,
    customers: &mut Register<'_, Customer>,
    weight: F,
    write: G,
    weights: &mut [u64],
    shares: &mut [u64],
)
    requires weighs { F.IsAlwaysCallable weight }
    requires writes { G.IsAlwaysCallable write }
    requires keeps { All (KeepsNumber (G.post write)) (records customers.old) }
    requires weighed { length (records customers.old) ≤ length weights.old }
    requires wide { length (records customers.old) ≤ length shares.old }
    requires passes { (by : List ℕ) → AllZip (FnReturnsAt F.Fn weight) (records customers.old) by → Passes total by }
    requires small { total < 2 ^ 32 }
    ensures done { Weighed (FnReturnsAt F.Fn weight) (records customers.old) (λ by. (Written (G.post write) (D.Divider.meaning divider.now total by) (records customers.old) (records customers.new)) × (Sheets (D.Divider.meaning divider.now) total by true weights.old shares.old weights.new shares.new)) }
    ensures kept { Kept customers.old customers.new }
{
    let n = customers.len();
    divide_by(divider, total, customers.records(), weight, weights, shares);
    write_shares(customers, &shares[..n], write);
}
