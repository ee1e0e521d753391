//! What customers weigh, one by one and all together.
ghost use Rattle.std.specs.Fn.{FnReturnsAt};
ghost use Rattle.std.specs.Prelude.{◌≡◌, ◌≤◌, length, sum};
ghost use Rattle.book.specs.Rates.{on_top, wide, divisible};
ghost use Rattle.book.specs.Weights.{Weighed};

use divider::LIMIT;
use records::Customer;

// What the customers weigh together, each as `weight` says.
pub(crate) fn sum_of<F: Fn(&Customer) -> u64>(customers: &[Customer], weight: F) -> u128
    requires { F.IsAlwaysCallable weight }
    ensures { Weighed (FnReturnsAt F.Fn weight) customers.now (λ by. result ≡ sum by) }
{
    let mut sum = 0;
    for customer in customers {
        sum += u128::from(weight(customer));
    }
    sum
}

// Writes what each customer weighs into the first places of a sheet.
pub(crate) fn write_weights<F: Fn(&Customer) -> u64>(
    customers: &[Customer],
    weight: F,
    sheet: &mut [u64],
)
    requires callable { F.IsAlwaysCallable weight }
    requires long { length customers.now ≤ length sheet.old }
    ensures { Weighed (FnReturnsAt F.Fn weight) customers.now (λ by. sheet.new ≡ on_top by sheet.old) }
{
    // By place, since nothing is known of what a `zip` with `iter_mut` wrote.
    for (i, customer) in customers.iter().enumerate() {
        sheet[i] = weight(customer);
    }
}

// Whether both sheets have a place for each of `n` customers.
pub(crate) fn wide(n: usize, weights: &[u64], shares: &[u64]) -> bool
    ensures { result ≡ wide n weights.now shares.now }
{
    n <= weights.len() && n <= shares.len()
}

// Whether a total can be divided by weights that add up to `sum`.
pub(crate) fn divisible(total: u64, sum: u128) -> bool
    ensures { result ≡ divisible total sum }
{
    let limit = u128::from(LIMIT);
    sum <= limit && u128::from(total) * sum <= limit
}
