//! An open book is closed.
ghost use Rattle.std.specs.Prelude.{◌≡◌};
ghost use Rattle.register.specs.Register.{records, Kept};
ghost use Rattle.book.specs.Books.{closed};
ghost use Rattle.book.specs.Customers.{key};
ghost use Rattle.book.specs.Rates.{Closes};

use crate::refusal::Refusal;
use crate::sharing::share_out;
use crate::stages::{ClosedBook, OpenBook};
use crate::weighing::{divisible, sum_of, wide};
use divider::Divider;
use records::Customer;
use register::Register;

impl<D: Divider> OpenBook<D> {
    /// Divides the capability by the customers' marks, and writes each share
    /// into its record as the RHWM.
    ///
    /// The weights and the shares stand in the first places of the sheets
    /// afterwards. Asks whether both sheets have a place for each customer
    /// (22), whether nothing is on the way (35), and whether the marks add up
    /// to more than 0, and their sum, and the capability times it, are at most
    /// 2^63 - 1 (24).
    pub fn close(
        self,
        customers: &mut Register<'_, Customer>,
        weights: &mut [u64],
        shares: &mut [u64],
    ) -> Result<ClosedBook<D>, (OpenBook<D>, Refusal)>
        ensures done { Closes D.Divider.meaning self (records customers.old) weights.old shares.old result (records customers.new) weights.new shares.new }
        ensures kept { Kept customers.old customers.new }
    {
        let total = self.header.capability().thousandths();
        if !wide(customers.len(), weights, shares) {
            return Err((self, Refusal::ShortSheet));
        }
        let moving = sum_of(customers.records(), |customer| u64::from(customer.transit));
        if moving != 0 {
            return Err((self, Refusal::OnTheWay));
        }
        let weight = |customer: &Customer| u64::from(customer.mark);
        let sum = sum_of(customers.records(), weight);
        if sum == 0 || !divisible(total, sum) {
            return Err((self, Refusal::Spoiled));
        }
        share_out(
            &self.divider,
            total,
            customers,
            weight,
            |customer, share| Customer {
                rhwm: share,
                ..customer
            },
            weights,
            shares,
        );
        Ok(self.into_closed())
    }
}

impl<D> OpenBook<D> {
    // The book as closing leaves it. No From, which anyone could call.
    fn into_closed(self) -> ClosedBook<D>
        ensures { result ≡ closed self }
    {
        let OpenBook {
            divider,
            header,
            granted,
            costs,
            credits,
        } = self;
        ClosedBook {
            divider,
            header,
            granted,
            costs,
            credits,
        }
    }
}
