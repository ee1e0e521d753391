//! A book is made, takes customers in, and is founded.
ghost use Rattle.std.specs.Prelude.{◌≡◌};
ghost use Rattle.register.specs.Register.{records, Kept};
ghost use Rattle.book.specs.Books.{opened};
ghost use Rattle.book.specs.Customers.{key};
ghost use Rattle.book.specs.Rates.{Founds};

use crate::refusal::Refusal;
use crate::sharing::share_out;
use crate::sides::Sides;
use crate::stages::{Intake, OpenBook};
use crate::weighing::{divisible, sum_of, wide};
use divider::Divider;
use records::Customer;
use register::Register;
use units::Header;

const NO_SIDES: Sides = Sides {
    composite: 0,
    nonslice: 0,
    slice: 0,
    tier2: 0,
};

impl<D: Divider> Intake<D> {
    /// A book that divides by `divider`, for the loads of the header.
    pub fn new(divider: D, header: Header) -> Intake<D>
        ensures divider { result.divider ≡ divider }
        ensures header { result.header ≡ header }
    {
        Intake { divider, header }
    }

    /// Divides the founding total by the customers' founding weights, and
    /// writes each share into its record as the mark, with nothing on the way.
    ///
    /// The weights and the shares stand in the first places of the sheets
    /// afterwards. Asks whether both sheets have a place for each customer
    /// (22), whether the founding weights add up to more than 0 (23), and
    /// whether their sum, and the founding total times it, are at most
    /// 2^63 - 1 (24).
    pub fn found(
        self,
        customers: &mut Register<'_, Customer>,
        weights: &mut [u64],
        shares: &mut [u64],
    ) -> Result<OpenBook<D>, (Intake<D>, Refusal)>
        ensures done { Founds D.Divider.meaning self (records customers.old) weights.old shares.old result (records customers.new) weights.new shares.new }
        ensures kept { Kept customers.old customers.new }
    {
        let total = self.header.founding_total().thousandths();
        if !wide(customers.len(), weights, shares) {
            return Err((self, Refusal::ShortSheet));
        }
        let sum = sum_of(customers.records(), Customer::founding_weight);
        if sum == 0 {
            return Err((self, Refusal::NoFoundingWeight));
        }
        if !divisible(total, sum) {
            return Err((self, Refusal::Spoiled));
        }
        share_out(
            &self.divider,
            total,
            customers,
            Customer::founding_weight,
            |customer, share| Customer {
                mark: share,
                transit: 0,
                ..customer
            },
            weights,
            shares,
        );
        Ok(self.into_open())
    }
}

impl<D> Intake<D> {
    // The book as founding leaves it: no grants and no costs yet. No From,
    // which anyone could call.
    fn into_open(self) -> OpenBook<D>
        ensures { result ≡ opened self }
    {
        let Intake { divider, header } = self;
        OpenBook {
            divider,
            header,
            granted: 0,
            costs: NO_SIDES,
            credits: NO_SIDES,
        }
    }
}
