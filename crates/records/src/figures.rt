//! The figures that are drawn from a customer's record.
ghost use Rattle.std.specs.Prelude.{◌≡◌};
ghost use Rattle.records.specs.Figures.{founding_weight, net_requirement, tier1, above_rhwm, slice_part, pool_weight};
ghost use Rattle.records.specs.Pools.{pool_of, order};

use crate::customer::Customer;
use crate::pool::Pool;

impl Customer {
    /// The load by which the founding total is divided: the measured load
    /// less the founding resources, but not below 0, plus conservation.
    pub fn founding_weight(&self) -> u64
        ensures { result ≡ founding_weight self.now }
    {
        u64::from(self.measured.saturating_sub(self.founding)) + u64::from(self.conservation)
    }

    /// The retail load less new large loads and resources, but not below 0.
    pub fn net_requirement(&self) -> u32
        ensures { result ≡ net_requirement self.now }
    {
        self.retail
            .saturating_sub(self.large)
            .saturating_sub(self.resources)
    }

    /// The smaller of RHWM and net requirement.
    pub fn tier1_amount(&self) -> u32
        ensures { result ≡ tier1 self.now }
    {
        self.rhwm.min(self.net_requirement())
    }

    /// The net requirement less the Tier 1 amount.
    pub fn above_rhwm_load(&self) -> u32
        ensures { result ≡ above_rhwm self.now }
    {
        self.net_requirement().saturating_sub(self.tier1_amount())
    }

    /// The smaller of slice amount and Tier 1 amount.
    pub fn slice_part(&self) -> u32
        ensures { result ≡ slice_part self.now }
    {
        self.slice.min(self.tier1_amount())
    }

    /// The load by which the cost of a pool is divided.
    pub fn pool_weight(&self, pool: Pool) -> u64
        ensures { result ≡ pool_weight pool self.now }
    {
        let weight = match pool {
            Pool::Composite => self.tier1_amount(),
            Pool::NonSlice => self.tier1_amount().saturating_sub(self.slice_part()),
            Pool::Slice => self.slice_part(),
            Pool::Tier2 => self.elected.min(self.above_rhwm_load()),
        };
        u64::from(weight)
    }
}

impl Pool {
    /// The pool of a letter: C, N, S or T.
    // An Option and no TryFrom, since each caller has a refusal of its own.
    pub fn of(letter: char) -> Option<Pool>
        ensures { result ≡ pool_of letter }
    {
        match letter {
            'C' => Some(Pool::Composite),
            'N' => Some(Pool::NonSlice),
            'S' => Some(Pool::Slice),
            'T' => Some(Pool::Tier2),
            _ => None,
        }
    }

    /// Its place in the order C, N, S, T.
    pub fn order(self) -> usize
        ensures { result ≡ order self }
    {
        self as usize
    }
}
