//! The amounts on the sides of the pools.
ghost use Rattle.std.specs.Prelude.{◌≡◌, ◌+◌, ◌^◌, ◌<◌, ◌≤◌, nat_le};
ghost use Rattle.book.specs.Sides.{side, with_side, raised, lowered, most_cents};

use crate::sides::Sides;
use records::Pool;

/// The most cents on a side of a pool.
const MOST_CENTS: u64 = 400_000_000_000;

impl Sides {
    /// The cents of a pool.
    pub(crate) fn side(self, pool: Pool) -> u64
        ensures { result ≡ side self pool }
    {
        match pool {
            Pool::Composite => self.composite,
            Pool::NonSlice => self.nonslice,
            Pool::Slice => self.slice,
            Pool::Tier2 => self.tier2,
        }
    }

    /// Whether a pool stays within the most cents with so many more.
    pub(crate) fn has_room(self, pool: Pool, cents: u64) -> bool
        ensures { result ≡ nat_le (side self pool + cents) most_cents }
    {
        let side = self.side(pool);
        side <= MOST_CENTS && cents <= MOST_CENTS - side
    }

    // With so many cents in a pool.
    fn with(self, pool: Pool, cents: u64) -> Sides
        ensures { result ≡ with_side self pool cents }
    {
        match pool {
            Pool::Composite => Sides {
                composite: cents,
                ..self
            },
            Pool::NonSlice => Sides {
                nonslice: cents,
                ..self
            },
            Pool::Slice => Sides {
                slice: cents,
                ..self
            },
            Pool::Tier2 => Sides {
                tier2: cents,
                ..self
            },
        }
    }

    /// With so many cents more in a pool.
    pub(crate) fn raised(self, pool: Pool, cents: u64) -> Sides
        requires { side self pool + cents < 2 ^ 64 }
        ensures { result ≡ raised self pool cents }
    {
        self.with(pool, self.side(pool) + cents)
    }

    /// With so many cents less in a pool.
    pub(crate) fn lowered(self, pool: Pool, cents: u64) -> Sides
        requires { cents ≤ side self pool }
        ensures { result ≡ lowered self pool cents }
    {
        self.with(pool, self.side(pool) - cents)
    }
}
