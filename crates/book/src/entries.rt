//! What a posting enters.
ghost use Rattle.std.specs.Prelude.{◌≡◌};
ghost use Rattle.book.specs.Sides.{entry_of};

use crate::figures::Posting;
use records::{Entry, Pool};

impl Posting {
    /// What is entered, where each letter names a pool, and a shift names two
    /// different ones.
    pub(crate) fn entry(self) -> Option<Entry>
        ensures { result ≡ entry_of self }
    {
        match self {
            Posting::Expense(letter) => Some(Entry::Expense(Pool::of(letter)?)),
            Posting::Credit(letter) => Some(Entry::Credit(Pool::of(letter)?)),
            Posting::Shift(first, second) => {
                let first = Pool::of(first)?;
                let second = Pool::of(second)?;
                if first == second {
                    return None;
                }
                Some(Entry::Shift(first, second))
            }
        }
    }
}
