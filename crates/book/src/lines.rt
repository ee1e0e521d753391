//! Posting and striking of cost lines.
ghost use Rattle.std.specs.Prelude.{◌≡◌, true};
ghost use Rattle.register.specs.Register.{room, records, Kept};
ghost use Rattle.records.specs.Pools.{where_same};
ghost use Rattle.book.specs.Books.{posting as posted, striking};
ghost use Rattle.book.specs.Lines.{key, Posts, Strikes};
ghost use Rattle.book.specs.Sides.{stays, all_stay, all_hold};

use crate::figures::Posting;
use crate::refusal::Refusal;
use crate::stages::OpenBook;
use records::{CostLine, Entry, Pool};
use register::Register;
use units::{Cents, NUMBER};

impl<D> OpenBook<D> {
    /// Enters a cost line, and raises the sides of its pools.
    ///
    /// Asks whether the number is in its range (6), whether the letters name
    /// pools, and in a shift two different ones (8), whether a place is free
    /// (20), whether the number is new (21), and whether both sides of each
    /// pool that the line touches stay within 400,000,000,000 (33).
    pub fn post(
        &mut self,
        lines: &mut Register<'_, CostLine>,
        number: u32,
        posting: Posting,
        amount: Cents,
    ) -> Result<(), Refusal>
        ensures done { Posts self.old (room lines.old) (records lines.old) number posting amount.amount result self.new (records lines.new) }
        ensures kept { Kept lines.old lines.new }
    {
        if !NUMBER.admits(u64::from(number)) {
            return Err(Refusal::OutOfRange);
        }
        let Some(entry) = posting.entry() else {
            return Err(Refusal::UnknownPool);
        };
        if lines.is_full() {
            return Err(Refusal::Full);
        }
        if lines.get(number).is_ok() {
            return Err(Refusal::Taken);
        }
        let line = CostLine {
            number,
            entry,
            cents: amount.amount(),
        };
        if !self.has_room(line) {
            return Err(Refusal::OverSide);
        }
        let _ = lines.add(line);
        self.raise(line);
        Ok(())
    }

    // Whether both sides of each pool that a line touches stay within the most cents.
    fn has_room(&self, line: CostLine) -> bool
        ensures { result ≡ all_stay self.now.costs self.now.credits line.entry line.cents }
    {
        match line.entry {
            Entry::Expense(pool) | Entry::Credit(pool) => self.pool_has_room(pool, line),
            Entry::Shift(first, second) => {
                self.pool_has_room(first, line) && self.pool_has_room(second, line)
            }
        }
    }

    // Whether both sides of one of its pools stay within the most cents.
    fn pool_has_room(&self, pool: Pool, line: CostLine) -> bool
        ensures { result ≡ stays self.now.costs self.now.credits line.entry line.cents pool }
    {
        let (cost, credit) = match line.entry {
            Entry::Expense(first) => (where_same(first, pool, line.cents), 0),
            Entry::Credit(first) => (0, where_same(first, pool, line.cents)),
            Entry::Shift(first, second) => (
                where_same(first, pool, line.cents),
                where_same(second, pool, line.cents),
            ),
        };
        self.costs.has_room(pool, cost) && self.credits.has_room(pool, credit)
    }

    // Raises the sides of the pools of a line.
    fn raise(&mut self, line: CostLine)
        requires { all_stay self.old.costs self.old.credits line.entry line.cents ≡ true }
        ensures { self.new ≡ posted self.old line.entry line.cents }
    {
        match line.entry {
            Entry::Expense(pool) => self.costs = self.costs.raised(pool, line.cents),
            Entry::Credit(pool) => self.credits = self.credits.raised(pool, line.cents),
            Entry::Shift(first, second) => {
                self.costs = self.costs.raised(first, line.cents);
                self.credits = self.credits.raised(second, line.cents);
            }
        }
    }
}

impl<D> OpenBook<D> {
    /// Takes a cost line out, and lowers the sides that it raised.
    ///
    /// Asks whether the line stands (25), and whether those sides hold its
    /// cents (24).
    pub fn strike(&mut self, lines: &mut Register<'_, CostLine>, number: u32) -> Result<(), Refusal>
        ensures done { Strikes self.old (records lines.old) number result self.new (records lines.new) }
        ensures kept { Kept lines.old lines.new }
    {
        let line = lines.get(number)?;
        if !self.holds(line) {
            return Err(Refusal::Spoiled);
        }
        let _ = lines.remove(number);
        self.lower(line);
        Ok(())
    }

    // Whether the sides that a line raised hold its cents.
    fn holds(&self, line: CostLine) -> bool
        ensures { result ≡ all_hold self.now.costs self.now.credits line.entry line.cents }
    {
        match line.entry {
            Entry::Expense(pool) => line.cents <= self.costs.side(pool),
            Entry::Credit(pool) => line.cents <= self.credits.side(pool),
            Entry::Shift(first, second) => {
                line.cents <= self.costs.side(first) && line.cents <= self.credits.side(second)
            }
        }
    }

    // Lowers the sides that a line raised. Not one function with `raise`, which
    // asks for room where this one asks for cents.
    fn lower(&mut self, line: CostLine)
        requires { all_hold self.old.costs self.old.credits line.entry line.cents ≡ true }
        ensures { self.new ≡ striking self.old line.entry line.cents }
    {
        match line.entry {
            Entry::Expense(pool) => self.costs = self.costs.lowered(pool, line.cents),
            Entry::Credit(pool) => self.credits = self.credits.lowered(pool, line.cents),
            Entry::Shift(first, second) => {
                self.costs = self.costs.lowered(first, line.cents);
                self.credits = self.credits.lowered(second, line.cents);
            }
        }
    }
}

// The cents where the two pools are the same, else 0.
fn where_same(first: Pool, second: Pool, cents: u64) -> u64
    ensures { result ≡ where_same first second cents }
{
    if first == second { cents } else { 0 }
}
