//! Registers: records of one kind, kept in rising order of their numbers.
//!
//! A register stands in memory that it is lent, and allocates nothing. It
//! uses at most the first 512 places, and its records stand in the first of
//! them. A record that is added or removed moves those behind it by one place;
//! all other places of the memory keep what they held. A call that refuses
//! changes nothing.
#![tactic(auto)]

ghost use Rattle.std.specs.Prelude.{◌≡◌, ℕ, min, [], length, take, is_ok, if◌then◌else◌, ◌==◌};
ghost use Rattle.register.specs.Records.{lookup, added, without, replaced, lookup_at, replaced_at, usable, rising_front, InOrder, in_order-prop};

mod refusal;
mod slices;

pub use refusal::Refusal;

/// The most places that a register uses of its memory.
pub const PLACES: usize = 512;

/// A record with a number, by which a register keeps it.
///
/// A number of fewer bits is given as a `u32` without loss, by `u32::from`.
pub trait Keyed: Copy {
    ghost key: { Self → ℕ };

    /// The number of the record.
    fn number(&self) -> u32
        ensures { result ≡ key self.now };
}

/// Records of one kind, in rising order of their numbers, no number twice.
// A slice that is lent and a count, and no Vec: a register allocates nothing,
// and any memory will do. No Model: the calls promise the memory and its lender
// beside the records, so the view would be the fields again.
#[derive(Drop)]
pub struct Register<'a, R: Keyed> {
    places: &'a mut [R],
    standing: usize,
    ghost rising: { InOrder R.Keyed.key (take (min standing (usable places.now)) places.now) } by { in_order-prop R.Keyed.key (take (min standing (usable places.now)) places.now) },
}

impl<'a, R: Keyed> Register<'a, R> {
    ghost use Rattle.register.specs.Register.{memory, room, records, Placed, Sought, Admitted, Untouched, Kept};

    /// A register in the memory `places`, in which no record stands yet.
    ///
    /// It leaves the memory as it was. Any memory will do, also an empty one.
    pub fn new(places: &'a mut [R]) -> Register<'a, R>
        ensures records { records result ≡ [] }
        ensures memory { memory result ≡ places.old }
        ensures lender { result.places.ghost_name ≡ places.entry.ghost_name }
    {
        Register {
            places,
            standing: 0,
        }
    }

    /// A register in the memory `places`, in whose first places `standing`
    /// records stand already, or as many as it uses of them and are in rising order.
    ///
    /// It leaves the memory as it was.
    pub fn of(places: &'a mut [R], standing: usize) -> Register<'a, R>
        ensures records { records result ≡ rising_front R.Keyed.key (take (min standing (usable places.old)) places.old) }
        ensures memory { memory result ≡ places.old }
        ensures lender { result.places.ghost_name ≡ places.entry.ghost_name }
    {
        let used = standing.min(PLACES).min(places.len());
        let standing = slices::rising(&places[..used]);
        Register { places, standing }
    }

    /// How many records stand.
    pub fn len(&self) -> usize
        ensures { result ≡ length (records self.now) }
    {
        self.standing.min(self.room())
    }

    /// Whether no record stands.
    pub fn is_empty(&self) -> bool
        ensures { result ≡ (length (records self.now) == 0) }
    {
        self.len() == 0
    }

    /// Whether no place is free.
    pub fn is_full(&self) -> bool
        ensures { result ≡ (length (records self.now) == room self.now) }
    {
        self.len() == self.room()
    }

    /// The standing records, in their order.
    pub fn records(&self) -> &[R]
        ensures { result.now ≡ records self.now }
    {
        &self.places[..self.len()]
    }

    /// The place of the record of a number in the order.
    ///
    /// Refuses with `Missing` where none stands.
    pub fn find(&self, number: u32) -> Result<usize, Refusal>
        ensures { Placed R.Keyed.key number (records self.now) result }
    {
        slices::place_of(self.records(), number).map_err(|_| Refusal::Missing)
    }

    /// The record of the number.
    ///
    /// Refuses with `Missing` where none stands.
    pub fn get(&self, number: u32) -> Result<R, Refusal>
        ensures { Sought (lookup R.Keyed.key number (records self.now)) result }
    {
        let at = self.find(number)?;
        Ok(self.records()[at])
    }

    /// Adds a record, in its place by its number.
    ///
    /// Asks, in this order, whether a place is free, else refuses with `Full`,
    /// and whether the number is new, else refuses with `Taken`.
    pub fn add(&mut self, row: R) -> Result<(), Refusal>
        ensures answer { Admitted R.Keyed.key (room self.old) row (records self.old) result }
        ensures records { records self.new ≡ (if is_ok result then added R.Keyed.key row (records self.old) else records self.old) }
        ensures untouched { Untouched result self.old self.new }
        ensures kept { Kept self.old self.new }
    {
        if self.is_full() {
            return Err(Refusal::Full);
        }
        let standing = self.len();
        let Err(at) = slices::place_of(self.records(), row.number()) else {
            return Err(Refusal::Taken);
        };
        slices::insert_at(self.places, standing, at, row);
        self.standing = standing + 1;
        Ok(())
    }

    /// Takes the record of the number out, and gives it back.
    ///
    /// Refuses with `Missing` where none stands.
    pub fn remove(&mut self, number: u32) -> Result<R, Refusal>
        ensures answer { Sought (lookup R.Keyed.key number (records self.old)) result }
        ensures records { records self.new ≡ without R.Keyed.key number (records self.old) }
        ensures untouched { Untouched result self.old self.new }
        ensures kept { Kept self.old self.new }
    {
        let at = self.find(number)?;
        let standing = self.len();
        self.standing = standing - 1;
        Ok(slices::remove_at(self.places, standing, at))
    }

    /// Puts a record in the place of the one of its number, and gives that one back.
    ///
    /// Refuses with `Missing` where none stands.
    pub fn replace(&mut self, row: R) -> Result<R, Refusal>
        ensures answer { Sought (lookup R.Keyed.key (R.Keyed.key row) (records self.old)) result }
        ensures records { records self.new ≡ replaced R.Keyed.key row (records self.old) }
        ensures untouched { Untouched result self.old self.new }
        ensures kept { Kept self.old self.new }
    {
        let at = self.find(row.number())?;
        Ok(slices::put(self.places, at, row))
    }

    /// Puts a record in the place of the one at `at` in the order, and gives that one back.
    ///
    /// Takes one step, for a pass over all records. Refuses with `Missing`
    /// where `at` is past the standing records, or a record of another number
    /// stands there.
    pub fn replace_at(&mut self, at: usize, row: R) -> Result<R, Refusal>
        ensures answer { Sought (lookup_at R.Keyed.key at (R.Keyed.key row) (records self.old)) result }
        ensures records { records self.new ≡ replaced_at R.Keyed.key at row (records self.old) }
        ensures untouched { Untouched result self.old self.new }
        ensures kept { Kept self.old self.new }
    {
        let number = row.number();
        match self.records().get(at) {
            Some(old) if old.number() == number => Ok(slices::put(self.places, at, row)),
            _ => Err(Refusal::Missing),
        }
    }

    // How many places the register may use.
    fn room(&self) -> usize
        ensures { result ≡ room self.now }
    {
        self.places.len().min(PLACES)
    }
}
