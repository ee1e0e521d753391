//! Why a call of the book is refused.
ghost use Rattle.std.specs.Prelude.{◌≡◌};
ghost use Rattle.book.specs.Answers.{number, of_register, of_range};

/// The answers of a book to a call that it can't meet.
#[derive(Clone, Copy, PartialEq, Eq, Debug)]
pub enum Refusal {
    /// 6: a figure is outside its range.
    OutOfRange = 6,
    /// 8: a pool's letter is unknown, or a shift names the same pool twice.
    UnknownPool = 8,
    /// 20: no place is free.
    Full = 20,
    /// 21: a record of this number stands already.
    Taken = 21,
    /// 22: a sheet has too few places.
    ShortSheet = 22,
    /// 23: the founding weights add up to 0.
    NoFoundingWeight = 23,
    /// 24: a mark would pass 20,050,000, the marks to close by add up to 0, a
    /// side of a pool would fall below 0, or a division would be too large.
    Spoiled = 24,
    /// 25: no such record stands.
    Missing = 25,
    /// 26: the load is 0.
    NoLoad = 26,
    /// 27: the grants of the book would pass 50,000.
    OverGranted = 27,
    /// 28: the giver has a load on the way already.
    AlreadyLifted = 28,
    /// 29: the load is more than the giver's mark.
    OverMark = 29,
    /// 30: the parcel's giver has no load on the way in this register.
    NotOnTheWay = 30,
    /// 31: the receiver does not stand.
    NoReceiver = 31,
    /// 32: the receiver is the giver.
    SameCustomer = 32,
    /// 33: a side of a pool would pass 400,000,000,000 cents.
    OverSide = 33,
    /// 35: a load is on the way.
    OnTheWay = 35,
    /// 36: the letter names no pool.
    UnknownLetter = 36,
    /// 37: there is a cost, and the weights add up to 0.
    NoWeight = 37,
}

impl Refusal {
    /// The number by which this refusal is known.
    pub fn number(self) -> u8
        ensures { result ≡ number self }
    {
        self as u8
    }
}

impl From<register::Refusal> for Refusal {
    ghost from_gives = { λ e f. f ≡ of_register e };

    fn from(e: register::Refusal) -> Refusal {
        match e {
            register::Refusal::Full => Refusal::Full,
            register::Refusal::Taken => Refusal::Taken,
            register::Refusal::Missing => Refusal::Missing,
        }
    }
}

impl From<units::Refusal> for Refusal {
    ghost from_gives = { λ e f. f ≡ of_range e };

    fn from(e: units::Refusal) -> Refusal {
        match e {
            units::Refusal::OutOfRange => Refusal::OutOfRange,
        }
    }
}
