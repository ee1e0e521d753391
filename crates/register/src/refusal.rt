//! Why a register refuses a call.
ghost use Rattle.std.specs.Prelude.{◌≡◌};
ghost use Rattle.register.specs.Refusals.{number};

/// The answers of a register to a call that it can't meet.
#[derive(Clone, Copy, PartialEq, Eq, Debug)]
pub enum Refusal {
    /// 20: no place is free.
    Full = 20,
    /// 21: a record of this number stands already.
    Taken = 21,
    /// 25: no such record stands.
    Missing = 25,
}

impl Refusal {
    /// The number by which this refusal is known.
    pub fn number(self) -> u8
        ensures { result ≡ number self }
    {
        self as u8
    }
}
