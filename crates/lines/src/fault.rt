//! Why a line is refused, and at which field.
ghost use Rattle.std.specs.Prelude.{◌≡◌};
ghost use Rattle.lines.specs.Answers.{number};
ghost use Rattle.lines.specs.declared.fault.Refusal.TheVariants.{Figure};

/// The question that a line fails.
#[derive(Clone, Copy, PartialEq, Eq, Debug)]
pub enum Refusal {
    /// 3: the letter is not known.
    UnknownLetter,
    /// 4: the line has not as many fields as its letter asks for.
    FieldCount,
    /// A figure's own refusal; 6 too where it is outside the range of its field.
    Figure(figures::Refusal),
    /// 7: a name has not 1 to 24 bytes from 32 to 126 without the comma.
    NotAName,
    /// 8: a pool's letter is not known, or a shift names a pool twice.
    UnknownPool,
    /// 9: the buffer is too short for the line.
    NoRoom,
}

impl Refusal {
    /// The number by which this refusal is known.
    pub fn number(self) -> u8
        ensures { result ≡ number self }
    {
        // Case by case, since a case that holds a value is no number.
        match self {
            Refusal::UnknownLetter => 3,
            Refusal::FieldCount => 4,
            Refusal::Figure(refusal) => refusal.number(),
            Refusal::NotAName => 7,
            Refusal::UnknownPool => 8,
            Refusal::NoRoom => 9,
        }
    }
}

impl From<figures::Refusal> for Refusal {
    ghost from_gives = { λ e f. f ≡ Figure e };

    fn from(e: figures::Refusal) -> Refusal {
        Refusal::Figure(e)
    }
}

/// A refused line: the question that fails, and the field to which it is put.
/// The letter is field 1; a question to the whole line has field 0.
// Field 0 and no Option, since the row of a fault writes it so.
#[derive(Clone, Copy, PartialEq, Eq, Debug)]
pub struct Fault {
    pub field: usize,
    pub refusal: Refusal,
}

impl Fault {
    // The fault of a field.
    pub(crate) fn at(field: usize, refusal: Refusal) -> Fault
        ensures { result ≡ record { field = field; refusal = refusal } }
    {
        Fault { field, refusal }
    }

    // The fault of a whole line.
    pub(crate) fn of_line(refusal: Refusal) -> Fault
        ensures { result ≡ record { field = 0; refusal = refusal } }
    {
        Fault::at(0, refusal)
    }
}
