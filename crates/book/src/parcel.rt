//! Load that was lifted off a mark.
ghost use Rattle.std.specs.Prelude.{◌≡◌, true};

/// The token of a lifted load: it has to be landed or given back, which spends
/// it, and no program may let go of one that is not spent. The amount stays in
/// the giver's record.
pub struct Parcel {
    pub(crate) giver: u32,
    // A flag, since the clause of the drop asks for it.
    pub(crate) spent: bool,
}

impl Drop for Parcel {
    fn drop(self)
        requires { self.spent ≡ true }
    {
        let Parcel { giver: _, spent: _ } = self;
    }
}

impl Parcel {
    // The giver's number; the parcel is spent, and ends.
    pub(crate) fn open(mut self) -> u32
        ensures { result ≡ self.giver }
    {
        self.spent = true;
        self.giver
    }
}
