//! The one table of the forms of lines: what stands in each field, and the range of every figure.
ghost use Rattle.std.specs.Prelude.{◌≡◌};
ghost use Rattle.units.specs.Ranges.{number, form, count, kind, span, admits, range, in_range};

/// Why a figure is refused.
#[derive(Clone, Copy, PartialEq, Eq, Debug)]
pub enum Refusal {
    /// 6: the figure is outside its range.
    OutOfRange = 6,
}

impl Refusal {
    /// The number by which this refusal is known.
    pub fn number(self) -> u8
        ensures { result ≡ number self }
    {
        self as u8
    }
}

/// The letter that begins a line and says what the line holds.
#[derive(Clone, Copy, PartialEq, Eq, Debug)]
pub enum Letter {
    /// H: the header.
    Header,
    /// C: a customer.
    Customer,
    /// E: an expense of a pool.
    Expense,
    /// R: a credit of a pool.
    Credit,
    /// A: a shift between two pools.
    Shift,
    /// G: a grant of mark.
    Grant,
    /// T: a transfer of mark.
    Transfer,
}

/// What a figure counts.
#[derive(Clone, Copy, PartialEq, Eq, Debug)]
pub enum Measure {
    /// Nothing: a plain number.
    Plain,
    /// Thousandths of an average megawatt.
    Thousandths,
    /// Cents.
    Cents,
}

/// What stands in a field.
#[derive(Clone, Copy, PartialEq, Eq, Debug)]
pub enum Kind {
    /// A figure: what it counts, its lowest and its highest.
    Figure(Measure, u64, u64),
    /// A customer's name.
    Name,
    /// A pool's letter.
    Pool,
    /// The letter of a pool other than the one before it.
    OtherPool,
}

/// The number of a customer or a cost line.
pub const NUMBER: Kind = Kind::Figure(Measure::Plain, 1, 9_999);
/// The founding total of a header.
pub const FOUNDING_TOTAL: Kind = Kind::Figure(Measure::Thousandths, 1, 20_000_000);
/// The capability of a header.
pub const CAPABILITY: Kind = Kind::Figure(Measure::Thousandths, 0, 20_000_000);
/// A customer's measured load.
pub const MEASURED: Kind = Kind::Figure(Measure::Thousandths, 0, 2_000_000);
/// A customer's founding resources.
pub const FOUNDING: Kind = Kind::Figure(Measure::Thousandths, 0, 2_000_000);
/// A customer's conservation.
pub const CONSERVATION: Kind = Kind::Figure(Measure::Thousandths, 0, 500_000);
/// A customer's retail load.
pub const RETAIL: Kind = Kind::Figure(Measure::Thousandths, 0, 2_000_000);
/// A customer's new large loads.
pub const LARGE: Kind = Kind::Figure(Measure::Thousandths, 0, 2_000_000);
/// A customer's resources.
pub const RESOURCES: Kind = Kind::Figure(Measure::Thousandths, 0, 2_000_000);
/// A customer's elected Tier 2 load.
pub const ELECTED: Kind = Kind::Figure(Measure::Thousandths, 0, 30_000);
/// A customer's slice amount.
pub const SLICE: Kind = Kind::Figure(Measure::Thousandths, 0, 2_000_000);
/// Any other load, as one that is granted or transferred.
pub const LOAD: Kind = Kind::Figure(Measure::Thousandths, 0, 20_050_000);
/// A cost amount.
pub const CENTS: Kind = Kind::Figure(Measure::Cents, 1, 100_000_000_000);

/// What stands in the fields after each letter, in their order; the letters are
/// in the order of `Letter`.
static FORMS: [&[Kind]; 7] = [
    &[FOUNDING_TOTAL, CAPABILITY],
    &[
        NUMBER,
        Kind::Name,
        MEASURED,
        FOUNDING,
        CONSERVATION,
        RETAIL,
        LARGE,
        RESOURCES,
        ELECTED,
        SLICE,
    ],
    &[NUMBER, Kind::Pool, CENTS],
    &[NUMBER, Kind::Pool, CENTS],
    &[NUMBER, Kind::Pool, Kind::OtherPool, CENTS],
    &[NUMBER, LOAD],
    // The giver, the receiver and the load.
    &[NUMBER, NUMBER, LOAD],
];

impl Kind {
    /// The lowest and the highest of a figure. What is no figure has the range
    /// from 1 to 0, in which nothing lies.
    pub fn span(self) -> (u64, u64)
        ensures { result ≡ span self }
    {
        match self {
            Kind::Figure(_, low, high) => (low, high),
            Kind::Name | Kind::Pool | Kind::OtherPool => (1, 0),
        }
    }

    /// Whether a figure may stand in such a field.
    pub fn admits(self, figure: u64) -> bool
        ensures { result ≡ admits self figure }
    {
        let (low, high) = self.span();
        (low..=high).contains(&figure)
    }
}

/// What stands in the fields after a letter, in their order.
pub fn form(letter: Letter) -> &'static [Kind]
    ensures { result.now ≡ form letter }
{
    FORMS[letter as usize]
}

/// How many fields a line has, its letter among them.
pub fn count(letter: Letter) -> usize
    ensures { result ≡ count letter }
{
    form(letter).len() + 1
}

/// What stands in a field of a line; the letter is field 1. The letter, and a
/// field that there is not, count as names, so that no figure is in their range.
pub fn kind_at(letter: Letter, field: usize) -> Kind
    ensures { result ≡ kind letter field }
{
    match field.checked_sub(2) {
        Some(place) => form(letter).get(place).copied().unwrap_or(Kind::Name),
        None => Kind::Name,
    }
}

/// The lowest and the highest of the figure in a field of a line; the letter
/// is field 1. Where there is no figure, it is the range from 1 to 0.
pub fn range(letter: Letter, field: usize) -> (u64, u64)
    ensures { result ≡ range letter field }
{
    kind_at(letter, field).span()
}

/// Whether a figure may stand in a field of a line.
pub fn in_range(letter: Letter, field: usize, figure: u64) -> bool
    ensures { result ≡ in_range letter field figure }
{
    kind_at(letter, field).admits(figure)
}
