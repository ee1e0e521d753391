//! Whole parts and remainders, packed into one number each.
ghost use Rattle.std.specs.Prelude.{◌≡◌, ℕ, ◌+◌, ◌-◌, ◌*◌, ◌%◌, ◌^◌, ◌<◌, ◌≤◌, List, map, length, sum, count_by, nat_le, bit_and};
ghost use Rattle.divider.specs.Questions.{limit, Passes};
ghost use Rattle.largest.specs.Largest.{left_over};
ghost use Rattle.largest.specs.Packing.{packed, reached, raised, share_of, Divides};

/// Who gets one of the units that the whole parts leave: each remainder above
/// the mark, and the first `spare` ones at it.
#[derive(Clone, Copy)]
pub(crate) struct Cut {
    mark: u64,
    spare: u64,
}

/// Packs the whole part and the remainder of a weight's exact share into
/// remainder × unit + whole part, where the unit is a power of two above the total.
#[derive(Clone, Copy)]
pub(crate) struct Packing {
    total: u64,
    sum: u64,
    unit: u64,
    ghost some: { 0 < sum },
    ghost over: { total < unit },
    ghost room: { sum * unit + unit ≤ 2 ^ 64 },
    ghost masks: { (x : ℕ) → bit_and x (unit - 1) ≡ x % unit },
}

// How many numbers of the sheet are at least `least`.
fn count_from(least: u64, sheet: &[u64]) -> u64
    ensures { result ≡ count_by (λ x. nat_le least x) sheet.now }
{
    // A sum keeps the loop in vector registers, as `filter` and `count` do not.
    sheet.iter().map(|x| u64::from(*x >= least)).sum()
}

impl Packing {
    /// For a total and a sum of weights that passed the questions.
    pub(crate) fn new(total: u64, sum: u64) -> Packing
        requires { (0 < sum) × (sum ≤ limit) × (total * sum ≤ limit) }
        ensures { (result.total ≡ total) × (result.sum ≡ sum) }
    {
        let unit = (total + 1).next_power_of_two();
        Packing { total, sum, unit }
    }

    /// Writes each weight's packed whole part and remainder, and answers what the whole parts leave.
    pub(crate) fn split(self, weights: &[u64], sheet: &mut [u64]) -> u64
        requires { (self.sum ≡ sum weights.now) × Passes self.total weights.now × (length sheet.old ≡ length weights.now) }
        ensures written { sheet.new ≡ map (packed self.total self.sum self.unit) weights.now }
        ensures left { result ≡ left_over self.total self.sum weights.now }
    {
        let mut left = self.total;
        // By index: nothing is known of what a `zip` with `iter_mut` wrote, and to copy the
        // weights first and pass over the sheet alone is slower.
        for (i, weight) in weights.iter().enumerate() {
            let product = self.total * *weight;
            let whole = product / self.sum;
            sheet[i] = product % self.sum * self.unit + whole;
            left -= whole;
        }
        left
    }

    /// Where the packed remainders divide into those served with one of `left` units and the others.
    /// It ends early where the remainders that reach a number are just as many as the units.
    pub(crate) fn cut_at(self, sheet: &[u64], left: u64) -> Cut
        requires { (reached self.unit self.sum sheet.now ≡ 0) × (left ≤ reached self.unit 0 sheet.now) }
        ensures within { result.mark < self.sum }
        ensures divides { Divides self.unit sheet.now left result.mark result.spare }
    {
        let mut low: u64 = 0;
        let mut high = self.sum;
        let mut served: u64 = 0;
        while served < left && high - low > 1 {
            let middle = low + (high - low) / 2;
            let count = count_from(middle * self.unit, sheet);
            if count <= left {
                high = middle;
                served = count;
            } else {
                low = middle;
            }
        }
        Cut {
            mark: high - 1,
            spare: left - served,
        }
    }

    /// Raises the first `spare` numbers at the mark by a unit, so that they are served too.
    pub(crate) fn raise(self, cut: Cut, sheet: &mut [u64])
        requires { cut.mark < self.sum }
        ensures { sheet.new ≡ raised self.unit (cut.mark * self.unit) cut.spare sheet.old }
    {
        let level = cut.mark * self.unit;
        let above = level + self.unit;
        let mut units = cut.spare;
        for x in sheet.iter_mut() {
            if units == 0 {
                return;
            }
            if (level..above).contains(x) {
                *x += self.unit;
                units -= 1;
            }
        }
    }

    /// Turns the packed numbers into shares, where those above the mark are served.
    pub(crate) fn unpack(self, cut: Cut, sheet: &mut [u64])
        requires { cut.mark < self.sum }
        ensures { sheet.new ≡ map (share_of self.unit (cut.mark * self.unit + self.unit)) sheet.old }
    {
        let above = cut.mark * self.unit + self.unit;
        for x in sheet.iter_mut() {
            *x = (*x & (self.unit - 1)) + u64::from(*x >= above);
        }
    }
}
