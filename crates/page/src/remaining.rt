//! The lines of a page that are still to be read.
ghost use Rattle.std.specs.Prelude.{◌≡◌, ◌+◌, ◌-◌, ◌^◌, ◌≤◌, [], length, is_some, MatchOption, if◌then◌else◌};
ghost use Rattle.std.specs.Iterator.{at_most};
ghost use Rattle.rows.specs.Rows.{parts_after};
ghost use Rattle.page.specs.Remaining.{FirstOf};

/// Lines of a page, each with its number: those from one on.
#[derive(Clone, Copy)]
pub(crate) struct Lines<'a> {
    /// The number of the first, from 1 on.
    pub(crate) number: usize,
    /// The first and what stands after it, if one is left.
    pub(crate) rest: Option<&'a [u8]>,
    ghost from_one: { 1 ≤ number },
    ghost counted: { number + length (parts_after 10 rest) ≤ 2 ^ 32 },
}

impl Lines<'_> {
    /// The number of the first, or of the line before where none is left.
    pub(crate) fn here(&self) -> usize
        ensures { result ≡ (if is_some self.now.rest then self.now.number else self.now.number - 1) }
    {
        match self.rest {
            Some(_) => self.number,
            None => self.number - 1,
        }
    }
}

impl<'a> Iterator for Lines<'a> {
    type Item = (usize, &'a [u8]);

    ghost next_gives = { λ s o t. MatchOption o (parts_after 10 s.rest ≡ []) (λ x. FirstOf s.number (parts_after 10 s.rest) x t.number (parts_after 10 t.rest)) };

    ghost remaining = { λ s. at_most (length (parts_after 10 s.rest)) };

    fn next(&mut self) -> Option<(usize, &'a [u8])> {
        let (line, rest) = rows::split(self.rest?, b'\n');
        let number = self.number;
        *self = Lines {
            number: number + 1,
            rest,
        };
        Some((number, line))
    }
}
