//! A line is read.
ghost use Rattle.std.specs.Prelude.{◌≡◌, ◌+◌, ◌≤◌, ◌<◌, ◌^◌, true, IfOk, None};
ghost use Rattle.units.specs.Ranges.{range, count, kind};
ghost use Rattle.units.specs.declared.ranges.Kind.TheVariants.{Pool, OtherPool};
ghost use Rattle.units.specs.declared.ranges.Letter.TheVariants.{Customer};
ghost use Rattle.book.specs.declared.figures.Posting.TheVariants as posting;
ghost use Rattle.lines.specs.Letters.{field};
ghost use Rattle.lines.specs.Lines.{contents, written, fault_in, ranged, answer_of, line_of, figure, pool};
ghost use Rattle.lines.specs.Reading.{all, Due, FigureDue, Takes, TakesAll};

use crate::fault::Fault;
use crate::line::Line;
use crate::taking::Fields;
use book::{Figures, Posting};
use units::Letter;

impl<'a> Fields<'a> {
    // A figure that is a record's number.
    fn number(&mut self) -> Result<u32, Fault>
        requires due { FigureDue self.old }
        requires small { (range self.old.letter self.old.place).1 < 2 ^ 32 }
        ensures { Takes 1 self.old self.new result (λ n. n ≡ figure (field (all self.old) self.old.place)) }
    {
        Ok(self.figure()? as u32)
    }

    // The pools of a shift.
    fn shift(&mut self) -> Result<Posting, Fault>
        requires first { Due Pool self.old }
        requires few { self.old.place + 1 ≤ count self.old.letter }
        requires second { kind self.old.letter (self.old.place + 1) ≡ OtherPool }
        ensures { Takes 2 self.old self.new result (λ p. p ≡ posting.Shift (pool (field (all self.old) self.old.place)) (pool (field (all self.old) (self.old.place + 1)))) }
    {
        let first = self.pool()?;
        let second = self.other_pool(first)?;
        Ok(Posting::Shift(first, second))
    }

    // A customer's line.
    fn customer(&mut self) -> Result<Line<'a>, Fault>
        requires letter { self.old.letter ≡ Customer }
        requires place { self.old.place ≡ 2 }
        ensures { TakesAll self.old self.new result }
    {
        let number = self.figure()?;
        let name = self.name()?;
        let figures = Figures {
            number,
            measured: self.figure()?,
            founding: self.figure()?,
            conservation: self.figure()?,
            retail: self.figure()?,
            large: self.figure()?,
            resources: self.figure()?,
            elected: self.figure()?,
            slice: self.figure()?,
        };
        Ok(Line::Customer { name, figures })
    }

    // The line that the fields hold, by its letter.
    fn line(&mut self) -> Result<Line<'a>, Fault>
        requires { self.old.place ≡ 2 }
        ensures { TakesAll self.old self.new result }
    {
        match self.letter {
            Letter::Header => Ok(Line::Header {
                founding_total: self.figure()?,
                capability: self.figure()?,
            }),
            Letter::Customer => self.customer(),
            Letter::Expense => Ok(Line::Cost {
                number: self.number()?,
                posting: Posting::Expense(self.pool()?),
                cents: self.figure()?,
            }),
            Letter::Credit => Ok(Line::Cost {
                number: self.number()?,
                posting: Posting::Credit(self.pool()?),
                cents: self.figure()?,
            }),
            Letter::Shift => Ok(Line::Cost {
                number: self.number()?,
                posting: self.shift()?,
                cents: self.figure()?,
            }),
            Letter::Grant => Ok(Line::Grant {
                customer: self.number()?,
                load: self.figure()?,
            }),
            Letter::Transfer => Ok(Line::Transfer {
                giver: self.number()?,
                receiver: self.number()?,
                load: self.figure()?,
            }),
        }
    }
}

/// Reads a line.
///
/// Asks whether the letter is known (3) and whether the count of fields is
/// right (4), both with field 0; then, field by field, whether a figure is
/// digits only, at least one, with no leading 0 unless it is 0 (5), whether
/// it is in its range (6), whether a name has 1 to 24 bytes from 32 to 126
/// without the comma (7), and whether a pool's letter is C, N, S or T and, in
/// a shift, the second unlike the first (8). What is read is written again as
/// the same bytes, and has every figure in its range.
pub fn read<'a>(line: &'a [u8]) -> Result<Line<'a>, Fault>
    ensures reads { answer_of result ≡ line_of line.now }
    ensures writes { IfOk result (λ l. (fault_in (contents l) ≡ None) × (written (contents l) ≡ line.now)) }
    ensures ranged { IfOk result (λ l. ranged (contents l) ≡ true) }
{
    let mut fields = Fields::of(line)?;
    let read = fields.line()?;
    fields.end()?;
    Ok(read)
}
