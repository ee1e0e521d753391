//! The fields of a line are taken one by one.
ghost use Rattle.std.specs.Prelude.{◌≡◌, ◌+◌, ◌-◌, ◌≤◌, drop, length, Some, None};
ghost use Rattle.rows.specs.Rows.{parted, parts_after};
ghost use Rattle.lines.specs.Letters.{field, letter_of};
ghost use Rattle.lines.specs.Questions.{first_fault};

use crate::asking::{figure_in, name_in, other_pool_in, pool_in};
use crate::fault::{Fault, Refusal};
use crate::letters::letter_of;
use units::{Letter, count};

/// A line of which some fields are taken: the place of the next one, and what
/// is left of the line. The fields before it pass.
#[derive(Drop)]
pub(crate) struct Fields<'a> {
    // All of it, of which the ghost fields speak.
    line: &'a [u8],
    pub(crate) letter: Letter,
    place: usize,
    rest: Option<&'a [u8]>,
    ghost known: { letter_of (field (parted 44 line.now) 1) ≡ Some letter },
    ghost begun: { 2 ≤ place },
    ghost within: { place ≤ length (parted 44 line.now) + 1 },
    ghost left: { parts_after 44 rest ≡ drop (place - 1) (parted 44 line.now) },
    ghost clean: { first_fault letter (parted 44 line.now) 2 (place - 2) ≡ None },
}

// How many fields stand in what is left of a line.
fn fields_in(rest: Option<&[u8]>) -> usize
    ensures { result ≡ length (parts_after 44 rest.entry) }
{
    match rest {
        Some(bytes) => rows::separators(bytes, b',') + 1,
        None => 0,
    }
}

impl<'a> Fields<'a> {
    ghost use Rattle.std.specs.Prelude.{MatchResult, Err};
    ghost use Rattle.units.specs.Ranges.{count};
    ghost use Rattle.units.specs.declared.ranges.Kind.TheVariants.{Name, Pool, OtherPool};
    ghost use Rattle.lines.specs.Lines.{read_fields, faults, figure, pool};
    ghost use Rattle.lines.specs.Questions.{asked};
    ghost use Rattle.lines.specs.Reading.{all, Due, FigureDue, Next, Refuses, Taken, Takes};

    /// A line whose letter is known (3), before its second field.
    pub(crate) fn of(line: &'a [u8]) -> Result<Fields<'a>, Fault>
        ensures { MatchResult result (λ s. (all s ≡ parted 44 line.now) × (s.place ≡ 2)) (λ f. Err f ≡ read_fields (parted 44 line.now)) }
    {
        let (first, rest) = rows::split(line, b',');
        let letter = letter_of(first).ok_or(Fault::of_line(Refusal::UnknownLetter))?;
        Ok(Fields {
            line,
            letter,
            place: 2,
            rest,
        })
    }

    // The fault of the next field, if the count of fields is right. What stands after the field is
    // counted, and no field is gone over again.
    #[cold]
    fn fault(&self, rest: Option<&[u8]>, refusal: Refusal) -> Fault
        requires few { self.now.place ≤ count self.now.letter }
        requires rest { parts_after 44 rest ≡ drop self.now.place (all self.now) }
        requires within { self.now.place ≤ length (all self.now) }
        requires fails { asked self.now.letter (all self.now) self.now.place ≡ Some refusal }
        ensures { Refuses self.now result }
    {
        if fields_in(rest) != count(self.letter) - self.place {
            return Fault::of_line(Refusal::FieldCount);
        }
        Fault::at(self.place, refusal)
    }

    // The bytes of the next field, and what stands after it.
    fn peek(&self) -> Result<(&'a [u8], Option<&'a [u8]>), Fault>
        requires { self.now.place ≤ count self.now.letter }
        ensures { MatchResult result (λ p. Next self.now p.0.now p.1) (Refuses self.now) }
    {
        let Some(rest) = self.rest else {
            return Err(Fault::of_line(Refusal::FieldCount));
        };
        Ok(rows::split(rest, b','))
    }

    // Goes past the next field, which passes, to what stands after it.
    fn pass(&mut self, rest: Option<&'a [u8]>)
        requires few { self.old.place ≤ count self.old.letter }
        requires passes { asked self.old.letter (all self.old) self.old.place ≡ None }
        requires rest { parts_after 44 rest ≡ drop self.old.place (all self.old) }
        requires within { self.old.place ≤ length (all self.old) }
        ensures { Taken 1 self.old self.new }
    {
        self.place += 1;
        self.rest = rest;
    }

    // Each kind of field has a match of its own: one for all, generic in what
    // it answers, would copy every answer, which is slower. No `map_err`, since
    // a fault may be asked for only of the field that is refused.

    /// The next field, a figure. Inlined, its range is known where it is read.
    #[inline(always)]
    pub(crate) fn figure(&mut self) -> Result<u64, Fault>
        requires { FigureDue self.old }
        ensures { Takes 1 self.old self.new result (λ n. n ≡ figure (field (all self.old) self.old.place)) }
    {
        let (bytes, rest) = self.peek()?;
        match figure_in(self.letter, self.place, bytes) {
            Ok(figure) => {
                self.pass(rest);
                Ok(figure)
            }
            Err(refusal) => Err(self.fault(rest, refusal.into())),
        }
    }

    /// The next field, a name.
    pub(crate) fn name(&mut self) -> Result<&'a [u8], Fault>
        requires { Due Name self.old }
        ensures { Takes 1 self.old self.new result (λ n. n.now ≡ field (all self.old) self.old.place) }
    {
        let (bytes, rest) = self.peek()?;
        match name_in(bytes) {
            Ok(name) => {
                self.pass(rest);
                Ok(name)
            }
            Err(refusal) => Err(self.fault(rest, refusal)),
        }
    }

    /// The next field, a pool's letter.
    pub(crate) fn pool(&mut self) -> Result<char, Fault>
        requires { Due Pool self.old }
        ensures { Takes 1 self.old self.new result (λ c. c ≡ pool (field (all self.old) self.old.place)) }
    {
        let (bytes, rest) = self.peek()?;
        match pool_in(bytes) {
            Ok(pool) => {
                self.pass(rest);
                Ok(pool)
            }
            Err(refusal) => Err(self.fault(rest, refusal)),
        }
    }

    /// The next field, the letter of a pool other than the first, which stands
    /// before it.
    pub(crate) fn other_pool(&mut self, first: char) -> Result<char, Fault>
        requires due { Due OtherPool self.old }
        requires first { first ≡ pool (field (all self.old) (self.old.place - 1)) }
        ensures { Takes 1 self.old self.new result (λ c. c ≡ pool (field (all self.old) self.old.place)) }
    {
        let (bytes, rest) = self.peek()?;
        match other_pool_in(bytes, first) {
            Ok(pool) => {
                self.pass(rest);
                Ok(pool)
            }
            Err(refusal) => Err(self.fault(rest, refusal)),
        }
    }

    /// No field is left, if the count of fields is right.
    pub(crate) fn end(&self) -> Result<(), Fault>
        requires { self.now.place ≡ count self.now.letter + 1 }
        ensures { MatchResult result (λ _. (length (all self.now) ≡ count self.now.letter) × (faults self.now.letter (all self.now) ≡ None)) (Refuses self.now) }
    {
        if self.rest.is_some() {
            return Err(Fault::of_line(Refusal::FieldCount));
        }
        Ok(())
    }
}
