//! The questions that are put to a field.
ghost use Rattle.std.specs.Prelude.{◌≡◌, not, ◌&&◌, ◌==◌, is_some, if◌then◌else◌, Ok, Err, slice_index};
ghost use Rattle.records.specs.Pools.{pool_of};
ghost use Rattle.rows.specs.Rows.{spelled};
ghost use Rattle.figures.specs.Figure.{figure};
ghost use Rattle.lines.specs.Answers.{told, at_field};
ghost use Rattle.units.specs.Ranges.{kind};
ghost use Rattle.lines.specs.Questions.{a_name, a_pool, holds, in_field, asks, Fits, Compared};
ghost use Rattle.lines.specs.declared.fault.Refusal.TheVariants.{NotAName, UnknownPool};

use crate::fault::{Fault, Refusal};
use records::Pool;
use rows::Field;
use units::{Kind, Letter, in_range, kind_at};

/// Whether bytes are a name: 1 to 24 of them, each from 32 to 126 and no comma.
pub fn is_name(bytes: &[u8]) -> bool
    ensures { result ≡ a_name bytes.now }
{
    (1..=24).contains(&bytes.len())
        && bytes
            .iter()
            .all(|byte| matches!(byte, b' '..=b'~') && *byte != b',')
}

// Whether a letter names a pool.
fn is_pool(letter: char) -> bool
    ensures { result ≡ is_some (pool_of letter) }
{
    Pool::of(letter).is_some()
}

// Whether a letter names a pool other than the one whose letter a field holds.
fn is_other_pool(letter: char, field: Field<'_>) -> bool
    ensures { result ≡ (is_some (pool_of letter) && not (holds letter field.entry)) }
{
    match field {
        Field::Letter(first) => letter != first && is_pool(letter),
        _ => is_pool(letter),
    }
}

// What is told of the field at a place, which is lawful or refused.
fn answer(lawful: bool, place: usize, refusal: Refusal) -> Result<(), Fault>
    ensures { result ≡ (if lawful then Ok tt else Err (record { field = place; refusal = refusal })) }
{
    if !lawful {
        return Err(Fault::at(place, refusal));
    }
    Ok(())
}

// A figure outside the range of its field.
const OUT_OF_RANGE: Refusal = Refusal::Figure(figures::Refusal::OutOfRange);

/// Asks whether a field's figure is in its range (6), its name lawful (7), or
/// its pool known and, in the second pool of a shift, unlike the field before
/// it (8).
pub(crate) fn ask(
    letter: Letter,
    place: usize,
    field: Field<'_>,
    before: Field<'_>,
) -> Result<(), Fault>
    requires { (Fits (kind letter place) field) × (Compared (kind letter place) before) }
    ensures { result ≡ told tt (at_field place (asks (kind letter place) (spelled field.entry) (spelled before.entry))) }
{
    match field {
        Field::Figure(n) => answer(in_range(letter, place, n), place, OUT_OF_RANGE),
        Field::Text(name) => answer(is_name(name), place, Refusal::NotAName),
        // By kind: a field doesn't say which of a shift's pools it holds.
        Field::Letter(pool) if matches!(kind_at(letter, place), Kind::OtherPool) => answer(
            is_other_pool(pool, before),
            place,
            Refusal::UnknownPool,
        ),
        Field::Letter(pool) => answer(is_pool(pool), place, Refusal::UnknownPool),
        Field::Minus(_) => answer(false, place, OUT_OF_RANGE),
    }
}

/// The figure that some bytes are, if it is in the range of its field (6).
pub(crate) fn figure_in(letter: Letter, place: usize, bytes: &[u8]) -> Result<u64, figures::Refusal>
    ensures { result ≡ in_field (kind letter place) (figure bytes.now) }
{
    let n = figures::read(bytes)?;
    if !in_range(letter, place, n) {
        return Err(figures::Refusal::OutOfRange);
    }
    Ok(n)
}

/// The name that some bytes are (7).
pub(crate) fn name_in<'a>(bytes: &'a [u8]) -> Result<&'a [u8], Refusal>
    ensures { result ≡ (if a_name bytes.now then Ok bytes.entry else Err NotAName) }
{
    if !is_name(bytes) {
        return Err(Refusal::NotAName);
    }
    Ok(bytes)
}

/// The pool's letter that some bytes are (8).
pub(crate) fn pool_in(bytes: &[u8]) -> Result<char, Refusal>
    ensures { result ≡ (if a_pool bytes.now then Ok (slice_index bytes.now 0) else Err UnknownPool) }
{
    match bytes {
        [byte] if is_pool(*byte as char) => Ok(*byte as char),
        _ => Err(Refusal::UnknownPool),
    }
}

/// The letter of a pool other than a first one (8).
pub(crate) fn other_pool_in(bytes: &[u8], first: char) -> Result<char, Refusal>
    ensures { result ≡ (if a_pool bytes.now && not (slice_index bytes.now 0 == first) then Ok (slice_index bytes.now 0) else Err UnknownPool) }
{
    let pool = pool_in(bytes)?;
    if pool == first {
        return Err(Refusal::UnknownPool);
    }
    Ok(pool)
}
