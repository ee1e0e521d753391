//! Searches among records in a slice, and shifts of them.
ghost use Rattle.std.specs.Prelude.{◌≡◌, ◌<◌, ◌≤◌, length, take, slice_index_or, slice_set};
ghost use Rattle.std.specs.List.{insert, remove};
ghost use Rattle.register.specs.Records.{rising_front, InOrder, Located};
ghost use Rattle.register.specs.Register.{laid};

use super::Keyed;

/// The place of the record of the number, or the place where it would go.
pub(crate) fn place_of<R: Keyed>(records: &[R], number: u32) -> Result<usize, usize>
    requires { InOrder R.Keyed.key records.now }
    ensures { Located R.Keyed.key number records.now result }
{
    records.binary_search_by_key(&number, |row| row.number())
}

/// How many records from the first one on are in rising order.
pub(crate) fn rising<R: Keyed>(records: &[R]) -> usize
    ensures { result ≡ length (rising_front R.Keyed.key records.now) }
{
    let mut last = None;
    for (count, row) in records.iter().enumerate() {
        let number = row.number();
        if last.is_some_and(|last| number <= last) {
            return count;
        }
        last = Some(number);
    }
    records.len()
}

/// Puts `row` in at `at`. Of the first `standing` records, those from `at` on
/// move one place up.
pub(crate) fn insert_at<R: Copy>(memory: &mut [R], standing: usize, at: usize, row: R)
    requires { (standing < length memory.old) × (at ≤ standing) }
    ensures { memory.new ≡ laid (insert (take standing memory.old) at row) memory.old }
{
    memory.copy_within(at..standing, at + 1);
    memory[at] = row;
}

/// Takes the record at `at` out, and gives it back. Of the first `standing`
/// records, those behind it move one place down.
pub(crate) fn remove_at<R: Copy>(memory: &mut [R], standing: usize, at: usize) -> R
    requires { (standing ≤ length memory.old) × (at < standing) }
    ensures old { result ≡ slice_index_or memory.old at result }
    ensures after { memory.new ≡ laid (remove (take standing memory.old) at) memory.old }
{
    let old = memory[at];
    memory.copy_within(at + 1..standing, at);
    old
}

/// Puts `row` in the place of the record at `place`, and returns that one.
pub(crate) fn put<R: Copy>(memory: &mut [R], place: usize, row: R) -> R
    requires { place < length memory.old }
    ensures old { result ≡ slice_index_or memory.old place result }
    ensures after { memory.new ≡ slice_set memory.old place row }
{
    // Not `mem::replace`, so that a must-fail edit can change the place of the write alone.
    let old = memory[place];
    memory[place] = row;
    old
}
