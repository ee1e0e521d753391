//! Fields are written, with commas between them.
ghost use Rattle.std.specs.Prelude.{◌≡◌, ◌-◌, ◌≤◌, SomeIff, length, decimal};
ghost use Rattle.rows.specs.Rows.{comma, spelled, row, over, Writes};

use crate::field::Field;

// How many decimal digits a number has.
fn digits(n: u64) -> usize
    ensures count { result ≡ length (decimal n) }
    ensures few { result ≤ 20 }
{
    n.checked_ilog10().unwrap_or(0) as usize + 1
}

// How many bytes a field takes.
fn width(field: Field<'_>) -> usize
    ensures { result ≡ length (spelled field.entry) }
{
    match field {
        Field::Text(bytes) => bytes.len(),
        Field::Letter(letter) => letter.len_utf8(),
        Field::Figure(n) => digits(n),
        Field::Minus(n) => 1 + digits(n),
    }
}

// What stands before the field at a place: a comma, but nothing before the first.
fn comma(i: usize) -> &'static [u8]
    ensures { result.now ≡ comma i }
{
    if i > 0 { b"," } else { b"" }
}

// What is left of so many bytes behind a row, or nothing where it takes more.
fn left_behind(fields: &[Field<'_>], end: &[u8], room: usize) -> Option<usize>
    ensures { SomeIff result (length (row fields.now end.now) ≤ room) (room - length (row fields.now end.now)) }
{
    let mut left = room;
    for (i, field) in fields.iter().enumerate() {
        left = left
            .checked_sub(comma(i).len())?
            .checked_sub(width(*field))?;
    }
    left.checked_sub(end.len())
}

// Writes bytes at the front of a buffer, and answers how many they are.
fn put_bytes(buffer: &mut [u8], bytes: &[u8]) -> usize
    requires { length bytes.now ≤ length buffer.old }
    ensures count { result ≡ length bytes.now }
    ensures after { buffer.new ≡ over bytes.now buffer.old }
{
    buffer[..bytes.len()].copy_from_slice(bytes);
    bytes.len()
}

// Writes the digits of a number at the front of a buffer, and answers how many they are.
fn put_figure(buffer: &mut [u8], n: u64) -> usize
    requires { length (decimal n) ≤ length buffer.old }
    ensures count { result ≡ length (decimal n) }
    ensures after { buffer.new ≡ over (decimal n) buffer.old }
{
    let count = digits(n);
    let mut left = n;
    // By place, since nothing is known of what a `rev` of `iter_mut` wrote.
    for place in (0..count).rev() {
        buffer[place] = b'0' + (left % 10) as u8;
        left /= 10;
    }
    count
}

// Writes a field at the front of a buffer, and answers how many bytes it takes.
fn put_field(buffer: &mut [u8], field: Field<'_>) -> usize
    requires { length (spelled field) ≤ length buffer.old }
    ensures count { result ≡ length (spelled field.entry) }
    ensures after { buffer.new ≡ over (spelled field.entry) buffer.old }
{
    match field {
        Field::Text(bytes) => put_bytes(buffer, bytes),
        Field::Letter(letter) => put_bytes(buffer, letter.encode_utf8(&mut [0; 4]).as_bytes()),
        Field::Figure(n) => put_figure(buffer, n),
        Field::Minus(n) => {
            let sign = put_bytes(buffer, b"-");
            sign + put_figure(&mut buffer[sign..], n)
        }
    }
}

/// Writes a row at the front of a buffer: its fields with commas between
/// them, and what ends it. Answers the bytes written, or nothing where they
/// are more than the buffer holds; the buffer then stays as it was.
pub fn write(fields: &[Field<'_>], end: &[u8], buffer: &mut [u8]) -> Option<usize>
    ensures { Writes (row fields.now end.now) buffer.old result buffer.new }
{
    left_behind(fields, end, buffer.len())?;
    let mut at = 0;
    for (i, field) in fields.iter().enumerate() {
        at += put_bytes(&mut buffer[at..], comma(i));
        at += put_field(&mut buffer[at..], *field);
    }
    Some(at + put_bytes(&mut buffer[at..], end))
}
