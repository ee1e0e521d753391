//! Bytes are parted at a separator.
ghost use Rattle.std.specs.Prelude.{◌≡◌, ◌+◌, ◌≤◌, length};
ghost use Rattle.rows.specs.Rows.{parted, all_parts};

/// The first part of some bytes, and what stands after its separator, if one
/// ends it.
pub fn split<'a>(bytes: &'a [u8], separator: u8) -> (&'a [u8], Option<&'a [u8]>)
    ensures { all_parts separator result ≡ parted separator bytes.now }
{
    match bytes.iter().position(|byte| *byte == separator) {
        Some(at) => (&bytes[..at], Some(&bytes[at + 1..])),
        None => (bytes, None),
    }
}

/// How many separators stand in some bytes: one less than its parts.
pub fn separators(bytes: &[u8], separator: u8) -> usize
    ensures count { result + 1 ≡ length (parted separator bytes.now) }
    ensures few { result ≤ length bytes.now }
{
    bytes.iter().filter(|byte| **byte == separator).count()
}
