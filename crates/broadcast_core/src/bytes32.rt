//! The 32 bytes of a key or a digest.
ghost use Rattle.std.specs.Prelude.{◌≡◌};
ghost use Rattle.std.specs.Cmp.Lexicographic.{slice_cmp};
ghost use Rattle.std.specs.Ordering.{nat_cmp};

use std::cmp::Ordering;
use std::fmt;

/// Compares byte by byte. Most differ in their first two bytes, which are compared without a call.
#[inline(always)]
pub fn compare(a: &[u8; 32], b: &[u8; 32]) -> Ordering
    ensures { result ≡ slice_cmp nat_cmp a.now b.now }
{
    let first = a[0].cmp(&b[0]);
    if !first.is_eq() {
        return first;
    }
    let second = a[1].cmp(&b[1]);
    if second.is_eq() { a.cmp(b) } else { second }
}

/// Writes the bytes in lower-case hexadecimal.
pub fn write_hex<W: fmt::Write>(bytes: &[u8; 32], f: &mut fmt::Formatter<W>) -> fmt::Result {
    for byte in bytes {
        write!(f, "{byte:02x}")?;
    }
    Ok(())
}
