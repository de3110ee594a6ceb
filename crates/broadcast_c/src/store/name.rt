//! Keys of up to 64 bytes.
ghost use Rattle.std.specs.Prelude.{◌≡◌, Some, refl};
ghost use Rattle.std.specs.Cmp.Lexicographic.{slice_cmp, nat_list_cmp_total, texts_po, texts_ties};
ghost use Rattle.std.specs.Cmp.{on_po, on_total};
ghost use Rattle.std.specs.Cmp.Rules.{comparing};
ghost use Rattle.std.specs.Ordering.{nat_cmp};
ghost use Rattle.std.proofs.Common.{rules};
ghost use Rattle.entries.specs.Leads.{first_word, equal_words};

use broadcast_core::{Leading, PublicKey};
use std::cmp::Ordering;
use std::hash::Hash;

/// A key of up to 64 bytes: its bytes, then zeros, and last its length. It is laid out as these 65
/// bytes, and compared byte by byte.
#[repr(C)]
#[derive(Clone, Copy, PartialEq, Eq, Hash)]
pub struct Name {
    /// The bytes, zeros and the length.
    pub bytes: [u8; 65],
}

impl PartialOrd for Name {
    ghost partial_cmp = { λ x y. Some (slice_cmp nat_cmp x.bytes y.bytes) };

    ghost laws = { on_po (λ name. name.bytes) texts_po };

    fn partial_cmp(&self, other: &Self) -> Option<Ordering> {
        Some(self.cmp(other))
    }
}

impl Ord for Name {
    ghost cmp = { λ x y. slice_cmp nat_cmp x.bytes y.bytes };

    ghost total = { on_total (λ name. name.bytes) nat_list_cmp_total };

    ghost matches_partial_cmp = { λ x y. refl };

    ghost matches_eq = { λ x y. texts_ties x.bytes y.bytes };

    #[inline(always)]
    fn cmp(&self, other: &Self) -> Ordering {
        compare(&self.bytes, &other.bytes)
    }
}

impl Leading for Name {
    ghost leading_of = { λ name. first_word name.bytes };

    ghost shared = { λ x y equal. equal_words x.bytes y.bytes equal };

    #[inline(always)]
    fn leading(&self) -> u64 {
        u64::from_le_bytes([
            self.bytes[0],
            self.bytes[1],
            self.bytes[2],
            self.bytes[3],
            self.bytes[4],
            self.bytes[5],
            self.bytes[6],
            self.bytes[7],
        ])
    }
}

impl PublicKey for Name {
    ghost copies = { Prim.search (comparing, rules) };
}

/// Compares byte by byte. Most differ in their first two bytes, which are compared without a call.
#[inline(always)]
fn compare(a: &[u8; 65], b: &[u8; 65]) -> Ordering
    ensures { result ≡ slice_cmp nat_cmp a.now b.now }
{
    let first = a[0].cmp(&b[0]);
    if !first.is_eq() {
        return first;
    }
    let second = a[1].cmp(&b[1]);
    if second.is_eq() { a.cmp(b) } else { second }
}
