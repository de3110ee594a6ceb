//! Digests of 32 bytes.
ghost use Rattle.std.specs.Prelude.{◌≡◌, map, Some, refl};
ghost use Rattle.std.specs.List.{concat};
ghost use Rattle.std.specs.Cmp.Lexicographic.{slice_cmp, nat_list_cmp_total, texts_po, texts_ties};
ghost use Rattle.std.specs.Ordering.{nat_cmp};
ghost use Rattle.sha2.specs.Sha256.{sha256};
ghost use Rattle.entries.specs.Leads.{first_word, equal_words};

use crate::bytes32::{compare, write_hex};
use entries::Leading;
use sha2::{Digest as _, Sha256};
use std::cmp::Ordering;
use std::fmt;
use std::marker::Model;

/// A digest of 32 bytes, compared byte by byte. It is laid out as these bytes.
#[repr(C)]
#[derive(Clone, Copy, PartialEq, Eq, Hash)]
pub struct Digest {
    /// The bytes of the digest.
    pub bytes: [u8; 32],
}

/// Contracts see a digest as its bytes.
impl Model for Digest {
    ghost use Rattle.std.specs.Prelude.{ℕ, List};

    ghost Value = { List ℕ };

    ghost view = { λ digest. digest.bytes };

    ghost inverse = { λ bytes. record { bytes = bytes } };
}

impl Digest {
    /// Computes the SHA-256 of the bytes.
    pub fn sha256(bytes: &[u8]) -> Self
        ensures { result ≡ sha256 bytes.now }
    {
        Digest {
            bytes: Sha256::digest(bytes),
        }
    }

    /// Computes the SHA-256 of the pieces, one after the other. Does not allocate.
    pub fn sha256_of(pieces: &[&[u8]]) -> Self
        ensures { result ≡ sha256 (concat (map (λ piece. piece.now) pieces.now)) }
    {
        let mut hasher = Sha256::new();
        for piece in pieces {
            hasher.update(piece);
        }
        Digest {
            bytes: hasher.finalize(),
        }
    }
}

impl PartialOrd for Digest {
    ghost partial_cmp = { λ x y. Some (slice_cmp nat_cmp x y) };

    ghost laws = { texts_po };

    fn partial_cmp(&self, other: &Self) -> Option<Ordering> {
        Some(self.cmp(other))
    }
}

impl Ord for Digest {
    ghost cmp = { slice_cmp nat_cmp };

    ghost total = { nat_list_cmp_total };

    ghost matches_partial_cmp = { λ x y. refl };

    ghost matches_eq = { texts_ties };

    #[inline(always)]
    fn cmp(&self, other: &Self) -> Ordering {
        compare(&self.bytes, &other.bytes)
    }
}

impl Leading for Digest {
    ghost leading_of = { first_word };

    ghost shared = { equal_words };

    #[inline(always)]
    fn leading(&self) -> u64 {
        u64::from_le_bytes([
            self.bytes[0],
            self.bytes[1],
            self.bytes[2],
            self.bytes[3],
            self.bytes[4],
            self.bytes[5],
            self.bytes[6],
            self.bytes[7],
        ])
    }
}

/// The bytes in lower-case hexadecimal.
impl fmt::Debug for Digest {
    fn fmt<W: fmt::Write>(&self, f: &mut fmt::Formatter<W>) -> fmt::Result {
        write_hex(&self.bytes, f)
    }
}
