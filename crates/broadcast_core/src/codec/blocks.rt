//! The blocks of which a message is made.
//!
//! | Block | Bytes | Limits |
//! |---|---|---|
//! | `u32`, `u64` | 4 or 8, the highest first | none, `()` |
//! | `[u8; N]`, [`Digest`](crate::Digest) | `N` or 32, as they are | none, `()` |
//! | [`ByteList`] | its length as a `u32`, then its bytes | a range of lengths, `RangeCfg` |
//! | `Option<A>` | 0, or 1 and then `A` | those of `A` |
//! | [`OneOf<A, B>`](OneOf) | 0 and then `A`, or 1 and then `B` | those of both, a pair |
//! | [`Tag<N>`](Tag) | `N` | none, `()` |
//! | `(A, B)`, `(A, B, C)` | each in turn | those of each, a tuple |
//!
//! The first refusal in reading order counts: `EndOfBuffer` if the bytes end too early,
//! `InvalidLength` if a list is too short or too long, and `Invalid` with the byte that stands in
//! the place of a tag. A message has no encoding if a `ByteList` of it has more than 4,294,967,295
//! bytes, or if it would have more than `usize::MAX` bytes.
//!
//! A [`Record`] of blocks is a message as a [`Wire`], which is written and read as the tuple of its
//! fields.
ghost use Rattle.std.specs.Prelude.{◌≡◌, if◌then◌else◌, ◌++◌, length, nat_lt, Ok, Err, Some, IfErr};
ghost use Rattle.broadcast_core.specs.declared.codec.CodecError.{CodecError};
ghost use Rattle.broadcast_core.specs.Codec.{Appends};

mod array;
mod bytes;
mod number;
mod option;
mod record;
mod tagged;
mod tuple;

use super::CodecError;
pub use bytes::ByteList;
pub use record::{Record, Wire};
pub use tagged::{OneOf, Tag};

/// Returns `n` if there are as many bytes.
fn enough(buf: &[u8], n: usize) -> Result<usize, CodecError>
    ensures { result ≡ (if nat_lt (length buf.now) n then Err CodecError.EndOfBuffer else Ok n) }
{
    if buf.len() < n {
        return Err(CodecError::EndOfBuffer);
    }
    Ok(n)
}

/// Appends the bytes to `out`. On an error `out` stays as it was.
fn append(bytes: &[u8], out: &mut Vec<u8>) -> Result<(), CodecError>
    ensures written { Appends (Some bytes.now) out.old.items out.new.items result }
    ensures memory { IfErr result (λ e. e ≡ CodecError.Memory) }
{
    out.extend_from_slice(bytes)?;
    Ok(())
}
