//! The encoding of a list of bytes: its length in four bytes, big-endian, and then its bytes.
//!
//! A message type whose lists are vectors writes them one after the other. Its `encode_size` adds
//! up [`encode_size`], and its `write` reserves that many bytes and then calls [`write_reserved`]
//! for each list. It is read as a tuple of [`ByteList`](super::blocks::ByteList) is, whose laws its
//! own follow from. No call of this module allocates.
ghost use Rattle.std.specs.Prelude.{◌≡◌, ◌+◌, ◌≤◌, ◌++◌, IsTrue, if◌then◌else◌, length, Option, Some, None, IfOk, vec_len, vec_capacity};
ghost use Rattle.broadcast_core.specs.ByteList.{has_spelling, spelled, read_list};
ghost use Rattle.broadcast_core.specs.Codec.{Gives};

use super::{CodecError, RangeCfg};
use byteorder::{BigEndian, ByteOrder};

/// The number of bytes of a length.
const LENGTH_BYTES: usize = 4;

/// The greatest length that these bytes can say.
const MAX_LENGTH: usize = u32::MAX as usize;

/// Reads the list at the front of `buf`, whose length is in `cfg`, and returns it with the bytes
/// after it.
///
/// Fails with `EndOfBuffer` if `buf` ends before the length, with `InvalidLength` if the length is
/// out of `cfg`, and with `EndOfBuffer` if `buf` ends before the list, checked in this order.
#[tactic(auto, unfolding(crate::specs::ByteList::read_list))]
pub fn read_cfg<'a>(buf: &'a [u8], cfg: &RangeCfg) -> Result<(&'a [u8], &'a [u8]), CodecError>
    ensures exact { Gives (λ x. (x.0.now, x.1.now)) result (read_list cfg.now buf.now) }
    ensures shorter { IfOk result (λ x. length x.1.now ≤ length buf.now) }
{
    if buf.len() < LENGTH_BYTES {
        return Err(CodecError::EndOfBuffer);
    }
    let (length, rest) = buf.split_at(LENGTH_BYTES);
    let length = BigEndian::read_u32(length) as usize;
    if !cfg.contains(length) {
        return Err(CodecError::InvalidLength(length));
    }
    if rest.len() < length {
        return Err(CodecError::EndOfBuffer);
    }
    Ok(rest.split_at(length))
}

/// Returns the number of bytes that encode `list`, or `None` if it has more than 4,294,967,295.
pub fn encode_size(list: &[u8]) -> Option<usize>
    ensures { result ≡ (if has_spelling list.now then Some (length (spelled list.now)) else None) }
{
    if list.len() > MAX_LENGTH {
        return None;
    }
    Some(LENGTH_BYTES + list.len())
}

/// Appends the encoding of `list` to `out`, where room for it is reserved.
pub fn write_reserved(list: &[u8], out: &mut Vec<u8>)
    requires short { IsTrue (has_spelling list.now) }
    requires room { vec_len out.old + length (spelled list.now) ≤ vec_capacity out.old }
    ensures written { out.new.items ≡ out.old.items ++ spelled list.now }
    ensures len { vec_len out.new ≡ vec_len out.old + length (spelled list.now) }
    ensures capacity { vec_capacity out.old ≤ vec_capacity out.new }
{
    let mut length = [0; LENGTH_BYTES];
    BigEndian::write_u32(&mut length, list.len() as u32);
    out.extend_from_slice(&length).unwrap();
    out.extend_from_slice(list).unwrap();
}
