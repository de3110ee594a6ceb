//! Lists of bytes.
ghost use Rattle.std.specs.Prelude.{◌≡◌, ◌-◌, length, Result, Ok, Err};
ghost use Rattle.std.specs.Str.{bytes_eq};
ghost use Rattle.std.specs.Ordering.{on};
ghost use Rattle.std.specs.Cmp.Rules.{comparing};
ghost use Rattle.std.proofs.Common.{rules};
ghost use Rattle.broadcast_core.specs.Codec.{Gives};
ghost use Rattle.broadcast_core.specs.Blocks.{byte_list_encoding, read_byte_list};
ghost use Rattle.broadcast_core.specs.BlockLaws.{byte_list_within, byte_list_refusals, byte_list_reads_back};

use crate::codec::{Codec, CodecError, EncodeSize, RangeCfg, Read, Write, byte_list};
use std::alloc::{AllocError, Global};
use std::fmt::{self, Debug as _};
use std::marker::Model;

/// A list of bytes in a message, written as its length in four bytes and then its bytes.
#[derive(Drop)]
pub struct ByteList {
    /// The bytes of the list.
    pub bytes: Vec<u8>,
}

/// Contracts see a list as its bytes.
impl Model for ByteList {
    ghost use Rattle.std.specs.Prelude.{ℕ, List};

    ghost Value = { List ℕ };

    ghost view = { λ list. list.bytes.items };
}

impl From<Vec<u8>> for ByteList {
    ghost from_gives = { λ bytes list. list ≡ bytes.items };

    fn from(bytes: Vec<u8>) -> Self {
        ByteList { bytes }
    }
}

impl Clone for ByteList {
    ghost is_clone = { λ list copy. copy ≡ list };

    /// Returns a copy of the bytes.
    fn clone(&self) -> Result<Self, AllocError> {
        Ok(ByteList {
            bytes: self.bytes.clone()?,
        })
    }
}

impl PartialEq for ByteList {
    ghost eq = { bytes_eq };

    ghost laws = { Prim.search (comparing, rules) };

    /// Returns whether both lists have the same bytes.
    fn eq(&self, other: &Self) -> bool {
        self.bytes == other.bytes
    }
}

impl Eq for ByteList {
    ghost laws = { Prim.search (comparing, rules) };
}

/// Prints the bytes as those of a vector.
impl fmt::Debug for ByteList {
    fn fmt<W: fmt::Write>(&self, f: &mut fmt::Formatter<W>) -> fmt::Result {
        self.bytes.fmt(f)
    }
}

impl Write for ByteList {
    ghost encoding = { byte_list_encoding };

    /// Appends the length in four bytes, and then the bytes. A list of more than 4,294,967,295
    /// bytes has no encoding.
    fn write(&self, out: &mut Vec<u8>) -> Result<(), CodecError> {
        let size = self.encode_size().ok_or(CodecError::Unencodable)?;
        out.reserve(size)?;
        byte_list::write_reserved(&self.bytes, out);
        Ok(())
    }
}

impl EncodeSize for ByteList {
    /// Returns 4 more than the number of bytes, or `None` if there are more than 4,294,967,295.
    fn encode_size(&self) -> Option<usize> {
        byte_list::encode_size(&self.bytes)
    }
}

impl Read for ByteList {
    type Cfg = RangeCfg;

    ghost reading = { read_byte_list };

    /// Returns the number of bytes of the list at the front, with those of its length.
    fn layout(buf: &[u8], cfg: &RangeCfg) -> Result<usize, CodecError> {
        list_at(buf, cfg).map(|(_, used)| used)
    }

    /// Reads the list at the front.
    fn read_cfg(alloc: Global, buf: &[u8], cfg: &RangeCfg) -> Result<(Self, usize), CodecError> {
        let (list, used) = list_at(buf, cfg)?;
        let bytes = Vec::from_slice(alloc, list)?;
        Ok((ByteList { bytes }, used))
    }

    ghost within = { byte_list_within };

    ghost refusals = { byte_list_refusals };
}

impl Codec for ByteList {
    ghost reads_back = { byte_list_reads_back };
}

/// Returns the list at the front, and the number of bytes that it takes.
fn list_at<'a>(buf: &'a [u8], range: &RangeCfg) -> Result<(&'a [u8], usize), CodecError>
    ensures { Gives (λ x. (x.0.now, x.1)) result (read_byte_list range.now buf.now) }
{
    let (list, rest) = byte_list::read_cfg(buf, range)?;
    Ok((list, buf.len() - rest.len()))
}
