//! One of two blocks, behind a tag of one byte, and a tag alone.
ghost use Rattle.std.specs.Prelude.{◌≡◌};
ghost use Rattle.broadcast_core.specs.Blocks.{read_tagged};
ghost use Rattle.broadcast_core.specs.Tagged.{one_of_encoding, read_one_of, tag_encoding, read_tag};
ghost use Rattle.broadcast_core.specs.TaggedLaws.{one_of_within, one_of_refusals, one_of_reads_back, tag_within, tag_refusals, tag_reads_back};

use super::append;
use super::option::{layout_behind, read_behind};
use super::tuple::{size_of_both, write_both};
use crate::codec::{Codec, CodecError, EncodeSize, Read, Write};
use std::alloc::Global;
use std::marker::Model;

/// One of two blocks. One of three is one of a block and one of two.
#[derive(Debug, Drop)]
pub enum OneOf<A, B> {
    /// The first, which has the tag 0.
    First(A),
    /// The second, which has the tag 1.
    Second(B),
}

impl<A: EncodeSize, B: EncodeSize> Write for OneOf<A, B> {
    ghost encoding = { one_of_encoding A.encoding B.encoding };

    /// Appends the tag, and then the block.
    fn write(&self, out: &mut Vec<u8>) -> Result<(), CodecError> {
        match self {
            OneOf::First(first) => write_both(&[0], first, out),
            OneOf::Second(second) => write_both(&[1], second, out),
        }
    }
}

impl<A: EncodeSize, B: EncodeSize> EncodeSize for OneOf<A, B> {
    /// Returns 1 more than the length of the encoding of the block.
    fn encode_size(&self) -> Option<usize> {
        match self {
            OneOf::First(first) => size_of_both(&[0], first),
            OneOf::Second(second) => size_of_both(&[1], second),
        }
    }
}

impl<A: Read + Drop, B: Read + Drop> Read for OneOf<A, B> {
    type Cfg = (A::Cfg, B::Cfg);

    ghost reading = { λ cfg. read_tagged (read_one_of (A.reading cfg.0) (B.reading cfg.1)) };

    /// Returns the number of bytes of the tag and the block. Another tag than 0 and 1 is `Invalid`.
    fn layout(buf: &[u8], cfg: &Self::Cfg) -> Result<usize, CodecError> {
        match buf {
            [] => Err(CodecError::EndOfBuffer),
            [0, rest @ ..] => layout_behind::<A>(rest, &cfg.0),
            [1, rest @ ..] => layout_behind::<B>(rest, &cfg.1),
            [tag, ..] => Err(CodecError::Invalid(u32::from(*tag))),
        }
    }

    /// Reads the block that the tag says. Another tag than 0 and 1 is `Invalid`.
    fn read_cfg(alloc: Global, buf: &[u8], cfg: &Self::Cfg) -> Result<(Self, usize), CodecError> {
        match buf {
            [] => Err(CodecError::EndOfBuffer),
            [0, rest @ ..] => {
                let (first, used) = read_behind::<A>(alloc, rest, &cfg.0)?;
                Ok((OneOf::First(first), used))
            }
            [1, rest @ ..] => {
                let (second, used) = read_behind::<B>(alloc, rest, &cfg.1)?;
                Ok((OneOf::Second(second), used))
            }
            [tag, ..] => Err(CodecError::Invalid(u32::from(*tag))),
        }
    }

    ghost within = { λ cfg. one_of_within (A.reading cfg.0) (B.reading cfg.1) (A.within cfg.0)
        (B.within cfg.1) };

    ghost refusals = { λ cfg. one_of_refusals (A.reading cfg.0) (B.reading cfg.1)
        (A.refusals cfg.0) (B.refusals cfg.1) };
}

impl<A: Codec + Drop, B: Codec + Drop> Codec for OneOf<A, B> {
    ghost reads_back = { λ cfg. one_of_reads_back (A.reading cfg.0) (B.reading cfg.1) A.encoding
        B.encoding (A.reads_back cfg.0) (B.reads_back cfg.1) };
}

/// The byte `N`. Any other byte is refused, as `Invalid` with that byte.
#[derive(Debug, Drop)]
pub struct Tag<const N: u8> {}

/// Contracts see that it is there.
impl<const N: u8> Model for Tag<N> {
    ghost Value = { Unit {0} };

    ghost view = { λ _. tt };
}

impl<const N: u8> Write for Tag<N> {
    ghost encoding = { λ _. tag_encoding N };

    /// Appends the byte.
    fn write(&self, out: &mut Vec<u8>) -> Result<(), CodecError> {
        append(&[N], out)
    }
}

impl<const N: u8> EncodeSize for Tag<N> {
    /// Returns 1.
    fn encode_size(&self) -> Option<usize> {
        Some(1)
    }
}

impl<const N: u8> Read for Tag<N> {
    type Cfg = ();

    ghost reading = { λ _. read_tagged (read_tag N) };

    /// Returns 1 if the byte is in front.
    fn layout(buf: &[u8], _cfg: &()) -> Result<usize, CodecError> {
        match buf {
            [] => Err(CodecError::EndOfBuffer),
            [tag, ..] if *tag == N => Ok(1),
            [tag, ..] => Err(CodecError::Invalid(u32::from(*tag))),
        }
    }

    /// Reads the byte.
    fn read_cfg(_alloc: Global, buf: &[u8], _cfg: &()) -> Result<(Self, usize), CodecError> {
        match buf {
            [] => Err(CodecError::EndOfBuffer),
            [tag, ..] if *tag == N => Ok((Tag {}, 1)),
            [tag, ..] => Err(CodecError::Invalid(u32::from(*tag))),
        }
    }

    ghost within = { λ _. tag_within N };

    ghost refusals = { λ _. tag_refusals N };
}

impl<const N: u8> Codec for Tag<N> {
    ghost reads_back = { λ _. tag_reads_back N };
}
