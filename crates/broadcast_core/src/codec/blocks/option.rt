//! Options, behind a tag of one byte.
ghost use Rattle.std.specs.Prelude.{◌≡◌};
ghost use Rattle.broadcast_core.specs.Codec.{GivesOrLacks, layout_of};
ghost use Rattle.broadcast_core.specs.Blocks.{behind, read_tagged, option_encoding, read_option};
ghost use Rattle.broadcast_core.specs.BlockLaws.{option_within, option_refusals, option_reads_back};

use super::append;
use super::tuple::{size_of_both, write_both};
use crate::codec::{Codec, CodecError, EncodeSize, Read, Write};
use std::alloc::Global;

impl<A: EncodeSize> Write for Option<A> {
    ghost encoding = { option_encoding A.encoding };

    /// Appends the byte 0, or the byte 1 and the value.
    fn write(&self, out: &mut Vec<u8>) -> Result<(), CodecError> {
        match self {
            None => append(&[0], out),
            Some(value) => write_both(&[1], value, out),
        }
    }
}

impl<A: EncodeSize> EncodeSize for Option<A> {
    /// Returns 1, or 1 more than the length of the encoding of the value.
    fn encode_size(&self) -> Option<usize> {
        match self {
            None => Some(1),
            Some(value) => size_of_both(&[1], value),
        }
    }
}

impl<A: Read + Drop> Read for Option<A> {
    type Cfg = A::Cfg;

    ghost reading = { λ cfg. read_tagged (read_option (A.reading cfg)) };

    /// Returns the number of bytes of the option. Another tag than 0 and 1 is `Invalid`.
    fn layout(buf: &[u8], cfg: &A::Cfg) -> Result<usize, CodecError> {
        match buf {
            [] => Err(CodecError::EndOfBuffer),
            [0, ..] => Ok(1),
            [1, rest @ ..] => layout_behind::<A>(rest, cfg),
            [tag, ..] => Err(CodecError::Invalid(u32::from(*tag))),
        }
    }

    /// Reads the option. Another tag than 0 and 1 is `Invalid`.
    fn read_cfg(alloc: Global, buf: &[u8], cfg: &A::Cfg) -> Result<(Self, usize), CodecError> {
        match buf {
            [] => Err(CodecError::EndOfBuffer),
            [0, ..] => Ok((None, 1)),
            [1, rest @ ..] => {
                let (value, used) = read_behind::<A>(alloc, rest, cfg)?;
                Ok((Some(value), used))
            }
            [tag, ..] => Err(CodecError::Invalid(u32::from(*tag))),
        }
    }

    ghost within = { λ cfg. option_within (A.reading cfg) (A.within cfg) };

    ghost refusals = { λ cfg. option_refusals (A.reading cfg) (A.refusals cfg) };
}

impl<A: Codec + Drop> Codec for Option<A> {
    ghost reads_back = { λ cfg. option_reads_back (A.reading cfg) A.encoding (A.reads_back cfg) };
}

/// Returns the number of bytes of a tag and of the value behind it.
pub(super) fn layout_behind<A: Read>(rest: &[u8], cfg: &A::Cfg) -> Result<usize, CodecError>
    ensures { result ≡ layout_of (behind (A.reading cfg.now rest.now)) }
{
    let used = A::layout(rest, cfg)?;
    Ok(1 + used)
}

/// Reads the value behind a tag, and returns it with the number of bytes of both.
pub(super) fn read_behind<A: Read + Drop>(
    alloc: Global,
    rest: &[u8],
    cfg: &A::Cfg,
) -> Result<(A, usize), CodecError>
    ensures { GivesOrLacks result (behind (A.reading cfg.now rest.now)) }
{
    let (value, used) = A::read_cfg(alloc, rest, cfg)?;
    Ok((value, 1 + used))
}
