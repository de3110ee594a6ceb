//! Numbers, the highest byte first.
ghost use Rattle.broadcast_core.specs.Blocks.{number_encoding, read_number};
ghost use Rattle.broadcast_core.specs.BlockLaws.{number_within, number_refusals, number_reads_back};

use super::{append, enough};
use crate::codec::{Codec, CodecError, EncodeSize, Read, Write};
use byteorder::{BigEndian, ByteOrder};
use std::alloc::Global;

impl Write for u32 {
    ghost encoding = { number_encoding 4 };

    /// Appends the four bytes of the number.
    fn write(&self, out: &mut Vec<u8>) -> Result<(), CodecError> {
        append(&self.to_be_bytes(), out)
    }
}

impl EncodeSize for u32 {
    /// Returns 4.
    fn encode_size(&self) -> Option<usize> {
        let _number = *self;
        Some(4)
    }
}

impl Read for u32 {
    type Cfg = ();

    ghost reading = { λ _. read_number 4 };

    /// Returns 4 if there are four bytes.
    fn layout(buf: &[u8], _cfg: &()) -> Result<usize, CodecError> {
        enough(buf, 4)
    }

    /// Reads the number in the first four bytes.
    fn read_cfg(_alloc: Global, buf: &[u8], _cfg: &()) -> Result<(Self, usize), CodecError> {
        let used = enough(buf, 4)?;
        Ok((BigEndian::read_u32(buf), used))
    }

    ghost within = { λ _. number_within 4 };

    ghost refusals = { λ _. number_refusals 4 };
}

impl Codec for u32 {
    ghost reads_back = { λ _. number_reads_back 4 };
}

impl Write for u64 {
    ghost encoding = { number_encoding 8 };

    /// Appends the eight bytes of the number.
    fn write(&self, out: &mut Vec<u8>) -> Result<(), CodecError> {
        append(&self.to_be_bytes(), out)
    }
}

impl EncodeSize for u64 {
    /// Returns 8.
    fn encode_size(&self) -> Option<usize> {
        let _number = *self;
        Some(8)
    }
}

impl Read for u64 {
    type Cfg = ();

    ghost reading = { λ _. read_number 8 };

    /// Returns 8 if there are eight bytes.
    fn layout(buf: &[u8], _cfg: &()) -> Result<usize, CodecError> {
        enough(buf, 8)
    }

    /// Reads the number in the first eight bytes.
    fn read_cfg(_alloc: Global, buf: &[u8], _cfg: &()) -> Result<(Self, usize), CodecError> {
        let used = enough(buf, 8)?;
        Ok((BigEndian::read_u64(buf), used))
    }

    ghost within = { λ _. number_within 8 };

    ghost refusals = { λ _. number_refusals 8 };
}

impl Codec for u64 {
    ghost reads_back = { λ _. number_reads_back 8 };
}
