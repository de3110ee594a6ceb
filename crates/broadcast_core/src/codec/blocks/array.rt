//! Arrays of bytes, as they are.
ghost use Rattle.std.specs.Prelude.{◌≡◌, length, take, ◌≤◌};
ghost use Rattle.broadcast_core.specs.Blocks.{array_encoding, read_array};
ghost use Rattle.broadcast_core.specs.BlockLaws.{array_within, array_refusals, array_reads_back};

use super::{append, enough};
use crate::codec::{Codec, CodecError, EncodeSize, Read, Write};
use crate::digest::Digest;
use std::alloc::Global;

impl<const N: usize> Write for [u8; N] {
    ghost encoding = { array_encoding N };

    /// Appends the bytes.
    fn write(&self, out: &mut Vec<u8>) -> Result<(), CodecError> {
        append(self, out)
    }
}

impl<const N: usize> EncodeSize for [u8; N] {
    /// Returns the length of the array.
    fn encode_size(&self) -> Option<usize> {
        Some(N)
    }
}

impl<const N: usize> Read for [u8; N] {
    type Cfg = ();

    ghost reading = { λ _. read_array N };

    /// Returns the length of the array if there are as many bytes.
    fn layout(buf: &[u8], _cfg: &()) -> Result<usize, CodecError> {
        enough(buf, N)
    }

    /// Reads the first bytes.
    fn read_cfg(_alloc: Global, buf: &[u8], _cfg: &()) -> Result<(Self, usize), CodecError> {
        let used = enough(buf, N)?;
        let mut bytes = [0; N];
        bytes.copy_from_slice(&buf[..used]);
        Ok((bytes, used))
    }

    ghost within = { λ _. array_within N };

    ghost refusals = { λ _. array_refusals N };
}

impl<const N: usize> Codec for [u8; N] {
    ghost reads_back = { λ _. array_reads_back N };
}

impl Write for Digest {
    ghost encoding = { array_encoding 32 };

    /// Appends the bytes of the digest.
    fn write(&self, out: &mut Vec<u8>) -> Result<(), CodecError> {
        self.bytes.write(out)
    }
}

impl EncodeSize for Digest {
    /// Returns 32.
    fn encode_size(&self) -> Option<usize> {
        self.bytes.encode_size()
    }
}

impl Read for Digest {
    type Cfg = ();

    ghost reading = { λ _. read_array 32 };

    /// Returns 32 if there are as many bytes.
    fn layout(buf: &[u8], cfg: &()) -> Result<usize, CodecError> {
        <[u8; 32]>::layout(buf, cfg)
    }

    /// Reads the first 32 bytes.
    fn read_cfg(alloc: Global, buf: &[u8], cfg: &()) -> Result<(Self, usize), CodecError> {
        let (bytes, used) = <[u8; 32]>::read_cfg(alloc, buf, cfg)?;
        Ok((Digest { bytes }, used))
    }

    ghost within = { λ _. array_within 32 };

    ghost refusals = { λ _. array_refusals 32 };
}

impl Codec for Digest {
    ghost reads_back = { λ _. array_reads_back 32 };
}
