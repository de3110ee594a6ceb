//! Values one after the other.
ghost use Rattle.std.specs.Prelude.{◌≡◌, ◌↔◌, length, Option, None, option_map, Ok, Err, IsOk};
ghost use Rattle.broadcast_core.specs.declared.codec.CodecError.{CodecError};
ghost use Rattle.broadcast_core.specs.Codec.{Appends, GivesOrLacks, layout_of};
ghost use Rattle.broadcast_core.specs.Blocks.{joined, read_both, mapped, flat};
ghost use Rattle.broadcast_core.specs.BlockLaws.{both_within, both_refusals, both_reads_back, mapped_within, mapped_refusals, three_read_back};

use crate::codec::{Codec, CodecError, EncodeSize, Read, Write};
use std::alloc::Global;

/// A reference to a block is written as the block is.
impl<A: Write> Write for &A {
    ghost encoding = { λ block. A.encoding block.now };

    /// Appends the encoding of the block.
    fn write(&self, out: &mut Vec<u8>) -> Result<(), CodecError> {
        A::write(self, out)
    }
}

impl<A: EncodeSize> EncodeSize for &A {
    /// Returns the length of the encoding of the block.
    fn encode_size(&self) -> Option<usize> {
        A::encode_size(self)
    }
}

impl<A: EncodeSize, B: EncodeSize> Write for (A, B) {
    ghost encoding = { λ pair. joined (A.encoding pair.0) (B.encoding pair.1) };

    /// Appends both encodings.
    fn write(&self, out: &mut Vec<u8>) -> Result<(), CodecError> {
        write_both(&self.0, &self.1, out)
    }
}

impl<A: EncodeSize, B: EncodeSize> EncodeSize for (A, B) {
    /// Returns the length of both encodings.
    fn encode_size(&self) -> Option<usize> {
        size_of_both(&self.0, &self.1)
    }
}

impl<A: Read + Drop, B: Read + Drop> Read for (A, B) {
    type Cfg = (A::Cfg, B::Cfg);

    ghost reading = { λ cfg. read_both (A.reading cfg.0) (B.reading cfg.1) };

    /// Returns the number of bytes of both values.
    fn layout(buf: &[u8], cfg: &Self::Cfg) -> Result<usize, CodecError> {
        layout_both::<A, B>(buf, &cfg.0, &cfg.1)
    }

    /// Reads both values, once the layout of both is known.
    fn read_cfg(alloc: Global, buf: &[u8], cfg: &Self::Cfg) -> Result<(Self, usize), CodecError> {
        layout_both::<A, B>(buf, &cfg.0, &cfg.1)?;
        read_laid_out::<A, B>(alloc, buf, &cfg.0, &cfg.1)
    }

    ghost within = { λ cfg. both_within (A.reading cfg.0) (B.reading cfg.1) (A.within cfg.0)
        (B.within cfg.1) };

    ghost refusals = { λ cfg. both_refusals (A.reading cfg.0) (B.reading cfg.1)
        (A.refusals cfg.0) (B.refusals cfg.1) };
}

impl<A: Codec + Drop, B: Codec + Drop> Codec for (A, B) {
    ghost reads_back = { λ cfg. both_reads_back (A.reading cfg.0) (B.reading cfg.1) A.encoding
        B.encoding (A.reads_back cfg.0) (B.reads_back cfg.1) };
}

impl<A: EncodeSize, B: EncodeSize, C: EncodeSize> Write for (A, B, C) {
    ghost encoding = { λ v. joined (A.encoding v.0) (joined (B.encoding v.1) (C.encoding v.2)) };

    /// Appends the three encodings.
    fn write(&self, out: &mut Vec<u8>) -> Result<(), CodecError> {
        write_both(&self.0, &(&self.1, &self.2), out)
    }
}

impl<A: EncodeSize, B: EncodeSize, C: EncodeSize> EncodeSize for (A, B, C) {
    /// Returns the length of the three encodings.
    fn encode_size(&self) -> Option<usize> {
        size_of_both(&self.0, &(&self.1, &self.2))
    }
}

impl<A: Read + Drop, B: Read + Drop, C: Read + Drop> Read for (A, B, C) {
    type Cfg = (A::Cfg, B::Cfg, C::Cfg);

    ghost reading = { λ cfg bytes. mapped flat (read_both (A.reading cfg.0)
        (read_both (B.reading cfg.1) (C.reading cfg.2)) bytes) };

    /// Returns the number of bytes of the three values.
    fn layout(buf: &[u8], cfg: &Self::Cfg) -> Result<usize, CodecError> {
        layout_three::<A, B, C>(buf, &cfg.0, &cfg.1, &cfg.2)
    }

    /// Reads the three values, once the layout of all is known.
    fn read_cfg(alloc: Global, buf: &[u8], cfg: &Self::Cfg) -> Result<(Self, usize), CodecError> {
        layout_three::<A, B, C>(buf, &cfg.0, &cfg.1, &cfg.2)?;
        read_three_laid_out::<A, B, C>(alloc, buf, &cfg.0, &cfg.1, &cfg.2)
    }

    ghost within = { λ cfg. mapped_within flat
        (read_both (A.reading cfg.0) (read_both (B.reading cfg.1) (C.reading cfg.2)))
        (both_within (A.reading cfg.0) (read_both (B.reading cfg.1) (C.reading cfg.2))
        (A.within cfg.0) (both_within (B.reading cfg.1) (C.reading cfg.2) (B.within cfg.1)
        (C.within cfg.2))) };

    ghost refusals = { λ cfg. mapped_refusals flat
        (read_both (A.reading cfg.0) (read_both (B.reading cfg.1) (C.reading cfg.2)))
        (both_refusals (A.reading cfg.0) (read_both (B.reading cfg.1) (C.reading cfg.2))
        (A.refusals cfg.0) (both_refusals (B.reading cfg.1) (C.reading cfg.2) (B.refusals cfg.1)
        (C.refusals cfg.2))) };
}

impl<A: Codec + Drop, B: Codec + Drop, C: Codec + Drop> Codec for (A, B, C) {
    ghost reads_back = { λ cfg. three_read_back (A.reading cfg.0) (B.reading cfg.1)
        (C.reading cfg.2) A.encoding B.encoding C.encoding (A.reads_back cfg.0)
        (B.reads_back cfg.1) (C.reads_back cfg.2) };
}

/// Returns the length of both encodings.
pub(super) fn size_of_both<A: EncodeSize, B: EncodeSize>(first: &A, second: &B) -> Option<usize>
    ensures { result ≡ option_map length (joined (A.encoding first.now) (B.encoding second.now)) }
{
    let size = first.encode_size()?;
    size.checked_add(second.encode_size()?)
}

/// Appends both encodings. On an error `out` stays as it was.
pub(super) fn write_both<A: EncodeSize, B: EncodeSize>(
    first: &A,
    second: &B,
    out: &mut Vec<u8>,
) -> Result<(), CodecError>
    ensures written { Appends (joined (A.encoding first.now) (B.encoding second.now))
        out.old.items out.new.items result }
    ensures unencodable { result ≡ Err CodecError.Unencodable
        ↔ (joined (A.encoding first.now) (B.encoding second.now) ≡ None) }
{
    if size_of_both(first, second).is_none() {
        return Err(CodecError::Unencodable);
    }
    let start = out.len();
    first.write(out)?;
    if let Err(error) = second.write(out) {
        out.truncate(start);
        return Err(error);
    }
    Ok(())
}

/// Returns the number of bytes of both values.
fn layout_both<A: Read, B: Read>(
    buf: &[u8],
    first: &A::Cfg,
    second: &B::Cfg,
) -> Result<usize, CodecError>
    ensures { result ≡ layout_of (read_both (A.reading first.now) (B.reading second.now) buf.now) }
{
    let used = A::layout(buf, first)?;
    let more = B::layout(&buf[used..], second)?;
    Ok(used + more)
}

/// Returns the number of bytes of three values.
fn layout_three<A: Read, B: Read, C: Read>(
    buf: &[u8],
    first: &A::Cfg,
    second: &B::Cfg,
    third: &C::Cfg,
) -> Result<usize, CodecError>
    ensures { result ≡ layout_of (read_both (A.reading first.now)
        (read_both (B.reading second.now) (C.reading third.now)) buf.now) }
{
    let used = A::layout(buf, first)?;
    let more = layout_both::<B, C>(&buf[used..], second, third)?;
    Ok(used + more)
}

/// Reads both values, whose layout is known.
fn read_laid_out<A: Read + Drop, B: Read>(
    alloc: Global,
    buf: &[u8],
    first: &A::Cfg,
    second: &B::Cfg,
) -> Result<((A, B), usize), CodecError>
    requires { IsOk (read_both (A.reading first.now) (B.reading second.now) buf.now) }
    ensures { GivesOrLacks result (read_both (A.reading first.now) (B.reading second.now) buf.now) }
{
    let (one, used) = A::read_cfg(alloc, buf, first)?;
    let (two, more) = B::read_cfg(alloc, &buf[used..], second)?;
    Ok(((one, two), used + more))
}

/// Reads three values, whose layout is known.
fn read_three_laid_out<A: Read + Drop, B: Read + Drop, C: Read>(
    alloc: Global,
    buf: &[u8],
    first: &A::Cfg,
    second: &B::Cfg,
    third: &C::Cfg,
) -> Result<((A, B, C), usize), CodecError>
    requires { IsOk (read_both (A.reading first.now)
        (read_both (B.reading second.now) (C.reading third.now)) buf.now) }
    ensures { GivesOrLacks result (mapped flat (read_both (A.reading first.now)
        (read_both (B.reading second.now) (C.reading third.now)) buf.now)) }
{
    let (one, used) = A::read_cfg(alloc, buf, first)?;
    let ((two, three), more) = read_laid_out::<B, C>(alloc, &buf[used..], second, third)?;
    Ok(((one, two, three), used + more))
}
