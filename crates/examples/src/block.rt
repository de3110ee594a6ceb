//! A message type of one's own: a block of a chain, which names the block before it.
ghost use Rattle.std.specs.Prelude.{◌≡◌, ◌++◌, [], IfOk, refl};
ghost use Rattle.sha2.specs.Sha256.{sha256};
ghost use Rattle.broadcast_core.specs.Exact.{exact_bytes};

use anyhow::Error;
use commonware_broadcast::{
    ByteList, Codec, CodecError, Digest, Digestible, EncodeSize, RangeCfg, Record, Tag, Wire,
    Write, codec_law, decode_cfg,
};
use std::alloc::Global;
use std::io;

/// A block, written as the byte 1 and its fields, one after the other. The fields are digested.
#[derive(Debug, Drop)]
pub struct Block {
    /// The digest of the block before.
    pub parent: Digest,
    /// What the block carries.
    pub payload: ByteList,
}

impl Digestible for Block {
    type Digest = Digest;

    ghost digest_of = { λ block. sha256 (block.parent ++ (block.payload ++ [])) };

    fn digest(&self) -> Digest {
        Digest::sha256_of(&[&self.parent.bytes, &self.payload.bytes])
    }

    ghost exact = { exact_bytes };
}

impl Record for Block {
    type Fields = (Tag<1>, Digest, ByteList);

    ghost fields_of = { λ block. (tt, block.parent, block.payload) };

    ghost of_fields = { λ fields. record { parent = fields.1; payload = fields.2 } };

    fn write_fields(&self, out: &mut Vec<u8>) -> Result<(), CodecError> {
        (Tag::<1> {}, self.parent, &self.payload).write(out)
    }

    fn fields_size(&self) -> Option<usize> {
        (Tag::<1> {}, self.parent, &self.payload).encode_size()
    }

    fn from_fields((_, parent, payload): (Tag<1>, Digest, ByteList)) -> Self {
        Block { parent, payload }
    }

    ghost same = { λ _. refl };
}

/// Writes a message and reads it again.
fn write_and_read<M: Codec + Drop>(
    alloc: Global,
    message: &M,
    limits: &M::Cfg,
) -> Result<M, CodecError>
    ensures { IfOk result (λ read. read ≡ message.now) }
{
    codec_law::<M>();
    let mut bytes = Vec::new(alloc);
    message.write(&mut bytes)?;
    decode_cfg(alloc, &bytes, limits)
}

/// Writes a block and reads it again.
fn read_again(alloc: Global, limits: &((), (), RangeCfg)) -> Result<Wire<Block>, CodecError> {
    let block = Wire(Block {
        parent: Digest { bytes: [0; 32] },
        payload: Vec::from_slice(alloc, b"hello")?.into(),
    });
    write_and_read(alloc, &block, limits)
}

/// Returns why a block that begins with another byte is refused.
fn refusal(alloc: Global, limits: &((), (), RangeCfg)) -> Option<CodecError> {
    decode_cfg::<Wire<Block>>(alloc, &[2], limits).err()
}

/// Prints the block that was read, and why one that begins with another byte is refused.
pub fn show<W: io::Write>(alloc: Global, out: &mut W) -> Result<(), Error> {
    let limits = ((), (), RangeCfg::any());
    let refused = refusal(alloc, &limits);
    let Wire(read) = read_again(alloc, &limits)?;
    writeln!(out, "block: {read:?}, {refused:?}")?;
    Ok(())
}
