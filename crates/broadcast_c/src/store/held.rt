//! Messages that are kept elsewhere.
ghost use Rattle.std.specs.Prelude.{◌≡◌, Some, replicate};
ghost use Rattle.broadcast_core.specs.Exact.{exact_bytes};

use broadcast_core::{CodecError, Digest, Digestible, EncodeSize, Write};

/// A message that is kept elsewhere, and known by a handle.
#[derive(Clone, Copy, Debug, PartialEq, Eq)]
pub struct Held {
    /// The handle.
    pub handle: u64,
    /// The number of bytes that it is charged.
    pub charge: usize,
    /// Its digest.
    pub digest: Digest,
}

impl Digestible for Held {
    type Digest = Digest;

    ghost digest_of = { λ held. held.digest };

    fn digest(&self) -> Digest {
        self.digest
    }

    ghost exact = { exact_bytes };
}

/// The store does not have the bytes: the encoding is as many zeros as the message is charged.
impl Write for Held {
    ghost encoding = { λ held. Some (replicate held.charge 0) };

    fn write(&self, out: &mut Vec<u8>) -> Result<(), CodecError> {
        let Some(len) = out.len().checked_add(self.charge) else {
            return Err(CodecError::Memory);
        };
        out.resize(len, 0)?;
        Ok(())
    }
}

impl EncodeSize for Held {
    fn encode_size(&self) -> Option<usize> {
        Some(self.charge)
    }
}
