//! A message with its encoding.
ghost use Rattle.std.specs.Prelude.{◌≡◌, true, Some, None, is_some, IfOk, Err};
ghost use Rattle.sha2.specs.Sha256.{sha256};
ghost use Rattle.broadcast_core.specs.Codec.{Gives};
ghost use Rattle.broadcast_core.specs.Setting.{whole};
ghost use Rattle.broadcast_core.specs.TestMessage.{encoding_of, read_message};

use broadcast_core::{Cause, CodecError, Digested, Digestible, Items, RangeCfg, Read, TestMessage};
use std::alloc::Global;

/// A message, shared with the one that it was made from, under its own digest, and its encoding.
#[derive(Drop)]
pub struct Encoded {
    bytes: Items<u8>,
    message: Digested<TestMessage>,
    ghost encoding: { encoding_of message.message ≡ Some bytes },
    ghost own_digest: { message.digest ≡ sha256 message.message.content },
}

impl Encoded {
    /// Encodes the message, and computes its own digest.
    ///
    /// # Errors
    ///
    /// Fails with [`Cause::Unencodable`] if the message has no encoding, and with
    /// [`Cause::Memory`] if it has one and an allocation fails.
    pub fn new(alloc: Global, message: &Digested<TestMessage>) -> Result<Self, Cause>
        ensures ok { IfOk result (λ it. encoding_of message.now.message ≡ Some it.bytes) }
        ensures memory { result ≡ Err Cause.Memory
            → is_some (encoding_of message.now.message) ≡ true }
        ensures unencodable { result ≡ Err Cause.Unencodable
            → encoding_of message.now.message ≡ None }
    {
        let bytes = message.encode(alloc)?;
        let Ok(message) = message.inner_shared() else {
            return Err(Cause::Memory);
        };
        let digest = message.digest();
        Ok(Encoded {
            bytes: Items::from_vec(bytes),
            message: Digested::precomputed_shared(message, digest),
        })
    }

    /// Returns the message that the bytes decode to, under its own digest. Does not allocate.
    ///
    /// An encoding decodes to the message that was encoded, so only its lengths are judged.
    pub fn decode(&self, range: &RangeCfg) -> Result<&Digested<TestMessage>, CodecError>
        ensures exact { Gives (λ it. it.now.message) result
            (whole (read_message range.now) self.now.bytes) }
        ensures own_digest { IfOk result (λ it. it.now.digest ≡ sha256 it.now.message.content) }
    {
        let _length = TestMessage::layout(self.bytes.as_slice(), range)?;
        Ok(&self.message)
    }
}
