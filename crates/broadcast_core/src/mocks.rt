//! A message for tests.
ghost use Rattle.std.specs.Prelude.{◌≡◌, ◌⊎◌, ℕ, Option, None, Result, Ok, IfOk, IfErr};
ghost use Rattle.std.specs.Str.{bytes_eq};
ghost use Rattle.std.specs.Ordering.{on, eq_of_both};
ghost use Rattle.std.specs.Cmp.Rules.{comparing};
ghost use Rattle.std.proofs.Common.{rules};
ghost use Rattle.sha2.specs.Sha256.{sha256};
ghost use Rattle.broadcast_core.specs.Codec.{layout_of, GivesOrLacks};
ghost use Rattle.broadcast_core.specs.TestMessage.{Parts, encoding_of, read_message, Begins, IsRefused};
ghost use Rattle.broadcast_core.specs.Exact.{exact_bytes};
ghost use Rattle.broadcast_core.specs.MessageLaws.{message_within, message_refusals, message_reads_back};

use crate::codec::blocks::ByteList;
use crate::codec::{Codec, CodecError, EncodeSize, RangeCfg, Read, Write, byte_list};
use crate::digest::Digest;
use crate::digested::Digestible;
use std::alloc::{AllocError, Global};
use std::marker::Model;

/// A message of two byte lists. Its digest is that of its content alone.
#[derive(Debug, Drop)]
pub struct TestMessage {
    /// The commitment, which the digest leaves out.
    pub commitment: Vec<u8>,
    /// The content.
    pub content: Vec<u8>,
}

impl Model for TestMessage {
    ghost use Rattle.broadcast_core.specs.TestMessage.{Parts};

    ghost Value = { Parts };

    ghost view = { λ m. record { commitment = m.commitment.items; content = m.content.items } };
}

impl TestMessage {
    /// Creates a message of the two byte lists. Does not allocate.
    pub fn new(commitment: Vec<u8>, content: Vec<u8>) -> Self
        ensures { result ≡ record { commitment = commitment.items; content = content.items } }
    {
        TestMessage {
            commitment,
            content,
        }
    }

    /// Creates a message whose commitment is its content.
    pub fn shared(alloc: Global, message: Vec<u8>) -> Result<Self, AllocError>
        ensures { IfOk result (λ m.
            m ≡ record { commitment = message.items; content = message.items }) }
    {
        let commitment = Vec::from_slice(alloc, &message)?;
        Ok(TestMessage::new(commitment, message))
    }
}

impl Clone for TestMessage {
    ghost is_clone = { λ message copy. copy ≡ message };

    /// Returns a copy of both lists.
    fn clone(&self) -> Result<Self, AllocError> {
        Ok(TestMessage::new(self.commitment.clone()?, self.content.clone()?))
    }
}

impl PartialEq for TestMessage {
    ghost eq = { eq_of_both (on (λ m. m.commitment) bytes_eq) (on (λ m. m.content) bytes_eq) };

    ghost laws = { Prim.search (comparing, rules) };

    /// Returns whether both lists have the same bytes.
    fn eq(&self, other: &Self) -> bool {
        self.commitment == other.commitment && self.content == other.content
    }
}

impl Eq for TestMessage {
    ghost laws = { Prim.search (comparing, rules) };
}

impl Digestible for TestMessage {
    type Digest = Digest;

    ghost digest_of = { λ m. sha256 m.content };

    /// Computes the SHA-256 digest of the content alone.
    fn digest(&self) -> Digest {
        Digest::sha256(&self.content)
    }

    ghost exact = { exact_bytes };
}

impl Write for TestMessage {
    ghost encoding = { encoding_of };

    /// Appends the commitment, then the content. A list of more than 4,294,967,295 bytes has no
    /// encoding.
    fn write(&self, out: &mut Vec<u8>) -> Result<(), CodecError> {
        let size = self.encode_size().ok_or(CodecError::Unencodable)?;
        // Nothing is written before there is room for all of it.
        out.reserve(size)?;
        byte_list::write_reserved(&self.commitment, out);
        byte_list::write_reserved(&self.content, out);
        Ok(())
    }
}

impl EncodeSize for TestMessage {
    /// Returns the length of the encoding, or `None` if a list has more than 4,294,967,295 bytes.
    fn encode_size(&self) -> Option<usize> {
        let commitment = byte_list::encode_size(&self.commitment)?;
        commitment.checked_add(byte_list::encode_size(&self.content)?)
    }
}

impl Read for TestMessage {
    type Cfg = RangeCfg;

    ghost reading = { read_message };

    /// Returns the number of bytes that the message at the front takes.
    fn layout(buf: &[u8], cfg: &RangeCfg) -> Result<usize, CodecError>
        // Bytes that have a layout begin with a message.
        ensures found { IfOk result (λ n. (m : Parts) × Begins cfg.now buf.now m n) }
        // Bytes that begin with a message have its layout.
        ensures only { (m : Parts) (n : ℕ) → Begins cfg.now buf.now m n → result ≡ Ok n }
        // An error has this reason.
        ensures refused { IfErr result (λ e. IsRefused cfg.now buf.now e) }
        // The exact result.
        ensures exact { result ≡ layout_of (read_message cfg.now buf.now) }
    {
        <(ByteList, ByteList)>::layout(buf, &(*cfg, *cfg))
    }

    /// Reads the message at the front, and returns it with the number of bytes that it takes.
    fn read_cfg(alloc: Global, buf: &[u8], cfg: &RangeCfg) -> Result<(Self, usize), CodecError>
        // The bytes begin with the encoding of what is read.
        ensures found { IfOk result (λ r. Begins cfg.now buf.now r.0 r.1) }
        // The message that the bytes begin with is read.
        ensures only { (m : Parts) (n : ℕ) → Begins cfg.now buf.now m n
            → GivesOrLacks result (Ok (m, n)) }
        // An error has this reason, or is an allocation failure.
        ensures refused { IfErr result (λ e.
            (e ≡ CodecError.Memory) ⊎ IsRefused cfg.now buf.now e) }
        // The exact result.
        ensures exact { GivesOrLacks result (read_message cfg.now buf.now) }
    {
        let read = <(ByteList, ByteList)>::read_cfg(alloc, buf, &(*cfg, *cfg));
        read.map(|(lists, used)| (TestMessage::new(lists.0.bytes, lists.1.bytes), used))
    }

    ghost within = { message_within };

    ghost refusals = { message_refusals };
}

impl Codec for TestMessage {
    ghost reads_back = { message_reads_back };
}
