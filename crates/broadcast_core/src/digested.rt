//! Messages with their digests.
ghost use Rattle.std.specs.Prelude.{◌≡◌, true, Some, None, is_some, IfOk, Err};
ghost use Rattle.std.specs.Arc.{arc_value};
ghost use Rattle.std.specs.Ordering.{eq_by_cmp, on, eq_of_both};
ghost use Rattle.std.specs.Cmp.Rules.{comparing};
ghost use Rattle.std.proofs.Common.{rules};

use crate::codec::{CodecError, EncodeSize, Write};
use crate::event::Cause;
use entries::{Leading, Named};
use std::alloc::{AllocError, Global};
use std::hash::Hash;
use std::marker::Model;
use std::sync::Arc;

/// A message that computes its own digest.
pub trait Digestible: Drop {
    /// The name of a message. Digests that compare equal name the same message.
    type Digest: Copy + Ord + Eq + Hash + Leading + Send + Sync;

    /// The own digest.
    ghost digest_of: { Self → Self.Digest };

    /// Computes the own digest. Does not allocate.
    fn digest(&self) -> Self::Digest
        ensures { result ≡ digest_of self.now };

    /// Digests that the order does not tell apart are one value.
    ghost exact: { (a b : Self.Digest) → eq_by_cmp Self.Digest.cmp a b ≡ true → a ≡ b };
}

/// A message, shared between its copies, with the digest that it goes by.
///
/// A digest that is passed in is not checked against the message.
#[derive(Drop)]
#[derive_where(Debug; M, M::Digest)]
pub struct Digested<M: Digestible> {
    message: Arc<M>,
    digest: M::Digest,
}

impl<M: Digestible> Model for Digested<M> {
    ghost use Rattle.broadcast_core.specs.Carried.{Carried};
    ghost use Rattle.std.specs.Arc.{arc_value};

    ghost Value = { Carried M M.Digest };

    ghost view = { λ it. record { message = arc_value it.message; digest = it.digest } };
}

impl<M: Digestible> Digested<M> {
    /// Creates a message with `digest`, without computing one.
    pub fn precomputed(alloc: Global, message: M, digest: M::Digest) -> Result<Self, AllocError>
        ensures { IfOk result (λ it. it ≡ record { message = message; digest = digest }) }
    {
        Ok(Digested {
            message: Arc::new(alloc, message)?,
            digest,
        })
    }

    /// Creates a message with `digest` from one that is shared already. Does not allocate.
    pub fn precomputed_shared(message: Arc<M>, digest: M::Digest) -> Self
        ensures { result ≡ record { message = arc_value message; digest = digest } }
    {
        Digested { message, digest }
    }

    /// Creates a message with its own digest.
    pub fn compute(alloc: Global, message: M) -> Result<Self, AllocError>
        ensures { IfOk result (λ it.
            it ≡ record { message = message; digest = M.digest_of message }) }
    {
        let digest = message.digest();
        Digested::precomputed(alloc, message, digest)
    }

    /// Returns the message.
    pub fn inner(&self) -> &M
        ensures { result.now ≡ self.now.message }
    {
        &self.message
    }

    /// Returns the digest that the message goes by.
    pub fn digest(&self) -> M::Digest
        ensures { result ≡ self.now.digest }
    {
        self.digest
    }

    /// Returns the message, which copies of this one may share. Does not allocate.
    pub fn into_shared(self) -> Arc<M>
        ensures { arc_value result ≡ self.message }
    {
        let Digested { message, digest: _ } = self;
        message
    }

    /// Returns the message, shared with this one.
    pub fn inner_shared(&self) -> Result<Arc<M>, AllocError>
        ensures { IfOk result (λ message. arc_value message ≡ self.now.message) }
    {
        Arc::try_clone(&self.message)
    }
}

impl<M: Digestible + Write> Digested<M> {
    /// Returns the encoding of the message, as it is sent.
    ///
    /// # Errors
    ///
    /// Fails with [`Cause::Unencodable`] if the message has no encoding, and with
    /// [`Cause::Memory`] if it has one and an allocation fails.
    pub fn encode(&self, alloc: Global) -> Result<Vec<u8>, Cause>
        ensures ok { IfOk result (λ bytes. M.encoding self.now.message ≡ Some bytes.items) }
        ensures memory { result ≡ Err Cause.Memory → is_some (M.encoding self.now.message) ≡ true }
        ensures unencodable { result ≡ Err Cause.Unencodable → M.encoding self.now.message ≡ None }
    {
        let mut bytes = Vec::new(alloc);
        match self.message.write(&mut bytes) {
            Ok(()) => Ok(bytes),
            Err(CodecError::Unencodable) => Err(Cause::Unencodable),
            Err(_) => Err(Cause::Memory),
        }
    }
}

impl<M: Digestible> Named for Digested<M> {
    type Name = M::Digest;

    ghost name_of = { λ it. it.digest };

    /// Returns the digest that the message goes by.
    fn name(&self) -> M::Digest {
        self.digest
    }
}

impl<M: Digestible> Clone for Digested<M> {
    ghost is_clone = { λ message copy. copy ≡ message };

    /// Returns a copy that shares the message.
    fn clone(&self) -> Result<Self, AllocError> {
        Ok(Digested {
            message: Arc::try_clone(&self.message)?,
            digest: self.digest,
        })
    }
}

impl<M: Digestible + PartialEq> PartialEq for Digested<M> {
    ghost eq = { eq_of_both (on (λ it. it.digest) M.Digest.eq) (on (λ it. it.message) M.eq) };

    ghost laws = { Prim.search (comparing, rules) };

    /// Returns whether both the digests and the messages are equal.
    fn eq(&self, other: &Self) -> bool {
        self.digest == other.digest && self.message == other.message
    }
}

impl<M: Digestible + Eq> Eq for Digested<M> {
    ghost laws = { Prim.search (comparing, rules) };
}

impl<M: Digestible + Write> Write for Digested<M> {
    ghost encoding = { λ it. M.encoding it.message };

    /// Appends the encoding of the message. The digest is not written.
    fn write(&self, out: &mut Vec<u8>) -> Result<(), CodecError> {
        self.message.write(out)
    }
}

impl<M: Digestible + EncodeSize> EncodeSize for Digested<M> {
    /// Returns the length of the encoding of the message.
    fn encode_size(&self) -> Option<usize> {
        self.message.encode_size()
    }
}
