//! The reply to a request, and the channel by which it comes.
ghost use Rattle.std.specs.Prelude.{◌≡◌, ⊤, IfOk};
ghost use Rattle.futures.specs.Channel.{completed_source, canceled_source};
ghost use Rattle.std.specs.Ordering.{on, eq_of_both};
ghost use Rattle.std.specs.Cmp.Rules.{comparing};
ghost use Rattle.std.proofs.Common.{rules};

use crate::buffered::ingress::bell::Bell;
use crate::buffered::ingress::look::Alertness;
use crate::buffered::ingress::responder::Responder;
use broadcast_core::{Digested, Digestible};
use futures::channel::oneshot;
use std::alloc::{AllocError, Global};
use std::marker::Model;
use std::sync::Arc;

/// A message with the digest that it replies to, which is the one that the message goes by.
#[derive(Drop)]
#[derive_where(Debug; Digested<M>, M::Digest)]
pub struct Reply<M: Digestible> {
    pub(super) digest: M::Digest,
    pub(super) message: Digested<M>,
}

impl<M: Digestible> Model for Reply<M> {
    ghost use Rattle.std.specs.Prelude.{◌≡◌};
    ghost use Rattle.broadcast_core.specs.Carried.{Carried};

    ghost Value = { Carried M M.Digest };

    ghost view = { λ reply. reply.message };

    ghost invariant = { λ reply. reply.digest ≡ reply.message.digest };
}

impl<M: Digestible> Reply<M> {
    /// Creates a reply to the digest that `message` goes by.
    pub fn new(message: Digested<M>) -> Self
        ensures { result ≡ message }
    {
        let digest = message.digest();
        Reply { digest, message }
    }

    /// Returns the digest that the message goes by.
    pub fn digest(&self) -> M::Digest
        ensures { result ≡ self.now.digest }
    {
        self.digest
    }

    /// Returns the message.
    pub fn into_message(self) -> Digested<M>
        ensures { result ≡ self }
    {
        let Reply { digest: _, message } = self;
        message
    }
}

impl<M: Digestible> Clone for Reply<M> {
    ghost is_clone = { λ reply copy. copy ≡ reply };

    /// Returns a reply that shares the message, or an allocation failure.
    fn clone(&self) -> Result<Self, AllocError> {
        Ok(Reply {
            digest: self.digest,
            message: self.message.clone()?,
        })
    }
}

impl<M: Digestible + PartialEq> PartialEq for Reply<M> {
    ghost eq = { eq_of_both (on (λ it. it.digest) M.Digest.eq) (on (λ it. it.message) M.eq) };

    ghost laws = { Prim.search (comparing, rules) };

    /// Returns whether both replies have equal digests and equal messages.
    fn eq(&self, other: &Self) -> bool {
        self.message == other.message
    }
}

impl<M: Digestible + Eq> Eq for Reply<M> {
    ghost laws = { Prim.search (comparing, rules) };
}

/// Where the reply to a caller goes. Dropping it cancels the caller's future.
///
/// The caller may await its future on any executor, or sleep until this has sent the reply or is
/// gone.
pub struct Answering<T> {
    sender: oneshot::Sender<T>,
    // Of a future of this crate: its thread may sleep there.
    bell: Option<Arc<Bell>>,
}

impl<T> Model for Answering<T> {
    ghost use Rattle.std.specs.Prelude.{ℕ};
    ghost use Rattle.futures.specs.Channel.{canceled_source};

    ghost Value = { ℕ };

    ghost view = { λ it. canceled_source it.sender };
}

impl<T: Drop> Answering<T> {
    /// Sends the reply through a channel of the caller's own, which wakes only the task that awaits
    /// its receiver.
    pub fn new(sender: oneshot::Sender<T>) -> Self
        ensures { result ≡ canceled_source sender }
    {
        Answering { sender, bell: None }
    }

    /// Wakes who sleeps until the reply is there.
    fn ring(bell: Option<Arc<Bell>>) {
        if let Some(bell) = bell {
            bell.ring();
        }
    }
}

/// What both ends of a reply's channel are: where it goes, where it comes, and the bell.
pub(super) type Answered<T> = (Answering<T>, oneshot::Receiver<T>, Arc<Bell>);

/// Creates the channel of a reply, and the bell that is rung once the reply is sent or never will
/// be.
#[inline(always)]
pub(super) fn answered<T: Drop>(
    alloc: Global,
    taker: Option<Arc<Alertness>>,
) -> Result<Answered<T>, AllocError>
    ensures { IfOk result (λ ends. ends.0 ≡ completed_source ends.1) }
{
    let bell = Arc::new(alloc, Bell::new(taker))?;
    let own = Arc::try_clone(&bell)?;
    let (sender, receiver) = oneshot::channel(alloc)?;
    let answering = Answering {
        sender,
        bell: Some(bell),
    };
    Ok((answering, receiver, own))
}

/// Cancels the future, and then wakes who waits for it.
impl<T: Drop> Drop for Answering<T> {
    fn drop(self) {
        let Self { sender, bell } = self;
        drop::<_>(sender);
        Self::ring(bell);
    }
}

/// Another thread may drop the receiver at any time, so either call may return either result.
impl<T: Drop> Responder<T> for Answering<T> {
    ghost may_answer = { λ _ _. ⊤ };

    ghost may_deliver = { λ _ _. ⊤ };

    fn is_closed(&self) -> bool {
        self.sender.is_canceled()
    }

    fn send(self, value: T) -> bool {
        let Self { sender, bell } = self;
        let is_sent = sender.send(value).is_ok();
        Self::ring(bell);
        is_sent
    }
}
