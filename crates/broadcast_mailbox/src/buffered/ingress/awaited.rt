//! The future of a request whose reply comes through a channel.
ghost use Rattle.std.specs.Prelude.{◌≡◌, Result, Ok, Err, true, false, IsOk, IfOk, IfErr, OnErr};
ghost use Rattle.broadcast_mailbox.specs.Account.{is_accepted};
ghost use Rattle.futures.specs.Poll.{IfReady, OnPending};
ghost use Rattle.futures.specs.Channel.{completed_source};
ghost use Rattle.futures.specs.Task.{Covers, Keeps};
ghost use Rattle.futures.specs.declared.task.Poll.TheVariants.{Ready};
ghost use Rattle.futures.specs.declared.channel.oneshot.Canceled.{Canceled};

use crate::MailboxError;
use crate::buffered::ingress::bell::{Bell, Limit};
use crate::buffered::ingress::look::Alertness;
use crate::buffered::ingress::message::Queued;
use crate::buffered::ingress::reply::{Answering, answered};
use broadcast_core::Digestible;
use futures::Future;
use futures::channel::oneshot::{Canceled, Receiver};
use futures::task::{Context, Poll};
use std::alloc::{AllocError, Global};
use std::marker::Model;
use std::sync::{Arc, Wait};
use std::time::{Clock, Duration};

/// What a future makes of its reply, and what its drop does.
pub trait Returns<M: Digestible>: Drop {
    /// The reply.
    type Reply: Drop;

    /// The output of the future.
    type Output;

    /// The output for the digest that was asked for, by what the channel returned.
    ghost output: { M.Digest → Result Self.Reply Canceled → Self.Output };

    /// Whether a message in the output goes by the digest that was asked for.
    ghost gives: { M.Digest → Self.Output → Type 0 };

    /// Returns the output for the digest that was asked for, by what the channel returned.
    fn output(digest: &M::Digest, received: Result<Self::Reply, Canceled>) -> Self::Output
        ensures value { result ≡ output digest.now received }
        ensures gives { gives digest.now result };

    /// Closes the channel of a future that is dropped before it was ready.
    fn cancel(self, receiver: Receiver<Self::Reply>, digest: M::Digest);
}

/// A future for the reply to a request for a digest. Dropping it cancels the request.
pub struct Awaited<M: Digestible, K: Returns<M>> {
    digest: M::Digest,
    receiver: Receiver<K::Reply>,
    bell: Arc<Bell>,
    // Whether the mailbox accepted the request.
    accepted: bool,
    // Whether the channel has given its result.
    is_done: bool,
    kind: K,
}

// By hand, since what is derived is proved anew in each crate that drops one.
impl<M: Digestible, K: Returns<M>> Drop for Awaited<M, K> {
    fn drop(self) {
        let Self {
            digest,
            receiver,
            bell,
            accepted: _,
            is_done,
            kind,
        } = self;
        drop::<_>(bell);
        if is_done {
            drop::<_>((receiver, kind));
        } else {
            kind.cancel(receiver, digest);
        }
    }
}

impl<M: Digestible, K: Returns<M>> Model for Awaited<M, K> {
    ghost use Rattle.futures.specs.Channel.{completed_source};
    ghost use Rattle.broadcast_mailbox.specs.Asked.{Asked};

    ghost Value = { Asked M.Digest };

    ghost view = { λ it. record {
      digest = it.digest;
      source = completed_source it.receiver;
      accepted = it.accepted;
      done = it.is_done;
    } };
}

impl<M: Digestible, K: Returns<M>> Awaited<M, K> {
    // Creates the future of a request for `digest`. Returns also where its reply goes.
    // Inlined, so that a new future is not copied in parts.
    #[inline(always)]
    pub(super) fn create(
        alloc: Global,
        digest: M::Digest,
        kind: K,
        taker: Option<Arc<Alertness>>,
    ) -> Result<(Answering<K::Reply>, Self), AllocError>
        ensures digest { IfOk result (λ ends. ends.1.digest ≡ digest) }
        ensures same_channel { IfOk result (λ ends. ends.1.source ≡ ends.0) }
    {
        let Ok((responder, receiver, bell)) = answered(alloc, taker) else {
            drop::<_>(kind);
            return Err(AllocError);
        };
        let future = Awaited {
            digest,
            receiver,
            bell,
            accepted: false,
            is_done: false,
            kind,
        };
        Ok((responder, future))
    }

    // Returns the future of the request that was enqueued with this result. After an error it is
    // dropped.
    #[inline(always)]
    pub(super) fn once_queued(
        self,
        queued: Result<Queued, MailboxError>,
    ) -> Result<Self, MailboxError>
        ensures succeeds { IfOk queued (λ _. IsOk result) }
        ensures fails { IfErr queued (λ error. result ≡ Err error) }
        ensures keeps { IfOk result (λ it. it ≡ record self { accepted = is_accepted queued }) }
        ensures not_accepted { OnErr result (is_accepted queued ≡ false) }
    {
        let mut future = self;
        future.accepted = queued?.is_accepted();
        Ok(future)
    }

    /// Returns the digest that was asked for.
    pub fn digest(&self) -> M::Digest
        ensures { result ≡ self.now.digest }
    {
        self.digest
    }

    /// Returns whether the mailbox accepted the request. If not, it was closed.
    pub fn was_accepted(&self) -> bool
        ensures { result ≡ self.now.accepted }
    {
        self.accepted
    }

    /// Blocks the calling thread until the reply is there, and returns what the future gives. The
    /// thread sleeps, and needs no memory. If more than one processor may be used and the engine
    /// was awake at the call, the thread looks for some microseconds before.
    pub fn wait<R: Wait>(self, rt: &R) -> K::Output
        ensures { K.gives self.digest result }
    {
        let mut future = self;
        for _ in rt.forever() {
            if let Poll::Ready(outcome) = future.try_wait() {
                return outcome;
            }
            future.bell.wait(rt);
        }
        unreachable!()
    }

    /// Waits for the reply for no longer than `limit`, and returns what the future gives, or an
    /// `Err` with the future if the reply is not there by then.
    ///
    /// The thread sleeps until the reply is there or the time is over, and needs no memory. Before,
    /// it looks as `wait` does: those microseconds, and beside other work a slice of processor time
    /// in which another thread runs, may come on top of `limit`. Returns the `Err` also if the
    /// clock can't be read.
    pub fn wait_timeout<R: Wait + Clock>(self, rt: &R, limit: Duration) -> Result<K::Output, Self>
        ensures gives { IfOk result (K.gives self.digest) }
        ensures same_after_limit { IfErr result (λ future. future ≡ self) }
    {
        let mut future = self;
        let limit = Limit::new(rt, limit);
        for _ in 0..u64::MAX {
            if let Poll::Ready(outcome) = future.try_wait() {
                return Ok(outcome);
            }
            let Some(left) = limit.left(rt) else {
                break;
            };
            future.bell.wait_timeout(rt, left);
        }
        Err(future)
    }

    /// Returns what the future gives, or that it is pending while the reply is not there. Waits for
    /// nobody. Once the reply was returned, later calls give what a canceled request does.
    pub fn try_wait(&mut self) -> Poll<K::Output>
        ensures gives { IfReady result (K.gives self.old.digest) }
        ensures canceled_if_done { self.old.done ≡ true
            → result ≡ Ready (K.output self.old.digest (Err (record {}))) }
        ensures done { IfReady result (λ outcome. self.new ≡ record self.old { done = true }) }
        ensures same { OnPending result (self.new ≡ self.old) }
    {
        let looked = if self.is_done {
            Poll::Ready(Err(Canceled))
        } else {
            try_receive(&mut self.receiver)
        };
        match looked {
            Poll::Pending => Poll::Pending,
            Poll::Ready(received) => {
                self.is_done = true;
                Poll::Ready(K::output(&self.digest, received))
            }
        }
    }
}

impl<M: Digestible, K: Returns<M>> Future for Awaited<M, K> {
    type Output = K::Output;

    ghost needs = { λ it source. source ≡ it.source };

    ghost gives = { λ it outcome. K.gives it.digest outcome };

    /// Once the reply was returned, later polls give what a canceled request does.
    fn poll(&mut self, cx: &mut Context<'_>) -> Poll<K::Output>
        ensures value { IfReady result (K.gives self.old.digest) }
        ensures canceled_if_done { self.old.done ≡ true
            → result ≡ Ready (K.output self.old.digest (Err (record {}))) }
        ensures done { IfReady result (λ outcome. self.new.done ≡ true) }
        ensures not_done { OnPending result (self.new.done ≡ false) }
        ensures asked { (self.new.digest ≡ self.old.digest)
            × (self.new.accepted ≡ self.old.accepted) }
        ensures same { OnPending result ((outcome : K.Output)
            → K.gives self.new.digest outcome → K.gives self.old.digest outcome) }
        ensures registered { OnPending result (Covers cx.new (λ source. source ≡ self.new.source)) }
        ensures kept { Keeps cx.old cx.new }
    {
        let polled = if self.is_done {
            Poll::Ready(Err(Canceled))
        } else {
            self.receiver.poll(cx)
        };
        match polled {
            Poll::Pending => Poll::Pending,
            Poll::Ready(received) => {
                self.is_done = true;
                Poll::Ready(K::output(&self.digest, received))
            }
        }
    }
}

/// Returns what a poll of the channel would return, and registers nobody.
fn try_receive<T: Drop>(receiver: &mut Receiver<T>) -> Poll<Result<T, Canceled>>
    ensures { completed_source receiver.new ≡ completed_source receiver.old }
{
    match receiver.try_recv() {
        Ok(Some(reply)) => Poll::Ready(Ok(reply)),
        Ok(None) => Poll::Pending,
        Err(canceled) => Poll::Ready(Err(canceled)),
    }
}
