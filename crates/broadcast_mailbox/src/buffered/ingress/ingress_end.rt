//! The end of a mailbox from which its requests are taken, and what asks for a stop there.
ghost use Rattle.std.specs.Prelude.{◌≡◌, ◌+◌, ◌↔◌, ◌&&◌, ◌||◌, true, false, is_err, IfOk, IfErr};
ghost use Rattle.futures.specs.Poll.{IfReady, OnPending};
ghost use Rattle.std.specs.Arc.{arc_value};
ghost use Rattle.futures.specs.Task.{Hears, IsArmed, Keeps};
ghost use Rattle.broadcast_mailbox.specs.Account.{IsSettled, counted_of, one_if};
ghost use Rattle.broadcast_mailbox.specs.Attended.{ready};
ghost use Rattle.broadcast_mailbox.specs.Ends.{IngressEnd, MailboxEnd, SharedInbox};
ghost use Rattle.broadcast_mailbox.specs.Watch.{BroadcastsOnly};

use crate::buffered::ingress::account::{Account, Bookkeeping, Settled, Tally};
use crate::buffered::ingress::books::Books;
use crate::buffered::ingress::message::{Awaits, Counts, Named, Queueable, Request, Watch};
use crate::buffered::ingress::shared::Shared;
use futures::task::{Context, Poll};
use std::alloc::AllocError;
use std::marker::Model;
use std::sync::{Arc, Wait};
use std::time::Clock;

/// The end of a mailbox from which its requests are taken, with messages `T`.
///
/// A call takes the lock of the inbox once, and makes one call of the inbox under it.
pub struct Ingress<T: Named, R, A: Bookkeeping = ()> {
    inbox: Arc<Shared<T, A>>,
    taker: A::Taker,
    rt: R,
}

// By hand, since what is derived is proved anew in each crate that drops one.
impl<T: Named + Drop, R: Drop, A: Bookkeeping> Drop for Ingress<T, R, A> {
    fn drop(self) {
        let Ingress { inbox, taker, rt } = self;
        drop::<_>((inbox, taker, rt));
    }
}

impl<T: Named, R, A: Bookkeeping> Model for Ingress<T, R, A> {
    ghost use Rattle.std.specs.Arc.{arc_value};
    ghost use Rattle.broadcast_mailbox.specs.Ends.{IngressEnd};

    ghost Value = { IngressEnd };

    ghost view = { λ it. record {
      inbox = arc_value it.inbox;
      taken = A.taken it.taker;
      refused = A.refusals it.taker;
      undecided = A.undecided it.taker;
    } };
}

impl<T: Named, R, A: Bookkeeping> Ingress<T, R, A> {
    // Creates the end that takes from the inbox.
    pub(super) fn new(rt: R, inbox: Arc<Shared<T, A>>, taker: A::Taker) -> Self
        ensures { result ≡ record {
          inbox = arc_value inbox;
          taken = A.taken taker;
          refused = A.refusals taker;
          undecided = A.undecided taker;
        } }
    {
        Ingress { inbox, taker, rt }
    }

    /// Counts the request that was taken last as refused, or else as applied, if it is a counted
    /// one.
    pub fn tell_outcome(&mut self, refused: bool)
        ensures refused { self.new.refused
            ≡ self.old.refused + one_if (self.old.undecided && refused) }
        ensures closed { self.new.undecided ≡ false }
        ensures same { (self.new.inbox ≡ self.old.inbox) × (self.new.taken ≡ self.old.taken) }
    {
        A::tell_outcome(&mut self.taker, refused);
    }

    /// Returns whether a stop was asked for. Takes no lock.
    pub fn stop_requested(&self) -> bool {
        self.inbox.stop_requested()
    }

    /// Looks for some microseconds whether a request or a stop came since the last poll for a
    /// request, if threads may look before they sleep. Returns whether one may have come; if not,
    /// the thread is to sleep. After a look in vain some calls return at once.
    ///
    /// Meanwhile the thread yields to callers that look for a reply. The clock tells how long that
    /// took: after a yield that gave the processor to other work, nobody yields for some time.
    pub fn look(&self, clock: &impl Clock) -> bool {
        self.inbox.look(clock)
    }

    /// Puts the digests of which a subscription was dropped since the last call in place of those
    /// in `taken`, each once. Returns whether it may have been one of another digest too. One that
    /// was dropped before its request was taken counts again from then on.
    pub fn take_dropped(&mut self, taken: &mut Vec<T::Digest>) -> bool
        ensures { self.new ≡ self.old }
    {
        let may_be_any = self.inbox.take_dropped(taken);
        if taken.len() > 1 {
            taken.sort_unstable();
            taken.dedup();
        }
        may_be_any
    }
}

impl<T: Named, R: Clone, A: Bookkeeping> Ingress<T, R, A> {
    /// Returns a stopper of whoever takes the requests, or an allocation failure.
    pub fn stopper(&self) -> Result<Stopper<T, R, A>, AllocError>
        ensures same_inbox { IfOk result (λ stopper. stopper.inbox ≡ self.now.inbox) }
    {
        Ok(Stopper::new(self.rt.clone()?, Arc::try_clone(&self.inbox)?))
    }
}

impl<T: Named, R: Wait, A: Bookkeeping> Ingress<T, R, A> {
    /// Asks whoever takes the requests to stop. Requests are still queued and taken.
    pub fn request_stop(&self) {
        self.inbox.request_stop(&self.rt);
    }

    /// Returns whether a stop was asked for. If not, the task is woken once it is.
    pub fn poll_stopped(&self, cx: &mut Context<'_>) -> bool
        ensures heard { result ≡ false → Hears cx.new self.now.inbox.stopped }
        ensures armed { result ≡ false → IsArmed cx.new }
        ensures kept { Keeps cx.old cx.new }
    {
        self.inbox
            .state
            .lock(&self.rt)
            .poll_stopped(cx, &self.inbox.stopped)
    }

    /// Returns how many requests were accepted, and what became of them.
    pub fn counts(&self) -> Counts
        // Every accepted request was taken, was skipped, waits or was given up.
        ensures add_up { result.accepted
            ≡ result.taken + result.skipped + result.waiting + result.given_up }
    {
        self.inbox.state.lock(&self.rt).counts()
    }
}

impl<T: Awaits + Queueable + Drop, R: Wait, A: Bookkeeping> Ingress<T, R, A> {
    /// Removes and returns the oldest request, and counts it if it is a counted one. If none waits,
    /// the task is woken once one is queued.
    pub fn poll_request(&mut self, cx: &mut Context<'_>) -> Poll<Request<T>>
        ensures taken { self.new.taken ≡ self.old.taken + counted_of (ready result) }
        ensures refused { self.new.refused ≡ self.old.refused }
        ensures undecided { IfReady result (λ request.
            self.new.undecided ≡ (request.counted || self.old.undecided)) }
        ensures decides_none { OnPending result (self.new.undecided ≡ self.old.undecided) }
        ensures same_inbox { self.new.inbox ≡ self.old.inbox }
        ensures heard { OnPending result (Hears cx.new self.new.inbox.queued) }
        ensures armed { OnPending result (IsArmed cx.new) }
        ensures kept { Keeps cx.old cx.new }
    {
        self.inbox.alertness.begin();
        let polled = self
            .inbox
            .state
            .lock(&self.rt)
            .poll_next(&mut self.taker, cx, &self.inbox.queued);
        if let Poll::Ready(request) = &polled {
            self.tell_if_abandoned(&request.message);
        }
        polled
    }

    /// Closes the mailbox and drops the requests that wait. Returns how many they were.
    pub fn close(&self) -> u64 {
        let (given_up, woken) = self.inbox.state.lock(&self.rt).close();
        drop(woken);
        given_up
    }
}

impl<T: Awaits + Queueable + Drop, R: Wait> Ingress<T, R> {
    /// Removes the oldest request and returns it with its ticket, or `None` if none waits.
    pub fn take(&self) -> Option<(u64, T)> {
        let mut nobody = ();
        let taken = self.inbox.state.lock(&self.rt).take(&mut nobody);
        if let Some((_, message)) = &taken {
            self.tell_if_abandoned(message);
        }
        taken
    }
}

impl<T: Awaits, R, A: Bookkeeping> Ingress<T, R, A> {
    // Tells the digest of a request whose caller no longer waits. Its drop may have been told
    // before it was taken, and it waits from now on.
    fn tell_if_abandoned(&self, message: &T) {
        if let Some(abandoned) = message.abandoned() {
            self.inbox.dropped().tell(abandoned);
        }
    }
}

impl<T: Queueable + Drop, R: Wait + Drop, A: Account, K, V, D> Ingress<T, R, Books<A, K, V, D>>
where
    K: Account,
    V: Watch<D>,
{
    /// Closes the mailbox, and tells what became of the counted requests. Fails only if the tally
    /// lacks a part.
    pub fn settle(self, tally: Tally<A>) -> Result<Settled, (Self, Tally<A>)>
        requires accounts { (A.all ≡ A.parts) × (K.all ≡ K.parts) }
        ensures whole { (is_err result ≡ false) ↔ (tally.parts ≡ A.parts) }
        ensures sums { IfOk result (IsSettled tally self.taken self.refused) }
        ensures broadcasts { IfOk result (λ settled.
            BroadcastsOnly V.watched → settled.skipped ≡ 0) }
        ensures unchanged_on_error { IfErr result (λ both. (both.0 ≡ self) × (both.1 ≡ tally)) }
    {
        if !tally.is_whole() {
            return Err((self, tally));
        }
        let mut tally = tally;
        let Ingress {
            inbox,
            mut taker,
            rt,
        } = self;
        let (settled, woken) = inbox.state.lock(&rt).settle(&mut taker, &mut tally);
        drop(woken);
        drop::<_>((inbox, taker, rt));
        drop::<_>(tally);
        Ok(settled)
    }
}

/// Asks whoever takes the requests of a mailbox to stop. It may be used on any thread.
pub struct Stopper<T: Named, R, A: Bookkeeping = ()> {
    inbox: Arc<Shared<T, A>>,
    rt: R,
}

impl<T: Named + Drop, R: Drop, A: Bookkeeping> Drop for Stopper<T, R, A> {
    fn drop(self) {
        let Stopper { inbox, rt } = self;
        drop::<_>((inbox, rt));
    }
}

impl<T: Named, R, A: Bookkeeping> Model for Stopper<T, R, A> {
    ghost use Rattle.std.specs.Arc.{arc_value};
    ghost use Rattle.broadcast_mailbox.specs.Ends.{MailboxEnd};

    ghost Value = { MailboxEnd };

    ghost view = { λ it. record { inbox = arc_value it.inbox } };
}

impl<T: Named, R, A: Bookkeeping> Stopper<T, R, A> {
    // Creates a stopper of whoever takes from the inbox.
    pub(super) fn new(rt: R, inbox: Arc<Shared<T, A>>) -> Self
        ensures { result.inbox ≡ arc_value inbox }
    {
        Stopper { inbox, rt }
    }

    /// Lets callers that wait, and whoever takes the requests, look for some microseconds before
    /// they sleep, or not. At first they do not.
    pub fn set_may_look(&self, may_look: bool) {
        self.inbox.set_may_look(may_look);
    }
}

impl<T: Named, R: Wait, A: Bookkeeping> Stopper<T, R, A> {
    /// Asks whoever takes the requests to stop, and wakes it. Does not allocate.
    pub fn request_stop(&self) {
        self.inbox.request_stop(&self.rt);
    }
}
