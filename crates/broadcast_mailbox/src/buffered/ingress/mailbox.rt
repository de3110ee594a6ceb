//! The mailbox through which callers on any thread reach a node.
ghost use Rattle.std.specs.Prelude.{◌≡◌, IfOk, OnErr, ⊤};
ghost use Rattle.std.specs.Arc.{arc_value};
ghost use Rattle.std.specs.NonZero.{non_zero_u32_get};
ghost use Rattle.broadcast_mailbox.specs.Account.{TallyState, is_accepted, is_taken_up, tallied};
ghost use Rattle.broadcast_mailbox.specs.Booked.{is_watched};
ghost use Rattle.broadcast_mailbox.specs.Ends.{IngressEnd, MailboxEnd};

use crate::buffered::ingress::account::{Account, Bookkeeping, Tally};
use crate::buffered::ingress::books::Books;
use crate::buffered::ingress::get::Get;
use crate::buffered::ingress::ingress_end::Ingress;
use crate::buffered::ingress::message::{Kind, Message, Queued, Watch};
use crate::buffered::ingress::reply::{Answering, Reply};
use crate::buffered::ingress::shared::Shared;
use crate::buffered::ingress::subscription::Subscription;
use crate::{Broadcaster, Feedback, MailboxError};
use broadcast_core::{Digested, Digestible, EncodeSize, PublicKey, Recipients, Write};
use std::alloc::{AllocError, Global};
use std::marker::Model;
use std::num::{NonZeroU32, NonZeroUsize};
use std::sync::ledger::Blank;
use std::sync::{Arc, Wait};

/// A message of a mailbox's caller, whose reply goes through a channel.
pub type Incoming<P, M> = Message<P, M, Answering<Reply<M>>, Answering<Option<Reply<M>>>>;

/// Creates a mailbox whose ready list has `mailbox_size` places, and the ingress that takes what
/// is queued through it.
pub fn channel<P: PublicKey, M: Digestible, R: Clone + Drop>(
    rt: R,
    alloc: Global,
    mailbox_size: NonZeroUsize,
) -> Result<(Mailbox<P, M, R>, Ingress<Incoming<P, M>, R>), AllocError>
    ensures same_inbox { IfOk result (λ ends. ends.0.inbox ≡ ends.1.inbox) }
    ensures nothing_taken { IfOk result (λ ends. (ends.1.taken ≡ 0) × (ends.1.refused ≡ 0)) }
{
    open(rt, alloc, mailbox_size, (), ())
}

/// Creates both ends of a new inbox that has this account.
fn open<P: PublicKey, M: Digestible, R: Clone + Drop, A: Bookkeeping>(
    rt: R,
    alloc: Global,
    mailbox_size: NonZeroUsize,
    account: A,
    taker: A::Taker,
) -> Result<(Mailbox<P, M, R, A>, Ingress<Incoming<P, M>, R, A>), AllocError>
    requires { (A.waiting account ≡ 0) × (A.accepted account ≡ 0) }
    ensures same_inbox { IfOk result (λ ends. ends.0.inbox ≡ ends.1.inbox) }
    ensures taker { IfOk result (λ ends. (ends.1.taken ≡ A.taken taker)
        × (ends.1.refused ≡ A.refusals taker)) }
{
    let Ok(inbox) = Shared::create(alloc, mailbox_size, account) else {
        drop::<_>((rt, taker));
        return Err(AllocError);
    };
    let Ok((own, its)) = Shared::ends(&rt, &inbox) else {
        drop::<_>((rt, inbox, taker));
        return Err(AllocError);
    };
    Ok((Mailbox { inbox, alloc, rt }, Ingress::new(own, its, taker)))
}

/// The ends of a mailbox that counts the tallied requests that the watch `V` matches, and the tally
/// that has all parts.
pub type WatchedEnds<P, M, R, A, K, V> = (
    WatchedMailbox<P, M, R, A, K, V>,
    Ingress<Incoming<P, M>, R, Books<A, K, V, <M as Digestible>::Digest>>,
    Tally<A>,
);

/// A mailbox that counts the tallied requests that the watch `V` matches.
pub type WatchedMailbox<P, M, R, A, K, V> = Mailbox<
    P,
    M,
    R,
    Books<A, K, V, <M as Digestible>::Digest>,
>;

/// Creates a mailbox as `channel` does, that counts tallied requests, with a tally of `parts`
/// parts.
pub fn watched_channel<P: PublicKey, M: Digestible, R: Clone + Drop, A: Account, K: Account, V>(
    rt: R,
    alloc: Global,
    mailbox_size: NonZeroUsize,
    parts: NonZeroU32,
    accepted: Blank,
    taken: Blank,
) -> Result<WatchedEnds<P, M, R, A, K, V>, AllocError>
where
    V: Watch<M::Digest>,
    requires accepted { (accepted.name ≡ A.name) × (accepted.parts ≡ A.parts) }
    requires parts { (A.all ≡ A.parts) × (A.parts ≡ non_zero_u32_get parts) }
    requires taken { (taken.name ≡ K.name) × (taken.parts ≡ K.parts) }
    requires one { (K.all ≡ K.parts) × (K.parts ≡ 1) }
    ensures same_inbox { IfOk result (λ ends. ends.0.inbox ≡ ends.1.inbox) }
    ensures whole { IfOk result (λ ends.
        ends.2 ≡ record { accepted = 0; parts = non_zero_u32_get parts }) }
    ensures nothing_taken { IfOk result (λ ends. (ends.1.taken ≡ 0) × (ends.1.refused ≡ 0)) }
{
    let (books, tally, taking) = Books::<A, K, V, M::Digest>::open(
        accepted,
        taken,
        parts.get() as u64,
    );
    let Ok((mailbox, ingress)) = open(rt, alloc, mailbox_size, books, taking) else {
        drop::<_>(tally);
        return Err(AllocError);
    };
    Ok((mailbox, ingress, tally))
}

/// The mailbox of a node. Copies of it may be used on any thread.
///
/// A call takes the lock of the inbox once, makes one call of the inbox under it, and wakes the
/// task that takes the requests after it has let the lock go.
pub struct Mailbox<P: PublicKey, M: Digestible, R, A: Bookkeeping = ()> {
    inbox: Arc<Shared<Incoming<P, M>, A>>,
    alloc: Global,
    rt: R,
}

// By hand, since what is derived is proved anew in each crate that drops a mailbox.
impl<P: PublicKey, M: Digestible, R: Drop, A: Bookkeeping> Drop for Mailbox<P, M, R, A> {
    fn drop(self) {
        let Mailbox {
            inbox,
            alloc: _,
            rt,
        } = self;
        drop::<_>((inbox, rt));
    }
}

impl<P: PublicKey, M: Digestible, R, A: Bookkeeping> Model for Mailbox<P, M, R, A> {
    ghost use Rattle.std.specs.Arc.{arc_value};
    ghost use Rattle.broadcast_mailbox.specs.Ends.{MailboxEnd};

    ghost Value = { MailboxEnd };

    ghost view = { λ it. record { inbox = arc_value it.inbox } };
}

impl<P: PublicKey, M: Digestible, R: Wait, A: Bookkeeping> Mailbox<P, M, R, A> {
    /// Requests the message of `digest`, which is sent at once if it is cached, and else when it
    /// arrives.
    ///
    /// After an error nothing is queued. After a close the subscription ends as canceled.
    pub fn subscribe(&self, digest: M::Digest) -> Result<Subscription<M>, MailboxError>
        ensures { IfOk result (λ subscription. subscription.digest ≡ digest) }
    {
        let (dropped, taker) = (self.inbox.dropped(), self.inbox.awake());
        let Ok((responder, subscription)) = Subscription::open(self.alloc, digest, dropped, taker)
        else {
            return Err(MailboxError::Memory);
        };
        let queued = self.enqueue(Message::subscribe(digest, responder));
        subscription.once_queued(queued)
    }

    /// Requests the message of `digest` if it is cached.
    ///
    /// After an error nothing is queued. After a close the reply is `None`.
    pub fn get(&self, digest: M::Digest) -> Result<Get<M>, MailboxError>
        ensures { IfOk result (λ get. get.digest ≡ digest) }
    {
        let Ok((responder, get)) = Get::open(self.alloc, digest, self.inbox.awake()) else {
            return Err(MailboxError::Memory);
        };
        let queued = self.enqueue(Message::get(digest, responder));
        get.once_queued(queued)
    }

    // Queues a request.
    #[inline(always)]
    fn enqueue(&self, request: Incoming<P, M>) -> Result<Queued, MailboxError> {
        self.inbox.enqueue(&self.rt, request)
    }
}

impl<P: PublicKey, M: Digestible, R: Wait, A, K, V> Mailbox<P, M, R, Books<A, K, V, M::Digest>>
where
    A: Account,
    K: Account,
    V: Watch<M::Digest>,
{
    /// Broadcasts as `broadcast` does. The tally is one higher exactly if the request was accepted
    /// and the watch matches it.
    pub fn broadcast_as(
        &self,
        tally: &mut Tally<A>,
        recipients: Recipients<P>,
        message: Digested<M>,
    ) -> Result<Feedback, MailboxError>
        ensures { tally.new
            ≡ tallied (V.watched Kind.Broadcast message.digest) (is_taken_up result) tally.old }
    {
        let counted = V::matches(Kind::Broadcast, &message.digest());
        let request = Message::broadcast(recipients, message);
        Queued::answer(self.enqueue_as(request, counted, tally))
    }

    /// Subscribes as `subscribe` does. The tally is one higher exactly if the request was accepted
    /// and the watch matches it; after a close, none is accepted.
    pub fn subscribe_as(
        &self,
        tally: &mut Tally<A>,
        digest: M::Digest,
    ) -> Result<Subscription<M>, MailboxError>
        ensures digest { IfOk result (λ subscription. subscription.digest ≡ digest) }
        ensures counts { IfOk result (λ asked.
            tally.new ≡ tallied (V.watched Kind.Subscribe digest) asked.accepted tally.old) }
        ensures unchanged_on_error { OnErr result (tally.new ≡ tally.old) }
    {
        let (dropped, taker) = (self.inbox.dropped(), self.inbox.awake());
        let Ok((responder, subscription)) = Subscription::open(self.alloc, digest, dropped, taker)
        else {
            return Err(MailboxError::Memory);
        };
        let counted = V::matches(Kind::Subscribe, &digest);
        let queued = self.enqueue_as(Message::subscribe(digest, responder), counted, tally);
        subscription.once_queued(queued)
    }

    /// Gets as `get` does. The tally is one higher exactly if the request was accepted and the
    /// watch matches it; after a close, none is accepted.
    pub fn get_as(&self, tally: &mut Tally<A>, digest: M::Digest) -> Result<Get<M>, MailboxError>
        ensures digest { IfOk result (λ get. get.digest ≡ digest) }
        ensures counts { IfOk result (λ get.
            tally.new ≡ tallied (V.watched Kind.Get digest) get.accepted tally.old) }
        ensures unchanged_on_error { OnErr result (tally.new ≡ tally.old) }
    {
        let Ok((responder, get)) = Get::open(self.alloc, digest, self.inbox.awake()) else {
            return Err(MailboxError::Memory);
        };
        let counted = V::matches(Kind::Get, &digest);
        let queued = self.enqueue_as(Message::get(digest, responder), counted, tally);
        get.once_queued(queued)
    }

    // Queues a request for a tally, which counts it if it is accepted and the watch matches it.
    #[inline(always)]
    #[tactic(auto, using(crate::proofs::Watching::watched_open))]
    fn enqueue_as(
        &self,
        request: Incoming<P, M>,
        counted: bool,
        tally: &mut Tally<A>,
    ) -> Result<Queued, MailboxError>
        requires { counted ≡ is_watched V.watched request }
        ensures { tally.new ≡ tallied counted (is_accepted result) tally.old }
    {
        self.inbox.enqueue_as(&self.rt, request, counted, tally)
    }
}

impl<P: PublicKey, M: Digestible, R: Clone, A: Bookkeeping> Clone for Mailbox<P, M, R, A> {
    ghost is_clone = { λ mailbox copy. copy.inbox ≡ mailbox.inbox };

    /// Returns a mailbox over the same inbox, or an allocation failure.
    fn clone(&self) -> Result<Self, AllocError> {
        let Ok((rt, inbox)) = Shared::ends(&self.rt, &self.inbox) else {
            return Err(AllocError);
        };
        Ok(Mailbox {
            inbox,
            alloc: self.alloc,
            rt,
        })
    }
}

impl<P, M, R, A> Broadcaster for Mailbox<P, M, R, A>
where
    P: PublicKey + Send + 'static,
    M: Digestible + Send + Sync + 'static,
    R: Wait + Clone + Send + 'static,
    A: Bookkeeping + Send + 'static,
    Digested<M>: Write + EncodeSize,
{
    type Recipients = Recipients<P>;

    type Message = Digested<M>;

    ghost may_answer = { λ _ _ _ _. ⊤ };

    /// Queues the message for the recipients. Returns `Closed` after a close.
    fn broadcast(
        &self,
        recipients: Recipients<P>,
        message: Digested<M>,
    ) -> Result<Feedback, MailboxError> {
        let request = Message::Broadcast {
            recipients,
            message,
        };
        Queued::answer(self.inbox.enqueue(&self.rt, request))
    }
}
