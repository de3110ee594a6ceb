//! The messages of a mailbox's callers, the tickets that they draw, and which of them are counted.
ghost use Rattle.std.specs.Prelude.{◌≡◌, Bool, true, false, List, None, Ok};
ghost use Rattle.std.specs.Ordering.{eq_by_cmp};
ghost use Rattle.broadcast_mailbox.specs.Watch.{kind_of, is_broadcast};
ghost use Rattle.broadcast_mailbox.specs.declared.buffered.ingress.message.Kind.{Kind};
ghost use Rattle.broadcast_mailbox.specs.Account.{is_accepted};
ghost use Rattle.broadcast_mailbox.specs.Queued.{feedback_of};
ghost use Rattle.broadcast_mailbox.specs.Booked.{answer_of};

use crate::buffered::ingress::dropped::Abandoned;
use crate::buffered::ingress::queue::{Pending, Policy};
use crate::buffered::ingress::reply::Reply;
use crate::buffered::ingress::responder::Responder;
use crate::{Feedback, MailboxError};
use broadcast_core::{Closable, Digested, Digestible, PublicKey, Recipients};
use std::alloc::AllocError;

/// A message of a mailbox's caller, generic over where the replies go.
#[derive(Drop)]
pub enum Message<P, M: Digestible, S, G> {
    /// Broadcast a message.
    Broadcast {
        /// Whom the message is for.
        recipients: Recipients<P>,
        /// The message.
        message: Digested<M>,
    },
    /// Reply with the message of a digest, at once or when it arrives.
    Subscribe {
        /// The digest.
        digest: M::Digest,
        /// Where the reply goes.
        responder: S,
    },
    /// Reply with the message of a digest, or with `None` if it is not cached.
    Get {
        /// The digest.
        digest: M::Digest,
        /// Where the reply goes.
        responder: G,
    },
}

impl<P, M: Digestible, S, G> Message<P, M, S, G> {
    /// Creates a request to broadcast `message` to `recipients`.
    pub fn broadcast(recipients: Recipients<P>, message: Digested<M>) -> Self
        ensures { result ≡ Message.Broadcast recipients message }
    {
        Message::Broadcast {
            recipients,
            message,
        }
    }

    /// Creates a request for the message of `digest`, at once or when it arrives.
    pub fn subscribe(digest: M::Digest, responder: S) -> Self
        ensures { result ≡ Message.Subscribe digest responder }
    {
        Message::Subscribe { digest, responder }
    }

    /// Creates a request for the message of `digest` if it is cached.
    pub fn get(digest: M::Digest, responder: G) -> Self
        ensures { result ≡ Message.Get digest responder }
    {
        Message::Get { digest, responder }
    }
}

impl<P, M: Digestible, S, G> Message<P, M, S, G> {
    /// Returns what is asked for.
    pub fn kind(&self) -> Kind
        ensures { result ≡ kind_of self.now }
    {
        match self {
            Message::Broadcast { .. } => Kind::Broadcast,
            Message::Subscribe { .. } => Kind::Subscribe,
            Message::Get { .. } => Kind::Get,
        }
    }
}

/// A message is closed if its responder is. A broadcast is never closed.
impl<P: PublicKey, M: Digestible, S: Responder<Reply<M>>, G> Closable for Message<P, M, S, G>
where
    G: Responder<Option<Reply<M>>>,
{
    ghost use Rattle.broadcast_mailbox.specs.Message.{message_may_answer};

    ghost may_answer = { message_may_answer S.may_answer G.may_answer };

    fn is_closed(&self) -> bool {
        match self {
            Message::Broadcast { .. } => false,
            Message::Subscribe { responder, .. } => responder.is_closed(),
            Message::Get { responder, .. } => responder.is_closed(),
        }
    }
}

/// A request that names a digest.
pub trait Named {
    /// The digest.
    type Digest: Ord + Drop;

    /// Whether it is never found closed.
    ghost stays_open: { Self → Bool };
}

/// A broadcast is never found closed.
impl<P, M: Digestible, S, G> Named for Message<P, M, S, G> {
    ghost use Rattle.broadcast_mailbox.specs.Watch.{is_broadcast, kind_of};

    type Digest = M::Digest;

    ghost stays_open = { λ message. is_broadcast (kind_of message) };
}

/// A request that is dropped if it is found closed while it is queued.
pub trait Queueable: Closable + Named {
    /// What stays open is not found closed.
    ghost is_open: { (request : Self) → Self.Named.stays_open request ≡ true
        → Self.Closable.may_answer request true → ⊥ };
}

impl<P: PublicKey, M: Digestible, S: Responder<Reply<M>>, G> Queueable for Message<P, M, S, G>
where
    G: Responder<Option<Reply<M>>>,
{
    ghost use Rattle.broadcast_mailbox.specs.MessageLaws.{broadcast_is_open};

    ghost is_open = { broadcast_is_open S.may_answer G.may_answer };
}

/// A request that may have to wait for its reply.
pub trait Awaits: Named {
    /// Whether it may be found open while it waits. What never waits may.
    ghost may_stay: { Self → Type 0 };

    /// Whether it waits for one of these digests. What never waits does.
    ghost is_among: { List Self.Digest → Self → Type 0 };

    /// Returns the digest that it would wait for, if its caller no longer does.
    fn abandoned(&self) -> Option<Abandoned<Self::Digest>>
        ensures { result ≡ None → may_stay self.now };
}

/// Only a subscribe waits.
impl<P, M: Digestible, S: Responder<Reply<M>>, G> Awaits for Message<P, M, S, G> {
    ghost use Rattle.broadcast_mailbox.specs.Message.{message_may_stay, message_is_among};

    ghost may_stay = { message_may_stay (λ responder. S.may_answer responder false) };

    ghost is_among = { message_is_among (eq_by_cmp M.Digest.cmp) };

    #[inline]
    fn abandoned(&self) -> Option<Abandoned<M::Digest>> {
        match self {
            Message::Subscribe { digest, responder } => Abandoned::found(responder, *digest),
            Message::Broadcast { .. } | Message::Get { .. } => None,
        }
    }
}

impl<P: PublicKey, M: Digestible, S: Responder<Reply<M>> + Drop, G> Policy for Message<P, M, S, G>
where
    G: Responder<Option<Reply<M>>> + Drop,
{
    type Overflow = Pending<Self>;

    fn handle(overflow: &mut Pending<Self>, message: Self) -> Result<(), AllocError> {
        overflow.append(message)
    }
}

/// A message with the ticket that it drew.
#[derive(Drop)]
pub struct Request<T> {
    /// The ticket that the message drew.
    pub ticket: u64,
    /// The message.
    pub message: T,
    /// Whether the request was made through a tally, and the watch matches it.
    pub counted: bool,
}

/// A request is closed if its message is.
impl<T: Closable> Closable for Request<T> {
    ghost may_answer = { λ request answer. T.may_answer request.message answer };

    fn is_closed(&self) -> bool {
        self.message.is_closed()
    }
}

impl<T: Closable + Drop> Policy for Request<T> {
    type Overflow = Pending<Self>;

    fn handle(overflow: &mut Pending<Self>, message: Self) -> Result<(), AllocError> {
        overflow.append(message)
    }
}

/// The kind of a request.
#[derive(Clone, Copy, Debug, PartialEq, Eq)]
pub enum Kind {
    /// To broadcast a message.
    Broadcast,
    /// The message of a digest, at once or when it arrives.
    Subscribe,
    /// The message of a digest if it is cached.
    Get,
}

/// Selects the tallied requests that are counted, by kind and digest. The digest of a broadcast
/// is the one that was handed in with its message.
pub trait Watch<D> {
    /// Whether a request of this kind and digest is counted.
    ghost watched: { Kind → D → Bool };

    /// Returns whether a request of this kind and digest is counted.
    fn matches(kind: Kind, digest: &D) -> bool
        ensures { result ≡ watched kind digest.now };
}

/// Counts every tallied request.
pub struct All;

impl<D> Watch<D> for All {
    ghost watched = { λ _ _. true };

    fn matches(_kind: Kind, _digest: &D) -> bool {
        true
    }
}

/// Counts the tallied broadcasts.
pub struct Broadcasts;

impl<D> Watch<D> for Broadcasts {
    ghost watched = { λ kind _. is_broadcast kind };

    fn matches(kind: Kind, _digest: &D) -> bool {
        match kind {
            Kind::Broadcast => true,
            Kind::Subscribe | Kind::Get => false,
        }
    }
}

/// The result of an enqueue, with the ticket that the message drew.
#[derive(Clone, Copy, Debug, PartialEq, Eq)]
pub enum Queued {
    /// The message is in the ready list.
    Ready(u64),
    /// The ready list is full, and the message is in the overflow.
    Overflow(u64),
    /// The ready list is full and the message is closed, so it was dropped.
    Skipped(u64),
    /// The mailbox is closed, and the message was dropped. It drew no ticket.
    Closed,
}

impl Queued {
    /// Returns what the caller of a broadcast is told.
    pub fn feedback(self) -> Feedback
        ensures { result ≡ feedback_of self }
    {
        match self {
            Queued::Ready(_) => Feedback::Ok,
            Queued::Overflow(_) | Queued::Skipped(_) => Feedback::Backoff,
            Queued::Closed => Feedback::Closed,
        }
    }

    /// Returns whether the message drew a ticket.
    pub fn is_accepted(self) -> bool
        ensures { result ≡ is_accepted (Ok self) }
    {
        match self {
            Queued::Ready(_) | Queued::Overflow(_) | Queued::Skipped(_) => true,
            Queued::Closed => false,
        }
    }

    // Returns what a broadcast returns if the inbox answered `queued`. An error stays as it is.
    pub(super) fn answer(queued: Result<Queued, MailboxError>) -> Result<Feedback, MailboxError>
        ensures { result ≡ answer_of queued }
    {
        Ok(queued?.feedback())
    }
}

/// The number of requests that a mailbox accepted, and of each of their outcomes.
#[derive(Clone, Copy, Debug, PartialEq, Eq)]
pub struct Counts {
    /// How many drew a ticket.
    pub accepted: u64,
    /// How many were taken.
    pub taken: u64,
    /// How many were closed and dropped.
    pub skipped: u64,
    /// How many wait.
    pub waiting: u64,
    /// How many were dropped when the mailbox was closed.
    pub given_up: u64,
}
