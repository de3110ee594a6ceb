//! Events, which change a core, and their answers.
use crate::buffer::Core;
use crate::codec::CodecError;
use crate::digested::{Digested, Digestible};
use crate::items::Items;
use crate::ordered::{PublicKey, Recipients, Set};
use crate::outcome::Outcome;

/// An event, which changes or reads a core.
#[derive(Drop)]
#[derive_where(Debug; P, M, M::Digest)]
pub enum Event<P: PublicKey, M: Digestible> {
    /// These peers become the primary ones.
    Peers(Set<P>),
    /// The application broadcasts the message to the recipients.
    Broadcast(Recipients<P>, Digested<M>),
    /// The peer sends these bytes.
    Payload(P, Items<u8>),
    /// The application waits for the message of the digest, under the ticket.
    Subscribe(u64, M::Digest),
    /// The application asks for the cached message of the digest, under the ticket.
    Get(u64, M::Digest),
    /// The waiters with these tickets are gone.
    Cleanup(Items<u64>),
}

/// The reason why an event was refused.
#[derive(Clone, Copy, Debug, PartialEq, Eq)]
pub enum Cause {
    /// An allocation failed.
    Memory,
    /// The message has no encoding.
    Unencodable,
}

/// The answer to an event.
#[derive(Drop)]
#[derive_where(Debug; M, M::Digest)]
#[derive_where(PartialEq, Eq; M)]
pub enum Answer<M: Digestible> {
    /// The peers are the primary ones.
    Peers,
    /// The message was taken.
    Taken {
        /// What happened to the list of the key.
        outcome: Outcome,
        /// The tickets of the waiters of its digest, in the order of their subscribes.
        served: Items<u64>,
        /// The message, with which each of them is served.
        message: Digested<M>,
    },
    /// The payload does not decode.
    Invalid(CodecError),
    /// The subscribe waits.
    Waiting,
    /// The subscribe is answered from the cache.
    Answered(Digested<M>),
    /// The cached message, if there is one.
    Got(Option<Digested<M>>),
    /// The number of waiters that were dropped, at most `u64::MAX`.
    Removed(u64),
    /// The event changed nothing, as if it had not happened.
    Refused(Cause),
}

/// A message that is sent to the network.
#[derive(Clone, Debug, PartialEq, Eq, Drop)]
pub struct Sent<P> {
    /// The peers that it is for.
    pub recipients: Recipients<P>,
    /// The encoding of the message.
    pub bytes: Items<u8>,
    /// Whether it goes before other messages.
    pub priority: bool,
}

/// The result of running events.
#[derive(Drop)]
pub struct Run<P: PublicKey, M: Digestible> {
    /// The core after the last event. Its waiters are tickets.
    pub core: Core<P, M, u64>,
    /// One answer for each event, in order.
    pub answers: Items<Answer<M>>,
    /// The messages that are sent, in order.
    pub sent: Items<Sent<P>>,
}
