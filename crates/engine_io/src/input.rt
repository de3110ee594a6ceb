//! The inputs of an engine, and the result of a turn.
ghost use Rattle.std.specs.Prelude.{◌≡◌};
ghost use Rattle.engine_io.specs.Refused.{refuses, is_request};

use broadcast_core::{Cause, CodecError, Digested, Digestible, Outcome, PublicKey, Set};
use broadcast_mailbox::buffered::{Message, Request};

/// One input of an engine.
#[derive(Drop)]
pub enum Input<P: PublicKey, M: Digestible, S, G> {
    /// The primary peers from now on.
    Peers(Set<P>),
    /// A request of the application.
    Request(Request<Message<P, M, S, G>>),
    /// A message of a peer.
    Arrived(P, Digested<M>),
    /// A payload of a peer that is no message.
    Invalid(P, CodecError),
}

impl<P: PublicKey, M: Digestible, S, G> Input<P, M, S, G> {
    /// Returns whether it is a request.
    pub fn is_request(&self) -> bool
        ensures { result ≡ is_request self.now }
    {
        match self {
            Input::Request(_) => true,
            Input::Peers(_) | Input::Arrived(_, _) | Input::Invalid(_, _) => false,
        }
    }
}

/// The result of a turn.
#[derive(Clone, Debug, PartialEq, Eq, Drop)]
pub enum Turn<P, D> {
    /// The primary peers were replaced.
    Peers,
    /// The message of the node with this digest was taken.
    Broadcast(D, Outcome),
    /// A subscribe was answered, or waits.
    Subscribe,
    /// A get was answered.
    Get,
    /// The message of this peer with this digest was taken.
    Payload(P, D, Outcome),
    /// A payload of this peer was no message.
    Invalid(P, CodecError),
    /// The input was refused, and changed nothing: a payload of this peer, or, if it names none, a
    /// request.
    Refused(Option<P>, Cause),
    /// The engine ended.
    Ended(EndCause),
}

impl<P, D> Turn<P, D> {
    /// Returns whether the input was refused.
    pub fn is_refused(&self) -> bool
        ensures { result ≡ refuses self.now }
    {
        match self {
            Turn::Refused(_, _) => true,
            Turn::Peers
            | Turn::Broadcast(_, _)
            | Turn::Subscribe
            | Turn::Get
            | Turn::Payload(_, _, _)
            | Turn::Invalid(_, _)
            | Turn::Ended(_) => false,
        }
    }
}

/// Why an engine ended.
#[derive(Clone, Copy, Debug, PartialEq, Eq)]
pub enum EndCause {
    /// The engine was asked to stop.
    Stopped,
    /// There are no more peer sets.
    PeersClosed,
    /// The receiver failed.
    NetworkFailed,
    /// The engine was to be started, and no thread could be had for it, or none that can wait.
    WaitFailed,
}
