//! Steps of a world, and their answers.
ghost use Rattle.std.specs.Prelude.{◌≡◌};
ghost use Rattle.broadcast_world.specs.TwoRuns.{is_hostile};

use broadcast_core::{Answer, Digest, Digested, Items, PublicKey, Recipients, Set, TestMessage};

/// A step of a world.
#[derive(Drop)]
pub enum Step<P: PublicKey> {
    /// The node gets a peer set.
    Peers(P, Set<P>),
    /// The node broadcasts the message to the recipients.
    Broadcast(P, Recipients<P>, Digested<TestMessage>),
    /// The node subscribes to the digest's message with a ticket.
    Subscribe(P, u64, Digest),
    /// The node is asked for the digest's cached message with a ticket.
    Get(P, u64, Digest),
    /// The node drops the waiters with these tickets.
    Cleanup(P, Items<u64>),
    /// The packet with this number arrives at its addressee.
    Deliver(u64),
    /// Bytes of a hostile key arrive at a node.
    Hostile {
        /// The hostile key.
        from: P,
        /// The node.
        to: P,
        /// The bytes.
        bytes: Items<u8>,
    },
}

impl<P: PublicKey> Step<P> {
    /// Returns whether the step is a send of a hostile key.
    pub fn is_hostile(&self) -> bool
        ensures { result ≡ is_hostile self.now }
    {
        matches!(self, Step::Hostile { .. })
    }
}

/// The answer to a step of a world.
#[derive(Drop)]
pub enum WorldAnswer {
    /// The node's answer to the step's event.
    Given(Answer<TestMessage>),
    /// The step names a node, a packet or a hostile key that does not exist. It does nothing.
    NoSuch,
}

/// The answers of a world to a list of steps.
#[derive(Drop)]
pub struct WorldLog {
    /// The answers, one for each step.
    pub answers: Items<WorldAnswer>,
}
