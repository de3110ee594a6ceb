//! The results of the calls of a core.
ghost use Rattle.std.specs.Prelude.{◌≡◌, false};

use crate::digested::{Digested, Digestible};
use crate::items::Items;

/// The outcome of taking a message under a key.
#[derive(Clone, Copy, Debug, PartialEq, Eq)]
pub enum Outcome {
    /// The digest was not on the list of the key, and was put in front of it.
    Inserted,
    /// The digest was on the list of the key, and was moved to its front.
    Duplicate,
    /// The key is not primary. No list changed.
    Ineligible,
    /// The message is charged more than the byte budget. No list changed.
    Oversize,
}

/// The result of taking a message.
#[derive(Debug, Drop)]
pub struct Taken<W> {
    /// What happened to the list of the key.
    pub outcome: Outcome,
    /// The waiters of the digest, in the order of their subscribes.
    pub served: Items<W>,
    /// Whether the message is cached, and none of its digest was.
    pub entered: bool,
}

/// What a taking does to the list of its key.
#[derive(Clone, Copy)]
pub struct Listing {
    /// What happened to the list.
    pub outcome: Outcome,
    /// Whether a message of the digest is known to have been cached.
    pub was_cached: bool,
    /// Whether the message is cached, and none of its digest was.
    pub entered: bool,
}

impl Listing {
    /// No list changes, and nothing is known of the cache.
    pub const fn unchanged(outcome: Outcome) -> Self
        ensures { result
            ≡ record { outcome = outcome; was_cached = false; entered = false } }
    {
        Listing {
            outcome,
            was_cached: false,
            entered: false,
        }
    }
}

/// The result of a subscribe.
#[derive(Drop)]
#[derive_where(Debug; W, M, M::Digest)]
pub enum Subscribed<W, M: Digestible> {
    /// The waiter is returned with the cached message.
    Answered(W, Digested<M>),
    /// The waiter waits.
    Waiting,
}
