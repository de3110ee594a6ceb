//! The messages of an author, and what becomes of them.
ghost use Rattle.std.specs.Prelude.{◌≡◌};
ghost use Rattle.gossip.specs.Newest.{charge};

/// What each message is charged beside its bytes, so that messages without bytes can't fill a
/// memory.
pub const CHARGE: u64 = 64;

/// A message of an author: the stamp of the author's message before it, its own stamp, its size in
/// bytes, and the handle by which the caller knows it.
#[repr(C)]
#[derive(Clone, Copy, Debug, PartialEq, Eq)]
pub struct Message {
    pub prev: u64,
    pub stamp: u64,
    pub bytes: u64,
    pub handle: u64,
}

impl Message {
    /// Returns what the message is charged: its bytes and `CHARGE`.
    pub fn charge(self) -> u128
        ensures { result ≡ charge self }
    {
        u128::from(self.bytes) + u128::from(CHARGE)
    }
}

/// A message that arrives, and the greatest stamp that may be accepted when it does.
#[repr(C)]
#[derive(Clone, Copy, Debug, PartialEq, Eq)]
pub struct Arrival {
    pub message: Message,
    pub latest: u64,
}

/// What becomes of a message that arrives.
#[derive(Clone, Copy, Debug, PartialEq, Eq)]
pub enum Arrived {
    /// It is new, and on the list.
    Listed,
    /// It is new, but has no room beside the later ones: it and all earlier ones are up to the
    /// floor now.
    Passed,
    /// It was known, or is no later than the one before it.
    Refused,
    /// It exceeds the budget by itself.
    Oversize,
    /// It is later than the greatest stamp that may be accepted.
    Untimely,
}
