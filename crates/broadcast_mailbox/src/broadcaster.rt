//! Types that broadcast messages.
ghost use Rattle.std.specs.Prelude.{IsTrue, ◌≡◌, ◌↔◌, ◌≢◌, Result};
ghost use Rattle.broadcast_mailbox.specs.declared.broadcaster.Feedback.{Feedback};
ghost use Rattle.broadcast_mailbox.specs.declared.broadcaster.MailboxError.{MailboxError};
ghost use Rattle.broadcast_mailbox.specs.declared.broadcaster.Feedback.TheVariants.{Closed};
ghost use Rattle.broadcast_mailbox.specs.declared.broadcaster.MailboxError.TheVariants.{Memory};

use broadcast_core::{EncodeSize, Write};
use std::alloc::AllocError;
use thiserror::Error;

/// Whether a message was accepted by the local queue. It tells nothing of a recipient.
#[derive(Clone, Copy, Debug, PartialEq, Eq)]
pub enum Feedback {
    /// The message is queued.
    Ok,
    /// The queue is full, and the message was handed to the overflow.
    Backoff,
    /// The queue is closed, and the message was dropped.
    Closed,
}

impl Feedback {
    /// Returns whether the message was accepted.
    pub fn accepted(self) -> bool
        ensures { IsTrue result ↔ (self ≢ Closed) }
    {
        match self {
            Feedback::Ok | Feedback::Backoff => true,
            Feedback::Closed => false,
        }
    }
}

/// Why an open queue did not accept a message.
#[derive(Clone, Copy, Debug, PartialEq, Eq, Error)]
pub enum MailboxError {
    /// An allocation failed.
    #[error("out of memory")]
    Memory,
    /// Every ticket was drawn.
    #[error("no ticket is left")]
    Exhausted,
}

impl From<AllocError> for MailboxError {
    ghost from_gives = { λ _ error. error ≡ Memory };

    fn from(_error: AllocError) -> MailboxError {
        MailboxError::Memory
    }
}

/// Broadcasts messages to recipients.
pub trait Broadcaster: Clone + Send + 'static {
    /// The recipients of a message.
    type Recipients;

    /// The messages that are broadcast.
    type Message: Write + EncodeSize + Clone + Send + 'static;

    /// Whether this may be the answer to a broadcast of the message to the recipients.
    ghost may_answer: { Self → Self.Recipients → Self.Message → Result Feedback MailboxError
        → Type 0 };

    /// Queues `message` for `recipients`. After an error nothing is queued.
    fn broadcast(
        &self,
        recipients: Self::Recipients,
        message: Self::Message,
    ) -> Result<Feedback, MailboxError>
        ensures { may_answer self.now recipients message result };
}
