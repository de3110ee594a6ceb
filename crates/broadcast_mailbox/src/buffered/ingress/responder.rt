//! Where a reply goes.
ghost use Rattle.std.specs.Prelude.{◌≡◌, Bool, not, ⊤};

use futures::channel::oneshot;

/// Takes the reply to one request.
pub trait Responder<T> {
    /// The results that `is_closed` may return.
    ghost may_answer: { Self → Bool → Type 0 };

    /// The results that `send` may return.
    ghost may_deliver: { Self → Bool → Type 0 };

    /// Returns whether the caller no longer waits for the reply.
    fn is_closed(&self) -> bool
        ensures { may_answer self.now result };

    /// Sends the reply and returns whether it was accepted. A reply that was not is dropped.
    fn send(self, value: T) -> bool
        ensures { may_deliver self result };
}

/// A responder whose field decides whether it is closed.
#[derive(Clone, Copy, Debug, PartialEq, Eq)]
pub struct Fixed {
    /// Whether the responder is closed.
    pub closed: bool,
}

impl<T: Drop> Responder<T> for Fixed {
    ghost may_answer = { λ fixed answer. answer ≡ fixed.closed };

    ghost may_deliver = { λ fixed answer. answer ≡ not fixed.closed };

    fn is_closed(&self) -> bool {
        self.closed
    }

    fn send(self, _value: T) -> bool {
        let Fixed { closed } = self;
        !closed
    }
}

/// Another thread may drop the receiver at any time, so either call may return either result.
impl<T: Drop> Responder<T> for oneshot::Sender<T> {
    ghost may_answer = { λ _ _. ⊤ };

    ghost may_deliver = { λ _ _. ⊤ };

    fn is_closed(&self) -> bool {
        self.is_canceled()
    }

    fn send(self, value: T) -> bool {
        oneshot::Sender::send(self, value).is_ok()
    }
}
