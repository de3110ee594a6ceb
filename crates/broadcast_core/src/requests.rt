//! Waiters for a message, as a core sees them.
ghost use Rattle.std.specs.Prelude.{◌≡◌, ℕ, Bool};

/// A waiter with a ticket.
pub trait Ticketed {
    /// The waiter's ticket.
    ghost ticket_of: { Self → ℕ };

    /// Returns the ticket. Several waiters may have the same one.
    fn ticket(&self) -> u64
        ensures { result ≡ ticket_of self.now };
}

impl Ticketed for u64 {
    ghost ticket_of = { λ ticket. ticket };

    fn ticket(&self) -> u64 {
        *self
    }
}

/// A waiter that its caller may close, from another thread too.
pub trait Closable {
    /// The results that `is_closed` may return.
    ghost may_answer: { Self → Bool → Type 0 };

    /// Returns whether the caller no longer waits for the message.
    fn is_closed(&self) -> bool
        ensures { may_answer self.now result };
}
