//! The waiter of a subscribe.
ghost use Rattle.std.specs.Prelude.{◌≡◌};

use broadcast_core::{Closable, Digestible};
use broadcast_mailbox::buffered::{Reply, Responder};
use std::marker::{Model, PhantomData};

/// A subscribe that waits: its ticket, and where the reply goes.
#[derive(Drop)]
pub struct Waiter<M, S> {
    ticket: u64,
    responder: S,
    message: PhantomData<M>,
}

impl<M, S> Model for Waiter<M, S> {
    ghost use Rattle.engine_io.specs.Replies.{Asker};

    ghost Value = { Asker S };

    ghost view = { λ w. record { ticket = w.ticket; responder = w.responder } };
}

impl<M, S> Waiter<M, S> {
    /// Creates a waiter.
    pub fn new(ticket: u64, responder: S) -> Self
        ensures { result ≡ record { ticket = ticket; responder = responder } }
    {
        Waiter {
            ticket,
            responder,
            message: PhantomData,
        }
    }

    /// Returns the ticket and the responder.
    pub fn into_parts(self) -> (u64, S)
        ensures { self ≡ record { ticket = result.0; responder = result.1 } }
    {
        let Waiter {
            ticket,
            responder,
            message: _,
        } = self;
        (ticket, responder)
    }
}

/// A waiter is closed if its responder is.
impl<M: Digestible, S: Responder<Reply<M>>> Closable for Waiter<M, S> {
    ghost may_answer = { λ waiter answer. S.may_answer waiter.responder answer };

    fn is_closed(&self) -> bool {
        self.responder.is_closed()
    }
}
