//! An outlet that records.
ghost use Rattle.std.specs.Prelude.{◌≡◌, ◌++◌, ◌∷◌, [], map, false};
ghost use Rattle.engine_io.specs.Recorded.{reply_in};

use crate::outlet::Outlet;
use broadcast_mailbox::buffered::Responder;
use std::alloc::Global;

/// A reply with its request.
#[derive(Drop)]
pub struct Handed<R, A> {
    /// The ticket of the request.
    pub ticket: u64,
    /// The responder of the request.
    pub to: R,
    /// The reply.
    pub reply: A,
    /// Whether the reply counts as delivered.
    pub delivered: bool,
}

/// A reply to a subscribe or to a get.
#[derive(Drop)]
pub enum Replied<S, G, A, B> {
    /// A reply to a subscribe.
    Subscribed(Handed<S, A>),
    /// A reply to a get.
    Got(Handed<G, B>),
}

/// Records the replies that it is handed. A reply counts as delivered if its responder is open.
#[derive(Drop)]
pub struct RecordingOutlet<S, G, A, B> {
    /// The replies, oldest first.
    pub replies: Vec<Replied<S, G, A, B>>,
    /// Whether there was no memory to record something.
    pub lost: bool,
}

impl<S, G, A, B> RecordingOutlet<S, G, A, B> {
    /// Creates an outlet that was handed nothing. Does not allocate.
    pub fn new(alloc: Global) -> Self
        ensures nothing { result.replies.items ≡ [] }
        ensures keeps_all { result.lost ≡ false }
    {
        RecordingOutlet {
            replies: Vec::new(alloc),
            lost: false,
        }
    }

    // Records a reply.
    fn record(&mut self, reply: Replied<S, G, A, B>)
    where
        S: Drop,
        G: Drop,
        A: Drop,
        B: Drop,
        ensures kept { self.new.lost ≡ false
            → self.new.replies.items ≡ self.old.replies.items ++ reply ∷ [] }
        ensures lost { self.new.lost ≡ false → self.old.lost ≡ false }
    {
        if self.replies.push(reply).is_err() {
            self.lost = true;
        }
    }
}

/// The replies are those that are recorded, unless something was lost.
impl<S, G, A, B> Outlet<S, G, A, B> for RecordingOutlet<S, G, A, B>
where
    S: Responder<A> + Drop,
    G: Responder<B> + Drop,
    A: Drop,
    B: Drop,
{
    ghost told = { λ it replies. it.lost ≡ false → map reply_in it.replies.items ≡ replies };

    fn subscribed(&mut self, ticket: u64, to: S, reply: A) -> bool {
        let delivered = !to.is_closed();
        self.record(Replied::Subscribed(Handed {
            ticket,
            to,
            reply,
            delivered,
        }));
        delivered
    }

    fn got(&mut self, ticket: u64, to: G, reply: B) -> bool {
        let delivered = !to.is_closed();
        self.record(Replied::Got(Handed {
            ticket,
            to,
            reply,
            delivered,
        }));
        delivered
    }
}
