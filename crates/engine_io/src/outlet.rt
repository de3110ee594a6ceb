//! The outlet of an engine's replies.
ghost use Rattle.std.specs.Prelude.{List, [], ◌∷◌, ◌++◌};
ghost use Rattle.std.specs.List.{All};
ghost use Rattle.engine_io.specs.Replies.{IsAsSaid, Replied, subscribed, got};

use broadcast_mailbox::buffered::Responder;

/// Hands replies to responders: `S` and `SubscribeReply` are those of subscribes, `G` and
/// `GetReply` those of gets.
pub trait Outlet<S, G, SubscribeReply, GetReply> {
    /// Whether this may be the list of the replies that were handed out, oldest first.
    ghost told: { Self → List (Replied S G SubscribeReply GetReply) → Type 0 };

    /// Hands `reply` to the responder of a subscribe. Returns whether it was delivered.
    fn subscribed(&mut self, ticket: u64, to: S, reply: SubscribeReply) -> bool
        ensures { (replies : List (Replied S G SubscribeReply GetReply))
            → told self.old replies → told self.new (replies
            ++ subscribed (record { ticket = ticket; responder = to }) reply result ∷ []) };

    /// Hands `reply` to the responder of a get. Returns whether it was delivered.
    fn got(&mut self, ticket: u64, to: G, reply: GetReply) -> bool
        ensures { (replies : List (Replied S G SubscribeReply GetReply))
            → told self.old replies → told self.new (replies
            ++ got (record { ticket = ticket; responder = to }) reply result ∷ []) };
}

/// Hands each reply to its own responder.
#[derive(Clone, Copy, Debug, PartialEq, Eq)]
pub struct Direct;

/// A reply counts as delivered if its responder accepted it, and else not: these are the replies
/// that may have been handed out.
impl<SubscribeReply, GetReply, S, G> Outlet<S, G, SubscribeReply, GetReply> for Direct
where
    S: Responder<SubscribeReply>,
    G: Responder<GetReply>,
{
    ghost told = { λ _ replies. All (IsAsSaid S.may_deliver G.may_deliver) replies };

    fn subscribed(&mut self, _ticket: u64, to: S, reply: SubscribeReply) -> bool {
        to.send(reply)
    }

    fn got(&mut self, _ticket: u64, to: G, reply: GetReply) -> bool {
        to.send(reply)
    }
}
