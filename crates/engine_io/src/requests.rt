//! The source of an engine's requests.
ghost use Rattle.std.specs.Prelude.{◌≡◌, ◌≤◌, ◌+◌, ◌&&◌, ◌||◌, ⊤, ◌⊎◌, ℕ, Bool, List, [], ◌∷◌, ◌++◌, true, false};
ghost use Rattle.futures.specs.Poll.{IfReady, OnPending};
ghost use Rattle.futures.specs.Task.{IsArmed, Keeps};
ghost use Rattle.engine_io.specs.Heard.{HearsAll};
ghost use Rattle.engine_io.specs.Sources.{given};
ghost use Rattle.engine_io.specs.Refused.{refusals};
ghost use Rattle.broadcast_mailbox.specs.Account.{one_if};
ghost use Rattle.broadcast_mailbox.specs.Queue.{counted_in};
ghost use Rattle.broadcast_mailbox.specs.Ends.{IngressEnd, SharedInbox};
ghost use Rattle.broadcast_mailbox.specs.declared.buffered.ingress.message.Message.{Message};
ghost use Rattle.broadcast_mailbox.specs.declared.buffered.ingress.message.Request.{Request};

use broadcast_core::{Digestible, PublicKey};
use broadcast_mailbox::buffered::{Awaits, Bookkeeping, Incoming, Ingress, Request};
use futures::task::{Context, Poll};
use std::sync::Wait;
use std::time::Clock;

/// Gives requests, and the order to stop.
pub trait Requests<T: Awaits> {
    /// Whether this may be the list of the requests that were given, oldest first.
    ghost told: { Self → List (Request T) → Type 0 };

    /// Whether this may be the list of what was told of the requests that were given, oldest first:
    /// whether each was refused. By default any list may be.
    ghost outcomes: { Self → List Bool → Type 0 } = { λ _ _. ⊤ };

    /// Whether there may be no request to give.
    ghost quiet: { Self → Type 0 } = { λ _. ⊤ };

    /// Whether a stop was asked for. A source that does not tell has none here.
    ghost stops: { Self → Type 0 } = { λ _. ⊥ };

    /// Whether a stop may have been asked for. For a source that does not tell, it may.
    ghost may_stop: { Self → Type 0 } = { λ _. ⊤ };

    /// Whether the requests were closed. A source that does not tell always may have been.
    ghost closed: { Self → Type 0 } = { λ _. ⊤ };

    /// Holds of each source that wakes who waits for a request: of none if none ever does, or if a
    /// pending poll always asks for another one.
    ghost needs: { Self → ℕ → Type 0 };

    /// Holds of each source that wakes who waits for the order to stop, likewise.
    ghost needs_stop: { Self → ℕ → Type 0 };

    /// Returns whether a stop may have been asked for. If not, none was. Registers nobody, so an
    /// engine that has something to do calls `stopped` only if this returns so. A source that does
    /// not tell always returns so.
    fn may_be_stopped(&self) -> bool
        ensures { stops self.now → result ≡ true }
    {
        true
    }

    /// Returns whether the engine is to stop. If not, the task is woken once it is.
    fn stopped(&mut self, cx: &mut Context<'_>) -> bool
        ensures stops { stops self.old → result ≡ true }
        ensures only_if_asked { result ≡ true → may_stop self.old }
        ensures tells { (requests : List (Request T))
            → told self.old requests → told self.new requests }
        ensures outcomes { (before : List Bool)
            → outcomes self.old before → outcomes self.new before }
        ensures heard { result ≡ false → HearsAll cx.new (needs_stop self.new) }
        ensures same_needs { result ≡ false
            → (source : ℕ) → needs self.new source → needs self.old source }
        ensures armed { result ≡ false → IsArmed cx.new }
        ensures quiet { quiet self.new → quiet self.old }
        ensures kept { Keeps cx.old cx.new };

    /// Returns the next request.
    fn poll_next(&mut self, cx: &mut Context<'_>) -> Poll<Request<T>>
        ensures tells { (requests : List (Request T))
            → told self.old requests → told self.new (requests ++ given result) }
        ensures outcomes { (before : List Bool)
            → outcomes self.old before → outcomes self.new before }
        ensures quiet { OnPending result (quiet self.old) }
        ensures heard { OnPending result (HearsAll cx.new (needs self.new)) }
        ensures same_stop { OnPending result
            ((source : ℕ) → needs_stop self.new source → needs_stop self.old source) }
        ensures no_later_stop { OnPending result (may_stop self.new → may_stop self.old) }
        ensures armed { OnPending result (IsArmed cx.new) }
        ensures kept { Keeps cx.old cx.new };

    /// Looks for some microseconds whether a request or the order to stop came since the last poll
    /// for a request. Returns whether one may have come. A source that does not tell returns at
    /// once.
    fn look<Time: Clock>(&self, _clock: &Time) -> bool {
        false
    }

    /// Puts the digests of which a request that was given may have closed since the last call in
    /// place of those in `digests`. Returns whether one of another digest may have closed too. A
    /// source that does not tell always says so.
    fn take_closed(&mut self, digests: &mut Vec<T::Digest>) -> bool
        ensures only_if { result ≡ false
            → (request : T) → T.may_stay request ⊎ T.is_among digests.new.items request }
        ensures same { self.new ≡ self.old }
    {
        digests.clear();
        true
    }

    /// Tells that the request that was given last was refused, or else applied.
    fn tell_outcome(&mut self, refused: bool)
        ensures tells { (requests : List (Request T))
            → told self.old requests → told self.new requests }
        ensures outcomes { (before : List Bool)
            → outcomes self.old before → outcomes self.new (before ++ refused ∷ []) };

    /// Refuses later requests, and gives up those that wait.
    fn close(&mut self)
        ensures closes { closed self.new }
        ensures tells { (requests : List (Request T))
            → told self.old requests → told self.new requests }
        ensures outcomes { (before : List Bool)
            → outcomes self.old before → outcomes self.new before };
}

/// Other threads queue the requests, so of those only is told how many counted ones were given. No
/// more of them count as refused than were told to be. A task that waits is woken by the inbox of
/// the mailbox.
impl<P: PublicKey, M: Digestible, R, A> Requests<Incoming<P, M>> for Ingress<Incoming<P, M>, R, A>
where
    R: Wait,
    A: Bookkeeping,
{
    ghost told = { λ it requests. it.taken ≡ counted_in requests };

    ghost outcomes = { λ it told. it.refused ≤ refusals told };

    ghost needs = { λ it source. source ≡ it.inbox.queued };

    ghost needs_stop = { λ it source. source ≡ it.inbox.stopped };

    fn may_be_stopped(&self) -> bool {
        self.stop_requested()
    }

    fn stopped(&mut self, cx: &mut Context<'_>) -> bool {
        self.poll_stopped(cx)
    }

    fn poll_next(&mut self, cx: &mut Context<'_>) -> Poll<Request<Incoming<P, M>>>
        ensures tells { (requests : List (Request (Message P M ℕ ℕ M.Digest)))
            → self.old.taken ≡ counted_in requests
            → self.new.taken ≡ counted_in (requests ++ given result) }
        ensures outcomes { (before : List Bool)
            → self.old.refused ≤ refusals before → self.new.refused ≤ refusals before }
        ensures undecided { IfReady result (λ request.
            self.new.undecided ≡ (request.counted || self.old.undecided)) }
        ensures decides_none { OnPending result (self.new.undecided ≡ self.old.undecided) }
        ensures heard { OnPending result
            (HearsAll cx.new (λ source. source ≡ self.new.inbox.queued)) }
        ensures same_stop { OnPending result ((source : ℕ)
            → source ≡ self.new.inbox.stopped → source ≡ self.old.inbox.stopped) }
        ensures armed { OnPending result (IsArmed cx.new) }
        ensures kept { Keeps cx.old cx.new }
    {
        self.poll_request(cx)
    }

    fn look<Time: Clock>(&self, clock: &Time) -> bool {
        Ingress::look(self, clock)
    }

    /// Takes the digests of which a subscription was dropped since the last call.
    fn take_closed(&mut self, digests: &mut Vec<M::Digest>) -> bool {
        self.take_dropped(digests)
    }

    fn tell_outcome(&mut self, refused: bool)
        ensures tells { (requests : List (Request (Message P M ℕ ℕ M.Digest)))
            → self.old.taken ≡ counted_in requests → self.new.taken ≡ counted_in requests }
        ensures outcomes { (before : List Bool) → self.old.refused ≤ refusals before
            → self.new.refused ≤ refusals (before ++ refused ∷ []) }
        ensures counts { self.new.refused
            ≡ self.old.refused + one_if (self.old.undecided && refused) }
        ensures decided { self.new.undecided ≡ false }
    {
        Ingress::tell_outcome(self, refused);
    }

    fn close(&mut self) {
        let _given_up = Ingress::close(self);
    }
}
