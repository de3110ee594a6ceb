//! The peers and the network of an engine.
ghost use Rattle.std.specs.Prelude.{◌≡◌, true, false, ⊤, ℕ, List, None, [], ◌∷◌, ◌++◌, OnErr, IfNone};
ghost use Rattle.futures.specs.Poll.{IfReady, OnPending};
ghost use Rattle.futures.specs.declared.task.Poll.TheVariants.{Ready};
ghost use Rattle.futures.specs.Task.{IsArmed, Keeps};
ghost use Rattle.broadcast_core.specs.declared.event.Sent.{Sent};
ghost use Rattle.engine_io.specs.Heard.{HearsAll};
ghost use Rattle.engine_io.specs.Sources.{given_some, given_ok, IsFailure};

use broadcast_core::{Items, PublicKey, Recipients, Set};
use futures::task::{Context, Poll};
use thiserror::Error;

/// The error of a receiver that gives no more payloads.
#[derive(Clone, Copy, Debug, PartialEq, Eq, Error)]
#[error("the network failed")]
pub struct NetworkFailed;

/// Gives the primary peers, again at each change.
pub trait Provider<P: PublicKey> {
    /// Whether this may be the list of the sets that were given, oldest first. By default any
    /// may be.
    ghost told: { Self → List (List P) → Type 0 } = { λ _ _. ⊤ };

    /// Whether the provider may have no set to give.
    ghost quiet: { Self → Type 0 } = { λ _. ⊤ };

    /// Whether there are no more sets. A provider that does not tell has none here.
    ghost ends: { Self → Type 0 } = { λ _. ⊥ };

    /// Whether there may be no more sets. For a provider that does not tell, there may.
    ghost may_end: { Self → Type 0 } = { λ _. ⊤ };

    /// Holds of each source that wakes who waits for a peer set: of none if none ever does, or if a
    /// pending poll always asks for another one.
    ghost needs: { Self → ℕ → Type 0 };

    /// Returns whether there may be a set, or no more sets. If not, `poll_update` has nothing to
    /// give. Registers nobody, so an engine that has something to do calls that only if this
    /// returns so. A provider that does not tell always returns so.
    fn may_have_update(&self) -> bool
        ensures quiet { result ≡ false → quiet self.now }
        ensures goes_on { ends self.now → result ≡ true }
    {
        true
    }

    /// Returns the next set of primary peers, or `None` once there are no more.
    fn poll_update(&mut self, cx: &mut Context<'_>) -> Poll<Option<Set<P>>>
        ensures tells { (sets : List (List P))
            → told self.old sets → told self.new (sets ++ given_some result) }
        ensures quiet { OnPending result (quiet self.old) }
        ensures ends { ends self.old → result ≡ Ready None }
        ensures may_end { IfReady result (λ set. IfNone set (may_end self.old)) }
        ensures heard { OnPending result (HearsAll cx.new (needs self.new)) }
        ensures armed { OnPending result (IsArmed cx.new) }
        ensures kept { Keeps cx.old cx.new };
}

/// Receives payloads of peers.
pub trait Receiver<P> {
    /// Whether this may be the list of the payloads that were given, oldest first. By default any
    /// may be.
    ghost told: { Self → List (P × List ℕ) → Type 0 } = { λ _ _. ⊤ };

    /// Whether the receiver may have no payload to give.
    ghost quiet: { Self → Type 0 } = { λ _. ⊤ };

    /// Whether it has failed. A receiver that does not tell has not, here.
    ghost fails: { Self → Type 0 } = { λ _. ⊥ };

    /// Whether it may have failed. A receiver that does not tell always may have.
    ghost may_fail: { Self → Type 0 } = { λ _. ⊤ };

    /// Holds of each source that wakes who waits for a payload: of none if none ever does, or if a
    /// pending poll always asks for another one.
    ghost needs: { Self → ℕ → Type 0 };

    /// Returns the next payload with its sender.
    fn poll_recv(&mut self, cx: &mut Context<'_>) -> Poll<Result<(P, Items<u8>), NetworkFailed>>
        ensures tells { (payloads : List (P × List ℕ))
            → told self.old payloads → told self.new (payloads ++ given_ok result) }
        ensures quiet { OnPending result (quiet self.old) }
        ensures fails { fails self.old → IsFailure result }
        ensures may_fail { IfReady result (λ payload. OnErr payload (may_fail self.old)) }
        ensures heard { OnPending result (HearsAll cx.new (needs self.new)) }
        ensures armed { OnPending result (IsArmed cx.new) }
        ensures kept { Keeps cx.old cx.new };
}

/// Sends encoded messages to peers.
pub trait Sender<P> {
    /// Whether this may be the list of what was sent, oldest first. By default any
    /// may be.
    ghost told: { Self → List (Sent P) → Type 0 } = { λ _ _. ⊤ };

    /// Hands over `bytes` to be sent to `recipients`, as priority if `priority` is true.
    fn send(&mut self, recipients: Recipients<P>, bytes: Vec<u8>, priority: bool)
        ensures { (sent : List (Sent P)) → told self.old sent → told self.new (sent ++ record {
          recipients = recipients;
          bytes = bytes.items;
          priority = priority;
        } ∷ []) };
}
