//! A script of payloads.
ghost use Rattle.std.specs.Prelude.{◌≡◌};
ghost use Rattle.engine_io.specs.Scripts.{HasGiven, IsQuiet, next_of};
ghost use Rattle.engine_io.specs.Sources.{given_ok, IsFailure};

use super::script::Script;
use crate::network::{NetworkFailed, Receiver};
use broadcast_core::Items;
use futures::task::{Context, Poll};

/// The payloads are those that were given.
impl<P> Receiver<P> for Script<Result<(P, Items<u8>), NetworkFailed>> {
    ghost told = { λ it payloads. HasGiven given_ok it payloads };

    ghost quiet = { λ it. IsQuiet it };

    ghost fails = { λ it. IsFailure (next_of it.rest) };

    ghost may_fail = { λ it. IsFailure (next_of it.rest) };

    // Nothing wakes who waits for more than there is.
    ghost needs = { λ _ _. ⊥ };

    fn poll_recv(&mut self, cx: &mut Context<'_>) -> Poll<Result<(P, Items<u8>), NetworkFailed>> {
        self.poll(cx)
    }
}
