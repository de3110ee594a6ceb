//! A script of peer sets.
ghost use Rattle.std.specs.Prelude.{◌≡◌, None};
ghost use Rattle.futures.specs.declared.task.Poll.TheVariants.{Ready};
ghost use Rattle.engine_io.specs.Scripts.{HasGiven, IsQuiet, next_of};
ghost use Rattle.engine_io.specs.Sources.{given_some};

use super::script::Script;
use crate::network::Provider;
use broadcast_core::{PublicKey, Set};
use futures::task::{Context, Poll};

/// The sets are those that were given, and the next poll is pending if that is its result.
impl<P: PublicKey> Provider<P> for Script<Option<Set<P>>> {
    ghost told = { λ it sets. HasGiven given_some it sets };

    ghost quiet = { λ it. IsQuiet it };

    ghost ends = { λ it. next_of it.rest ≡ Ready None };

    ghost may_end = { λ it. next_of it.rest ≡ Ready None };

    // Nothing wakes who waits for more than there is.
    ghost needs = { λ _ _. ⊥ };

    fn poll_update(&mut self, cx: &mut Context<'_>) -> Poll<Option<Set<P>>> {
        self.poll(cx)
    }
}
