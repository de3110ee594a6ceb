//! A strategy whose jobs take some polls.
ghost use Rattle.std.specs.Prelude.{◌≡◌};

use crate::{Job, Strategy};
use broadcast_core::Digestible;
use futures::task::{Context, Poll};
use std::alloc::AllocError;

/// Starts jobs that are pending for a number of polls.
#[derive(Clone, Copy)]
pub struct Slow {
    /// How often each job is pending.
    pub polls: u64,
}

/// A job that is pending for a number of polls.
#[derive(Drop)]
pub struct SlowJob<M: Digestible> {
    left: u64,
    message: Option<(M, M::Digest)>,
}

impl<M: Digestible> Strategy<M> for Slow {
    type Job = SlowJob<M>;

    fn start(&self, message: M) -> Result<SlowJob<M>, AllocError> {
        let digest = message.digest();
        Ok(SlowJob {
            left: self.polls,
            message: Some((message, digest)),
        })
    }
}

impl<M: Digestible> Job<M> for SlowJob<M> {
    ghost use Rattle.digest_strategies.specs.Jobs.{HoldsDigested};

    ghost is_of = { λ job m. HoldsDigested M.digest_of m job.message };

    // A pending poll asks for another one.
    ghost needs = { λ _ _. ⊥ };

    /// Returns the message after the number of pending polls. Polls after that are pending.
    fn poll(&mut self, cx: &mut Context<'_>) -> Poll<(M, M::Digest)> {
        if self.left > 0 {
            self.left -= 1;
            return cx.yield_now();
        }
        match self.message.take() {
            Some(message) => Poll::Ready(message),
            None => cx.yield_now(),
        }
    }
}
