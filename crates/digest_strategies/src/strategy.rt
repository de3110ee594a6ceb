//! Strategies that digest messages.
ghost use Rattle.std.specs.Prelude.{◌≡◌, ℕ, Some, IfOk};
ghost use Rattle.futures.specs.declared.task.Poll.TheVariants.{Ready};
ghost use Rattle.digest_strategies.specs.Jobs.{HoldsDigested};
ghost use Rattle.futures.specs.Poll.{IfReady, OnPending};
ghost use Rattle.futures.specs.Task.{IsArmed, Keeps};
ghost use Rattle.digest_strategies.specs.Heard.{HearsAll};

use broadcast_core::Digestible;
use futures::task::{Context, Poll};
use std::alloc::AllocError;

/// Computes the digest of one message.
pub trait Job<M: Digestible> {
    /// Whether this may be the message of the job. Of a job that has given its message, none is.
    ghost is_of: { Self → M → Type 0 };

    /// Holds of each source that wakes who waits for the digest: of none if a pending poll always
    /// asks for another one.
    ghost needs: { Self → ℕ → Type 0 };

    /// Returns the message with its own digest once that is computed.
    fn poll(&mut self, cx: &mut Context<'_>) -> Poll<(M, M::Digest)>
        ensures stays { OnPending result ((m : M) → is_of self.old m → is_of self.new m) }
        ensures digested { (m : M) → is_of self.old m
            → IfReady result (λ out. (out.0 ≡ m) × (out.1 ≡ M.digest_of m)) }
        ensures heard { OnPending result (HearsAll cx.new (needs self.new)) }
        ensures armed { OnPending result (IsArmed cx.new) }
        ensures kept { Keeps cx.old cx.new };
}

/// Starts the jobs that digest messages.
pub trait Strategy<M: Digestible> {
    /// A job that was started.
    type Job: Job<M> + Drop;

    /// Starts to digest the message.
    fn start(&self, message: M) -> Result<Self::Job, AllocError>
        ensures { IfOk result (λ job. Self.Job.is_of job message) };
}

/// Digests each message where its job is started.
#[derive(Clone, Copy, Debug, PartialEq, Eq)]
pub struct Sequential;

/// The job of a message that is digested.
#[derive(Drop)]
pub struct Done<M: Digestible> {
    message: Option<(M, M::Digest)>,
}

impl<M: Digestible> Strategy<M> for Sequential {
    type Job = Done<M>;

    fn start(&self, message: M) -> Result<Done<M>, AllocError>
        ensures of_message { IfOk result (λ job. HoldsDigested M.digest_of message job.message) }
        ensures at_once { IfOk result (λ job. job.message ≡ Some (message, M.digest_of message)) }
    {
        let digest = message.digest();
        Ok(Done {
            message: Some((message, digest)),
        })
    }
}

impl<M: Digestible> Job<M> for Done<M> {
    ghost use Rattle.digest_strategies.specs.Jobs.{HoldsDigested};

    ghost is_of = { λ job m. HoldsDigested M.digest_of m job.message };

    // A pending poll asks for another one.
    ghost needs = { λ _ _. ⊥ };

    /// Returns the message. Later polls are pending.
    fn poll(&mut self, cx: &mut Context<'_>) -> Poll<(M, M::Digest)>
        ensures stays { OnPending result ((m : M) → HoldsDigested M.digest_of m self.old.message
            → HoldsDigested M.digest_of m self.new.message) }
        ensures digested { (m : M) → HoldsDigested M.digest_of m self.old.message
            → IfReady result (λ out. (out.0 ≡ m) × (out.1 ≡ M.digest_of m)) }
        ensures at_once { (out : M × M.Digest) → self.old.message ≡ Some out → result ≡ Ready out }
        ensures armed { OnPending result (IsArmed cx.new) }
        ensures kept { Keeps cx.old cx.new }
    {
        match self.message.take() {
            Some(message) => Poll::Ready(message),
            None => cx.yield_now(),
        }
    }
}
