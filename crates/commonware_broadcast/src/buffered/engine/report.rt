//! The report of a started engine.
ghost use Rattle.std.specs.Prelude.{◌≡◌, ◌↔◌, false, is_err, IfOk, IfErr};
ghost use Rattle.broadcast_mailbox.specs.Account.{IsSettled};
ghost use Rattle.broadcast_mailbox.specs.Watch.{BroadcastsOnly};

use broadcast_core::PublicKey;
use broadcast_mailbox::buffered::{Account, Books, Ingress, Queueable, Settled, Tally, Watch};
use engine_io::{CannotWait, EndCause, Metrics};
use std::sync::Wait;

/// The report of a started engine.
#[derive(Drop)]
pub struct Report<P: PublicKey, Q> {
    pub(super) cause: EndCause,
    pub(super) failure: Option<CannotWait>,
    pub(super) metrics: Metrics<P>,
    pub(super) requests: Q,
}

impl<P: PublicKey, Q> Report<P, Q> {
    /// Returns why the engine ended.
    pub fn cause(&self) -> EndCause
        ensures { result ≡ self.now.cause }
    {
        self.cause
    }

    /// Returns why the thread of the engine could not wait, if it could not. Then the cause is
    /// `WaitFailed`, and the engine took no poll.
    pub fn failure(&self) -> Option<CannotWait>
        ensures { result ≡ self.now.failure }
    {
        self.failure
    }

    /// Returns the counters.
    pub fn metrics(&self) -> &Metrics<P>
        ensures { result.now ≡ self.now.metrics }
    {
        &self.metrics
    }
}

impl<P: PublicKey, T: Queueable + Drop, R: Wait + Drop, A, K, V, D> Report<
    P,
    Ingress<T, R, Books<A, K, V, D>>,
>
where
    A: Account,
    K: Account,
    V: Watch<D>,
{
    /// Tells what became of the counted requests, of which none is left. Fails only if the tally
    /// lacks a part.
    pub fn settle(self, tally: Tally<A>) -> Result<Settled, (Self, Tally<A>)>
        requires accounts { (A.all ≡ A.parts) × (K.all ≡ K.parts) }
        ensures whole { (is_err result ≡ false) ↔ (tally.parts ≡ A.parts) }
        ensures sums { IfOk result (IsSettled tally self.requests.taken self.requests.refused) }
        ensures broadcasts { IfOk result (λ settled.
            BroadcastsOnly V.watched → settled.skipped ≡ 0) }
        ensures unchanged_on_error { IfErr result (λ both. (both.0 ≡ self) × (both.1 ≡ tally)) }
    {
        let Report {
            cause,
            failure,
            metrics,
            requests,
        } = self;
        match requests.settle(tally) {
            Ok(settled) => {
                drop::<_>(metrics);
                Ok(settled)
            }
            Err((requests, tally)) => {
                let report = Report {
                    cause,
                    failure,
                    metrics,
                    requests,
                };
                Err((report, tally))
            }
        }
    }
}
