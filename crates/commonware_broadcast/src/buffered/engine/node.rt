//! The part of an engine that its inputs change.
ghost use Rattle.std.specs.Prelude.{◌≡◌};

use broadcast_core::{Core, Digestible, PublicKey};
use engine_io::{Metrics, Waiter};

/// What the inputs of an engine change, besides the sender.
#[derive(Drop)]
pub(crate) struct Node<P: PublicKey, M: Digestible, S, O> {
    pub(crate) core: Core<P, M, Waiter<M, S>>,
    pub(crate) metrics: Metrics<P>,
    pub(crate) outlet: O,
}

impl<P: PublicKey, M: Digestible, S: Drop, O: Drop> Node<P, M, S, O> {
    /// Takes the counters, and drops the rest.
    pub(super) fn into_metrics(self) -> Metrics<P>
        ensures { result ≡ self.metrics }
    {
        let Node {
            core,
            metrics,
            outlet,
        } = self;
        drop::<_>(core);
        drop::<_>(outlet);
        metrics
    }
}
