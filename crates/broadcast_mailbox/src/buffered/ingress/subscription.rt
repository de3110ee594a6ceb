//! The future of a subscribe.
ghost use Rattle.std.specs.Prelude.{◌≡◌, Result, IfOk};
ghost use Rattle.broadcast_mailbox.specs.Asked.{GoesBy, subscription_output};

use crate::buffered::ingress::awaited::{Awaited, Returns};
use crate::buffered::ingress::dropped::{Abandoned, Dropped};
use crate::buffered::ingress::look::Alertness;
use crate::buffered::ingress::reply::{Answering, Reply};
use broadcast_core::{Digested, Digestible};
use futures::channel::oneshot::{Canceled, Receiver};
use std::alloc::{AllocError, Global};
use std::sync::Arc;

/// A future for the message of a digest. Dropping it cancels the request.
///
/// It ends as canceled if the request was dropped, and if the reply goes by another digest.
pub type Subscription<M> = Awaited<M, OfSubscribe<<M as Digestible>::Digest>>;

/// The kind of a subscribe's future, whose drop the mailbox is told of.
#[derive(Drop)]
pub struct OfSubscribe<D> {
    dropped: Arc<Dropped<D>>,
}

impl<M: Digestible> Awaited<M, OfSubscribe<M::Digest>> {
    // Creates the future of a subscribe to `digest`, whose drop is told there. Returns also where
    // its reply goes.
    pub(super) fn open(
        alloc: Global,
        digest: M::Digest,
        dropped: &Arc<Dropped<M::Digest>>,
        taker: Option<Arc<Alertness>>,
    ) -> Result<(Answering<Reply<M>>, Self), AllocError>
        ensures digest { IfOk result (λ ends. ends.1.digest ≡ digest) }
        ensures same_channel { IfOk result (λ ends. ends.1.source ≡ ends.0) }
    {
        let dropped = Arc::try_clone(dropped)?;
        Awaited::create(alloc, digest, OfSubscribe { dropped }, taker)
    }
}

impl<M: Digestible> Returns<M> for OfSubscribe<M::Digest> {
    type Reply = Reply<M>;

    type Output = Result<Digested<M>, Canceled>;

    ghost output = { subscription_output M.Digest.cmp };

    ghost gives = { λ digest outcome. IfOk outcome (GoesBy M.Digest.cmp digest) };

    fn output(
        digest: &M::Digest,
        received: Result<Reply<M>, Canceled>,
    ) -> Result<Digested<M>, Canceled>
        ensures value { result ≡ subscription_output M.Digest.cmp digest.now received }
        ensures gives { IfOk result (GoesBy M.Digest.cmp digest.now) }
    {
        let Reply {
            digest: found,
            message,
        } = received?;
        if digest.cmp(&found).is_eq() {
            Ok(message)
        } else {
            Err(Canceled)
        }
    }

    /// Closes the channel, and then tells the mailbox.
    fn cancel(self, receiver: Receiver<Reply<M>>, digest: M::Digest) {
        let Self { dropped } = self;
        dropped.tell(Abandoned::close(receiver, digest));
    }
}
