//! The future of a get.
ghost use Rattle.std.specs.Prelude.{◌≡◌, Option, IfOk, IfSome};
ghost use Rattle.broadcast_mailbox.specs.Asked.{GoesBy, get_output};

use crate::buffered::ingress::awaited::{Awaited, Returns};
use crate::buffered::ingress::look::Alertness;
use crate::buffered::ingress::reply::{Answering, Reply};
use broadcast_core::{Digested, Digestible};
use futures::channel::oneshot::{Canceled, Receiver};
use std::alloc::{AllocError, Global};
use std::sync::Arc;

/// A future for the cached message of a digest. Dropping it cancels the request.
///
/// It gives `None` if the message is not cached, if the request was dropped, and if the reply goes
/// by another digest.
pub type Get<M> = Awaited<M, OfGet>;

/// The kind of a get's future.
#[derive(Drop)]
pub struct OfGet;

impl<M: Digestible> Awaited<M, OfGet> {
    // Creates the future of a get of `digest`. Returns also where its reply goes.
    #[inline(always)]
    pub(super) fn open(
        alloc: Global,
        digest: M::Digest,
        taker: Option<Arc<Alertness>>,
    ) -> Result<(Answering<Option<Reply<M>>>, Self), AllocError>
        ensures digest { IfOk result (λ ends. ends.1.digest ≡ digest) }
        ensures same_channel { IfOk result (λ ends. ends.1.source ≡ ends.0) }
    {
        Awaited::create(alloc, digest, OfGet, taker)
    }
}

impl<M: Digestible> Returns<M> for OfGet {
    type Reply = Option<Reply<M>>;

    type Output = Option<Digested<M>>;

    ghost output = { get_output M.Digest.cmp };

    ghost gives = { λ digest outcome. IfSome outcome (GoesBy M.Digest.cmp digest) };

    fn output(
        digest: &M::Digest,
        received: Result<Option<Reply<M>>, Canceled>,
    ) -> Option<Digested<M>>
        ensures value { result ≡ get_output M.Digest.cmp digest.now received }
        ensures gives { IfSome result (GoesBy M.Digest.cmp digest.now) }
    {
        match received {
            Ok(Some(reply)) => {
                let Reply {
                    digest: found,
                    message,
                } = reply;
                if digest.cmp(&found).is_eq() {
                    Some(message)
                } else {
                    None
                }
            }
            Ok(None) | Err(_) => None,
        }
    }

    fn cancel(self, receiver: Receiver<Option<Reply<M>>>, _digest: M::Digest) {
        drop::<_>(receiver);
    }
}
