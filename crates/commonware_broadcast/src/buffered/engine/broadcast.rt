//! Messages of the node itself.
ghost use Rattle.std.specs.Prelude.{◌≡◌, ℕ, Bool, false, None};
ghost use Rattle.broadcast_core.specs.Content.{same_by};
ghost use Rattle.broadcast_core.specs.Setting.{Setting};
ghost use Rattle.broadcast_core.specs.Happening.{History};
ghost use Rattle.broadcast_core.specs.HasContent.{HasContent};
ghost use Rattle.broadcast_mailbox.specs.declared.buffered.ingress.message.Message.TheVariants as request;
ghost use Rattle.commonware_broadcast.specs.EngineHistory.{end_told};
ghost use Rattle.engine_io.specs.Replies.{Asker};
ghost use Rattle.commonware_broadcast.specs.Order.{of_network};
ghost use Rattle.commonware_broadcast.specs.AppliesSteps.{AppliesAndSends};
ghost use Rattle.commonware_broadcast.specs.CountingCalls.{requested};
ghost use Rattle.commonware_broadcast.specs.Interfaces.{by_responder};

use crate::buffered::engine::node::Node;
use crate::buffered::engine::take::take_own;
use broadcast_core::{Cause, Digested, Digestible, EncodeSize, PublicKey, Recipients};
use broadcast_mailbox::buffered::{Reply, Responder};
use engine_io::{Outlet, Sender, Turn};
use std::alloc::Global;

/// Encodes the message, then takes it under the node's own key, then hands its encoding to the
/// sender. A refused message changes nothing and is not sent.
pub(super) fn handle_broadcast<P: PublicKey, M: Digestible + EncodeSize, S, G, O, N>(
    node: &mut Node<P, M, S, O>,
    sender: &mut N,
    alloc: Global,
    priority: bool,
    recipients: Recipients<P>,
    message: Digested<M>,
) -> Turn<P, M::Digest>
where
    S: Responder<Reply<M>> + Drop,
    O: Outlet<S, G, Reply<M>, Option<Reply<M>>>,
    N: Sender<P>,
    ensures applied { (s : Setting P M M.Digest) → s.same ≡ same_by P.cmp M.Digest.cmp
        → s.encoding ≡ M.encoding → s.priority ≡ priority
        → (past : History P M M.Digest (Asker S) (Asker G)) → HasContent s past node.old.core
        → (ticket : ℕ) (counted : Bool)
        → AppliesAndSends s (by_responder S.may_answer) O.told N.told past
        (requested ticket counted (request.Broadcast recipients message))
        result (node.old, sender.old) (node.new, sender.new) }
    ensures tells_no_end { end_told result ≡ None }
    ensures of_request { of_network result ≡ false }
{
    let bytes = match message.encode(alloc) {
        Ok(bytes) => bytes,
        Err(cause) => return Turn::Refused(None, cause),
    };
    match take_own(node, alloc, &message) {
        Ok(outcome) => {
            sender.send(recipients, bytes, priority);
            Turn::Broadcast(message.digest(), outcome)
        }
        Err(_) => Turn::Refused(None, Cause::Memory),
    }
}
