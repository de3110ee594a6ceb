//! One input, applied or refused.
ghost use Rattle.std.specs.Prelude.{◌≡◌, List, [], ◌∷◌, None, false};
ghost use Rattle.broadcast_core.specs.Content.{same_by};
ghost use Rattle.broadcast_core.specs.Setting.{Setting};
ghost use Rattle.broadcast_core.specs.Happening.{History};
ghost use Rattle.broadcast_core.specs.HasContent.{HasContent};
ghost use Rattle.engine_io.specs.declared.input.Input.TheVariants.{Peers};
ghost use Rattle.engine_io.specs.declared.input.Input.TheVariants as input;
ghost use Rattle.engine_io.specs.declared.input.Turn.TheVariants as turn;
ghost use Rattle.commonware_broadcast.specs.EngineHistory.{end_told};
ghost use Rattle.engine_io.specs.Replies.{Asker};
ghost use Rattle.commonware_broadcast.specs.Order.{of_network};
ghost use Rattle.engine_io.specs.Inputs.{payloads_in};
ghost use Rattle.commonware_broadcast.specs.AppliesSteps.{AppliesAndSends};
ghost use Rattle.commonware_broadcast.specs.Interfaces.{by_responder};

use crate::buffered::engine::broadcast::handle_broadcast;
use crate::buffered::engine::handler::{
    handle_arrival, handle_get, handle_invalid, handle_peers, handle_subscribe,
};
use crate::buffered::engine::node::Node;
use broadcast_core::{Cause, Digestible, EncodeSize, PublicKey};
use broadcast_mailbox::buffered::{Message, Reply, Request, Responder};
use engine_io::{Input, Outlet, Sender, Turn};
use std::alloc::Global;

/// Applies one input. A refused input changes nothing.
pub(super) fn apply<P: PublicKey, M: Digestible + EncodeSize, S, G, O, N>(
    node: &mut Node<P, M, S, O>,
    sender: &mut N,
    alloc: Global,
    priority: bool,
    input: Input<P, M, S, G>,
) -> Turn<P, M::Digest>
where
    S: Responder<Reply<M>> + Drop,
    G: Drop,
    O: Outlet<S, G, Reply<M>, Option<Reply<M>>>,
    N: Sender<P>,
    ensures applied { (s : Setting P M M.Digest) → s.same ≡ same_by P.cmp M.Digest.cmp
        → s.encoding ≡ M.encoding → s.priority ≡ priority
        → (past : History P M M.Digest (Asker S) (Asker G)) → HasContent s past node.old.core
        → AppliesAndSends s (by_responder S.may_answer) O.told N.told past input
        result (node.old, sender.old) (node.new, sender.new) }
    ensures tells_no_end { end_told result ≡ None }
    ensures of_peers { (ps : List P) → input ≡ Peers ps → result ≡ turn.Peers }
    ensures of_request { payloads_in (input ∷ []) ≡ [] → of_network result ≡ false }
{
    match input {
        Input::Peers(peers) => {
            handle_peers(node, peers);
            Turn::Peers
        }
        Input::Request(request) => apply_request(node, sender, alloc, priority, request),
        Input::Arrived(peer, message) => handle_arrival(node, alloc, peer, message),
        Input::Invalid(peer, error) => handle_invalid(node, peer, error),
    }
}

/// Applies one request.
fn apply_request<P: PublicKey, M: Digestible + EncodeSize, S: Responder<Reply<M>> + Drop, G, O, N>(
    node: &mut Node<P, M, S, O>,
    sender: &mut N,
    alloc: Global,
    priority: bool,
    request: Request<Message<P, M, S, G>>,
) -> Turn<P, M::Digest>
where
    G: Drop,
    O: Outlet<S, G, Reply<M>, Option<Reply<M>>>,
    N: Sender<P>,
    ensures applied { (s : Setting P M M.Digest) → s.same ≡ same_by P.cmp M.Digest.cmp
        → s.encoding ≡ M.encoding → s.priority ≡ priority
        → (past : History P M M.Digest (Asker S) (Asker G)) → HasContent s past node.old.core
        → AppliesAndSends s (by_responder S.may_answer) O.told N.told past
        (input.Request request) result (node.old, sender.old) (node.new, sender.new) }
    ensures tells_no_end { end_told result ≡ None }
    ensures of_request { of_network result ≡ false }
{
    let Request {
        ticket,
        message,
        counted: _,
    } = request;
    match message {
        Message::Broadcast {
            recipients,
            message,
        } => handle_broadcast(node, sender, alloc, priority, recipients, message),
        Message::Subscribe { digest, responder } => {
            match handle_subscribe(node, ticket, responder, digest) {
                Ok(()) => Turn::Subscribe,
                Err(_) => Turn::Refused(None, Cause::Memory),
            }
        }
        Message::Get { digest, responder } => match handle_get(node, ticket, responder, digest) {
            Ok(()) => Turn::Get,
            Err(_) => Turn::Refused(None, Cause::Memory),
        },
    }
}
