//! One input.
ghost use Rattle.std.specs.Prelude.{◌≡◌, ℕ, Bool, true, List, [], None, is_some, OnOk, OnErr};
ghost use Rattle.broadcast_core.specs.Carried.{Carried};
ghost use Rattle.broadcast_core.specs.Content.{same_by, message_at};
ghost use Rattle.broadcast_core.specs.Setting.{Setting};
ghost use Rattle.broadcast_core.specs.Happening.{History};
ghost use Rattle.broadcast_core.specs.HasContent.{HasContent};
ghost use Rattle.broadcast_core.specs.Cleaned.{HasCleaned};
ghost use Rattle.broadcast_mailbox.specs.declared.buffered.ingress.message.Message.TheVariants as request;
ghost use Rattle.engine_io.specs.declared.input.EndCause.{EndCause};
ghost use Rattle.engine_io.specs.declared.input.Input.TheVariants as input;
ghost use Rattle.engine_io.specs.Replies.{Asker, Replied, Replies};
ghost use Rattle.commonware_broadcast.specs.EngineHistory.{applied, swept, ended, end_told};
ghost use Rattle.commonware_broadcast.specs.CountingCalls.{AppliesStep, count_outcome, requested};
ghost use Rattle.commonware_broadcast.specs.AppliesSteps.{AppliesInput};
ghost use Rattle.commonware_broadcast.specs.Interfaces.{by_responder};

use crate::buffered::engine::closed::Closed;
use crate::buffered::engine::node::Node;
use crate::buffered::engine::take::take;
use broadcast_core::{
    Cause, CodecError, Core, Digested, Digestible, EncodeSize, Outcome, PublicKey, Set, Subscribed,
};
use broadcast_mailbox::buffered::{Message, Reply, Responder};
use engine_io::{Metrics, Outlet, Requests, Status, Turn, Waiter, respond_get, respond_subscribe};
use std::alloc::{AllocError, Global};

/// Replaces the primary peers.
pub(super) fn handle_peers<P, M, S, G, O>(node: &mut Node<P, M, S, O>, peers: Set<P>)
where
    P: PublicKey,
    M: Digestible,
    S: Responder<Reply<M>> + Drop,
    O: Outlet<S, G, Reply<M>, Option<Reply<M>>>,
    ensures { (s : Setting P M M.Digest) → s.same ≡ same_by P.cmp M.Digest.cmp
        → (past : History P M M.Digest (Asker S) (Asker G)) → HasContent s past node.old.core
        → AppliesStep s (by_responder S.may_answer) O.told past
        (applied (input.Peers peers) []) node.old node.new }
{
    node.core.update_primary_peers(peers);
}

/// Takes a message of a peer, or refuses it if an allocation fails: then nothing has changed.
// Inlined as `Engine::poll_job` is.
#[inline(always)]
pub(super) fn handle_arrival<P: PublicKey, M: Digestible + EncodeSize, S, G, O>(
    node: &mut Node<P, M, S, O>,
    alloc: Global,
    peer: P,
    message: Digested<M>,
) -> Turn<P, M::Digest>
where
    S: Responder<Reply<M>> + Drop,
    O: Outlet<S, G, Reply<M>, Option<Reply<M>>>,
    ensures handled { (s : Setting P M M.Digest) → s.same ≡ same_by P.cmp M.Digest.cmp
        → s.encoding ≡ M.encoding
        → (past : History P M M.Digest (Asker S) (Asker G)) → HasContent s past node.old.core
        → AppliesInput s (by_responder S.may_answer) O.told past
        (input.Arrived peer message) result node.old node.new }
    ensures counts_no_payload { node.new.metrics.peer ≡ node.old.metrics.peer }
    ensures tells_no_end { end_told result ≡ None }
{
    match take(node, alloc, &peer, &message) {
        Ok(outcome) => {
            count_received(&mut node.metrics, outcome);
            Turn::Payload(peer, message.digest(), outcome)
        }
        Err(_) => Turn::Refused(Some(peer), Cause::Memory),
    }
}

/// Counts a payload of a peer that is no message.
pub(super) fn handle_invalid<P: PublicKey, M: Digestible, S: Responder<Reply<M>> + Drop, G, O>(
    node: &mut Node<P, M, S, O>,
    peer: P,
    error: CodecError,
) -> Turn<P, M::Digest>
where
    O: Outlet<S, G, Reply<M>, Option<Reply<M>>>,
    ensures handled { (s : Setting P M M.Digest) → s.same ≡ same_by P.cmp M.Digest.cmp
        → (past : History P M M.Digest (Asker S) (Asker G)) → HasContent s past node.old.core
        → AppliesInput s (by_responder S.may_answer) O.told past
        (input.Invalid peer error) result node.old node.new }
    ensures tells_no_end { end_told result ≡ None }
{
    node.metrics.count_receive(Status::Invalid);
    Turn::Invalid(peer, error)
}

/// Answers a subscribe from the cache, or lets it wait. After an allocation failure nothing has
/// changed, and the responder is dropped.
pub(super) fn handle_subscribe<P: PublicKey, M: Digestible, S: Responder<Reply<M>> + Drop, G, O>(
    node: &mut Node<P, M, S, O>,
    ticket: u64,
    responder: S,
    digest: M::Digest,
) -> Result<(), AllocError>
where
    O: Outlet<S, G, Reply<M>, Option<Reply<M>>>,
    ensures steps { OnOk result ((replies : Replies S G M M.Digest)
        × ((s : Setting P M M.Digest) → s.same ≡ same_by P.cmp M.Digest.cmp
        → (past : History P M M.Digest (Asker S) (Asker G)) → HasContent s past node.old.core
        → (counted : Bool) → AppliesStep s (by_responder S.may_answer) O.told past
        (applied (requested ticket counted (request.Subscribe digest responder)) replies)
        node.old node.new)) }
    ensures unchanged_on_error { OnErr result (node.new ≡ node.old) }
{
    match node.core.subscribe(digest, Waiter::new(ticket, responder)) {
        Ok(Subscribed::Answered(waiter, message)) => {
            respond_subscribe(&mut node.metrics, &mut node.outlet, waiter, message);
            Ok(())
        }
        Ok(Subscribed::Waiting) => Ok(()),
        Err(_) => Err(AllocError),
    }
}

/// Answers a get from the cache. After an allocation failure nothing has changed, and the responder
/// is dropped.
pub(super) fn handle_get<P: PublicKey, M: Digestible, S: Responder<Reply<M>> + Drop, G: Drop, O>(
    node: &mut Node<P, M, S, O>,
    ticket: u64,
    responder: G,
    digest: M::Digest,
) -> Result<(), AllocError>
where
    O: Outlet<S, G, Reply<M>, Option<Reply<M>>>,
    ensures steps { OnOk result ((replies : Replies S G M M.Digest)
        × ((s : Setting P M M.Digest) → s.same ≡ same_by P.cmp M.Digest.cmp
        → (past : History P M M.Digest (Asker S) (Asker G)) → HasContent s past node.old.core
        → (counted : Bool) → AppliesStep s (by_responder S.may_answer) O.told past
        (applied (requested ticket counted (request.Get digest responder)) replies)
        node.old node.new)) }
    ensures unchanged_on_error { OnErr result (node.new ≡ node.old) }
    ensures fails_only_if_cached { OnErr result
        (is_some (message_at (same_by P.cmp M.Digest.cmp) node.old.core digest) ≡ true) }
{
    let found = match node.core.get(&digest) {
        Some(message) => Some(message.clone()?),
        None => None,
    };
    respond_get(
        &mut node.metrics,
        &mut node.outlet,
        ticket,
        responder,
        found,
    );
    Ok(())
}

/// Counts a message of a peer by its outcome.
fn count_received<P: PublicKey>(metrics: &mut Metrics<P>, outcome: Outcome)
    ensures { metrics.new
        ≡ record metrics.old { totals = count_outcome outcome metrics.old.totals } }
{
    match outcome {
        Outcome::Inserted => metrics.count_receive(Status::Success),
        Outcome::Duplicate | Outcome::Ineligible | Outcome::Oversize => {
            metrics.count_receive(Status::Dropped)
        }
    }
}

/// Drops the waiters that answer closed, counts them, and sets the gauge. Does not allocate.
pub(super) fn cleanup_waiters<P: PublicKey, M: Digestible, S: Responder<Reply<M>> + Drop, G, O, Q>(
    node: &mut Node<P, M, S, O>,
    requests: &mut Q,
    closed: &mut Closed<M>,
)
where
    O: Outlet<S, G, Reply<M>, Option<Reply<M>>>,
    Q: Requests<Message<P, M, S, G>>,
    ensures swept { (s : Setting P M M.Digest) → s.same ≡ same_by P.cmp M.Digest.cmp
        → (past : History P M M.Digest (Asker S) (Asker G)) → HasContent s past node.old.core
        → (test : ℕ → Asker S → Bool)
        × AppliesStep s (by_responder S.may_answer) O.told past (swept test)
        node.old node.new }
    ensures same { requests.new ≡ requests.old }
{
    let dropped = drop_closed(&mut node.core, requests, closed);
    node.metrics.count_subscribe(Status::Dropped, dropped);
    node.metrics.set_waiters(node.core.awaited() as u64);
    closed.forget(&node.core);
}

/// Drops the waiters that answer closed, and returns how many. Asks those of the digests that the
/// requests name, and of those of which they tell nothing. Asks each one if either can't tell.
fn drop_closed<P: PublicKey, M: Digestible, S: Responder<Reply<M>> + Drop, G, Q>(
    core: &mut Core<P, M, Waiter<M, S>>,
    requests: &mut Q,
    closed: &mut Closed<M>,
) -> u64
where
    Q: Requests<Message<P, M, S, G>>,
    ensures cleaned { (s : Setting P M M.Digest) → s.same ≡ same_by P.cmp M.Digest.cmp
        → (past : History P M M.Digest (Asker S) (Asker G)) → HasContent s past core.old
        → HasCleaned s (by_responder S.may_answer) past core.new result }
    ensures same { requests.new ≡ requests.old }
{
    if requests.take_closed(&mut closed.digests) {
        return core.cleanup_by();
    }
    if closed.add_applied() {
        return core.cleanup_by();
    }
    core.cleanup_each(closed.digests.as_slice())
}

/// Drops all waiters, and counts none. Does not allocate.
pub(super) fn drop_waiters<P: PublicKey, M: Digestible, S, G, O>(node: &mut Node<P, M, S, O>)
where
    S: Responder<Reply<M>> + Drop,
    O: Outlet<S, G, Reply<M>, Option<Reply<M>>>,
    ensures ended { (s : Setting P M M.Digest) → s.same ≡ same_by P.cmp M.Digest.cmp
        → (past : History P M M.Digest (Asker S) (Asker G)) → HasContent s past node.old.core
        → (cause : EndCause)
        → AppliesStep s (by_responder S.may_answer) O.told past (ended cause)
        node.old node.new }
    ensures counts_none { node.new.metrics ≡ node.old.metrics }
{
    node.core.clear_waiters();
}
