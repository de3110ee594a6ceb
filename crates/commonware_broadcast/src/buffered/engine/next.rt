//! The next input of the node's own sources.
ghost use Rattle.std.specs.Prelude.{◌≡◌, ℕ, Bool, true, false, List, [], ◌++◌, Err};
ghost use Rattle.futures.specs.Poll.{OnPending};
ghost use Rattle.futures.specs.Task.{IsArmed, Keeps};
ghost use Rattle.futures.specs.declared.task.Poll.TheVariants.{Ready};
ghost use Rattle.broadcast_mailbox.specs.declared.buffered.ingress.message.Message.{Message};
ghost use Rattle.broadcast_mailbox.specs.declared.buffered.ingress.message.Request.{Request};
ghost use Rattle.engine_io.specs.Sources.{given_ok};
ghost use Rattle.engine_io.specs.Inputs.{sets_in, requests_in, payloads_in};
ghost use Rattle.commonware_broadcast.specs.FirstSource.{EndsBy, UnlessPeerSet};
ghost use Rattle.engine_io.specs.Heard.{HearsAll};

use crate::buffered::engine::first::is_to_stop;
use broadcast_core::{Digestible, PublicKey};
use broadcast_mailbox::buffered::{Message, Reply, Responder};
use engine_io::{EndCause, Input, Provider, Requests};
use futures::task::{Context, Poll};

/// Returns the next peer set, or else the next request. Once there are no more peer sets, the
/// engine ends: `EndCause::PeersClosed`.
///
/// If both are missing, the poll may be pending. So it registers for a stop, unless it did before,
/// as `hears_stop` tells, and ends the engine if one was asked for meanwhile.
pub(super) fn next_input<P: PublicKey, M: Digestible, S: Responder<Reply<M>> + Drop, G: Drop, B, Q>(
    provider: &mut B,
    requests: &mut Q,
    hears_stop: bool,
    cx: &mut Context<'_>,
) -> Poll<Result<Input<P, M, S, G>, EndCause>>
where
    B: Provider<P>,
    Q: Requests<Message<P, M, S, G>>,
    requires hears_stop { hears_stop ≡ true → HearsAll cx.old (Q.needs_stop requests.old) }
    ensures sets { (before : List (List P)) → B.told provider.old before
        → B.told provider.new (before ++ sets_in (given_ok result)) }
    ensures requests { (before : List (Request (Message P M S G M.Digest)))
        → Q.told requests.old before
        → Q.told requests.new (before ++ requests_in (given_ok result)) }
    ensures outcomes { (before : List Bool) → Q.outcomes requests.old before
        → Q.outcomes requests.new before }
    ensures no_payload { payloads_in (given_ok result) ≡ [] }
    ensures ends { B.ends provider.old → result ≡ Ready (Err EndCause.PeersClosed) }
    ensures has_cause { EndsBy result ((hears_stop ≡ false) × Q.may_stop requests.old)
        (B.may_end provider.old) ⊥ }
    ensures peers_first { UnlessPeerSet result (B.quiet provider.old) }
    ensures requests_first { OnPending result (Q.quiet requests.old) }
    ensures heard_stop { OnPending result (HearsAll cx.new (Q.needs_stop requests.new)) }
    ensures heard_peers { OnPending result (HearsAll cx.new (B.needs provider.new)) }
    ensures heard_requests { OnPending result (HearsAll cx.new (Q.needs requests.new)) }
    ensures armed { OnPending result (IsArmed cx.new) }
    ensures kept { Keeps cx.old cx.new }
{
    // A provider that has no set is polled only once there is no request either.
    let hears_peers = provider.may_have_update();
    if hears_peers {
        match next_peers(provider, cx) {
            Poll::Ready(next) => return Poll::Ready(next),
            Poll::Pending => {}
        }
    }
    match requests.poll_next(cx) {
        Poll::Ready(request) => Poll::Ready(Ok(Input::Request(request))),
        Poll::Pending => listen(provider, requests, hears_stop, hears_peers, cx),
    }
}

/// Returns the next peer set. Once there are no more, the engine ends: `EndCause::PeersClosed`.
fn next_peers<P: PublicKey, M: Digestible, S, G, B: Provider<P>>(
    provider: &mut B,
    cx: &mut Context<'_>,
) -> Poll<Result<Input<P, M, S, G>, EndCause>>
    ensures sets { (before : List (List P)) → B.told provider.old before
        → B.told provider.new (before ++ sets_in (given_ok result)) }
    ensures no_request { requests_in (given_ok result) ≡ [] }
    ensures no_payload { payloads_in (given_ok result) ≡ [] }
    ensures ends { B.ends provider.old → result ≡ Ready (Err EndCause.PeersClosed) }
    ensures has_cause { EndsBy result ⊥ (B.may_end provider.old) ⊥ }
    ensures quiet { OnPending result (B.quiet provider.old) }
    ensures peers_only { UnlessPeerSet result (B.quiet provider.old) }
    ensures heard { OnPending result (HearsAll cx.new (B.needs provider.new)) }
    ensures armed { OnPending result (IsArmed cx.new) }
    ensures kept { Keeps cx.old cx.new }
{
    match provider.poll_update(cx) {
        Poll::Ready(Some(peers)) => Poll::Ready(Ok(Input::Peers(peers))),
        Poll::Ready(None) => Poll::Ready(Err(EndCause::PeersClosed)),
        Poll::Pending => Poll::Pending,
    }
}

/// Registers for a stop and for a peer set, unless the poll did so before. Returns what came
/// meanwhile.
fn listen<P: PublicKey, M: Digestible, S: Responder<Reply<M>> + Drop, G: Drop, B: Provider<P>, Q>(
    provider: &mut B,
    requests: &mut Q,
    hears_stop: bool,
    hears_peers: bool,
    cx: &mut Context<'_>,
) -> Poll<Result<Input<P, M, S, G>, EndCause>>
where
    Q: Requests<Message<P, M, S, G>>,
    requires hears_stop { hears_stop ≡ true → HearsAll cx.old (Q.needs_stop requests.old) }
    requires hears_peers { hears_peers ≡ true → HearsAll cx.old (B.needs provider.old) }
    requires armed { IsArmed cx.old }
    ensures sets { (before : List (List P)) → B.told provider.old before
        → B.told provider.new (before ++ sets_in (given_ok result)) }
    ensures tells { (before : List (Request (Message P M S G M.Digest)))
        → Q.told requests.old before → Q.told requests.new before }
    ensures outcomes { (before : List Bool) → Q.outcomes requests.old before
        → Q.outcomes requests.new before }
    ensures no_request { requests_in (given_ok result) ≡ [] }
    ensures no_payload { payloads_in (given_ok result) ≡ [] }
    ensures has_cause { EndsBy result ((hears_stop ≡ false) × Q.may_stop requests.old)
        ((hears_peers ≡ false) × B.may_end provider.old) ⊥ }
    ensures heard_stop { OnPending result (HearsAll cx.new (Q.needs_stop requests.new)) }
    ensures heard_peers { OnPending result (HearsAll cx.new (B.needs provider.new)) }
    ensures same_needs { OnPending result
        ((source : ℕ) → Q.needs requests.new source → Q.needs requests.old source) }
    ensures armed { OnPending result (IsArmed cx.new) }
    ensures kept { Keeps cx.old cx.new }
{
    if is_to_stop(requests, !hears_stop, cx) {
        return Poll::Ready(Err(EndCause::Stopped));
    }
    if hears_peers {
        return Poll::Pending;
    }
    next_peers(provider, cx)
}
