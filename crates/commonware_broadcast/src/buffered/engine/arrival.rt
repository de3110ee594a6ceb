//! A payload of a peer, and the job of its message.
ghost use Rattle.std.specs.Prelude.{◌≡◌, List, None, Some, Ok, true, IfOk, IsOk, OnOk, OnErr};
ghost use Rattle.std.specs.Ordering.{eq_by_cmp};
ghost use Rattle.futures.specs.Poll.{IfReady, OnPending};
ghost use Rattle.futures.specs.Task.{IsArmed, Keeps};
ghost use Rattle.broadcast_core.specs.Content.{same_by};
ghost use Rattle.broadcast_core.specs.Setting.{Setting};
ghost use Rattle.broadcast_core.specs.Happening.{History};
ghost use Rattle.broadcast_core.specs.HasContent.{HasContent};
ghost use Rattle.engine_io.specs.Counters.{has_count};
ghost use Rattle.engine_io.specs.declared.input.Input.TheVariants as input;
ghost use Rattle.engine_io.specs.declared.input.Turn.TheVariants as turn;
ghost use Rattle.engine_io.specs.Heard.{HearsJob};
ghost use Rattle.engine_io.specs.Replies.{Asker};
ghost use Rattle.commonware_broadcast.specs.AppliesSteps.{AppliesInput};
ghost use Rattle.commonware_broadcast.specs.Arrives.{AlwaysArrives, CountsOne, payload_of, message_of, end_in};
ghost use Rattle.commonware_broadcast.specs.EngineHistory.{end_told};
ghost use Rattle.commonware_broadcast.specs.Interfaces.{by_responder, format_of};

use crate::buffered::engine::handler::{handle_arrival, handle_invalid};
use crate::buffered::engine::node::Node;
use crate::buffered::engine::state::Engine;
use broadcast_core::{
    Cause, Codec, CodecError, Digested, Digestible, EncodeSize, PublicKey, decode_cfg,
};
use broadcast_mailbox::buffered::{Reply, Responder};
use digest_strategies::{Job, Strategy};
use engine_io::{Metrics, Outlet, Turn};
use futures::task::{Context, Poll};
use std::alloc::{AllocError, Global};

impl<P: PublicKey, M: Digestible + Codec, S, O, B, Q, T: Strategy<M>> Engine<P, M, S, O, B, Q, T> {
    /// Decodes a payload of `peer`, and starts the job of its message. A payload that is no
    /// message is counted as invalid.
    pub(super) fn receive<G>(
        &mut self,
        alloc: Global,
        cx: &mut Context<'_>,
        peer: P,
        bytes: &[u8],
    ) -> Poll<Turn<P, M::Digest>>
    where
        S: Responder<Reply<M>> + Drop,
        O: Outlet<S, G, Reply<M>, Option<Reply<M>>>,
        requires idle { self.old.job ≡ None }
        ensures arrives { AlwaysArrives
            (format_of P.cmp M.Digest.cmp M.encoding M.digest_of M.reading)
            (by_responder S.may_answer) T.Job.is_of O.told
            (λ s. payload_of peer (s.reading bytes.now)) self.old self.new result }
        ensures idle_if_ready { IfReady result (λ turn. self.new.job ≡ None) }
        ensures held_if_pending { OnPending result (self.new.job ≡ None → ⊥) }
        ensures tells_no_end { end_in result ≡ None }
        ensures heard_job { OnPending result (HearsJob T.Job.needs cx.new self.new.job) }
        ensures armed { OnPending result (IsArmed cx.new) }
        ensures kept { Keeps cx.old cx.new }
        ensures keeps_all_else { self.new ≡ record self.old {
          node = self.new.node;
          job = self.new.job;
        } }
    {
        match decode_cfg(alloc, bytes, &self.codec_config) {
            Ok(message) => self.start_job::<G>(alloc, cx, peer, message),
            Err(error) => Poll::Ready(refuse(&mut self.node, peer, error)),
        }
    }

    /// Counts a message of `peer` that was decoded, starts its job, and polls it. If the message
    /// can't be counted, or its job not started, the message is refused. If `peer` was counted
    /// before, the message is counted in any case.
    fn start_job<G>(
        &mut self,
        alloc: Global,
        cx: &mut Context<'_>,
        peer: P,
        message: M,
    ) -> Poll<Turn<P, M::Digest>>
    where
        S: Responder<Reply<M>> + Drop,
        O: Outlet<S, G, Reply<M>, Option<Reply<M>>>,
        requires idle { self.old.job ≡ None }
        ensures arrives { AlwaysArrives
            (format_of P.cmp M.Digest.cmp M.encoding M.digest_of M.reading)
            (by_responder S.may_answer) T.Job.is_of O.told
            (λ s. payload_of peer (Ok message)) self.old self.new result }
        ensures counted_before_its_job { has_count (eq_by_cmp P.cmp) peer
            self.old.node.metrics.peer ≡ true → CountsOne (eq_by_cmp P.cmp) peer
            self.old.node.metrics.peer self.new.node.metrics.peer }
        ensures idle_if_ready { IfReady result (λ turn. self.new.job ≡ None) }
        ensures held_if_pending { OnPending result (self.new.job ≡ None → ⊥) }
        ensures tells_no_end { end_in result ≡ None }
        ensures heard_job { OnPending result (HearsJob T.Job.needs cx.new self.new.job) }
        ensures armed { OnPending result (IsArmed cx.new) }
        ensures kept { Keeps cx.old cx.new }
        ensures keeps_all_else { self.new ≡ record self.old {
          node = self.new.node;
          job = self.new.job;
        } }
    {
        let metrics = &mut self.node.metrics;
        let Ok(started) = count_and_start(metrics, &self.strategy, &peer, message) else {
            return Poll::Ready(Turn::Refused(Some(peer), Cause::Memory));
        };
        match started {
            Ok(job) => self.poll_job::<G>(alloc, cx, peer, job),
            Err(_) => Poll::Ready(Turn::Refused(Some(peer), Cause::Memory)),
        }
    }

    /// Polls the job of a message of `peer`. A pending job is kept. The message of a ready one is
    /// taken.
    // Inlined with what it calls, so that a turn is not copied by each of them.
    #[inline(always)]
    pub(super) fn poll_job<G>(
        &mut self,
        alloc: Global,
        cx: &mut Context<'_>,
        peer: P,
        mut job: T::Job,
    ) -> Poll<Turn<P, M::Digest>>
    where
        S: Responder<Reply<M>> + Drop,
        O: Outlet<S, G, Reply<M>, Option<Reply<M>>>,
        requires idle { self.old.job ≡ None }
        ensures arrives { (m : M) → T.Job.is_of job m → AlwaysArrives
            (format_of P.cmp M.Digest.cmp M.encoding M.digest_of M.reading)
            (by_responder S.may_answer) T.Job.is_of O.told
            (λ s. message_of peer m) self.old self.new result }
        ensures counts_no_payload { self.new.node.metrics.peer ≡ self.old.node.metrics.peer }
        ensures idle_if_ready { IfReady result (λ turn. self.new.job ≡ None) }
        ensures held_if_pending { OnPending result (self.new.job ≡ None → ⊥) }
        ensures tells_no_end { end_in result ≡ None }
        ensures heard_job { OnPending result (HearsJob T.Job.needs cx.new self.new.job) }
        ensures armed { OnPending result (IsArmed cx.new) }
        ensures kept { Keeps cx.old cx.new }
        ensures keeps_all_else { self.new ≡ record self.old {
          node = self.new.node;
          job = self.new.job;
        } }
    {
        match job.poll(cx) {
            Poll::Pending => {
                self.job = Some((peer, job));
                Poll::Pending
            }
            Poll::Ready((message, digest)) => {
                Poll::Ready(arrive(&mut self.node, alloc, peer, message, digest))
            }
        }
    }
}

/// Counts a message of `peer` that was decoded, and then starts its job. After the outer error
/// nothing is counted. The count of a message whose job is refused stays.
fn count_and_start<P: PublicKey, M: Digestible, T: Strategy<M>>(
    metrics: &mut Metrics<P>,
    strategy: &T,
    peer: &P,
    message: M,
) -> Result<Result<T::Job, AllocError>, AllocError>
    ensures counts_one { OnOk result
        (CountsOne (eq_by_cmp P.cmp) peer.now metrics.old.peer metrics.new.peer) }
    ensures totals_stay { metrics.new.totals ≡ metrics.old.totals }
    ensures succeeds_if_counted_before { has_count (eq_by_cmp P.cmp) peer.now metrics.old.peer
        ≡ true → IsOk result }
    ensures unchanged_on_error { OnErr result (metrics.new ≡ metrics.old) }
    ensures of_message { IfOk result (λ started. IfOk started (λ job. T.Job.is_of job message)) }
{
    let Ok(()) = metrics.count_peer(peer) else {
        return Err(AllocError);
    };
    Ok(strategy.start(message))
}

/// Counts a payload of `peer` that is no message, or refuses one for which there is no memory.
fn refuse<P: PublicKey, M: Digestible, S: Responder<Reply<M>> + Drop, G, O>(
    node: &mut Node<P, M, S, O>,
    peer: P,
    error: CodecError,
) -> Turn<P, M::Digest>
where
    O: Outlet<S, G, Reply<M>, Option<Reply<M>>>,
    ensures memory { error ≡ CodecError.Memory
        → (result ≡ turn.Refused (Some peer) Cause.Memory) × (node.new ≡ node.old) }
    ensures invalid { (error ≡ CodecError.Memory → ⊥)
        → (s : Setting P M M.Digest) → s.same ≡ same_by P.cmp M.Digest.cmp
        → (past : History P M M.Digest (Asker S) (Asker G)) → HasContent s past node.old.core
        → AppliesInput s (by_responder S.may_answer) O.told past
        (input.Invalid peer error) result node.old node.new }
    ensures tells_no_end { end_told result ≡ None }
{
    match error {
        CodecError::Memory => Turn::Refused(Some(peer), Cause::Memory),
        _ => handle_invalid(node, peer, error),
    }
}

/// Takes a message of `peer` that has this digest.
// Inlined as `poll_job` is.
#[inline(always)]
fn arrive<P: PublicKey, M: Digestible + EncodeSize, S: Responder<Reply<M>> + Drop, G, O>(
    node: &mut Node<P, M, S, O>,
    alloc: Global,
    peer: P,
    message: M,
    digest: M::Digest,
) -> Turn<P, M::Digest>
where
    O: Outlet<S, G, Reply<M>, Option<Reply<M>>>,
    ensures handled { (s : Setting P M M.Digest) → s.same ≡ same_by P.cmp M.Digest.cmp
        → s.encoding ≡ M.encoding
        → (past : History P M M.Digest (Asker S) (Asker G)) → HasContent s past node.old.core
        → AppliesInput s (by_responder S.may_answer) O.told past
        (input.Arrived peer (record { message = message; digest = digest }))
        result node.old node.new }
    ensures counts_no_payload { node.new.metrics.peer ≡ node.old.metrics.peer }
    ensures tells_no_end { end_told result ≡ None }
{
    match Digested::precomputed(alloc, message, digest) {
        Ok(message) => handle_arrival(node, alloc, peer, message),
        Err(_) => Turn::Refused(Some(peer), Cause::Memory),
    }
}
