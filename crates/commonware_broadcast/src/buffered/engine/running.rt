//! An engine that runs until it ends.
ghost use Rattle.std.specs.Prelude.{◌≡◌, Some, IfSome, IsSomeAnd};
ghost use Rattle.futures.specs.Poll.{IfReady, OnPending};
ghost use Rattle.futures.specs.Task.{IsArmed, Keeps};
ghost use Rattle.commonware_broadcast.specs.EngineHistory.{end_told};
ghost use Rattle.commonware_broadcast.specs.Runs.{SomePolls, PollsToEnd, IsRun};
ghost use Rattle.commonware_broadcast.specs.EngineState.{moment};
ghost use Rattle.commonware_broadcast.specs.Interfaces.{format_of, over};

use crate::buffered::engine::report::Report;
use crate::buffered::engine::state::Engine;
use broadcast_core::{Codec, Digestible, PublicKey};
use broadcast_mailbox::buffered::{Message, Reply, Responder};
use digest_strategies::Strategy;
use engine_io::{
    CannotWait, EndCause, Outlet, Provider, Receiver, Requests, Seat, Sender, Snapshots, Turn,
};
use futures::Future;
use futures::future::{PollFn, poll_fn};
use futures::task::{Context, Poll};
use std::alloc::{AllocGlobal, Global};
use std::random::RandomSource;
use std::sync::Wait;
use std::time::Clock;

/// The turns that a poll takes at most before it lets other tasks run.
const TURNS: u64 = 128;

/// An engine with its network. It moves to the thread that runs it.
#[derive(Drop)]
pub(crate) struct Running<P: PublicKey, M: Digestible + Codec, S, O, B, Q, T: Strategy<M>, N, V> {
    pub(crate) engine: Engine<P, M, S, O, B, Q, T>,
    pub(crate) network: (N, V),
}

impl<P, M, S, O, B, Q, T, N, V> Running<P, M, S, O, B, Q, T, N, V>
where
    P: PublicKey,
    M: Digestible + Codec,
    M::Cfg: Drop,
    S: Responder<Reply<M>> + Drop,
    B: Provider<P> + Drop,
    T: Strategy<M> + Drop,
    N: Sender<P> + Drop,
    V: Receiver<P> + Drop,
{
    /// Polls the engine until it ends or is pending.
    fn poll_turns<G>(&mut self, alloc: Global, cx: &mut Context<'_>) -> Poll<EndCause>
    where
        G: Drop,
        O: Outlet<S, G, Reply<M>, Option<Reply<M>>>,
        Q: Requests<Message<P, M, S, G>>,
        ensures took { SomePolls (format_of P.cmp M.Digest.cmp M.encoding M.digest_of M.reading)
            (over S.may_answer T.Job.is_of O.Outlet N.Sender V.Receiver B.Provider Q.Requests)
            (moment self.old.engine self.old.network)
            (moment self.new.engine self.new.network) }
        ensures ended { IfReady result (λ cause. self.new.engine.end ≡ Some cause) }
        ensures armed { OnPending result (IsArmed cx.new) }
        ensures kept { Keeps cx.old cx.new }
    {
        for _ in 0..TURNS {
            match self.engine.poll::<G, N, V>(alloc, cx, &mut self.network) {
                Poll::Ready(turn) => {
                    if let Some(cause) = end_told(&turn) {
                        return Poll::Ready(cause);
                    }
                }
                Poll::Pending => return Poll::Pending,
            }
        }
        cx.yield_now()
    }

    /// Polls the engine as `poll_turns` does, after those who asked for its counters were answered.
    fn poll_asked<G, R>(
        &mut self,
        rt: &R,
        snapshots: &Snapshots<P>,
        cx: &mut Context<'_>,
    ) -> Poll<EndCause>
    where
        G: Drop,
        O: Outlet<S, G, Reply<M>, Option<Reply<M>>>,
        Q: Requests<Message<P, M, S, G>>,
        R: Wait + Clock + AllocGlobal,
        ensures took { SomePolls (format_of P.cmp M.Digest.cmp M.encoding M.digest_of M.reading)
            (over S.may_answer T.Job.is_of O.Outlet N.Sender V.Receiver B.Provider Q.Requests)
            (moment self.old.engine self.old.network)
            (moment self.new.engine self.new.network) }
        ensures ended { IfReady result (λ cause. self.new.engine.end ≡ Some cause) }
        ensures armed { OnPending result (IsArmed cx.new) }
        ensures kept { Keeps cx.old cx.new }
    {
        let alloc = rt.alloc();
        snapshots.answer_asked(rt, alloc, self.engine.metrics(), cx);
        match self.poll_turns::<G>(alloc, cx) {
            Poll::Ready(end) => Poll::Ready(end),
            Poll::Pending => {
                let is_asked = self.engine.requests().look(rt);
                if is_asked {
                    cx.yield_now()
                } else {
                    Poll::Pending
                }
            }
        }
    }

    /// Polls the engine as `poll_asked` does, and takes it once a poll is ready.
    fn poll_to_end<G, R>(
        running: &mut Option<Box<Self>>,
        rt: &R,
        snapshots: &Snapshots<P>,
        cx: &mut Context<'_>,
    ) -> Poll<(Box<Self>, EndCause)>
    where
        G: Drop,
        O: Outlet<S, G, Reply<M>, Option<Reply<M>>> + Drop,
        Q: Requests<Message<P, M, S, G>> + Drop,
        R: Wait + Clock + AllocGlobal,
        ensures ready { IfReady result (λ left. IfSome running.old (λ old. PollsToEnd
            (format_of P.cmp M.Digest.cmp M.encoding M.digest_of M.reading)
            (over S.may_answer T.Job.is_of O.Outlet N.Sender V.Receiver B.Provider Q.Requests)
            (moment old.value.engine old.value.network)
            (moment left.0.value.engine left.0.value.network) left.1)) }
        ensures pending { OnPending result (IfSome running.old (λ old.
            IsSomeAnd running.new (λ new. SomePolls
            (format_of P.cmp M.Digest.cmp M.encoding M.digest_of M.reading)
            (over S.may_answer T.Job.is_of O.Outlet N.Sender V.Receiver B.Provider Q.Requests)
            (moment old.value.engine old.value.network)
            (moment new.value.engine new.value.network)))) }
        ensures armed { OnPending result (IsArmed cx.new) }
        ensures kept { Keeps cx.old cx.new }
    {
        let Some(it) = running else {
            return cx.yield_now();
        };
        let Poll::Ready(end) = it.poll_asked::<G, R>(rt, snapshots, cx) else {
            return Poll::Pending;
        };
        match running.take() {
            Some(it) => Poll::Ready((it, end)),
            None => cx.yield_now(),
        }
    }

    /// Runs the engine until it ends, on a thread that sleeps at once while there is nothing to do.
    /// Returns what it leaves. If the thread can't wait, no poll is taken.
    pub(crate) fn run<G, R>(self, rt: &R, snapshots: &Snapshots<P>) -> Report<P, Q>
    where
        G: Drop,
        O: Outlet<S, G, Reply<M>, Option<Reply<M>>> + Drop,
        Q: Requests<Message<P, M, S, G>> + Drop,
        R: Wait + Clock + RandomSource + AllocGlobal,
        ensures runs { IsRun (format_of P.cmp M.Digest.cmp M.encoding M.digest_of M.reading)
            (over S.may_answer T.Job.is_of O.Outlet N.Sender V.Receiver B.Provider Q.Requests)
            (moment self.engine self.network) result }
    {
        // A poll that is pending moves no engine in a box.
        match Seat::with_boxed(rt, self) {
            Ok((seat, running)) => {
                snapshots.look_again();
                let (running, cause) = Self::run_on::<G, R>(running, seat, rt, snapshots);
                Box::into_inner(running).leave(rt, snapshots, cause, None)
            }
            Err((failure, running)) => {
                let mut running = running;
                running.engine.end::<G>(EndCause::WaitFailed);
                running.leave(rt, snapshots, EndCause::WaitFailed, Some(failure))
            }
        }
    }

    /// Returns what an engine leaves that has ended for this cause. Those who ask for its counters
    /// learn that it has.
    fn leave<R>(
        self,
        rt: &R,
        snapshots: &Snapshots<P>,
        cause: EndCause,
        failure: Option<CannotWait>,
    ) -> Report<P, Q>
    where
        O: Drop,
        Q: Drop,
        R: Wait + AllocGlobal,
        ensures cause { result.cause ≡ cause }
        ensures failure { result.failure ≡ failure }
        ensures metrics { result.metrics ≡ self.engine.node.metrics }
        ensures requests { result.requests ≡ self.engine.requests }
    {
        let Running { engine, network } = self;
        drop::<_>(network);
        snapshots.end(rt, rt.alloc());
        let (metrics, requests) = engine.into_metrics();
        Report {
            cause,
            failure,
            metrics,
            requests,
        }
    }

    /// Runs the engine on the seat, as `run` does.
    fn run_on<G, R>(
        running: Box<Self>,
        seat: Seat,
        rt: &R,
        snapshots: &Snapshots<P>,
    ) -> (Box<Self>, EndCause)
    where
        G: Drop,
        O: Outlet<S, G, Reply<M>, Option<Reply<M>>> + Drop,
        Q: Requests<Message<P, M, S, G>> + Drop,
        R: Wait + Clock + AllocGlobal,
        ensures ran { PollsToEnd (format_of P.cmp M.Digest.cmp M.encoding M.digest_of M.reading)
            (over S.may_answer T.Job.is_of O.Outlet N.Sender V.Receiver B.Provider Q.Requests)
            (moment running.value.engine running.value.network)
            (moment result.0.value.engine result.0.value.network) result.1 }
    {
        let mut running = Some(running);
        let poll = move |cx: &mut Context<'_>| -> Poll<(Box<Self>, EndCause)>
            ensures ready { IfReady result (λ left. IfSome running.entry (λ old. PollsToEnd
                (format_of P.cmp M.Digest.cmp M.encoding M.digest_of M.reading)
                (over S.may_answer T.Job.is_of O.Outlet N.Sender V.Receiver B.Provider Q.Requests)
                (moment old.value.engine old.value.network)
                (moment left.0.value.engine left.0.value.network) left.1)) }
            ensures pending { OnPending result (IfSome running.entry (λ old.
                IsSomeAnd running.exit (λ new. SomePolls
                (format_of P.cmp M.Digest.cmp M.encoding M.digest_of M.reading)
                (over S.may_answer T.Job.is_of O.Outlet N.Sender V.Receiver B.Provider Q.Requests)
                (moment old.value.engine old.value.network)
                (moment new.value.engine new.value.network)))) }
            ensures armed { OnPending result (IsArmed cx.new) }
            ensures kept { Keeps cx.old cx.new }
        { Self::poll_to_end::<G, R>(&mut running, rt, snapshots, cx) };
        block_on_polls(seat, rt, poll)
    }
}

/// Polls on the seat until a poll is ready.
///
/// By itself, since a proof that a closure is a future takes the longer the more parameters are
/// around it.
fn block_on_polls<Out, F, R>(seat: Seat, rt: &R, poll: F) -> Out
where
    F: FnMut(&mut Context<'_>) -> Poll<Out>,
    R: Wait,
    requires { ⟦<PollFn<F> as Future>⟧.can_poll (record { f = poll }) }
    ensures { ⟦<PollFn<F> as Future>⟧.gives (record { f = poll }) result }
{
    seat.block_on(rt, poll_fn(poll))
}

/// Returns why the engine ended, if the turn tells that.
fn end_told<P, D>(turn: &Turn<P, D>) -> Option<EndCause>
    ensures { result ≡ end_told turn.now }
{
    match turn {
        Turn::Ended(cause) => Some(*cause),
        Turn::Peers
        | Turn::Broadcast(_, _)
        | Turn::Subscribe
        | Turn::Get
        | Turn::Payload(_, _, _)
        | Turn::Invalid(_, _)
        | Turn::Refused(_, _) => None,
    }
}
