//! A poll of an engine.
ghost use Rattle.std.specs.Prelude.{◌++◌, Bool, List};
ghost use Rattle.futures.specs.Poll.{OnPending};
ghost use Rattle.futures.specs.Task.{IsArmed, Keeps};
ghost use Rattle.broadcast_mailbox.specs.declared.buffered.ingress.message.Request.{Request};
ghost use Rattle.commonware_broadcast.specs.CountingCalls.{outcome_of};
ghost use Rattle.commonware_broadcast.specs.Polls.{IsPoll};
ghost use Rattle.commonware_broadcast.specs.Waits.{Waits};
ghost use Rattle.commonware_broadcast.specs.EngineState.{moment};
ghost use Rattle.commonware_broadcast.specs.Interfaces.{format_of, over};

use crate::buffered::engine::apply::apply;
use crate::buffered::engine::first::{First, comes_first};
use crate::buffered::engine::handler::cleanup_waiters;
use crate::buffered::engine::next::next_input;
use crate::buffered::engine::state::Engine;
use broadcast_core::{Codec, Digestible, PublicKey};
use broadcast_mailbox::buffered::{Awaits, Message, Reply, Responder};
use digest_strategies::Strategy;
use engine_io::{EndCause, Outlet, Provider, Receiver, Requests, Sender, Turn};
use futures::task::{Context, Poll};
use std::alloc::Global;

impl<P: PublicKey, M: Digestible + Codec, S, O, B, Q, T: Strategy<M>> Engine<P, M, S, O, B, Q, T> {
    /// Polls the engine. If no job is pending it drops the waiters that answer closed, and takes at
    /// most one input: a peer set, or else a request, or else a payload. A stop, the end of the
    /// peer sets and a failure of the network end it, and every later poll returns the same. A
    /// pending poll has registered with each source that it looked at, as far as these tell what
    /// wakes who waits for them.
    pub fn poll<G, N, V>(
        &mut self,
        alloc: Global,
        cx: &mut Context<'_>,
        network: &mut (N, V),
    ) -> Poll<Turn<P, M::Digest>>
    where
        S: Responder<Reply<M>> + Drop,
        G: Drop,
        O: Outlet<S, G, Reply<M>, Option<Reply<M>>>,
        N: Sender<P>,
        V: Receiver<P>,
        B: Provider<P>,
        Q: Requests<Message<P, M, S, G>>,
        ensures polled { IsPoll (format_of P.cmp M.Digest.cmp M.encoding M.digest_of M.reading)
            (over S.may_answer T.Job.is_of O.Outlet N.Sender V.Receiver B.Provider Q.Requests)
            (moment self.old network.old) (moment self.new network.new) result }
        ensures waits { OnPending result (Waits T.Job.needs V.Receiver B.Provider Q.Requests
            cx.new self.old.job (moment self.new network.new)) }
        ensures armed { OnPending result (IsArmed cx.new) }
        ensures kept { Keeps cx.old cx.new }
    {
        if let Some(cause) = self.end {
            return Poll::Ready(Turn::Ended(cause));
        }
        match comes_first(&mut self.requests, &mut self.job, cx) {
            First::Stop => Poll::Ready(self.end::<G>(EndCause::Stopped)),
            First::Job(peer, job) => self.poll_job::<G>(alloc, cx, peer, job),
            First::Sources(hears_stop) => {
                cleanup_waiters(&mut self.node, &mut self.requests, &mut self.closed);
                match next_input(&mut self.provider, &mut self.requests, hears_stop, cx) {
                    Poll::Ready(Ok(input)) => {
                        let is_request = input.is_request();
                        let turn = apply(
                            &mut self.node,
                            &mut network.0,
                            alloc,
                            self.priority,
                            input,
                        );
                        tell_outcome(&mut self.requests, is_request, turn.is_refused());
                        Poll::Ready(turn)
                    }
                    Poll::Ready(Err(cause)) => Poll::Ready(self.end::<G>(cause)),
                    Poll::Pending => match network.1.poll_recv(cx) {
                        Poll::Ready(Ok((peer, bytes))) => {
                            self.receive::<G>(alloc, cx, peer, bytes.as_slice())
                        }
                        Poll::Ready(Err(_)) => {
                            Poll::Ready(self.end::<G>(EndCause::NetworkFailed))
                        }
                        Poll::Pending => Poll::Pending,
                    },
                }
            }
        }
    }
}

/// Tells the requests whether the input was refused, if it was one of theirs.
fn tell_outcome<T: Awaits, Q: Requests<T>>(requests: &mut Q, is_request: bool, refused: bool)
    ensures tells { (given : List (Request T)) → Q.told requests.old given
        → Q.told requests.new given }
    ensures outcomes { (before : List Bool) → Q.outcomes requests.old before
        → Q.outcomes requests.new (before ++ outcome_of is_request refused) }
{
    if is_request {
        requests.tell_outcome(refused);
    }
}
