//! The engine: its polls, and its end.
ghost use Rattle.std.specs.Prelude.{◌≡◌, Bool, List, Option, Some, None, [], true};
ghost use Rattle.broadcast_core.specs.Content.{same_by};
ghost use Rattle.broadcast_core.specs.Setting.{Setting};
ghost use Rattle.broadcast_core.specs.Happening.{History};
ghost use Rattle.broadcast_core.specs.HasContent.{HasContent};
ghost use Rattle.engine_io.specs.declared.input.Turn.TheVariants as turn;
ghost use Rattle.engine_io.specs.declared.input.EndCause.{EndCause};
ghost use Rattle.engine_io.specs.Replies.{Asker};
ghost use Rattle.broadcast_mailbox.specs.declared.buffered.ingress.message.Request.{Request};
ghost use Rattle.commonware_broadcast.specs.EngineHistory.{end_told, ended};
ghost use Rattle.commonware_broadcast.specs.AppliesSteps.{AppliesAndSends};
ghost use Rattle.commonware_broadcast.specs.CountingCalls.{AppliesStep};
ghost use Rattle.commonware_broadcast.specs.Fresh.{fresh};
ghost use Rattle.commonware_broadcast.specs.Interfaces.{by_responder};

use crate::buffered::config::Config;
use crate::buffered::engine::apply::apply;
use crate::buffered::engine::closed::Closed;
use crate::buffered::engine::handler::drop_waiters;
use crate::buffered::engine::node::Node;
use broadcast_core::{Codec, Core, Digestible, PublicKey};
use broadcast_mailbox::buffered::{Message, Reply, Responder};
use digest_strategies::Strategy;
use engine_io::{EndCause, Input, Metrics, Outlet, Requests, Sender, Turn};
use std::alloc::Global;
use std::marker::Model;

/// An engine: it applies requests, peer sets and payloads to the cache of a node, one at a poll.
#[derive(Drop)]
pub struct Engine<P: PublicKey, M: Digestible + Codec, S, O, B, Q, T: Strategy<M>> {
    pub(super) node: Node<P, M, S, O>,
    pub(super) provider: B,
    pub(super) requests: Q,
    pub(super) job: Option<(P, T::Job)>,
    pub(super) end: Option<EndCause>,
    pub(super) priority: bool,
    pub(super) codec_config: M::Cfg,
    pub(super) strategy: T,
    pub(super) closed: Closed<M>,
}

impl<P: PublicKey, M: Digestible + Codec, S, O, B, Q, T: Strategy<M>> Model
    for Engine<P, M, S, O, B, Q, T> {
    ghost use Rattle.commonware_broadcast.specs.EngineState.{EngineState};

    ghost Value = { EngineState P M S O M.Digest T.Job B Q M.Cfg T };

    ghost view = { λ it. record {
      node = it.node;
      provider = it.provider;
      requests = it.requests;
      job = it.job;
      end = it.end;
      priority = it.priority;
      codec_config = it.codec_config;
      strategy = it.strategy;
    } };
}

impl<P: PublicKey, M: Digestible + Codec, S, O, B, Q, T: Strategy<M>> Engine<P, M, S, O, B, Q, T> {
    /// Creates an engine to which nothing has happened, over these requests. Does not allocate.
    pub fn over(alloc: Global, cfg: Config<P, M::Cfg, B, T>, requests: Q, outlet: O) -> Self
    where
        S: Drop,
        ensures { result ≡ fresh cfg requests outlet }
    {
        let Config {
            public_key,
            mailbox_size: _,
            deque_size,
            byte_budget,
            priority,
            codec_config,
            peer_provider,
            strategy,
        } = cfg;
        Engine {
            node: Node {
                core: Core::new(alloc, public_key, deque_size, byte_budget),
                metrics: Metrics::init(alloc),
                outlet,
            },
            provider: peer_provider,
            requests,
            job: None,
            end: None,
            priority,
            codec_config,
            strategy,
            closed: Closed::new(alloc),
        }
    }

    /// Returns where replies go.
    pub fn outlet(&self) -> &O
        ensures { result.now ≡ self.now.node.outlet }
    {
        &self.node.outlet
    }

    /// Returns what gives the primary peers.
    pub fn provider(&self) -> &B
        ensures { result.now ≡ self.now.provider }
    {
        &self.provider
    }

    /// Returns where requests come from.
    pub fn requests(&self) -> &Q
        ensures { result.now ≡ self.now.requests }
    {
        &self.requests
    }

    /// Returns the counters.
    pub fn metrics(&self) -> &Metrics<P>
        ensures { result.now ≡ self.now.node.metrics }
    {
        &self.node.metrics
    }

    /// Applies one input. After an end the input is dropped, and the turn is that end.
    ///
    /// The requests tell nothing of a subscribe that waits then. So each poll asks those who wait
    /// for its digest, until nobody does.
    ///
    /// `Input::Invalid` is for a payload that is no message, so not for `CodecError::Memory`.
    pub fn apply<G, N>(
        &mut self,
        alloc: Global,
        input: Input<P, M, S, G>,
        sender: &mut N,
    ) -> Turn<P, M::Digest>
    where
        S: Responder<Reply<M>> + Drop,
        G: Drop,
        O: Outlet<S, G, Reply<M>, Option<Reply<M>>>,
        N: Sender<P>,
        ensures applied { self.old.end ≡ None
            → (s : Setting P M M.Digest) → s.same ≡ same_by P.cmp M.Digest.cmp
            → s.encoding ≡ M.encoding → s.priority ≡ self.old.priority
            → (past : History P M M.Digest (Asker S) (Asker G))
            → HasContent s past self.old.node.core
            → AppliesAndSends s (by_responder S.may_answer) O.told N.told past input result
            (self.old.node, sender.old) (self.new.node, sender.new) }
        ensures same_after_end { (cause : EndCause) → self.old.end ≡ Some cause
            → (result ≡ turn.Ended cause) × (self.new ≡ self.old) × (sender.new ≡ sender.old) }
        ensures tells_no_end { self.old.end ≡ None → end_told result ≡ None }
        ensures keeps_all_else { self.new ≡ record self.old { node = self.new.node } }
    {
        match self.end {
            Some(cause) => {
                drop::<_>(input);
                Turn::Ended(cause)
            }
            None => {
                let digest = awaited(&input);
                let turn = apply(&mut self.node, sender, alloc, self.priority, input);
                self.closed.keep(&self.node.core, digest);
                turn
            }
        }
    }

    /// Does what an end does: closes the requests, and drops all waiters.
    pub fn close<G>(mut self)
    where
        S: Responder<Reply<M>> + Drop,
        O: Drop,
        B: Drop,
        Q: Requests<Message<P, M, S, G>> + Drop,
        T: Drop,
        M::Cfg: Drop,
    {
        self.requests.close();
        drop::<_>(self);
    }

    /// Ends the engine for this cause: its requests are closed, and its waiters and its job are
    /// dropped. Returns the turn that tells it.
    pub(super) fn end<G>(&mut self, cause: EndCause) -> Turn<P, M::Digest>
    where
        S: Responder<Reply<M>> + Drop,
        O: Outlet<S, G, Reply<M>, Option<Reply<M>>>,
        Q: Requests<Message<P, M, S, G>>,
        ensures ended { (s : Setting P M M.Digest) → s.same ≡ same_by P.cmp M.Digest.cmp
            → (past : History P M M.Digest (Asker S) (Asker G))
            → HasContent s past self.old.node.core
            → AppliesStep s (by_responder S.may_answer) O.told past (ended cause)
            self.old.node self.new.node }
        ensures counts_none { self.new.node.metrics ≡ self.old.node.metrics }
        ensures tells { (given : List (Request (Message P M S G M.Digest)))
            → Q.told self.old.requests given → Q.told self.new.requests given }
        ensures tells_outcomes { (outcomes : List Bool)
            → Q.outcomes self.old.requests outcomes → Q.outcomes self.new.requests outcomes }
        ensures closes { Q.closed self.new.requests }
        ensures told { result ≡ turn.Ended cause }
        ensures keeps_all_else { self.new ≡ record self.old {
          node = self.new.node;
          requests = self.new.requests;
          job = None;
          end = Some cause;
        } }
    {
        self.requests.close();
        drop_waiters(&mut self.node);
        self.job = None;
        self.end = Some(cause);
        Turn::Ended(cause)
    }

    /// Takes the counters of the engine and its source of requests, and drops the rest.
    pub(super) fn into_metrics(self) -> (Metrics<P>, Q)
    where
        S: Drop,
        O: Drop,
        B: Drop,
        T: Drop,
        M::Cfg: Drop,
        ensures metrics { result.0 ≡ self.node.metrics }
        ensures requests { result.1 ≡ self.requests }
    {
        let Engine {
            node,
            provider,
            requests,
            job,
            end: _,
            priority: _,
            codec_config,
            strategy,
            closed,
        } = self;
        drop::<_>((provider, job, codec_config, strategy, closed));
        (node.into_metrics(), requests)
    }
}

/// Returns the digest of a subscribe.
fn awaited<P: PublicKey, M: Digestible, S, G>(input: &Input<P, M, S, G>) -> Option<M::Digest> {
    match input {
        Input::Request(request) => match &request.message {
            Message::Subscribe { digest, .. } => Some(*digest),
            Message::Broadcast { .. } | Message::Get { .. } => None,
        },
        Input::Peers(_) | Input::Arrived(..) | Input::Invalid(..) => None,
    }
}
