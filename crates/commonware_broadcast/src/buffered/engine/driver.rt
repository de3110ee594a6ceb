//! `drive`: polls an engine up to `limit` times.
ghost use Rattle.std.specs.Prelude.{◌≡◌, ◌<◌, ◌≤◌, Some, None, [], ◌∷◌, length, IfOk, OnErr};
ghost use Rattle.std.specs.List.{All};
ghost use Rattle.futures.specs.Task.{IsArmed, Keeps};
ghost use Rattle.engine_io.specs.declared.input.Turn.TheVariants as turn;
ghost use Rattle.engine_io.specs.declared.input.EndCause.{EndCause};
ghost use Rattle.commonware_broadcast.specs.Drives.{Drives, AlwaysTakes, TellsEnd};
ghost use Rattle.commonware_broadcast.specs.EngineState.{moment};
ghost use Rattle.commonware_broadcast.specs.Interfaces.{format_of, over};

use crate::buffered::engine::state::Engine;
use broadcast_core::{Codec, Digestible, PublicKey};
use broadcast_mailbox::buffered::{Message, Reply, Responder};
use digest_strategies::Strategy;
use engine_io::{Outlet, Provider, Receiver, Requests, Sender, Turn};
use futures::task::{Context, Poll};
use std::alloc::{AllocError, Global};

/// Polls the engine `limit` times, or until it ends. Returns the turns that were ready, in order.
///
/// Fails if the places for the turns can't be allocated, which is tried before the first poll.
pub fn drive<P: PublicKey, M: Digestible + Codec, S, G, O, B, Q, T, N, V>(
    alloc: Global,
    engine: &mut Engine<P, M, S, O, B, Q, T>,
    cx: &mut Context<'_>,
    network: &mut (N, V),
    limit: usize,
) -> Result<Vec<Turn<P, M::Digest>>, AllocError>
where
    S: Responder<Reply<M>> + Drop,
    G: Drop,
    O: Outlet<S, G, Reply<M>, Option<Reply<M>>>,
    B: Provider<P>,
    Q: Requests<Message<P, M, S, G>>,
    T: Strategy<M>,
    N: Sender<P>,
    V: Receiver<P>,
    ensures took { IfOk result (λ turns. AlwaysTakes
        (format_of P.cmp M.Digest.cmp M.encoding M.digest_of M.reading)
        (over S.may_answer T.Job.is_of O.Outlet N.Sender V.Receiver B.Provider Q.Requests)
        (moment engine.old network.old) (moment engine.new network.new) turns.items) }
    ensures drives { IfOk result (λ turns. Drives
        (format_of P.cmp M.Digest.cmp M.encoding M.digest_of M.reading)
        (over S.may_answer T.Job.is_of O.Outlet N.Sender V.Receiver B.Provider Q.Requests)
        limit (moment engine.old network.old) (moment engine.new network.new) turns.items) }
    ensures at_most_limit { IfOk result (λ turns. length turns.items ≤ limit) }
    ensures ends_with_last_turn { IfOk result (λ turns.
        0 < limit → TellsEnd engine.new.end turns.items) }
    ensures armed_if_short { IfOk result (λ turns. length turns.items < limit
        → engine.new.end ≡ None → IsArmed cx.new) }
    ensures same_after_end { (cause : EndCause) → engine.old.end ≡ Some cause
        → (engine.new ≡ engine.old) × (network.new ≡ network.old)
        × IfOk result (λ turns. 0 < limit → turns.items ≡ turn.Ended cause ∷ []) }
    ensures unchanged_on_error { OnErr result ((engine.new ≡ engine.old)
        × (network.new ≡ network.old) × (cx.new ≡ cx.old)) }
    ensures keeps_priority { engine.new.priority ≡ engine.old.priority }
    ensures keeps_codec_config { engine.new.codec_config ≡ engine.old.codec_config }
    ensures keeps_strategy { engine.new.strategy ≡ engine.old.strategy }
    ensures kept { Keeps cx.old cx.new }
{
    let mut turns = Vec::with_capacity(alloc, limit)?;
    for _poll in 0..limit {
        let Poll::Ready(turn) = engine.poll::<G, N, V>(alloc, cx, network) else {
            continue;
        };
        turns.push_reserved(turn);
        if engine.end.is_some() {
            return Ok(turns);
        }
    }
    Ok(turns)
}
