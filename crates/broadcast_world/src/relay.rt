//! The relay of a node: the messages with which its subscribes were answered, to be broadcast on
//! another network.
//!
//! A digest whose subscribes were answered more than once is relayed with the message of its first
//! answer, at the place of that answer.
ghost use Rattle.std.specs.Prelude.{◌≡◌, ◌<◌, length, IfOk};
ghost use Rattle.std.specs.List.{All};
ghost use Rattle.std.specs.List.Sorted.{IsStrictlyIncreasing};
ghost use Rattle.broadcast_core.specs.Setting.{whole, setting};
ghost use Rattle.broadcast_core.specs.Content.{same_by};
ghost use Rattle.broadcast_core.specs.Log.{is_refused};
ghost use Rattle.broadcast_world.specs.Relay.{relay};
ghost use Rattle.broadcast_world.specs.Relayed.{AreRefusable, IsRelay, history_but, places_from};

mod answers;
mod broadcasts;
mod firsts;

pub use answers::relay_answers;
use broadcast_core::{Answer, Codec, Digested, Digestible, Event, PublicKey, Run, run};
pub use broadcasts::{Relayed, relay_to};
use std::alloc::{AllocError, Global};

/// The relay of a run of events.
#[derive(Drop)]
#[derive_where(Debug; M, M::Digest)]
#[derive_where(PartialEq, Eq; M)]
pub struct Relay<M: Digestible> {
    /// The messages with which subscribes were answered, in order, each digest at its first place
    /// only.
    pub messages: Vec<Digested<M>>,
    /// The places, from 0, of the events that were answered `Refused`, sorted.
    pub refused: Vec<usize>,
}

/// Runs the events as [`run`] does, and returns the relay of their answers: that of the history of
/// all events but the refused ones.
///
/// Fails if [`run`] fails, or if an allocation for the relay fails.
pub fn relay_of<P: PublicKey, M: Digestible + Codec>(
    alloc: Global,
    own: P,
    deque_size: usize,
    byte_budget: u64,
    priority: bool,
    cfg: &M::Cfg,
    events: Vec<Event<P, M>>,
) -> Result<Relay<M>, AllocError>
    ensures run { let s = setting own deque_size byte_budget priority (same_by P.cmp M.Digest.cmp)
        M.digest_of M.encoding (whole (M.reading cfg.now)) in
        IfOk result (λ it. IsRelay s events.items it.messages.items it.refused.items) }
    ensures messages { let s = setting own deque_size byte_budget priority
        (same_by P.cmp M.Digest.cmp) M.digest_of M.encoding (whole (M.reading cfg.now)) in
        IfOk result (λ it.
        it.messages.items ≡ relay s (history_but s it.refused.items events.items)) }
    ensures rises { IfOk result (λ it. IsStrictlyIncreasing it.refused.items) }
    ensures within { IfOk result (λ it. All (λ k. k < length events.items) it.refused.items) }
    ensures refusable { let s = setting own deque_size byte_budget priority
        (same_by P.cmp M.Digest.cmp) M.digest_of M.encoding (whole (M.reading cfg.now)) in
        IfOk result (λ it. AreRefusable s events.items it.refused.items) }
{
    let Run { answers, .. } = run(alloc, own, deque_size, byte_budget, priority, cfg, events)?;
    let answers = answers.into_vec();
    let refused = refused_places(alloc, &answers)?;
    let messages = relay_answers(alloc, answers)?;
    Ok(Relay { messages, refused })
}

/// Returns the places of the answers that are refusals.
fn refused_places<M: Digestible>(
    alloc: Global,
    answers: &[Answer<M>],
) -> Result<Vec<usize>, AllocError>
    ensures { IfOk result (λ places. places.items ≡ places_from is_refused 0 answers.now) }
{
    let mut places = Vec::new(alloc);
    for place in 0..answers.len() {
        if is_refused(&answers[place]) {
            places.push(place)?;
        }
    }
    Ok(places)
}

/// Returns whether the answer is a refusal.
fn is_refused<M: Digestible>(answer: &Answer<M>) -> bool
    ensures { result ≡ is_refused answer.now }
{
    matches!(answer, Answer::Refused(_))
}
