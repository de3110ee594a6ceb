//! A run of a list of events.
ghost use Rattle.std.specs.Prelude.{◌≡◌, ◌+◌, ◌<◌, ◌≤◌, ◌++◌, [], length, vec_len, vec_capacity, IfOk};
ghost use Rattle.std.specs.Option.{option_to_list};
ghost use Rattle.broadcast_core.specs.Setting.{whole, setting};
ghost use Rattle.broadcast_core.specs.Content.{same_by};
ghost use Rattle.broadcast_core.specs.HasRun.{HasRun};

pub mod apply;

use crate::buffer::Core;
use crate::codec::Codec;
use crate::digested::Digestible;
use crate::event::{Answer, Event, Run, Sent};
use crate::items::Items;
use crate::ordered::PublicKey;
use apply::apply;
use std::alloc::{AllocError, Global};

/// Runs the events in order, from an empty core for the node `own` that keeps at most `deque_size`
/// digests a peer, which are charged at most `byte_budget` bytes together.
///
/// Each send carries the flag `priority`, and payloads are decoded under `cfg`. An event that is
/// answered `Refused` changes nothing and sends nothing.
///
/// Fails if the places for the answers and the sends can't be allocated, which is tried before the
/// first event.
pub fn run<P: PublicKey, M: Digestible + Codec>(
    alloc: Global,
    own: P,
    deque_size: usize,
    byte_budget: u64,
    priority: bool,
    cfg: &M::Cfg,
    events: Vec<Event<P, M>>,
) -> Result<Run<P, M>, AllocError>
    ensures { let s = setting own deque_size byte_budget priority (same_by P.cmp M.Digest.cmp)
        M.digest_of M.encoding (whole (M.reading cfg.now)) in
        IfOk result (λ run. HasRun s events.items run.answers run.sent run.core) }
{
    let answers = Vec::with_capacity(alloc, events.len())?;
    let sent = Vec::with_capacity(alloc, events.len())?;
    let core = Core::new(alloc, own, deque_size, byte_budget);
    Ok(run_each(alloc, core, answers, sent, priority, cfg, events))
}

/// Runs the events on the core. There is room for their answers, and for what they send.
fn run_each<P: PublicKey, M: Digestible + Codec>(
    alloc: Global,
    mut core: Core<P, M, u64>,
    mut answers: Vec<Answer<M>>,
    mut sent: Vec<Sent<P>>,
    priority: bool,
    cfg: &M::Cfg,
    events: Vec<Event<P, M>>,
) -> Run<P, M>
    requires answers_fit { vec_len answers + length events.items ≤ vec_capacity answers }
    requires sent_fit { vec_len sent + length events.items ≤ vec_capacity sent }
    requires none_run { let s = setting core.own core.deque_size core.byte_budget priority
        (same_by P.cmp M.Digest.cmp) M.digest_of M.encoding (whole (M.reading cfg.now)) in
        HasRun s [] answers.items sent.items core }
    ensures { let s = setting core.own core.deque_size core.byte_budget priority
        (same_by P.cmp M.Digest.cmp) M.digest_of M.encoding (whole (M.reading cfg.now)) in
        HasRun s events.items result.answers result.sent result.core }
{
    for event in events {
        let (answer, sending) = apply(alloc, &mut core, priority, cfg, event);
        push_sent(&mut sent, sending);
        answers.push_reserved(answer);
    }
    Run {
        core,
        answers: Items::from_vec(answers),
        sent: Items::from_vec(sent),
    }
}

/// Appends what an event sends, if it sends anything. There is room for it.
fn push_sent<P: Drop>(sent: &mut Vec<Sent<P>>, sending: Option<Sent<P>>)
    requires { vec_len sent.old < vec_capacity sent.old }
    ensures items { sent.new.items ≡ sent.old.items ++ option_to_list sending }
    ensures len { vec_len sent.new ≤ vec_len sent.old + 1 }
    ensures capacity { vec_capacity sent.new ≡ vec_capacity sent.old }
{
    if let Some(sending) = sending {
        sent.push_reserved(sending);
    }
}
