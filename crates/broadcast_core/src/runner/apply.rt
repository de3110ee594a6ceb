//! One event of a run.
ghost use Rattle.std.specs.Prelude.{◌≡◌, ℕ, [], true, false};
ghost use Rattle.std.specs.Option.{option_to_list};
ghost use Rattle.broadcast_core.specs.Setting.{whole, Setting, setting};
ghost use Rattle.broadcast_core.specs.Content.{same_by};
ghost use Rattle.broadcast_core.specs.HasRun.{Follows};
ghost use Rattle.broadcast_core.specs.Log.{is_refused};
ghost use Rattle.broadcast_core.specs.declared.event.Event.TheVariants as event;
ghost use Rattle.broadcast_core.specs.declared.event.Answer.TheVariants as answer;

use crate::buffer::Core;
use crate::codec::{Codec, CodecError, decode_cfg};
use crate::digested::{Digested, Digestible};
use crate::event::{Answer, Cause, Event, Sent};
use crate::items::Items;
use crate::ordered::{PublicKey, Recipients};
use crate::outcome::Subscribed;
use std::alloc::Global;

/// Applies the event to the core. Returns its answer and what it sends.
pub fn apply<P: PublicKey, M: Digestible + Codec>(
    alloc: Global,
    core: &mut Core<P, M, u64>,
    priority: bool,
    cfg: &M::Cfg,
    event: Event<P, M>,
) -> (Answer<M>, Option<Sent<P>>)
    ensures follows { let s = setting core.old.own core.old.deque_size core.old.byte_budget priority
        (same_by P.cmp M.Digest.cmp) M.digest_of M.encoding (whole (M.reading cfg.now)) in
        Follows s event core.old core.new result.0 (option_to_list result.1) }
    ensures refused { is_refused result.0 ≡ true → core.new ≡ core.old }
{
    match event {
        Event::Peers(peers) => {
            core.update_primary_peers(peers);
            (Answer::Peers, None)
        }
        Event::Broadcast(recipients, message) => {
            broadcast(alloc, core, priority, recipients, message)
        }
        Event::Payload(peer, bytes) => (payload(alloc, core, cfg, &peer, bytes.as_slice()), None),
        Event::Subscribe(ticket, digest) => (subscribe(core, ticket, digest), None),
        Event::Get(_, digest) => (get(core, &digest), None),
        Event::Cleanup(gone) => (cleanup(core, gone), None),
    }
}

/// Encodes the message, then takes it under the own key. Returns the encoding as what is sent.
fn broadcast<P: PublicKey, M: Digestible + Codec>(
    alloc: Global,
    core: &mut Core<P, M, u64>,
    priority: bool,
    recipients: Recipients<P>,
    message: Digested<M>,
) -> (Answer<M>, Option<Sent<P>>)
    ensures follows { (s : Setting P M M.Digest)
        → s.same ≡ same_by P.cmp M.Digest.cmp → s.priority ≡ priority → s.encoding ≡ M.encoding
        → Follows s (event.Broadcast recipients message) core.old core.new
        result.0 (option_to_list result.1) }
    ensures refused { is_refused result.0 ≡ true → core.new ≡ core.old }
{
    let bytes = match message.encode(alloc) {
        Ok(bytes) => bytes,
        Err(cause) => return (Answer::Refused(cause), None),
    };
    match core.take_own(&message) {
        Err(_) => (Answer::Refused(Cause::Memory), None),
        Ok(taken) => {
            let sent = Sent {
                recipients,
                bytes: Items::from_vec(bytes),
                priority,
            };
            let answer = Answer::Taken {
                outcome: taken.outcome,
                served: taken.served,
                message,
            };
            (answer, Some(sent))
        }
    }
}

/// Decodes the bytes and takes the message under the peer's key.
pub fn payload<P: PublicKey, M: Digestible + Codec>(
    alloc: Global,
    core: &mut Core<P, M, u64>,
    cfg: &M::Cfg,
    peer: &P,
    bytes: &[u8],
) -> Answer<M>
    ensures follows { (s : Setting P M M.Digest)
        → s.same ≡ same_by P.cmp M.Digest.cmp → s.encoding ≡ M.encoding
        → s.digest_of ≡ M.digest_of
        → s.reading ≡ whole (M.reading cfg.now)
        → Follows s (event.Payload peer.now bytes.now) core.old core.new result [] }
    ensures refused { is_refused result ≡ true → core.new ≡ core.old }
{
    let message: M = match decode_cfg(alloc, bytes, cfg) {
        Ok(message) => message,
        Err(refusal) => return refused(refusal),
    };
    let Ok(message) = Digested::compute(alloc, message) else {
        return Answer::Refused(Cause::Memory);
    };
    match core.take(peer, &message) {
        Err(_) => Answer::Refused(Cause::Memory),
        Ok(taken) => Answer::Taken {
            outcome: taken.outcome,
            served: taken.served,
            message,
        },
    }
}

/// Returns the answer to a payload that can't be decoded.
fn refused<M: Digestible>(refusal: CodecError) -> Answer<M>
    ensures memory { refusal ≡ CodecError.Memory → result ≡ answer.Refused Cause.Memory }
    ensures invalid { (refusal ≡ CodecError.Memory → ⊥) → result ≡ answer.Invalid refusal }
{
    match refusal {
        CodecError::Memory => Answer::Refused(Cause::Memory),
        _ => Answer::Invalid(refusal),
    }
}

/// Answers the subscribe from the cache, or makes its ticket wait.
pub fn subscribe<P: PublicKey, M: Digestible>(
    core: &mut Core<P, M, u64>,
    ticket: u64,
    digest: M::Digest,
) -> Answer<M>
    ensures follows { (s : Setting P M M.Digest) → s.same ≡ same_by P.cmp M.Digest.cmp
        → Follows s (event.Subscribe ticket digest) core.old core.new result [] }
    ensures refused { is_refused result ≡ true → core.new ≡ core.old }
{
    match core.subscribe(digest, ticket) {
        Ok(Subscribed::Answered(_, message)) => Answer::Answered(message),
        Ok(Subscribed::Waiting) => Answer::Waiting,
        Err(_) => Answer::Refused(Cause::Memory),
    }
}

/// Answers the get from the cache.
pub fn get<P: PublicKey, M: Digestible>(core: &Core<P, M, u64>, digest: &M::Digest) -> Answer<M>
    ensures { (s : Setting P M M.Digest) → s.same ≡ same_by P.cmp M.Digest.cmp
        → (ticket : ℕ) → Follows s (event.Get ticket digest.now) core.now core.now result [] }
{
    match core.get(digest) {
        None => Answer::Got(None),
        Some(message) => match message.clone() {
            Ok(message) => Answer::Got(Some(message)),
            Err(_) => Answer::Refused(Cause::Memory),
        },
    }
}

/// Drops the waiters with these tickets, which are sorted first, so that they are searched faster.
fn cleanup<P: PublicKey, M: Digestible>(core: &mut Core<P, M, u64>, gone: Items<u64>) -> Answer<M>
    ensures follows { (s : Setting P M M.Digest) → s.same ≡ same_by P.cmp M.Digest.cmp
        → Follows s (event.Cleanup gone) core.old core.new result [] }
    ensures never_refused { is_refused result ≡ false }
{
    let mut gone = gone.into_vec();
    gone.sort_unstable();
    Answer::Removed(core.cleanup(&gone))
}
