//! One event at one node.
ghost use Rattle.std.specs.Prelude.{◌≡◌, ℕ, IsTrue, List, Some, Ok, IfOk, OnErr};
ghost use Rattle.std.specs.Ordering.{eq_by_cmp};
ghost use Rattle.sha2.specs.Sha256.{sha256};
ghost use Rattle.broadcast_core.specs.Setting.{whole};
ghost use Rattle.broadcast_core.specs.TestMessage.{encoding_of, read_message};
ghost use Rattle.broadcast_core.specs.declared.outcome.Outcome.{Outcome};
ghost use Rattle.broadcast_core.specs.declared.ordered.Recipients.{Recipients};
ghost use Rattle.broadcast_core.specs.declared.event.Answer.TheVariants as answer;
ghost use Rattle.broadcast_world.specs.Scene.{Scene};
ghost use Rattle.broadcast_world.specs.Nodes.{NodeFollows};
ghost use Rattle.broadcast_core.specs.declared.event.Event.TheVariants as event;

use crate::encoded::Encoded;
use broadcast_core::runner::apply;
use broadcast_core::{
    Answer, Cause, Core, Digest, Digested, PublicKey, RangeCfg, Set, TestMessage,
};
use std::alloc::{AllocError, Global};

/// Drops the waiters with these tickets.
pub fn cleanup<P: PublicKey>(
    core: &mut Core<P, TestMessage, u64>,
    gone: &[u64],
) -> Answer<TestMessage>
    ensures { (w : Scene P) (n : P)
        → NodeFollows P.cmp w n (event.Cleanup gone.now) core.old core.new result }
{
    Answer::Removed(core.cleanup(gone))
}

/// Takes the bytes under the peer's key. It may be a copy of the key `p` that is meant.
pub fn payload<P: PublicKey>(
    alloc: Global,
    core: &mut Core<P, TestMessage, u64>,
    range: &RangeCfg,
    peer: &P,
    bytes: &[u8],
) -> Answer<TestMessage>
    ensures { (w : Scene P) (n p : P) → w.range ≡ range.now → IsTrue (eq_by_cmp P.cmp p peer.now)
        → NodeFollows P.cmp w n (event.Payload p bytes.now) core.old core.new result }
{
    apply::payload(alloc, core, range, peer, bytes)
}

/// Takes the message that the bytes of the encoding decode to under the peer's key, as [`payload`]
/// does. The key may be a copy of the key `p` that is meant.
pub fn delivery<P: PublicKey>(
    core: &mut Core<P, TestMessage, u64>,
    range: &RangeCfg,
    peer: &P,
    encoded: &Encoded,
) -> Answer<TestMessage>
    ensures { (w : Scene P) (n p : P) → w.range ≡ range.now → IsTrue (eq_by_cmp P.cmp p peer.now)
        → NodeFollows P.cmp w n (event.Payload p encoded.now.bytes) core.old core.new result }
{
    let message = match encoded.decode(range) {
        Ok(message) => message,
        Err(refusal) => return Answer::Invalid(refusal),
    };
    match arrival(core, peer, message) {
        Ok(answer) => answer,
        Err(_) => Answer::Refused(Cause::Memory),
    }
}

/// Takes a copy of the message under the peer's key. It may be a copy of the key `p` that is meant.
///
/// `Err` is an allocation failure, and then nothing changes.
fn arrival<P: PublicKey>(
    core: &mut Core<P, TestMessage, u64>,
    peer: &P,
    message: &Digested<TestMessage>,
) -> Result<Answer<TestMessage>, AllocError>
    ensures ok { IfOk result (λ a. (w : Scene P) (n p : P) (bytes : List ℕ)
        → IsTrue (eq_by_cmp P.cmp p peer.now)
        → whole (read_message w.range) bytes ≡ Ok message.now.message
        → message.now.digest ≡ sha256 message.now.message.content
        → NodeFollows P.cmp w n (event.Payload p bytes) core.old core.new a) }
    ensures err { OnErr result (core.new ≡ core.old) }
{
    let message = message.clone()?;
    let taken = core.take(peer, &message)?;
    Ok(Answer::Taken {
        outcome: taken.outcome,
        served: taken.served,
        message,
    })
}

/// Answers a subscribe from the cache, or lets its ticket wait.
pub fn subscribe<P: PublicKey>(
    core: &mut Core<P, TestMessage, u64>,
    ticket: u64,
    digest: &Digest,
) -> Answer<TestMessage>
    ensures { (w : Scene P) (n : P)
        → NodeFollows P.cmp w n (event.Subscribe ticket digest.now) core.old core.new result }
{
    apply::subscribe(core, ticket, *digest)
}

/// Answers a get from the cache.
pub fn get<P: PublicKey>(
    core: &Core<P, TestMessage, u64>,
    ticket: u64,
    digest: &Digest,
) -> Answer<TestMessage>
    ensures { (w : Scene P) (n : P)
        → NodeFollows P.cmp w n (event.Get ticket digest.now) core.now core.now result }
{
    let _ticket = ticket;
    apply::get(core, digest)
}

/// Makes a copy of these keys the primary ones.
pub fn peers<P: PublicKey>(
    core: &mut Core<P, TestMessage, u64>,
    peers: &Set<P>,
) -> Answer<TestMessage>
    ensures { (w : Scene P) (n : P)
        → NodeFollows P.cmp w n (event.Peers peers.now) core.old core.new result }
{
    match peers.clone() {
        Ok(peers) => {
            core.update_primary_peers(peers);
            Answer::Peers
        }
        Err(_) => Answer::Refused(Cause::Memory),
    }
}

/// Takes the message under the node's own key.
///
/// `Err` is an allocation failure, and then nothing changes.
pub fn broadcast<P: PublicKey>(
    core: &mut Core<P, TestMessage, u64>,
    message: Digested<TestMessage>,
) -> Result<Answer<TestMessage>, AllocError>
    ensures taken { IfOk result (λ a. (outcome : Outcome) × (served : List ℕ)
        × (a ≡ answer.Taken outcome served message)) }
    ensures ok { IfOk result (λ a. (w : Scene P) (n : P) (r : Recipients P) (bytes : List ℕ)
        → encoding_of message.message ≡ Some bytes
        → NodeFollows P.cmp w n (event.Broadcast r message) core.old core.new a) }
    ensures err { OnErr result (core.new ≡ core.old) }
{
    let taken = core.take_own(&message)?;
    Ok(Answer::Taken {
        outcome: taken.outcome,
        served: taken.served,
        message,
    })
}
