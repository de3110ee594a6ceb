//! A broadcast at the node that a key names.
ghost use Rattle.std.specs.Prelude.{◌≡◌, ℕ, ◌≤◌, ◌+◌, ◌++◌, ◌⊎◌, true, List, None, Option, Some, length, is_some, IfErr, IfOk, OnOk, vec_capacity, vec_len};
ghost use Rattle.std.specs.Arc.{arc_value};
ghost use Rattle.broadcast_core.specs.TestMessage.{encoding_of};
ghost use Rattle.broadcast_core.specs.declared.event.Event.TheVariants as event;
ghost use Rattle.broadcast_core.specs.declared.ordered.Recipients.{Recipients};
ghost use Rattle.broadcast_world.specs.Packet.{Packet as Keyed};
ghost use Rattle.broadcast_world.specs.Scene.{Scene};
ghost use Rattle.broadcast_world.specs.World.{NodeEvent, event_at, made_by, packets_by, packets_to, addressed, unless_refused};
ghost use Rattle.broadcast_world.specs.Steps.{AreCopies};
ghost use Rattle.broadcast_world.specs.Nodes.{AtNode, NodeFollows};
ghost use Rattle.broadcast_world.specs.declared.step.WorldAnswer.TheVariants as world;

use crate::encoded::Encoded;
use crate::node;
use crate::nodes::Nodes;
use crate::packet::{Packet, addressees, packets_for};
use crate::step::WorldAnswer;
use broadcast_core::{Answer, Cause, Core, Digested, PublicKey, Recipients, Set, TestMessage};
use std::alloc::{AllocError, Global};

/// Takes the message under the key of the node that `key` names, and makes its packets.
///
/// A refused broadcast makes none.
pub fn broadcast<P: PublicKey>(
    alloc: Global,
    nodes: &mut Nodes<P>,
    packets: &mut Vec<Packet<P>>,
    key: &P,
    recipients: &Recipients<P>,
    message: &Digested<TestMessage>,
) -> WorldAnswer
    ensures keys { nodes.new.keys ≡ nodes.old.keys }
    ensures node { (w : Scene P) → w.nodes ≡ arc_value nodes.old.keys
        → AtNode P.cmp w (event_at P.cmp w key.now (event.Broadcast recipients.now message.now))
        nodes.old.cores.items nodes.new.cores.items result }
    ensures packets { (w : Scene P) (sent : List (Keyed P)) → w.nodes ≡ arc_value nodes.old.keys
        → AreCopies P.cmp packets.old.items sent
        → AreCopies P.cmp packets.new.items (sent ++ made_by P.cmp w (unless_refused P.cmp w result
        (event_at P.cmp w key.now (event.Broadcast recipients.now message.now)))) }
{
    let Some(place) = nodes.place_of(key) else {
        return WorldAnswer::NoSuch;
    };
    let keys: &Set<P> = &nodes.keys;
    let sender = &keys.as_slice()[place];
    let encoded = match Encoded::new(alloc, message) {
        Ok(encoded) => encoded,
        Err(cause) => return WorldAnswer::Given(Answer::Refused(cause)),
    };
    match prepare(alloc, keys, sender, packets, recipients, message, encoded) {
        Ok((made, message)) => {
            WorldAnswer::Given(take(&mut nodes.cores[place], packets, made, message))
        }
        Err(_) => WorldAnswer::Given(Answer::Refused(Cause::Memory)),
    }
}

/// Returns the packets of a broadcast and a copy of its message, with room for the packets.
fn prepare<P: PublicKey>(
    alloc: Global,
    nodes: &Set<P>,
    sender: &P,
    packets: &mut Vec<Packet<P>>,
    recipients: &Recipients<P>,
    message: &Digested<TestMessage>,
    encoded: Encoded,
) -> Result<(Vec<Packet<P>>, Digested<TestMessage>), AllocError>
    ensures kept { packets.new.items ≡ packets.old.items }
    ensures made { IfOk result (λ prepared. (w : Scene P) → w.nodes ≡ nodes.now
        → AreCopies P.cmp prepared.0.items (packets_to P.cmp w sender.now
        (addressed P.cmp w sender.now recipients.now) (Some encoded.bytes))) }
    ensures message { IfOk result (λ prepared. prepared.1 ≡ message.now) }
    ensures room { IfOk result (λ prepared.
        vec_len packets.new + vec_len prepared.0 ≤ vec_capacity packets.new) }
{
    let to = addressees(alloc, nodes, sender, recipients)?;
    let made = packets_for(alloc, sender, &to, encoded)?;
    packets.reserve(made.len())?;
    Ok((made, message.clone()?))
}

/// Takes the message under the node's own key, and keeps its packets unless that is refused.
fn take<P: PublicKey>(
    core: &mut Core<P, TestMessage, u64>,
    packets: &mut Vec<Packet<P>>,
    made: Vec<Packet<P>>,
    message: Digested<TestMessage>,
) -> Answer<TestMessage>
    requires { vec_len packets.old + vec_len made ≤ vec_capacity packets.old }
    ensures follows { (w : Scene P) (n : P) (r : Recipients P) (bytes : List ℕ)
        → encoding_of message.message ≡ Some bytes
        → NodeFollows P.cmp w n (event.Broadcast r message) core.old core.new result }
    ensures packets { (w : Scene P) (e : Option (P × NodeEvent P)) (sent : List (Keyed P))
        → AreCopies P.cmp made.items (made_by P.cmp w e) → AreCopies P.cmp packets.old.items sent
        → AreCopies P.cmp packets.new.items
        (sent ++ made_by P.cmp w (unless_refused P.cmp w (world.Given result) e)) }
{
    let mut made = made;
    match node::broadcast(core, message) {
        Ok(answer) => {
            let _appended = packets.append(&mut made);
            answer
        }
        Err(_) => Answer::Refused(Cause::Memory),
    }
}
