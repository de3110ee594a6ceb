//! One step, over the parts of a world.
ghost use Rattle.std.specs.Prelude.{◌≡◌, List, ◌++◌, None, if◌then◌else◌};
ghost use Rattle.std.specs.Arc.{arc_value};
ghost use Rattle.std.specs.List.{list_any, slice_get};
ghost use Rattle.std.specs.Ordering.{eq_by_cmp};
ghost use Rattle.broadcast_core.specs.declared.event.Event.TheVariants as event;
ghost use Rattle.broadcast_world.specs.Packet.{Packet as Keyed};
ghost use Rattle.broadcast_world.specs.Scene.{Scene};
ghost use Rattle.broadcast_world.specs.World.{delivery, event_at, event_of, made_by, unless_refused};
ghost use Rattle.broadcast_world.specs.Steps.{AreCopies};
ghost use Rattle.broadcast_world.specs.Nodes.{AtNode};

use crate::broadcast::broadcast;
use crate::nodes::Nodes;
use crate::packet::Packet;
use crate::step::{Step, WorldAnswer};
use broadcast_core::{PublicKey, RangeCfg, Set};
use std::alloc::Global;

/// Gives the node the event of the step, and appends the packets that it makes.
pub fn apply<P: PublicKey>(
    alloc: Global,
    nodes: &mut Nodes<P>,
    hostile: &Set<P>,
    range: &RangeCfg,
    packets: &mut Vec<Packet<P>>,
    step: &Step<P>,
) -> WorldAnswer
    ensures keys { nodes.new.keys ≡ nodes.old.keys }
    ensures node { (w : Scene P) (sent : List (Keyed P))
        → w.nodes ≡ arc_value nodes.old.keys → w.hostile ≡ hostile.now → w.range ≡ range.now
        → AreCopies P.cmp packets.old.items sent
        → AtNode P.cmp w (event_of P.cmp w step.now sent)
        nodes.old.cores.items nodes.new.cores.items result }
    ensures packets { (w : Scene P) (sent : List (Keyed P))
        → w.nodes ≡ arc_value nodes.old.keys → w.hostile ≡ hostile.now → w.range ≡ range.now
        → AreCopies P.cmp packets.old.items sent → AreCopies P.cmp packets.new.items
        (sent ++ made_by P.cmp w (unless_refused P.cmp w result (event_of P.cmp w step.now sent))) }
{
    match step {
        Step::Peers(key, peers) => nodes.peers(key, peers),
        Step::Broadcast(key, recipients, message) => {
            broadcast(alloc, nodes, packets, key, recipients, message)
        }
        Step::Subscribe(key, ticket, digest) => nodes.subscribe(key, *ticket, digest),
        Step::Get(key, ticket, digest) => nodes.get(key, *ticket, digest),
        Step::Cleanup(key, gone) => nodes.cleanup(key, gone.as_slice()),
        Step::Deliver(number) => deliver(nodes, range, packets, *number),
        Step::Hostile { from, to, bytes } => {
            attack(alloc, nodes, hostile, range, from, to, bytes.as_slice())
        }
    }
}

/// Brings the packet with this number to its addressee.
fn deliver<P: PublicKey>(
    nodes: &mut Nodes<P>,
    range: &RangeCfg,
    packets: &[Packet<P>],
    number: u64,
) -> WorldAnswer
    ensures keys { nodes.new.keys ≡ nodes.old.keys }
    ensures node { (w : Scene P) (sent : List (Keyed P))
        → w.nodes ≡ arc_value nodes.old.keys → w.range ≡ range.now
        → AreCopies P.cmp packets.now sent
        → AtNode P.cmp w (delivery P.cmp w (slice_get sent number))
        nodes.old.cores.items nodes.new.cores.items result }
{
    let Some(packet) = packets.get(number as usize) else {
        return WorldAnswer::NoSuch;
    };
    nodes.delivery(range, packet.addressee(), packet.sender(), packet.encoded())
}

/// Brings the bytes of a hostile key to the node.
fn attack<P: PublicKey>(
    alloc: Global,
    nodes: &mut Nodes<P>,
    hostile: &Set<P>,
    range: &RangeCfg,
    from: &P,
    to: &P,
    bytes: &[u8],
) -> WorldAnswer
    ensures keys { nodes.new.keys ≡ nodes.old.keys }
    ensures node { (w : Scene P) → w.nodes ≡ arc_value nodes.old.keys
        → w.hostile ≡ hostile.now → w.range ≡ range.now
        → AtNode P.cmp w (if list_any (eq_by_cmp P.cmp from.now) w.hostile
        then event_at P.cmp w to.now (event.Payload from.now bytes.now) else None)
        nodes.old.cores.items nodes.new.cores.items result }
{
    if hostile.position(from).is_none() {
        return WorldAnswer::NoSuch;
    }
    nodes.payload(alloc, range, to, from, bytes)
}
