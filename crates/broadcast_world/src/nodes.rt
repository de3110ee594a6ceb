//! The nodes of a world, and an event at the one that a key names.
ghost use Rattle.std.specs.Prelude.{◌≡◌, ◌<◌, IsTrue, None, Some, length, IfOk, IfSome, MatchOption};
ghost use Rattle.std.specs.Arc.{arc_value};
ghost use Rattle.std.specs.List.{find, slice_get};
ghost use Rattle.std.specs.Ordering.{eq_by_cmp};
ghost use Rattle.broadcast_world.specs.Nodes.{AreEmpty, AtNode};
ghost use Rattle.broadcast_world.specs.Scene.{Scene};
ghost use Rattle.broadcast_world.specs.World.{event_at};
ghost use Rattle.broadcast_core.specs.declared.event.Event.TheVariants as event;

use crate::encoded::Encoded;
use crate::made::cores_for;
use crate::node;
use crate::step::WorldAnswer;
use broadcast_core::{Core, Digest, PublicKey, RangeCfg, Set, TestMessage};
use std::alloc::{AllocError, Global};
use std::sync::Arc;

/// The keys of the nodes, and the core of each.
#[derive(Drop)]
pub struct Nodes<P: PublicKey> {
    pub keys: Arc<Set<P>>,
    pub cores: Vec<Core<P, TestMessage, u64>>,
    ghost one_each: { length cores.items ≡ length (arc_value keys) },
}

impl<P: PublicKey> Nodes<P> {
    /// Creates nodes with these keys, each with an empty core.
    pub fn new(
        alloc: Global,
        keys: Arc<Set<P>>,
        deque_size: usize,
        byte_budget: u64,
    ) -> Result<Self, AllocError>
        ensures keys { IfOk result (λ nodes. nodes.keys ≡ keys) }
        ensures empty { IfOk result (λ nodes.
            AreEmpty P.cmp deque_size byte_budget (arc_value keys) nodes.cores.items) }
    {
        let cores = cores_for(alloc, keys.as_slice(), deque_size, byte_budget)?;
        Ok(Nodes { keys, cores })
    }

    /// Returns the place of the node that the key names.
    pub fn place_of(&self, key: &P) -> Option<usize>
        ensures node { MatchOption result
            (find (eq_by_cmp P.cmp key.now) (arc_value self.now.keys) ≡ None) (λ place.
            (node : P) × (slice_get (arc_value self.now.keys) place ≡ Some node)
            × (find (eq_by_cmp P.cmp key.now) (arc_value self.now.keys) ≡ Some node)) }
        ensures core { IfSome result (λ place. place < length self.now.cores.items) }
    {
        place_of(&self.keys, key)
    }

    /// Makes a copy of these keys the primary ones at the node.
    pub fn peers(&mut self, key: &P, peers: &Set<P>) -> WorldAnswer
        ensures keys { self.new.keys ≡ self.old.keys }
        ensures node { (w : Scene P) → w.nodes ≡ arc_value self.old.keys
            → AtNode P.cmp w (event_at P.cmp w key.now (event.Peers peers.now))
            self.old.cores.items self.new.cores.items result }
    {
        let Some(place) = self.place_of(key) else {
            return WorldAnswer::NoSuch;
        };
        WorldAnswer::Given(node::peers(&mut self.cores[place], peers))
    }

    /// Takes the bytes under the peer's key at the node. Keys are compared by value.
    pub fn payload(
        &mut self,
        alloc: Global,
        range: &RangeCfg,
        key: &P,
        peer: &P,
        bytes: &[u8],
    ) -> WorldAnswer
        ensures keys { self.new.keys ≡ self.old.keys }
        ensures node { (w : Scene P) (n p : P)
            → w.nodes ≡ arc_value self.old.keys → w.range ≡ range.now
            → IsTrue (eq_by_cmp P.cmp n key.now) → IsTrue (eq_by_cmp P.cmp p peer.now)
            → AtNode P.cmp w (event_at P.cmp w n (event.Payload p bytes.now))
            self.old.cores.items self.new.cores.items result }
    {
        let Some(place) = self.place_of(key) else {
            return WorldAnswer::NoSuch;
        };
        WorldAnswer::Given(node::payload(alloc, &mut self.cores[place], range, peer, bytes))
    }

    /// Takes the message that the bytes of the encoding decode to under the peer's key at the node.
    /// Keys are compared by value.
    pub fn delivery(
        &mut self,
        range: &RangeCfg,
        key: &P,
        peer: &P,
        encoded: &Encoded,
    ) -> WorldAnswer
        ensures keys { self.new.keys ≡ self.old.keys }
        ensures node { (w : Scene P) (n p : P)
            → w.nodes ≡ arc_value self.old.keys → w.range ≡ range.now
            → IsTrue (eq_by_cmp P.cmp n key.now) → IsTrue (eq_by_cmp P.cmp p peer.now)
            → AtNode P.cmp w (event_at P.cmp w n (event.Payload p encoded.now.bytes))
            self.old.cores.items self.new.cores.items result }
    {
        let Some(place) = self.place_of(key) else {
            return WorldAnswer::NoSuch;
        };
        WorldAnswer::Given(node::delivery(&mut self.cores[place], range, peer, encoded))
    }

    /// Answers a subscribe at the node.
    pub fn subscribe(&mut self, key: &P, ticket: u64, digest: &Digest) -> WorldAnswer
        ensures keys { self.new.keys ≡ self.old.keys }
        ensures node { (w : Scene P) → w.nodes ≡ arc_value self.old.keys
            → AtNode P.cmp w (event_at P.cmp w key.now (event.Subscribe ticket digest.now))
            self.old.cores.items self.new.cores.items result }
    {
        let Some(place) = self.place_of(key) else {
            return WorldAnswer::NoSuch;
        };
        WorldAnswer::Given(node::subscribe(&mut self.cores[place], ticket, digest))
    }

    /// Answers a get at the node.
    pub fn get(&self, key: &P, ticket: u64, digest: &Digest) -> WorldAnswer
        ensures { (w : Scene P) → w.nodes ≡ arc_value self.now.keys
            → AtNode P.cmp w (event_at P.cmp w key.now (event.Get ticket digest.now))
            self.now.cores.items self.now.cores.items result }
    {
        let Some(place) = self.place_of(key) else {
            return WorldAnswer::NoSuch;
        };
        WorldAnswer::Given(node::get(&self.cores[place], ticket, digest))
    }

    /// Drops the waiters with these tickets at the node.
    pub fn cleanup(&mut self, key: &P, gone: &[u64]) -> WorldAnswer
        ensures keys { self.new.keys ≡ self.old.keys }
        ensures node { (w : Scene P) → w.nodes ≡ arc_value self.old.keys
            → AtNode P.cmp w (event_at P.cmp w key.now (event.Cleanup gone.now))
            self.old.cores.items self.new.cores.items result }
    {
        let Some(place) = self.place_of(key) else {
            return WorldAnswer::NoSuch;
        };
        WorldAnswer::Given(node::cleanup(&mut self.cores[place], gone))
    }
}

/// Returns the place of the node that the key names.
pub fn place_of<P: PublicKey>(nodes: &Set<P>, key: &P) -> Option<usize>
    ensures { MatchOption result (find (eq_by_cmp P.cmp key.now) nodes.now ≡ None) (λ place.
        (node : P) × (slice_get nodes.now place ≡ Some node)
        × (find (eq_by_cmp P.cmp key.now) nodes.now ≡ Some node)) }
{
    let _sorted = nodes.as_slice();
    nodes.position(key)
}
