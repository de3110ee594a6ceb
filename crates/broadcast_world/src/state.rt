//! A world.
ghost use Rattle.std.specs.Prelude.{◌≡◌, true, false, [], IfOk, Err};
ghost use Rattle.std.specs.Arc.{arc_value};
ghost use Rattle.std.specs.List.{find, list_any, slice_get};
ghost use Rattle.std.specs.Option.{option_copied};
ghost use Rattle.std.specs.Ordering.{eq_by_cmp};
ghost use Rattle.broadcast_world.specs.World.{Log};
ghost use Rattle.broadcast_world.specs.Made.{content_of, shares_key};
ghost use Rattle.broadcast_world.specs.Steps.{HasWorld};
ghost use Rattle.broadcast_world.specs.Nodes.{TakesStep};

use crate::apply::apply;
use crate::error::WorldError;
use crate::made::shares_key;
use crate::nodes::Nodes;
use crate::packet::Packet;
use crate::step::{Step, WorldAnswer};
use broadcast_core::{Core, PublicKey, RangeCfg, Set, TestMessage};
use std::alloc::{AllocError, Global};
use std::marker::Model;
use std::sync::Arc;

/// Nodes, hostile keys, and the packets sent so far.
#[derive(Drop)]
pub struct World<P: PublicKey> {
    nodes: Nodes<P>,
    hostile: Arc<Set<P>>,
    deque_size: usize,
    byte_budget: u64,
    range: RangeCfg,
    packets: Vec<Packet<P>>,
}

impl<P: PublicKey> Model for World<P> {
    ghost use Rattle.std.specs.Arc.{arc_value};
    ghost use Rattle.broadcast_world.specs.Scene.{State};

    ghost Value = { State P };

    ghost view = { λ it. record {
      scene = record {
        nodes = arc_value it.nodes.keys;
        hostile = arc_value it.hostile;
        deque_size = it.deque_size;
        byte_budget = it.byte_budget;
        range = it.range;
      };
      cores = it.nodes.cores.items;
      packets = it.packets.items;
    } };
}

impl<P: PublicKey> World<P> {
    /// Creates a world in which nothing has happened and no packet was sent.
    ///
    /// Each node keeps at most `deque_size` digests of each peer, charged at most `byte_budget`
    /// bytes of their messages' encodings. A hostile key that is listed twice counts once.
    /// `SharedKey` is judged first, and does not allocate.
    pub fn new(
        alloc: Global,
        nodes: Vec<P>,
        hostile: Vec<P>,
        deque_size: usize,
        byte_budget: u64,
        range: RangeCfg,
    ) -> Result<Self, WorldError>
        ensures shared { shares_key P.cmp nodes.items hostile.items ≡ true
            → result ≡ Err WorldError.SharedKey }
        ensures shared_only { result ≡ Err WorldError.SharedKey
            → shares_key P.cmp nodes.items hostile.items ≡ true }
        ensures nodes { IfOk result (λ world. (q : P)
            → list_any (eq_by_cmp P.cmp q) world.scene.nodes
            ≡ list_any (eq_by_cmp P.cmp q) nodes.items) }
        ensures hostile { IfOk result (λ world. (q : P)
            → list_any (eq_by_cmp P.cmp q) world.scene.hostile
            ≡ list_any (eq_by_cmp P.cmp q) hostile.items) }
        ensures nodes_as_given { IfOk result (λ world. (q : P)
            → find (eq_by_cmp P.cmp q) world.scene.nodes
            ≡ find (eq_by_cmp P.cmp q) nodes.items) }
        ensures hostile_as_given { IfOk result (λ world. (q : P)
            → find (eq_by_cmp P.cmp q) world.scene.hostile
            ≡ find (eq_by_cmp P.cmp q) hostile.items) }
        ensures apart { IfOk result (λ world. (q : P)
            → list_any (eq_by_cmp P.cmp q) world.scene.nodes ≡ true
            → list_any (eq_by_cmp P.cmp q) world.scene.hostile ≡ false) }
        ensures deque_size { IfOk result (λ world. world.scene.deque_size ≡ deque_size) }
        ensures byte_budget { IfOk result (λ world. world.scene.byte_budget ≡ byte_budget) }
        ensures range { IfOk result (λ world. world.scene.range ≡ range) }
        ensures empty { IfOk result (λ world. HasWorld P.cmp [] world) }
    {
        if shares_key(&nodes, &hostile) {
            return Err(WorldError::SharedKey);
        }
        let nodes = set_of(alloc, nodes)?;
        let hostile = set_of(alloc, hostile)?;
        Ok(World::over(alloc, nodes, hostile, deque_size, byte_budget, range)?)
    }

    /// Creates a world over these keys in which nothing has happened.
    fn over(
        alloc: Global,
        nodes: Arc<Set<P>>,
        hostile: Arc<Set<P>>,
        deque_size: usize,
        byte_budget: u64,
        range: RangeCfg,
    ) -> Result<Self, AllocError>
        ensures scene { IfOk result (λ world. world.scene ≡ record {
          nodes = arc_value nodes;
          hostile = arc_value hostile;
          deque_size = deque_size;
          byte_budget = byte_budget;
          range = range;
        }) }
        ensures empty { IfOk result (λ world. HasWorld P.cmp [] world) }
    {
        Ok(World {
            nodes: Nodes::new(alloc, nodes, deque_size, byte_budget)?,
            hostile,
            deque_size,
            byte_budget,
            range,
            packets: Vec::new(alloc),
        })
    }

    /// Creates a world with the same keys in which nothing has happened.
    pub(crate) fn anew(&self, alloc: Global) -> Result<Self, AllocError>
        ensures scene { IfOk result (λ world. world.scene ≡ self.now.scene) }
        ensures empty { IfOk result (λ world. HasWorld P.cmp [] world) }
    {
        let nodes = Arc::try_clone(&self.nodes.keys)?;
        let hostile = Arc::try_clone(&self.hostile)?;
        World::over(
            alloc,
            nodes,
            hostile,
            self.deque_size,
            self.byte_budget,
            self.range,
        )
    }

    /// Returns the keys of the nodes.
    pub fn nodes(&self) -> &Set<P>
        ensures { result.now ≡ self.now.scene.nodes }
    {
        &self.nodes.keys
    }

    /// Returns the core of the node that the key names. Does not allocate.
    pub fn core(&self, key: &P) -> Option<&Core<P, TestMessage, u64>>
        ensures { option_copied result ≡ content_of P.cmp self.now key.now }
    {
        let nodes: &Set<P> = &self.nodes.keys;
        let _sorted = nodes.as_slice();
        match nodes.position(key) {
            None => None,
            Some(place) => core_at(&self.nodes.cores, place),
        }
    }

    /// Takes one step.
    pub(crate) fn take(&mut self, alloc: Global, step: &Step<P>) -> WorldAnswer
        ensures { (log : Log P) → HasWorld P.cmp log self.old
            → TakesStep P.cmp log step.now result self.old self.new }
    {
        let nodes: &Set<P> = &self.nodes.keys;
        let _sorted = nodes.as_slice();
        let hostile: &Set<P> = &self.hostile;
        apply(
            alloc,
            &mut self.nodes,
            hostile,
            &self.range,
            &mut self.packets,
            step,
        )
    }
}

/// Returns the set of the keys, to be shared.
fn set_of<P: PublicKey>(alloc: Global, keys: Vec<P>) -> Result<Arc<Set<P>>, AllocError>
    ensures members { IfOk result (λ set. (q : P) → list_any (eq_by_cmp P.cmp q) (arc_value set)
        ≡ list_any (eq_by_cmp P.cmp q) keys.items) }
    ensures first_of_equals { IfOk result (λ set. (q : P) → find (eq_by_cmp P.cmp q) (arc_value set)
        ≡ find (eq_by_cmp P.cmp q) keys.items) }
{
    let keys = Set::from_iter_dedup(keys)?;
    Ok(Arc::new(alloc, keys)?)
}

/// Returns the core at the place.
fn core_at<P: PublicKey>(
    cores: &[Core<P, TestMessage, u64>],
    place: usize,
) -> Option<&Core<P, TestMessage, u64>>
    ensures { option_copied result ≡ slice_get cores.now place }
{
    cores.get(place)
}
