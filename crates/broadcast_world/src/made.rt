//! The parts of a new world.
ghost use Rattle.std.specs.Prelude.{◌≡◌, IfOk};
ghost use Rattle.std.specs.List.{list_any};
ghost use Rattle.std.specs.Ordering.{eq_by_cmp};
ghost use Rattle.broadcast_world.specs.Made.{has_repeat, shares_key};
ghost use Rattle.broadcast_world.specs.Nodes.{AreEmpty};

use crate::packet::is_among;
use broadcast_core::{Core, PublicKey, TestMessage};
use std::alloc::{AllocError, Global};

/// Returns whether a key is twice a node, or a node and hostile. Does not allocate.
pub fn shares_key<P: PublicKey>(nodes: &[P], hostile: &[P]) -> bool
    ensures { result ≡ shares_key P.cmp nodes.now hostile.now }
{
    has_repeat(nodes) || has_common(nodes, hostile)
}

/// Returns whether a key stands in both lists.
fn has_common<P: PublicKey>(keys: &[P], others: &[P]) -> bool
    ensures { result ≡ list_any (λ h. list_any (λ n. eq_by_cmp P.cmp n h) keys.now) others.now }
{
    others.iter().any(|key| is_among(keys, key))
}

/// Returns whether a key stands twice in the list.
fn has_repeat<P: PublicKey>(keys: &[P]) -> bool
    ensures { result ≡ has_repeat P.cmp keys.now }
{
    let mut rest = keys;
    while let Some((key, others)) = rest.split_first() {
        if is_among(others, key) {
            return true;
        }
        rest = others;
    }
    false
}

/// Creates an empty core for each node.
pub fn cores_for<P: PublicKey>(
    alloc: Global,
    nodes: &[P],
    deque_size: usize,
    byte_budget: u64,
) -> Result<Vec<Core<P, TestMessage, u64>>, AllocError>
    ensures { IfOk result (λ cores. AreEmpty P.cmp deque_size byte_budget nodes.now cores.items) }
{
    let mut cores = Vec::with_capacity(alloc, nodes.len())?;
    for node in nodes {
        cores.push(Core::new(alloc, node.clone()?, deque_size, byte_budget))?;
    }
    Ok(cores)
}
