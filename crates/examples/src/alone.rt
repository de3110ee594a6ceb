//! What the only node of a network needs.
use super::two_nodes::KEY_1;
use anyhow::Error;
use commonware_broadcast::Key;
use memory_network::{Inbound, Network, Outbound, PeerSets};
use std::alloc::AllocGlobal;
use std::sync::Wait;

/// A runtime of the node's own, its peer sets, and its network.
pub type Parts<R> = (R, PeerSets<Key, R>, (Outbound<Key, R>, Inbound<Key, R>));

/// Creates what the only node of a network needs.
pub fn parts_of<R: Wait + AllocGlobal + Clone + Drop>(rt: &R) -> Result<Parts<R>, Error> {
    let ends = Network::between(rt, &[KEY_1])?.join(rt, &KEY_1)?;
    Ok((rt.clone()?, ends.provider, (ends.sender, ends.receiver)))
}
