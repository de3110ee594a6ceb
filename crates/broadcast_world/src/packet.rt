//! Packets, and the nodes that they are made for.
ghost use Rattle.std.specs.Prelude.{◌≡◌, if◌then◌else◌, List, [], ◌∷◌, ◌++◌, Some, IfOk, OnOk};
ghost use Rattle.std.specs.List.{list_any};
ghost use Rattle.std.specs.Ordering.{eq_by_cmp};
ghost use Rattle.broadcast_core.specs.Concerns.{AreEqual};
ghost use Rattle.broadcast_core.specs.Content.{without};
ghost use Rattle.broadcast_world.specs.Scene.{Scene};
ghost use Rattle.broadcast_world.specs.Steps.{AreCopies};
ghost use Rattle.broadcast_world.specs.World.{addressed, addressed_of, packets_to};

use crate::encoded::Encoded;
use crate::nodes::place_of;
use broadcast_core::{PublicKey, Recipients, Set};
use std::alloc::{AllocError, Global};
use std::marker::Model;
use std::sync::Arc;

/// A packet on its way to a node. The packets of a broadcast share its encoding.
#[derive(Drop)]
pub struct Packet<P: PublicKey> {
    sender: P,
    addressee: P,
    encoded: Arc<Encoded>,
}

impl<P: PublicKey> Model for Packet<P> {
    ghost use Rattle.broadcast_world.specs.Packet.{Packet};
    ghost use Rattle.std.specs.Arc.{arc_value};

    ghost Value = { Packet P };

    ghost view = { λ it. record {
      sender = it.sender;
      addressee = it.addressee;
      bytes = (arc_value it.encoded).bytes;
    } };
}

impl<P: PublicKey> Packet<P> {
    /// Returns the key of the node that sent the packet.
    pub fn sender(&self) -> &P
        ensures { result.now ≡ self.now.sender }
    {
        &self.sender
    }

    /// Returns the key of the node that the packet is for.
    pub fn addressee(&self) -> &P
        ensures { result.now ≡ self.now.addressee }
    {
        &self.addressee
    }

    /// Returns the bytes, with the message that they encode.
    pub fn encoded(&self) -> &Encoded
        ensures { result.now.bytes ≡ self.now.bytes }
    {
        &self.encoded
    }
}

/// Returns one packet with the encoding for each of the nodes.
pub fn packets_for<P: PublicKey>(
    alloc: Global,
    sender: &P,
    nodes: &[P],
    encoded: Encoded,
) -> Result<Vec<Packet<P>>, AllocError>
    ensures { (w : Scene P) (to : List P) → AreEqual (eq_by_cmp P.cmp) nodes.now to
        → IfOk result (λ packets. AreCopies P.cmp packets.items
        (packets_to P.cmp w sender.now to (Some encoded.bytes))) }
{
    let encoded = Arc::new(alloc, encoded)?;
    let mut packets = Vec::with_capacity(alloc, nodes.len())?;
    for node in nodes {
        packets.push(Packet {
            sender: sender.clone()?,
            addressee: node.clone()?,
            encoded: Arc::try_clone(&encoded)?,
        })?;
    }
    Ok(packets)
}

/// Returns the nodes other than the sender that the recipients name, each at its first mention.
pub fn addressees<P: PublicKey>(
    alloc: Global,
    nodes: &Set<P>,
    sender: &P,
    recipients: &Recipients<P>,
) -> Result<Vec<P>, AllocError>
    ensures { (w : Scene P) → w.nodes ≡ nodes.now
        → IfOk result (λ to.
        AreEqual (eq_by_cmp P.cmp) to.items (addressed P.cmp w sender.now recipients.now)) }
{
    match recipients {
        Recipients::All => all_but(alloc, nodes.as_slice(), sender),
        Recipients::Some(keys) => address_all(alloc, nodes, sender, keys.as_slice()),
        Recipients::One(key) => {
            let mut to = Vec::new(alloc);
            address(nodes, sender, &mut to, key)?;
            Ok(to)
        }
    }
}

/// Returns the keys that differ from the sender.
fn all_but<P: PublicKey>(alloc: Global, keys: &[P], sender: &P) -> Result<Vec<P>, AllocError>
    ensures { IfOk result (λ to.
        AreEqual (eq_by_cmp P.cmp) to.items (without (eq_by_cmp P.cmp) sender.now keys.now)) }
{
    let mut to = Vec::new(alloc);
    for key in keys {
        push_other(sender, &mut to, key)?;
    }
    Ok(to)
}

/// Appends the key, unless it is the sender.
fn push_other<P: PublicKey>(sender: &P, to: &mut Vec<P>, key: &P) -> Result<(), AllocError>
    ensures { (given : List P) → AreEqual (eq_by_cmp P.cmp) to.old.items given
        → OnOk result (AreEqual (eq_by_cmp P.cmp) to.new.items
        (given ++ (if eq_by_cmp P.cmp sender.now key.now then [] else key.now ∷ []))) }
{
    if is_same(sender, key) {
        return Ok(());
    }
    to.push(key.clone()?)?;
    Ok(())
}

/// Returns the nodes other than the sender that the keys name, each at its first mention.
fn address_all<P: PublicKey>(
    alloc: Global,
    nodes: &Set<P>,
    sender: &P,
    keys: &[P],
) -> Result<Vec<P>, AllocError>
    ensures { (w : Scene P) → w.nodes ≡ nodes.now
        → IfOk result (λ to.
        AreEqual (eq_by_cmp P.cmp) to.items (addressed_of P.cmp w sender.now keys.now)) }
{
    let mut to = Vec::new(alloc);
    for key in keys {
        address(nodes, sender, &mut to, key)?;
    }
    Ok(to)
}

/// Appends the node that the key names, unless it is the sender or there already.
fn address<P: PublicKey>(
    nodes: &Set<P>,
    sender: &P,
    to: &mut Vec<P>,
    key: &P,
) -> Result<(), AllocError>
    ensures { (w : Scene P) → w.nodes ≡ nodes.now
        → (keys : List P)
        → AreEqual (eq_by_cmp P.cmp) to.old.items (addressed_of P.cmp w sender.now keys)
        → OnOk result (AreEqual (eq_by_cmp P.cmp) to.new.items
        (addressed_of P.cmp w sender.now (keys ++ key.now ∷ []))) }
{
    let Some(place) = place_of(nodes, key) else {
        return Ok(());
    };
    let node = &nodes.as_slice()[place];
    if is_same(sender, node) || is_among(to, node) {
        return Ok(());
    }
    to.push(node.clone()?)?;
    Ok(())
}

/// Returns whether the keys are equal.
fn is_same<P: PublicKey>(key: &P, other: &P) -> bool
    ensures { result ≡ eq_by_cmp P.cmp key.now other.now }
{
    key.cmp(other).is_eq()
}

/// Returns whether a key equal to this one is among the keys.
pub fn is_among<P: PublicKey>(keys: &[P], key: &P) -> bool
    ensures { result ≡ list_any (λ k. eq_by_cmp P.cmp k key.now) keys.now }
{
    keys.iter().any(|k| is_same(k, key))
}
