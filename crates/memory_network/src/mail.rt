//! The mail of a node, and the ends that its engine has of it.
ghost use Rattle.std.specs.Prelude.{◌≡◌, ⊤, true, IfOk, map};
ghost use Rattle.std.specs.List.{filter, list_any};
ghost use Rattle.std.specs.Arc.{arc_value};
ghost use Rattle.std.specs.Ordering.{eq_by_cmp};
ghost use Rattle.memory_network.specs.declared.mail.Mail.{Mail as MailOf};
ghost use Rattle.memory_network.specs.Recipients.{is_recipient};

use crate::line::Line;
use broadcast_core::{Items, Key, PublicKey, Recipients, Set};
use engine_io::{NetworkFailed, Provider, Receiver, Sender};
use futures::task::{Context, Poll};
use std::alloc::{AllocError, Global};
use std::marker::Model;
use std::sync::atomic::{AtomicU64, Ordering};
use std::sync::{Arc, Wait};

/// A payload with the key of its sender.
pub type Payload<P> = (P, Items<u8>);

/// What a network gives a node: a payload, or that it failed.
pub type Received<P> = Result<Payload<P>, NetworkFailed>;

/// What one node takes: its peer sets, and the payloads that are sent to it.
#[derive(Drop)]
pub struct Mail<P: PublicKey> {
    /// The key of the node.
    pub key: P,
    /// Its peer sets.
    pub sets: Line<Set<P>>,
    /// The payloads. A failure ends its engine.
    pub payloads: Line<Received<P>>,
    /// How often its engine asked whether there is a peer set, as it does whenever it is polled.
    pub polls: AtomicU64,
}

impl<P: PublicKey> Mail<P> {
    /// Creates the mail of the node of the key: it has no peers and no payloads yet.
    pub fn new(alloc: Global, key: P) -> Self
        ensures { result.key ≡ key }
    {
        Mail {
            key,
            sets: Line::new(alloc),
            payloads: Line::new(alloc),
            polls: AtomicU64::new(0),
        }
    }

    /// Gives the node a new set of primary peers.
    pub fn set_peers(&self, rt: &impl Wait, peers: Set<P>) -> Result<(), AllocError> {
        self.sets.give(rt, peers)
    }

    /// Hands the node a payload from `sender`, which may be any key.
    pub fn deliver(&self, rt: &impl Wait, sender: P, bytes: Vec<u8>) -> Result<(), AllocError> {
        self.payloads.give(rt, Ok((sender, Items::from_vec(bytes))))
    }

    /// Lets the node's network fail once its payloads are taken, which ends its engine.
    pub fn fail(&self, rt: &impl Wait) -> Result<(), AllocError> {
        self.payloads.give(rt, Err(NetworkFailed))
    }
}

/// Gives a node its peer sets. Contracts see the source that fires once there is one.
#[derive(Drop)]
pub struct PeerSets<P: PublicKey, R> {
    mail: Arc<Mail<P>>,
    rt: R,
}

impl<P: PublicKey, R> Model for PeerSets<P, R> {
    ghost use Rattle.std.specs.Prelude.{ℕ};
    ghost use Rattle.std.specs.Arc.{arc_value};

    ghost Value = { ℕ };

    ghost view = { λ it. (arc_value it.mail).sets };
}

impl<P: PublicKey, R: Clone + Drop> PeerSets<P, R> {
    /// Creates the end of this mail. `rt` is the right to wait for its locks.
    pub fn new(rt: &R, mail: &Arc<Mail<P>>) -> Result<Self, AllocError>
        ensures { IfOk result (λ it. it ≡ (arc_value mail.now).sets) }
    {
        Ok(PeerSets {
            mail: Arc::try_clone(mail)?,
            rt: rt.clone()?,
        })
    }
}

/// There may always be another set, so an engine over it never ends because there are no more.
impl<P: PublicKey, R: Wait> Provider<P> for PeerSets<P, R> {
    ghost may_end = { λ _. ⊥ };

    ghost needs = { λ it source. source ≡ it };

    /// Returns whether there is a set, and counts that it was asked.
    fn may_have_update(&self) -> bool {
        // One task asks, so no other addition is lost.
        let polls = self.mail.polls.load(Ordering::Acquire);
        self.mail
            .polls
            .store(polls.saturating_add(1), Ordering::Release);
        self.mail.sets.has_item()
    }

    fn poll_update(&mut self, cx: &mut Context<'_>) -> Poll<Option<Set<P>>> {
        match self.mail.sets.poll(&self.rt, cx) {
            Poll::Ready(set) => Poll::Ready(Some(set)),
            Poll::Pending => Poll::Pending,
        }
    }
}

/// Gives a node its payloads. Contracts see the source that fires once there is one.
#[derive(Drop)]
pub struct Inbound<P: PublicKey, R> {
    mail: Arc<Mail<P>>,
    rt: R,
}

impl<P: PublicKey, R> Model for Inbound<P, R> {
    ghost use Rattle.std.specs.Prelude.{ℕ};
    ghost use Rattle.std.specs.Arc.{arc_value};

    ghost Value = { ℕ };

    ghost view = { λ it. (arc_value it.mail).payloads };
}

impl<P: PublicKey, R: Clone + Drop> Inbound<P, R> {
    /// Creates the end of this mail. `rt` is the right to wait for its locks.
    pub fn new(rt: &R, mail: &Arc<Mail<P>>) -> Result<Self, AllocError>
        ensures { IfOk result (λ it. it ≡ (arc_value mail.now).payloads) }
    {
        Ok(Inbound {
            mail: Arc::try_clone(mail)?,
            rt: rt.clone()?,
        })
    }
}

impl<P: PublicKey, R: Wait> Receiver<P> for Inbound<P, R> {
    ghost needs = { λ it source. source ≡ it };

    fn poll_recv(&mut self, cx: &mut Context<'_>) -> Poll<Received<P>> {
        self.mail.payloads.poll(&self.rt, cx)
    }
}

/// Sends the payloads of a node to other nodes. What an allocation failure keeps from a node is
/// lost.
#[derive(Drop)]
pub struct Outbound<P: PublicKey, R> {
    key: P,
    others: Vec<Arc<Mail<P>>>,
    rt: R,
}

impl<P: PublicKey, R> Model for Outbound<P, R> {
    ghost use Rattle.std.specs.Prelude.{map};
    ghost use Rattle.std.specs.Arc.{arc_value};
    ghost use Rattle.memory_network.specs.Nodes.{Sending};

    ghost Value = { Sending P };

    ghost view = { λ it. record { key = it.key; others = map arc_value it.others.items } };
}

impl<P: PublicKey, R: Clone + Drop> Outbound<P, R> {
    /// Creates what sends to the others under `key`. `rt` is the right to wait for their locks.
    pub fn new(rt: &R, key: &P, others: Vec<Arc<Mail<P>>>) -> Result<Self, AllocError>
        ensures key { IfOk result (λ it. eq_by_cmp P.cmp key.now it.key ≡ true) }
        ensures others { IfOk result (λ it. it.others ≡ map arc_value others.items) }
    {
        Ok(Outbound {
            key: key.clone()?,
            others,
            rt: rt.clone()?,
        })
    }
}

impl<P: PublicKey, R: Wait> Outbound<P, R> {
    /// Sends the bytes to the recipients, for a [`Sender`] of keys of any type. Fails if it can't
    /// tell who they are.
    pub fn spread(&self, recipients: &Recipients<P>, bytes: &[u8]) -> Result<(), AllocError> {
        let alloc = self.others.allocator().clone()?;
        for other in recipients_among(alloc, &self.others, recipients)? {
            let _sent = self.hand(other, bytes);
        }
        Ok(())
    }

    /// Sends a copy of the bytes to the node.
    fn hand(&self, other: &Mail<P>, bytes: &[u8]) -> Result<(), AllocError> {
        let copy = Vec::from_slice(self.others.allocator().clone()?, bytes)?;
        other.deliver(&self.rt, self.key.clone()?, copy)
    }
}

// A trait's method at a generic key may not send the key to another thread.
impl<R: Wait> Sender<u64> for Outbound<u64, R> {
    fn send(&mut self, recipients: Recipients<u64>, bytes: Vec<u8>, _priority: bool)
        ensures { ⊤ }
    {
        let _spread = self.spread(&recipients, &bytes);
    }
}

impl<R: Wait> Sender<Key> for Outbound<Key, R> {
    fn send(&mut self, recipients: Recipients<Key>, bytes: Vec<u8>, _priority: bool)
        ensures { ⊤ }
    {
        let _spread = self.spread(&recipients, &bytes);
    }
}

/// Returns those of the nodes that are recipients, in their order.
fn recipients_among<'a, P: PublicKey>(
    alloc: Global,
    others: &'a [Arc<Mail<P>>],
    recipients: &Recipients<P>,
) -> Result<Vec<&'a Mail<P>>, AllocError>
    ensures { IfOk result (λ chosen. map (λ mail. mail.now) chosen.items
        ≡ filter (λ (mail : MailOf P). is_recipient P.cmp recipients.now mail.key)
        (map arc_value others.now)) }
{
    let mut chosen = Vec::new(alloc);
    for other in others {
        if is_for(recipients, &other.key) {
            chosen.push(&**other)?;
        }
    }
    Ok(chosen)
}

/// Returns whether the node of the key is a recipient.
fn is_for<P: PublicKey>(recipients: &Recipients<P>, key: &P) -> bool
    ensures { result ≡ is_recipient P.cmp recipients.now key.now }
{
    match recipients {
        Recipients::All => true,
        Recipients::One(one) => is_same(one, key),
        Recipients::Some(keys) => is_among(keys.as_slice(), key),
    }
}

/// Returns whether a key equal to this one is among the keys.
fn is_among<P: PublicKey>(keys: &[P], key: &P) -> bool
    ensures { result ≡ list_any (λ one. eq_by_cmp P.cmp one key.now) keys.now }
{
    keys.iter().any(|one| is_same(one, key))
}

/// Returns whether the keys are equal.
pub(crate) fn is_same<P: PublicKey>(one: &P, other: &P) -> bool
    ensures { result ≡ eq_by_cmp P.cmp one.now other.now }
{
    one.cmp(other).is_eq()
}
