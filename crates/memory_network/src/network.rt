//! The network of some nodes.
ghost use Rattle.std.specs.Prelude.{◌≡◌, true, false, Err, map, [], ◌∷◌, ◌++◌, IfOk, OnOk, IfSome, IfNone};
ghost use Rattle.std.specs.Arc.{arc_value};
ghost use Rattle.std.specs.List.{list_any};
ghost use Rattle.std.specs.Ordering.{eq_by_cmp};
ghost use Rattle.memory_network.specs.Nodes.{AreNodesOf, has_node, others_of};
ghost use Rattle.memory_network.specs.declared.network.JoinError.TheVariants.{Unknown};

use crate::mail::{Inbound, Mail, Outbound, PeerSets, is_same};
use broadcast_core::{PublicKey, Set};
use std::alloc::{AllocError, AllocGlobal, Global};
use std::marker::Model;
use std::sync::{Arc, Wait};
use thiserror::Error;

/// Why a node did not join its network.
#[derive(Clone, Copy, Debug, PartialEq, Eq, Error)]
pub enum JoinError {
    /// An allocation failed.
    #[error("out of memory")]
    Memory,
    /// The network has no node with the key.
    #[error("the network has no node with this key")]
    Unknown,
}

impl From<AllocError> for JoinError {
    ghost use Rattle.memory_network.specs.declared.network.JoinError.TheVariants.{Memory};

    ghost from_gives = { λ _ error. error ≡ Memory };

    fn from(_error: AllocError) -> JoinError {
        JoinError::Memory
    }
}

/// What the engine of a node has of its network, and the node's mail, by which its peers can be
/// changed and payloads handed to it.
#[derive(Drop)]
pub struct Ends<P: PublicKey, R> {
    /// The mail of the node.
    pub mail: Arc<Mail<P>>,
    /// Gives the peer sets.
    pub provider: PeerSets<P, R>,
    /// Sends to the other nodes.
    pub sender: Outbound<P, R>,
    /// Receives what other nodes send.
    pub receiver: Inbound<P, R>,
}

/// A network in memory.
#[derive(Drop)]
pub struct Network<P: PublicKey> {
    mails: Vec<Arc<Mail<P>>>,
}

/// Contracts see a network as the mail of its nodes.
impl<P: PublicKey> Model for Network<P> {
    ghost use Rattle.std.specs.Prelude.{List, map};
    ghost use Rattle.std.specs.Arc.{arc_value};
    ghost use Rattle.memory_network.specs.declared.mail.Mail.{Mail as MailOf};

    ghost Value = { List (MailOf P) };

    ghost view = { λ network. map arc_value network.mails.items };
}

impl<P: PublicKey> Network<P> {
    /// Creates the network of the nodes with these keys. All of them are primary peers of each.
    pub fn new<R: Wait + AllocGlobal>(rt: &R, keys: &Set<P>) -> Result<Self, AllocError>
        ensures { IfOk result (AreNodesOf P.cmp keys.now) }
    {
        let mut mails = Vec::new(rt.alloc());
        let ordered = keys.as_slice();
        for key in ordered {
            mails.push(mail_between(rt, key, keys)?)?;
        }
        Ok(Network { mails })
    }

    /// Creates the network of the nodes with these keys, as [`Network::new`] does. Of several equal
    /// keys it keeps the first.
    pub fn between<R: Wait + AllocGlobal>(rt: &R, keys: &[P]) -> Result<Self, AllocError>
        ensures { IfOk result (λ network. (key : P)
            → has_node P.cmp key network ≡ list_any (eq_by_cmp P.cmp key) keys.now) }
    {
        let mut copies = Vec::new(rt.alloc());
        for key in keys {
            copies.push(key.clone()?)?;
        }
        Network::new(rt, &Set::from_iter_dedup(copies)?)
    }

    /// Returns the mail of each node, in the order of their keys.
    pub fn mails(&self) -> &[Arc<Mail<P>>]
        ensures { map arc_value result.now ≡ self.now }
    {
        &self.mails
    }

    /// Returns the ends of the node with this key.
    pub fn join<R>(&self, rt: &R, key: &P) -> Result<Ends<P, R>, JoinError>
    where
        R: AllocGlobal + Clone + Drop,
        ensures own { IfOk result (λ ends.
            eq_by_cmp P.cmp (arc_value ends.mail).key key.now ≡ true) }
        ensures provider { IfOk result (λ ends. ends.provider ≡ (arc_value ends.mail).sets) }
        ensures receiver { IfOk result (λ ends. ends.receiver ≡ (arc_value ends.mail).payloads) }
        ensures sender { IfOk result (λ ends.
            eq_by_cmp P.cmp (arc_value ends.mail).key ends.sender.key ≡ true) }
        ensures others { IfOk result (λ ends.
            ends.sender.others ≡ others_of P.cmp key.now self.now) }
        ensures unknown { result ≡ Err Unknown → has_node P.cmp key.now self.now ≡ false }
    {
        let Some(mail) = mail_of(&self.mails, key) else {
            return Err(JoinError::Unknown);
        };
        let others = self.others(rt.alloc(), key)?;
        Ok(Ends::new(rt, mail, others)?)
    }

    /// Returns the mail of all nodes but the one with this key.
    pub fn others(&self, alloc: Global, key: &P) -> Result<Vec<Arc<Mail<P>>>, AllocError>
        ensures { IfOk result (λ it. map arc_value it.items ≡ others_of P.cmp key.now self.now) }
    {
        others_among(alloc, &self.mails, key)
    }
}

impl<P: PublicKey, R: Clone + Drop> Ends<P, R> {
    /// Creates the ends of the node of this mail, which sends to the others.
    fn new(rt: &R, mail: &Arc<Mail<P>>, others: Vec<Arc<Mail<P>>>) -> Result<Self, AllocError>
        ensures own { IfOk result (λ ends. arc_value ends.mail ≡ arc_value mail.now) }
        ensures provider { IfOk result (λ ends. ends.provider ≡ (arc_value mail.now).sets) }
        ensures receiver { IfOk result (λ ends. ends.receiver ≡ (arc_value mail.now).payloads) }
        ensures sender { IfOk result (λ ends.
            eq_by_cmp P.cmp (arc_value mail.now).key ends.sender.key ≡ true) }
        ensures others { IfOk result (λ ends. ends.sender.others ≡ map arc_value others.items) }
    {
        Ok(Ends {
            provider: PeerSets::new(rt, mail)?,
            sender: Outbound::new(rt, &mail.key, others)?,
            receiver: Inbound::new(rt, mail)?,
            mail: Arc::try_clone(mail)?,
        })
    }
}

/// Creates the mail of the node of the key, whose primary peers these are.
fn mail_between<P: PublicKey, R: Wait + AllocGlobal>(
    rt: &R,
    key: &P,
    peers: &Set<P>,
) -> Result<Arc<Mail<P>>, AllocError>
    ensures { IfOk result (λ mail. eq_by_cmp P.cmp key.now (arc_value mail).key ≡ true) }
{
    let mail = Mail::new(rt.alloc(), key.clone()?);
    mail.set_peers(rt, peers.clone()?)?;
    Ok(Arc::new(rt.alloc(), mail)?)
}

/// Returns the mail of the node with this key.
fn mail_of<'a, P: PublicKey>(mails: &'a [Arc<Mail<P>>], key: &P) -> Option<&'a Arc<Mail<P>>>
    ensures some { IfSome result (λ mail. eq_by_cmp P.cmp (arc_value mail.now).key key.now ≡ true) }
    ensures none { IfNone result (has_node P.cmp key.now (map arc_value mails.now) ≡ false) }
{
    for mail in mails {
        if is_same(&mail.key, key) {
            return Some(mail);
        }
    }
    None
}

/// Returns the mail of all nodes but the one with this key.
fn others_among<P: PublicKey>(
    alloc: Global,
    mails: &[Arc<Mail<P>>],
    key: &P,
) -> Result<Vec<Arc<Mail<P>>>, AllocError>
    ensures { IfOk result (λ it.
        map arc_value it.items ≡ others_of P.cmp key.now (map arc_value mails.now)) }
{
    let mut others = Vec::new(alloc);
    for mail in mails {
        if !is_same(&mail.key, key) {
            push_clone(&mut others, mail)?;
        }
    }
    Ok(others)
}

/// Appends the mail.
fn push_clone<P: PublicKey>(
    others: &mut Vec<Arc<Mail<P>>>,
    mail: &Arc<Mail<P>>,
) -> Result<(), AllocError>
    ensures { OnOk result (map arc_value others.new.items
        ≡ map arc_value others.old.items ++ arc_value mail.now ∷ []) }
{
    others.push(Arc::try_clone(mail)?)?;
    Ok(())
}
