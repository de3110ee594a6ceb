//! The state of a core, but for its own key.
ghost use Rattle.std.specs.Prelude.{◌≡◌, [], length, Some, None, if◌then◌else◌, IfOk, IfErr, OnErr};
ghost use Rattle.std.specs.Option.{option_map};
ghost use Rattle.broadcast_core.specs.Changes.{IsSubscribed, IsTaken, TakesPeers};
ghost use Rattle.broadcast_core.specs.Content.{same_by};
ghost use Rattle.broadcast_core.specs.Empty.{empty};
ghost use Rattle.broadcast_core.specs.Stored.{Sheds, with_own};

use crate::buffer::cache::Cache;
use crate::buffer::waiters::Waiters;
use crate::codec::EncodeSize;
use crate::digested::{Digested, Digestible};
use crate::ordered::{PublicKey, Set};
use crate::outcome::{Subscribed, Taken};
use std::alloc::{AllocError, AllocFailed, Global};
use std::marker::Model;

/// The state of a core, but for its own key, which is borrowed while the rest changes.
#[derive(Drop)]
pub struct State<P: PublicKey, M: Digestible, W> {
    /// The primary keys, the lists and the cached messages.
    pub cache: Cache<P, M>,
    /// The waiters by digest.
    pub waiters: Waiters<M::Digest, W>,
}

impl<P: PublicKey, M: Digestible, W> Model for State<P, M, W> {
    ghost use Rattle.broadcast_core.specs.Content.{same_by};
    ghost use Rattle.broadcast_core.specs.Stored.{Kept, Unawaited};

    ghost Value = { Kept P M M.Digest W };

    ghost view = { λ it. record { cache = it.cache; waiters = it.waiters } };

    ghost invariant = { λ it. Unawaited (same_by P.cmp M.Digest.cmp)
        it.cache.shelf.stored it.waiters };
}

impl<P: PublicKey, M: Digestible, W: Drop> State<P, M, W> {
    /// Creates the state of an empty core. It keeps the messages that leave if it `reports` them.
    /// Does not allocate.
    pub fn new(alloc: Global, deque_size: usize, byte_budget: u64, reports: bool) -> Self
        ensures core { (own : P) → with_own own result ≡ empty own deque_size byte_budget }
        ensures left { result.cache.shelf.left ≡ (if reports then Some [] else None) }
    {
        State {
            cache: Cache::new(alloc, deque_size, byte_budget, reports),
            waiters: Waiters::new(alloc),
        }
    }

    /// Takes the message under the key, and takes out the waiters of its digest.
    pub fn take(&mut self, peer: &P, message: &Digested<M>) -> Result<Taken<W>, AllocError>
    where
        M: EncodeSize,
        ensures taken { (own : P) → IsTaken (same_by P.cmp M.Digest.cmp) peer.now message.now
            (option_map length (M.encoding message.now.message))
            (with_own own self.old) (with_own own self.new) result }
        ensures sheds { Sheds (same_by P.cmp M.Digest.cmp).digest
            self.old.cache.shelf self.new.cache.shelf }
        ensures err { OnErr result (self.new ≡ self.old) }
    {
        let listing = self.cache.take(peer, message, charge_of(message))?;
        // A cached digest has no waiters.
        let served = self.waiters.take(&message.digest(), listing.was_cached);
        Ok(Taken {
            outcome: listing.outcome,
            served,
            entered: listing.entered,
        })
    }

    /// Returns `waiter` with the cached message of `digest`, or puts it behind the other waiters of
    /// the digest if none is cached.
    pub fn subscribe(
        &mut self,
        digest: M::Digest,
        waiter: W,
    ) -> Result<Subscribed<W, M>, AllocFailed<W>>
        ensures ok { IfOk result (λ subscribed. (own : P) → IsSubscribed
            (same_by P.cmp M.Digest.cmp) digest waiter
            (with_own own self.old) (with_own own self.new) subscribed) }
        ensures err { IfErr result (λ refused. (refused.value ≡ waiter) × (self.new ≡ self.old)) }
        ensures cache { self.new.cache ≡ self.old.cache }
    {
        if let Some(message) = self.cache.get(&digest) {
            return match message.clone() {
                Ok(message) => Ok(Subscribed::Answered(waiter, message)),
                Err(_) => Err(AllocFailed { value: waiter }),
            };
        }
        match self.waiters.push(digest, waiter) {
            Ok(()) => Ok(Subscribed::Waiting),
            Err((value, _)) => Err(AllocFailed { value }),
        }
    }

    /// Makes `peers` the primary keys, and drops the lists of all other keys.
    pub fn update_primary_peers(&mut self, peers: Set<P>)
        ensures taken { (own : P) → TakesPeers (same_by P.cmp M.Digest.cmp) peers
            (with_own own self.old) (with_own own self.new) }
        ensures sheds { Sheds (same_by P.cmp M.Digest.cmp).digest
            self.old.cache.shelf self.new.cache.shelf }
    {
        self.cache.update_primary_peers(peers);
    }
}

/// Returns what the message is charged: the length of its encoding, if it has one.
fn charge_of<M: Digestible + EncodeSize>(message: &Digested<M>) -> Option<u64>
    ensures { result ≡ option_map length (M.encoding message.now.message) }
{
    match message.inner().encode_size() {
        Some(size) => Some(size as u64),
        None => None,
    }
}
