//! A cache of messages that the caller keeps.
ghost use Rattle.std.specs.Prelude.{◌≡◌, List, [], length, IfOk, IsOk, OnErr, OnOk, is_some, true, false, None, Ok};
ghost use Rattle.std.specs.List.{count_by, IsDistinct};
ghost use Rattle.std.specs.Map.{keys_of};
ghost use Rattle.broadcast_core.specs.Content.{message_at, waiting_at};
ghost use Rattle.broadcast_core.specs.Empty.{empty};
ghost use Rattle.broadcast_core.specs.Fronted.{has_primary};
ghost use Rattle.broadcast_core.specs.Changes.{TakesPeers, Cleans, CleansAt, Awaits};
ghost use Rattle.broadcast_core.specs.Reports.{Reports};
ghost use Rattle.broadcast_core.specs.Waiters.{is_gone, gone_from};
ghost use Rattle.broadcast_core.specs.Counted.{counted};
ghost use Rattle.broadcast_c.specs.Law.{IsOneEach};
ghost use Rattle.broadcast_c.specs.Storing.{HaveSameNames, MovesLeft, TakesHandle, enters, handle_at, same_bytes};

mod held;
mod name;
mod spare;

use broadcast_core::{Digest, Digested, Items, Outcome, Reporting, Set, Subscribed};
pub use held::Held;
pub use name::Name;
use spare::Spare;
use std::alloc::{AllocError, Global};

/// A cache of messages that the caller keeps, and names by a handle. A waiter is a ticket.
///
/// After an `Err`, which is an allocation failure, nothing has changed.
#[derive(Drop)]
pub struct Store {
    /// The lists, the messages and the waiters, and the messages that left.
    pub cache: Reporting<Name, Held, u64>,
    /// The tickets that the last taken message served, in the order of their subscribes.
    pub served: Items<u64>,
    // The block of the message that was taken last.
    spare: Spare,
}

impl Store {
    /// Creates an empty store for the node `own` that keeps at most `deque_size` digests a peer,
    /// which are charged at most `byte_budget` bytes together.
    pub fn new(alloc: Global, own: Name, deque_size: usize, byte_budget: u64) -> Self
        ensures core { result.cache.core ≡ empty own deque_size byte_budget }
        ensures served { result.served ≡ [] }
        ensures left { result.cache.left ≡ [] }
    {
        Store {
            cache: Reporting::new(alloc, own, deque_size, byte_budget),
            served: Items::new(alloc),
            spare: Spare::new(),
        }
    }

    /// Makes `names` the primary keys. They may come in any order, and repeat. An empty set needs
    /// no allocation.
    pub fn update_primary_peers(&mut self, alloc: Global, names: &[Name]) -> Result<(), AllocError>
        ensures taken { OnOk result ((set : List Name) × HaveSameNames names.now set
            × TakesPeers same_bytes set self.old.cache.core self.new.cache.core) }
        ensures left { OnOk result (Reports same_bytes self.old.cache self.new.cache) }
        ensures served { self.new.served ≡ self.old.served }
        ensures refused { OnErr result (self.new ≡ self.old) }
        ensures succeeds_on_none { names.now ≡ [] → IsOk result }
    {
        let peers = set_of(alloc, names)?;
        self.cache.update_primary_peers(peers);
        Ok(())
    }

    /// Takes the message of the handle under the key `peer`, by the digest, at this charge. Returns
    /// the outcome, and whether the message is now cached and none of its digest was.
    pub fn take(
        &mut self,
        alloc: Global,
        peer: &Name,
        digest: Digest,
        charge: usize,
        handle: u64,
    ) -> Result<(Outcome, bool), AllocError>
        ensures taken { IfOk result (λ taken. TakesHandle peer.now digest charge handle
            self.old self.new taken.0) }
        ensures kept { IfOk result (λ taken. taken.1 ≡ enters digest self.old self.new) }
        ensures left { OnOk result (Reports same_bytes self.old.cache self.new.cache) }
        ensures refused { OnErr result (self.new ≡ self.old) }
    {
        let held = Held {
            handle,
            charge,
            digest,
        };
        let message = Digested::precomputed_shared(self.spare.share(alloc, held)?, digest);
        let taken = self.cache.take(peer, &message);
        self.spare.put(message.into_shared());
        let taken = taken?;
        self.served = taken.served;
        Ok((taken.outcome, taken.entered))
    }

    /// Moves the handles of messages that left to the front of `out`, the newest first, as many as
    /// there are places for. Returns how many it moved.
    pub fn move_left(&mut self, out: &mut [u64]) -> usize
        ensures { MovesLeft self.old self.new out.old out.new result }
    {
        let mut i = 0;
        while i < out.len() {
            let Some(message) = self.cache.pop_left() else {
                break;
            };
            out[i] = message.inner().handle;
            i += 1;
        }
        i
    }

    /// Returns the handle of the cached message of the digest.
    pub fn handle(&self, digest: &Digest) -> Option<u64>
        ensures { result ≡ handle_at self.now.cache.core digest.now }
    {
        match self.cache.get(digest) {
            Some(message) => Some(message.inner().handle),
            None => None,
        }
    }

    /// Lets the ticket wait for the digest, unless its message is cached. Returns whether the
    /// ticket waits.
    pub fn subscribe(&mut self, ticket: u64, digest: Digest) -> Result<bool, AllocError>
        ensures answered { IfOk result (λ waits. waits ≡ false
            → (is_some (message_at same_bytes self.old.cache.core digest) ≡ true)
            × (self.new ≡ self.old)) }
        ensures waits { IfOk result (λ waits. waits ≡ true
            → (message_at same_bytes self.old.cache.core digest ≡ None)
            × Awaits same_bytes digest ticket self.old.cache.core self.new.cache.core
            × (self.new.cache.left ≡ self.old.cache.left)
            × (self.new.served ≡ self.old.served)) }
        ensures refused { OnErr result (self.new ≡ self.old) }
    {
        match self.cache.subscribe(digest, ticket) {
            Ok(Subscribed::Waiting) => Ok(true),
            Ok(Subscribed::Answered(_, _)) => Ok(false),
            Err(_) => Err(AllocError),
        }
    }

    /// Returns the number of cached messages, and that of digests that have waiters.
    pub fn sizes(&self) -> (usize, usize)
        ensures cached { result.0 ≡ length self.now.cache.core.cached }
        ensures awaited { result.1 ≡ length self.now.cache.core.waiters }
        ensures one_each { IsOneEach self.now.cache.core }
    {
        (self.cache.cached_len(), self.cache.awaited())
    }

    /// Returns whether the key is primary.
    pub fn is_primary(&self, peer: &Name) -> bool
        ensures { result ≡ has_primary same_bytes self.now.cache.core peer.now }
    {
        self.cache.primary().position(peer).is_some()
    }

    /// Drops the waiters with these tickets. Returns how many, saturating at `u64::MAX`.
    pub fn cleanup(&mut self, tickets: &[u64]) -> u64
        ensures removed { result
            ≡ counted (gone_from (λ t. t) tickets.now self.old.cache.core.waiters) }
        ensures dropped { Cleans same_bytes (is_gone (λ t. t) tickets.now)
            self.old.cache.core self.new.cache.core }
        ensures distinct { IsDistinct same_bytes.digest (keys_of self.old.cache.core.waiters) }
        ensures left { self.new.cache.left ≡ self.old.cache.left }
        ensures served { self.new.served ≡ self.old.served }
    {
        // Cited: no digest has two lists of waiters.
        self.cache.awaited();
        self.cache.cleanup(tickets)
    }

    /// Drops the waiters of `digest` with these tickets, and looks at no other. Returns how many.
    pub fn cleanup_of(&mut self, digest: &Digest, tickets: &[u64]) -> u64
        ensures removed { result ≡ count_by (is_gone (λ t. t) tickets.now)
            (waiting_at same_bytes self.old.cache.core digest.now) }
        ensures dropped { CleansAt same_bytes digest.now (is_gone (λ t. t) tickets.now)
            self.old.cache.core self.new.cache.core }
        ensures left { self.new.cache.left ≡ self.old.cache.left }
        ensures served { self.new.served ≡ self.old.served }
    {
        self.cache.cleanup_of(digest, tickets)
    }
}

// Returns the set of the names.
fn set_of(alloc: Global, names: &[Name]) -> Result<Set<Name>, AllocError>
    ensures members { IfOk result (HaveSameNames names.now) }
    ensures succeeds_on_none { names.now ≡ [] → IsOk result }
{
    if names.is_empty() {
        return Ok(Set::default(alloc));
    }
    Set::from_iter_dedup(Vec::from_slice(alloc, names)?)
}
