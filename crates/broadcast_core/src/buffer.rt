//! The cache of a node and the waiters for its messages.
//!
//! A call whose result has no `AllocError` does not allocate.
ghost use Rattle.std.specs.Prelude.{◌≡◌, ◌≤◌, true, false, [], length, is_some, IsSome, IfOk, IfSome, IfErr, IsOk};
ghost use Rattle.std.specs.List.{All, IsDistinct, count_by};
ghost use Rattle.std.specs.Map.{keys_of};
ghost use Rattle.std.specs.Option.{option_copied, option_map};
ghost use Rattle.std.specs.Ordering.{eq_by_cmp};
ghost use Rattle.entries.specs.Overlaid.{overlaid};
ghost use Rattle.broadcast_core.specs.Content.{same_by};
ghost use Rattle.broadcast_core.specs.Empty.{empty};

mod cache;
mod gone;
mod left;
mod reporting;
mod shelf;
mod state;
mod waiters;

use crate::codec::EncodeSize;
use crate::digested::{Digested, Digestible};
use crate::ordered::{PublicKey, Set};
use crate::outcome::{Subscribed, Taken};
use crate::requests::{Closable, Ticketed};
pub use reporting::Reporting;
use state::State;
use std::alloc::{AllocError, AllocFailed, Global};
use std::marker::Model;

/// A node's list of the newest digests of each peer, the cached messages and the waiters.
#[derive(Drop)]
pub struct Core<P: PublicKey, M: Digestible, W> {
    own: P,
    state: State<P, M, W>,
}

impl<P: PublicKey, M: Digestible, W> Model for Core<P, M, W> {
    ghost use Rattle.broadcast_core.specs.Content.{Content};
    ghost use Rattle.broadcast_core.specs.Stored.{with_own};

    ghost Value = { Content P M M.Digest W };

    ghost view = { λ it. with_own it.own it.state };
}

impl<P: PublicKey, M: Digestible, W: Drop> Core<P, M, W> {
    ghost use Rattle.std.specs.Prelude.{ℕ, ◌+◌, ◌*◌};
    ghost use Rattle.broadcast_core.specs.Content.{among, bytes_of, charged_at, list_at, message_at, waiting_at};
    ghost use Rattle.broadcast_core.specs.Fronted.{has_primary, is_on_list};
    ghost use Rattle.broadcast_core.specs.Changes.{IsTaken, TakesPeers, Cleans, CleansAt, KeepsStore, IsSubscribed};
    ghost use Rattle.broadcast_core.specs.Waiters.{NoneEmpty, waiting_in, is_gone, gone_from, DropsClosed, DropsClosedIf};
    ghost use Rattle.broadcast_core.specs.Counted.{counted};

    /// Creates an empty core for the node `own` that keeps at most `deque_size` digests a peer,
    /// which are charged at most `byte_budget` bytes together. No peer is primary yet.
    pub fn new(alloc: Global, own: P, deque_size: usize, byte_budget: u64) -> Self
        ensures { result ≡ empty own deque_size byte_budget }
    {
        Core {
            own,
            state: State::new(alloc, deque_size, byte_budget, false),
        }
    }

    /// Returns the own key.
    pub fn own(&self) -> &P
        ensures { result.now ≡ self.now.own }
    {
        &self.own
    }

    /// Returns the primary keys.
    pub fn primary(&self) -> &Set<P>
        ensures { result.now ≡ self.now.primary }
    {
        self.state.cache.primary()
    }

    /// Returns the number of cached messages.
    pub fn cached_len(&self) -> usize
        ensures len { result ≡ length self.now.cached }
        ensures distinct { IsDistinct (eq_by_cmp M.Digest.cmp) (keys_of self.now.cached) }
        ensures bounded { result ≤ length self.now.primary * self.now.deque_size }
    {
        self.state.cache.len()
    }

    /// Returns the number of digests that have waiters.
    pub fn awaited(&self) -> usize
        ensures len { result ≡ length self.now.waiters }
        ensures distinct { IsDistinct (eq_by_cmp M.Digest.cmp) (keys_of self.now.waiters) }
        ensures none_empty { NoneEmpty (eq_by_cmp M.Digest.cmp) self.now.waiters }
    {
        self.state.waiters.len()
    }

    /// Returns the number of waiters of `digest`. A cached digest has none.
    pub fn waiting(&self, digest: &M::Digest) -> usize
        ensures len { let same = same_by P.cmp M.Digest.cmp in
            result ≡ length (waiting_at same self.now digest.now) }
        ensures none_if_cached { let same = same_by P.cmp M.Digest.cmp in
            IsSome (message_at same self.now digest.now) → result ≡ 0 }
    {
        self.state.waiters.waiting(digest)
    }

    /// Returns the digests on the list of `peer`, newest first.
    ///
    /// An `Err` is an allocation failure. An empty list is returned without an allocation.
    pub fn list(&self, alloc: Global, peer: &P) -> Result<Vec<M::Digest>, AllocError>
        ensures digests { let same = same_by P.cmp M.Digest.cmp in
            IfOk result (λ digests. digests.items ≡ list_at same self.now peer.now) }
        ensures succeeds_on_empty { let same = same_by P.cmp M.Digest.cmp in
            list_at same self.now peer.now ≡ [] → IsOk result }

        // What holds of each list.
        ensures distinct { let same = same_by P.cmp M.Digest.cmp in
            IsDistinct same.digest (list_at same self.now peer.now) }
        ensures bounded { let same = same_by P.cmp M.Digest.cmp in
            length (list_at same self.now peer.now) ≤ self.now.deque_size }
        ensures primary_only { let same = same_by P.cmp M.Digest.cmp in
            has_primary same self.now peer.now ≡ false → list_at same self.now peer.now ≡ [] }
        ensures cached { let same = same_by P.cmp M.Digest.cmp in
            All (λ d. is_some (message_at same self.now d) ≡ true)
            (list_at same self.now peer.now) }
    {
        self.state.cache.list(alloc, peer)
    }

    /// Copies the digests on the list of `peer` to the front of `out`, newest first, as many as
    /// there are places for. Returns how many digests are on the list.
    pub fn list_into(&self, peer: &P, out: &mut [M::Digest]) -> usize
        ensures len { result ≡ length (list_at (same_by P.cmp M.Digest.cmp) self.now peer.now) }
        ensures digests { let same = same_by P.cmp M.Digest.cmp in
            out.new ≡ overlaid (list_at same self.now peer.now) out.old }
    {
        self.state.cache.list_into(peer, out)
    }

    /// Returns the sum of the charges of the digests on the list of `peer`.
    pub fn bytes(&self, peer: &P) -> u64
        ensures sum { let same = same_by P.cmp M.Digest.cmp in
            result ≡ bytes_of (charged_at same self.now peer.now) }
        ensures bounded { result ≤ self.now.byte_budget }
    {
        self.state.cache.bytes(peer)
    }

    /// Returns the cached message of `digest`.
    pub fn get(&self, digest: &M::Digest) -> Option<&Digested<M>>
        ensures message { let same = same_by P.cmp M.Digest.cmp in
            option_copied result ≡ message_at same self.now digest.now }
        ensures named { IfSome result (λ message.
            eq_by_cmp M.Digest.cmp digest.now message.now.digest ≡ true) }
        ensures cached_iff_listed { let same = same_by P.cmp M.Digest.cmp in
            is_some (message_at same self.now digest.now) ≡ is_on_list same self.now digest.now }
    {
        self.state.cache.get(digest)
    }

    /// Makes `peers` the primary keys. Drops the lists of all other keys, and the messages that no
    /// list has any more.
    pub fn update_primary_peers(&mut self, peers: Set<P>)
        ensures { TakesPeers (same_by P.cmp M.Digest.cmp) peers self.old self.new }
    {
        self.state.update_primary_peers(peers);
    }

    /// Takes `message` under the key `peer`, and serves every waiter of its digest, whether or not
    /// the key is primary.
    ///
    /// On an allocation failure nothing changes and no waiter is served. Taking a digest that is on
    /// the list already, under a key that is not primary, of a message that alone is above the byte
    /// budget or at `deque_size` 0 never fails.
    pub fn take(&mut self, peer: &P, message: &Digested<M>) -> Result<Taken<W>, AllocError>
    where
        M: EncodeSize,
        ensures { IsTaken (same_by P.cmp M.Digest.cmp) peer.now message.now
            (option_map length (M.encoding message.now.message)) self.old self.new result }
    {
        self.state.take(peer, message)
    }

    /// Takes `message` under the own key, as [`Core::take`] does.
    pub fn take_own(&mut self, message: &Digested<M>) -> Result<Taken<W>, AllocError>
    where
        M: EncodeSize,
        ensures { IsTaken (same_by P.cmp M.Digest.cmp) self.old.own message.now
            (option_map length (M.encoding message.now.message)) self.old self.new result }
    {
        let Core { own, state } = self;
        state.take(own, message)
    }

    /// Returns `waiter` with the cached message of `digest`, or puts it behind the other waiters of
    /// the digest if none is cached.
    ///
    /// On an allocation failure the error has the waiter, and nothing changes.
    pub fn subscribe(
        &mut self,
        digest: M::Digest,
        waiter: W,
    ) -> Result<Subscribed<W, M>, AllocFailed<W>>
        ensures ok { IfOk result
            (IsSubscribed (same_by P.cmp M.Digest.cmp) digest waiter self.old self.new) }
        ensures err { IfErr result (λ refused. (refused.value ≡ waiter) × (self.new ≡ self.old)) }
    {
        self.state.subscribe(digest, waiter)
    }

    /// Drops every waiter whose ticket is in `gone`. Returns how many, saturating at `u64::MAX`.
    pub fn cleanup(&mut self, gone: &[u64]) -> u64
    where
        W: Ticketed,
        ensures dropped { let same = same_by P.cmp M.Digest.cmp in
            Cleans same (is_gone W.ticket_of gone.now) self.old self.new }
        ensures removed { result ≡ counted (gone_from W.ticket_of gone.now self.old.waiters) }
        ensures distinct { IsDistinct (eq_by_cmp M.Digest.cmp) (keys_of self.old.waiters) }
        ensures distinct_left { IsDistinct (eq_by_cmp M.Digest.cmp) (keys_of self.new.waiters) }
    {
        self.state.waiters.cleanup(gone)
    }

    /// Drops every waiter that is closed, asking each of them once. Returns how many, saturating at
    /// `u64::MAX`.
    pub fn cleanup_by(&mut self) -> u64
    where
        W: Closable,
        ensures store { KeepsStore (same_by P.cmp M.Digest.cmp) self.old self.new }
        ensures dropped { let same = same_by P.cmp M.Digest.cmp in
            (d : _) → DropsClosed W.may_answer
            (waiting_at same self.old d) (waiting_at same self.new d) }
        ensures removed { (n : ℕ) × (waiting_in self.old.waiters ≡ waiting_in self.new.waiters + n)
            × (result ≡ counted n) }
        ensures distinct { IsDistinct (eq_by_cmp M.Digest.cmp) (keys_of self.old.waiters) }
        ensures distinct_left { IsDistinct (eq_by_cmp M.Digest.cmp) (keys_of self.new.waiters) }
    {
        self.state.waiters.cleanup_by()
    }

    /// Drops the waiters of the digests that are closed, asking no other. Returns how many,
    /// saturating at `u64::MAX`. A digest may be named twice.
    pub fn cleanup_each(&mut self, digests: &[M::Digest]) -> u64
    where
        W: Closable,
        ensures store { KeepsStore (same_by P.cmp M.Digest.cmp) self.old self.new }
        ensures dropped { let same = same_by P.cmp M.Digest.cmp in
            (d : _) → DropsClosedIf (among same.digest d digests.now) W.may_answer
            (waiting_at same self.old d) (waiting_at same self.new d) }
        ensures removed { (n : ℕ) × (waiting_in self.old.waiters ≡ waiting_in self.new.waiters + n)
            × (result ≡ counted n) }
        ensures distinct { IsDistinct (eq_by_cmp M.Digest.cmp) (keys_of self.old.waiters) }
        ensures distinct_left { IsDistinct (eq_by_cmp M.Digest.cmp) (keys_of self.new.waiters) }
    {
        self.state.waiters.cleanup_each(digests)
    }

    /// Drops the waiters of `digest` whose tickets are in `gone`, and looks at no other. Returns
    /// how many.
    pub fn cleanup_of(&mut self, digest: &M::Digest, gone: &[u64]) -> u64
    where
        W: Ticketed,
        ensures dropped { CleansAt (same_by P.cmp M.Digest.cmp) digest.now
            (is_gone W.ticket_of gone.now) self.old self.new }
        ensures removed { let same = same_by P.cmp M.Digest.cmp in
            result ≡ count_by (is_gone W.ticket_of gone.now)
            (waiting_at same self.old digest.now) }
    {
        self.state.waiters.cleanup_of(digest, gone)
    }

    /// Drops all waiters. Everything else stays.
    pub fn clear_waiters(&mut self)
        ensures store { KeepsStore (same_by P.cmp M.Digest.cmp) self.old self.new }
        ensures none_waits { self.new.waiters ≡ [] }
    {
        self.state.waiters.clear();
    }
}
