//! A core that reports which messages left it.
ghost use Rattle.std.specs.Prelude.{◌≡◌, ◌≤◌, ◌*◌, ◌++◌, [], length, None, IfOk, IfErr, OnErr};
ghost use Rattle.std.specs.List.{count_by, IsDistinct};
ghost use Rattle.std.specs.Map.{keys_of};
ghost use Rattle.std.specs.Option.{option_copied, option_map, option_to_list};
ghost use Rattle.std.specs.Ordering.{eq_by_cmp};
ghost use Rattle.entries.specs.Overlaid.{overlaid};
ghost use Rattle.broadcast_core.specs.Content.{same_by, bytes_of, charged_at, list_at, message_at, waiting_at};
ghost use Rattle.broadcast_core.specs.Empty.{empty};
ghost use Rattle.broadcast_core.specs.Changes.{IsTaken, TakesPeers, Cleans, CleansAt, IsSubscribed};
ghost use Rattle.broadcast_core.specs.Waiters.{NoneEmpty, is_gone, gone_from};
ghost use Rattle.broadcast_core.specs.Counted.{counted};

use crate::buffer::state::State;
use crate::codec::EncodeSize;
use crate::digested::{Digested, Digestible};
use crate::ordered::{PublicKey, Set};
use crate::outcome::{Subscribed, Taken};
use crate::requests::Ticketed;
use std::alloc::{AllocError, AllocFailed, Global};
use std::marker::Model;

/// A core whose shelf keeps the messages that left, until it has reported them.
///
/// A message leaves when its digest leaves the last list. [`Reporting::pop_left`] reports it, once.
#[derive(Drop)]
pub struct Reporting<P: PublicKey, M: Digestible, W> {
    own: P,
    state: State<P, M, W>,
}

impl<P: PublicKey, M: Digestible, W> Model for Reporting<P, M, W> {
    ghost use Rattle.std.specs.Prelude.{◌≡◌, [], is_some, true, unwrap_or};
    ghost use Rattle.broadcast_core.specs.Reports.{Reported};
    ghost use Rattle.broadcast_core.specs.Stored.{with_own};

    ghost Value = { Reported P M M.Digest W };

    ghost view = { λ it. record {
      core = with_own it.own it.state;
      left = unwrap_or it.state.cache.shelf.left [];
    } };

    ghost invariant = { λ it. is_some it.state.cache.shelf.left ≡ true };
}

impl<P: PublicKey, M: Digestible, W: Drop> Reporting<P, M, W> {
    ghost use Rattle.broadcast_core.specs.Reports.{Reports};

    /// Creates an empty core, as [`Core::new`] does.
    pub fn new(alloc: Global, own: P, deque_size: usize, byte_budget: u64) -> Self
        ensures core { result.core ≡ empty own deque_size byte_budget }
        ensures left { result.left ≡ [] }
    {
        Reporting {
            own,
            state: State::new(alloc, deque_size, byte_budget, true),
        }
    }

    /// Returns the primary keys.
    pub fn primary(&self) -> &Set<P>
        ensures { result.now ≡ self.now.core.primary }
    {
        self.state.cache.primary()
    }

    /// Returns the number of cached messages, as [`Core::cached_len`] does.
    pub fn cached_len(&self) -> usize
        ensures len { result ≡ length self.now.core.cached }
        ensures distinct { IsDistinct (eq_by_cmp M.Digest.cmp) (keys_of self.now.core.cached) }
        ensures bounded { result ≤ length self.now.core.primary * self.now.core.deque_size }
    {
        self.state.cache.len()
    }

    /// Returns the number of digests that have waiters, as [`Core::awaited`] does.
    pub fn awaited(&self) -> usize
        ensures len { result ≡ length self.now.core.waiters }
        ensures distinct { IsDistinct (eq_by_cmp M.Digest.cmp) (keys_of self.now.core.waiters) }
        ensures none_empty { NoneEmpty (eq_by_cmp M.Digest.cmp) self.now.core.waiters }
    {
        self.state.waiters.len()
    }

    /// Returns the cached message of `digest`, as [`Core::get`] does.
    pub fn get(&self, digest: &M::Digest) -> Option<&Digested<M>>
        ensures { let same = same_by P.cmp M.Digest.cmp in
            option_copied result ≡ message_at same self.now.core digest.now }
    {
        self.state.cache.get(digest)
    }

    /// Returns what the list of `peer` is charged, as [`Core::bytes`] does.
    pub fn bytes(&self, peer: &P) -> u64
        ensures sum { let same = same_by P.cmp M.Digest.cmp in
            result ≡ bytes_of (charged_at same self.now.core peer.now) }
        ensures bounded { result ≤ self.now.core.byte_budget }
    {
        self.state.cache.bytes(peer)
    }

    /// Copies the digests on the list of `peer`, as [`Core::list_into`] does.
    pub fn list_into(&self, peer: &P, out: &mut [M::Digest]) -> usize
        ensures len { let same = same_by P.cmp M.Digest.cmp in
            result ≡ length (list_at same self.now.core peer.now) }
        ensures digests { let same = same_by P.cmp M.Digest.cmp in
            out.new ≡ overlaid (list_at same self.now.core peer.now) out.old }
    {
        self.state.cache.list_into(peer, out)
    }

    /// Makes `peers` the primary keys, as [`Core::update_primary_peers`] does.
    pub fn update_primary_peers(&mut self, peers: Set<P>)
        ensures taken { TakesPeers (same_by P.cmp M.Digest.cmp) peers self.old.core self.new.core }
        ensures left { Reports (same_by P.cmp M.Digest.cmp) self.old self.new }
    {
        self.state.update_primary_peers(peers);
    }

    /// Takes `message` under the key `peer`, as [`Core::take`] does.
    pub fn take(&mut self, peer: &P, message: &Digested<M>) -> Result<Taken<W>, AllocError>
    where
        M: EncodeSize,
        ensures taken { IsTaken (same_by P.cmp M.Digest.cmp) peer.now message.now
            (option_map length (M.encoding message.now.message))
            self.old.core self.new.core result }
        ensures left { Reports (same_by P.cmp M.Digest.cmp) self.old self.new }
        ensures err { OnErr result (self.new ≡ self.old) }
    {
        self.state.take(peer, message)
    }

    /// Returns the number of messages that left and were not reported yet.
    pub fn left_len(&self) -> usize
        ensures { result ≡ length self.now.left }
    {
        self.state.cache.left_len()
    }

    /// Reports the message that left last, if one was not reported yet. Does not allocate.
    pub fn pop_left(&mut self) -> Option<Digested<M>>
        ensures popped { self.old.left ≡ self.new.left ++ option_to_list result }
        ensures empty { result ≡ None → self.old.left ≡ [] }
        ensures core { self.new.core ≡ self.old.core }
    {
        self.state.cache.pop_left()
    }

    /// Returns `waiter` with the cached message, or lets it wait, as [`Core::subscribe`] does.
    pub fn subscribe(
        &mut self,
        digest: M::Digest,
        waiter: W,
    ) -> Result<Subscribed<W, M>, AllocFailed<W>>
        ensures ok { IfOk result (IsSubscribed (same_by P.cmp M.Digest.cmp) digest waiter
            self.old.core self.new.core) }
        ensures err { IfErr result (λ refused. (refused.value ≡ waiter)
            × (self.new.core ≡ self.old.core)) }
        ensures left { self.new.left ≡ self.old.left }
    {
        self.state.subscribe(digest, waiter)
    }

    /// Drops every waiter whose ticket is in `gone`, as [`Core::cleanup`] does.
    pub fn cleanup(&mut self, gone: &[u64]) -> u64
    where
        W: Ticketed,
        ensures dropped { Cleans (same_by P.cmp M.Digest.cmp) (is_gone W.ticket_of gone.now)
            self.old.core self.new.core }
        ensures removed { result ≡ counted (gone_from W.ticket_of gone.now self.old.core.waiters) }
        ensures left { self.new.left ≡ self.old.left }
    {
        self.state.waiters.cleanup(gone)
    }

    /// Drops the waiters of `digest` whose tickets are in `gone`, as [`Core::cleanup_of`] does.
    pub fn cleanup_of(&mut self, digest: &M::Digest, gone: &[u64]) -> u64
    where
        W: Ticketed,
        ensures dropped { CleansAt (same_by P.cmp M.Digest.cmp) digest.now
            (is_gone W.ticket_of gone.now) self.old.core self.new.core }
        ensures removed { result ≡ count_by (is_gone W.ticket_of gone.now)
            (waiting_at (same_by P.cmp M.Digest.cmp) self.old.core digest.now) }
        ensures left { self.new.left ≡ self.old.left }
    {
        self.state.waiters.cleanup_of(digest, gone)
    }
}
