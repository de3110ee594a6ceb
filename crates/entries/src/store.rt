//! The lists, by number.
ghost use Rattle.std.specs.Prelude.{◌≡◌, ◌+◌, ◌^◌, ◌<◌, ◌≤◌, true, is_some, length, OnErr, IfOk};
ghost use Rattle.std.specs.Prelude.{MatchOption, None, []};
ghost use Rattle.std.specs.Map.{lookup};
ghost use Rattle.entries.specs.Linked.{IsApart};
ghost use Rattle.entries.specs.Overlaid.{same_number};
ghost use Rattle.entries.specs.Store.{Puts, Evicts, Extends, Removes, vacant_at, items_at, moved};
ghost use Rattle.entries.specs.Store.{digests_of, bytes_of};

use crate::chain::Walk;
use crate::entry::Charged;
use crate::list::LinkedList;
use slab::Slab;
use std::alloc::{AllocError, Global};
use std::marker::Model;

/// The digests of each list, the newest first. A list goes by a number.
#[derive(Drop)]
pub struct Entries {
    alloc: Global,
    lists: Slab<LinkedList>,
}

impl Model for Entries {
    ghost use Rattle.std.specs.Prelude.{ℕ};
    ghost use Rattle.slab.specs.Slab.{entries};
    ghost use Rattle.entries.specs.Store.{Listed, lists_of, vacants_of};

    ghost Value = { Listed ℕ ℕ };

    ghost view = { λ it. record {
      lists = lists_of (entries it.lists);
      vacant = vacants_of (entries it.lists);
    } };
}

impl Entries {
    /// Creates empty lists. Does not allocate.
    pub fn new(alloc: Global) -> Self
        ensures { result ≡ record { lists = []; vacant = [] } }
    {
        Entries {
            alloc,
            lists: Slab::new(alloc),
        }
    }

    /// Returns the place of the next insert into the list.
    pub fn vacant(&self, list: usize) -> usize
        ensures { result ≡ vacant_at same_number list self.now }
    {
        match self.lists.get(list) {
            Some(found) => found.vacant(),
            None => 0,
        }
    }

    /// Opens an empty list, and returns its number. On an allocation failure nothing changes.
    pub fn open(&mut self) -> Result<usize, AllocError>
        ensures fresh { IfOk result (λ list. lookup (same_number list) self.old.lists ≡ None) }
        ensures ok { IfOk result (λ list. Puts same_number list [] self.old.lists self.new.lists) }
        ensures there { IfOk result (λ list.
            is_some (lookup (same_number list) self.new.lists) ≡ true) }
        ensures err { OnErr result (self.new ≡ self.old) }
    {
        let Ok(list) = self.lists.insert(LinkedList::new(self.alloc)) else {
            return Err(AllocError);
        };
        Ok(list)
    }

    /// Returns the sum of the charges on the list.
    pub fn bytes(&self, list: usize) -> u128
        ensures { result ≡ bytes_of (items_at same_number list self.now.lists) }
    {
        match self.lists.get(list) {
            Some(found) => found.bytes(),
            None => 0,
        }
    }

    /// Moves the entry at `place` to the front of the list, with another digest and
    /// charge. Does nothing if the list has no such entry. Returns the sum of the charges on the
    /// list. Does not allocate.
    pub fn promote(&mut self, list: usize, place: usize, digest: Charged<usize>) -> u128
        requires room { bytes_of (items_at same_number list self.old.lists)
            + digest.charge < 2 ^ 128 }
        ensures bytes { result ≡ bytes_of (items_at same_number list self.new.lists) }
        ensures moved { let same = same_number in
            Puts same list (moved place digest
            (items_at same list self.old.lists)) self.old.lists self.new.lists }
        ensures apart { IsApart (items_at same_number list self.old.lists) }
    {
        let Some(found) = self.lists.get_mut(list) else {
            return 0;
        };
        found.promote(place, digest);
        found.bytes()
    }

    /// Puts a digest in front of the list, at the place of the next insert, and removes
    /// the oldest digest if there are then more than `size`. Returns the sum of the charges on the
    /// list, and what was removed.
    ///
    /// On an allocation failure nothing changes.
    pub fn push(
        &mut self,
        list: usize,
        digest: Charged<usize>,
        size: usize,
    ) -> Result<(u128, Option<Charged<usize>>), AllocError>
        requires there { is_some (lookup (same_number list) self.old.lists) ≡ true }
        requires room { bytes_of (items_at same_number list self.old.lists)
            + digest.charge < 2 ^ 128 }
        requires some { 0 < size }
        ensures bytes { IfOk result (λ pushed. pushed.0
            ≡ bytes_of (items_at same_number list self.new.lists)) }
        ensures ok { IfOk result (λ pushed. Extends same_number list
            (vacant_at same_number list self.old, digest) size pushed.1
            self.old.lists self.new.lists) }
        ensures err { OnErr result (self.new ≡ self.old) }
    {
        let Some(found) = self.lists.get_mut(list) else {
            unreachable!()
        };
        let stale = found.push(digest, size)?;
        Ok((found.bytes(), stale))
    }

    /// Removes the oldest digest of the list, and returns it. Does not allocate.
    pub fn evict(&mut self, list: usize) -> Option<Charged<usize>>
        ensures { let same = same_number in
            MatchOption result
            ((items_at same list self.old.lists ≡ []) × (self.new.lists ≡ self.old.lists))
            (λ stale. Evicts same list stale self.old.lists self.new.lists) }
    {
        let Some(found) = self.lists.get_mut(list) else {
            return None;
        };
        found.evict()
    }

    /// Removes the oldest digest of the list if the charges on it sum to more than `limit`, and
    /// returns it. Does not allocate.
    pub fn evict_over(&mut self, list: usize, limit: u64) -> Option<Charged<usize>>
        ensures { let same = same_number in
            MatchOption result
            ((bytes_of (items_at same list self.old.lists) ≤ limit)
            × (self.new.lists ≡ self.old.lists))
            (λ stale. (limit < bytes_of (items_at same list self.old.lists))
            × Evicts same list stale self.old.lists self.new.lists) }
    {
        if self.bytes(list) <= u128::from(limit) {
            return None;
        }
        self.evict(list)
    }

    /// Removes an empty list. Does not allocate.
    pub fn remove(&mut self, list: usize)
        requires { items_at same_number list self.old.lists ≡ [] }
        ensures { Removes same_number list self.old.lists self.new.lists }
    {
        self.lists.try_remove(list);
    }

    /// Returns how many digests the list has.
    pub fn count(&self, list: usize) -> usize
        ensures { result ≡ length (items_at same_number list self.now.lists) }
    {
        match self.lists.get(list) {
            Some(found) => found.count(),
            None => 0,
        }
    }

    /// Starts a walk over the digests of the list, the newest first. Does not allocate.
    pub fn walk(&self, list: usize) -> Walk<'_>
        ensures { result ≡ digests_of (items_at same_number list self.now.lists) }
    {
        match self.lists.get(list) {
            Some(found) => found.walk(),
            None => Walk::at_end(),
        }
    }
}
