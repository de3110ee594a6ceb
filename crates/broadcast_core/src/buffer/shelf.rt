//! Lists by number, and each listed message once.
ghost use Rattle.std.specs.Prelude.{◌≡◌, ◌≤◌, ◌<◌, ◌+◌, ◌^◌, ◌∷◌, ◌&&◌, true, not, length, take, [], None, Some, IsSome, is_some, unwrap_or, IfOk, IfSome, OnOk, OnErr, IsOk};
ghost use Rattle.std.specs.Option.{option_copied, option_map};
ghost use Rattle.std.specs.List.{IsDistinct};
ghost use Rattle.std.specs.Map.{lookup, keys_of};
ghost use Rattle.std.specs.Ordering.{eq_by_cmp};
ghost use Rattle.entries.specs.Overlaid.{same_number, overlaid};
ghost use Rattle.entries.specs.Store.{items_at as nodes_at, bytes_of as sum_of, vacant_at, Extends};
ghost use Rattle.entries.specs.Table.{place_at, items_of, messages_of, IsTabled, KeepsNames, Takes};
ghost use Rattle.broadcast_core.specs.Content.{affordable, same_charged, without, at_charge, digests_of, bytes_of, among, items_at, outcome_of};
ghost use Rattle.broadcast_core.specs.Numbered.{same_listed};
ghost use Rattle.broadcast_core.specs.Fronted.{within, fronted};
ghost use Rattle.broadcast_core.specs.Stored.{has_digest, empty_shelf, KeepsRest, Sheds, Pops};
ghost use Rattle.broadcast_core.specs.Indexed.{names_of, Holds, Pushes};
ghost use Rattle.broadcast_core.specs.Left.{Adds, HasRoom, Widens};

use crate::buffer::left::{Left, leave};
use crate::digested::{Digested, Digestible};
use crate::outcome::{Listing, Outcome};
use entries::{Charged, Entries, Table};
use std::alloc::{AllocError, Global};
use std::marker::Model;

/// Lists that go by numbers, and the messages of their digests. An entry of a list has the number
/// of its message's item in place of the digest.
#[derive(Drop)]
pub struct Shelf<M: Digestible> {
    lists: Entries,
    table: Table<Digested<M>>,
    // The most digests on a list.
    deque_size: usize,
    // The most bytes that a list is charged.
    byte_budget: u64,
    // The messages that left. There is room for each message of the table.
    left: Left<M>,
}

impl<M: Digestible> Model for Shelf<M> {
    ghost use Rattle.std.specs.Prelude.{ℕ, length};
    ghost use Rattle.broadcast_core.specs.Left.{HasRoom};
    ghost use Rattle.broadcast_core.specs.Numbered.{same_listed};
    ghost use Rattle.broadcast_core.specs.Indexed.{IsShelved, names_of, shelved_of};
    ghost use Rattle.entries.specs.Table.{items_of, messages_of};
    ghost use Rattle.broadcast_core.specs.Stored.{Shelf};

    ghost Value = { Shelf ℕ M M.Digest };

    ghost view = { λ it. record {
      deque_size = it.deque_size;
      byte_budget = it.byte_budget;
      stored = shelved_of it.lists.lists it.table;
      left = it.left.items;
    } };

    ghost invariant = { λ it. IsShelved (same_listed M.Digest.cmp) (names_of it.table)
        it.lists.lists (items_of it.table)
        × HasRoom (length (messages_of (items_of it.table))) it.left };
}

impl<M: Digestible> Shelf<M> {
    ghost use Rattle.std.specs.Prelude.{ℕ};
    ghost use Rattle.broadcast_core.specs.Numbered.{Opens, Closes};
    ghost use Rattle.broadcast_core.specs.Stored.{Stores, Drops, Cuts};

    /// Creates a shelf with no list. It keeps the messages that leave if it `reports` them. Does
    /// not allocate.
    pub fn new(alloc: Global, deque_size: usize, byte_budget: u64, reports: bool) -> Self
        ensures { result ≡ empty_shelf deque_size byte_budget reports }
    {
        Shelf {
            lists: Entries::new(alloc),
            table: Table::new(alloc),
            deque_size,
            byte_budget,
            left: Left::new(alloc, reports),
        }
    }

    /// Returns the most digests on a list.
    pub fn deque_size(&self) -> usize
        ensures { result ≡ self.now.deque_size }
    {
        self.deque_size
    }

    /// Returns the charge, if it is within the byte budget.
    pub fn afforded(&self, charge: Option<u64>) -> Option<u64>
        ensures charge { (d : M.Digest) → affordable self.now.byte_budget d charge
            ≡ option_map (at_charge d) result }
        ensures affordable { IfSome result (λ bytes. bytes ≤ self.now.byte_budget) }
    {
        match charge {
            Some(bytes) if bytes <= self.byte_budget => Some(bytes),
            _ => None,
        }
    }

    /// Returns the number of messages that left and were not removed yet.
    pub fn left_len(&self) -> usize
        ensures { result ≡ unwrap_or (option_map length self.now.left) 0 }
    {
        self.left.len()
    }

    /// Removes the message that left last, and returns it.
    pub fn pop_left(&mut self) -> Option<Digested<M>>
        ensures { Pops result self.old self.new }
    {
        self.left.pop()
    }

    /// Opens an empty list, and returns its number. On an allocation failure nothing changes.
    pub fn open(&mut self) -> Result<usize, AllocError>
        ensures ok { IfOk result (λ list. Opens list self.old.stored self.new.stored) }
        ensures rest { KeepsRest self.old self.new }
        ensures err { OnErr result (self.new ≡ self.old) }
    {
        self.lists.open()
    }

    /// Closes an empty list.
    pub fn close(&mut self, list: usize)
        requires empty { items_at same_number list self.old.stored.lists ≡ [] }
        ensures closed { Closes list self.old.stored self.new.stored }
        ensures rest { KeepsRest self.old self.new }
    {
        self.lists.remove(list);
    }

    /// Returns the message of `digest`.
    pub fn get(&self, digest: &M::Digest) -> Option<&Digested<M>>
        ensures message { option_copied result
            ≡ lookup (eq_by_cmp M.Digest.cmp digest.now) self.now.stored.messages }
        ensures named { IfSome result (λ message.
            eq_by_cmp M.Digest.cmp digest.now message.now.digest ≡ true) }
    {
        self.table.get(digest)
    }

    /// Returns the number of messages.
    pub fn len(&self) -> usize
        ensures len { result ≡ length self.now.stored.messages }
        ensures distinct { IsDistinct (eq_by_cmp M.Digest.cmp) (keys_of self.now.stored.messages) }
    {
        self.table.len()
    }

    /// Puts the digest in front of the list, with its charge, and drops the oldest digests beyond
    /// the limits.
    pub fn take(
        &mut self,
        list: usize,
        message: &Digested<M>,
        charge: u64,
    ) -> Result<Listing, AllocError>
        requires there { is_some (lookup (same_number list) self.old.stored.lists) ≡ true }
        requires size { length (items_at same_number list self.old.stored.lists)
            ≤ self.old.deque_size }
        requires bytes { bytes_of (items_at same_number list self.old.stored.lists)
            ≤ self.old.byte_budget }
        requires affordable { charge ≤ self.old.byte_budget }
        ensures outcome { let same = same_listed M.Digest.cmp in
            let cs = items_at same.key list self.old.stored.lists in
            IfOk result (λ listing. listing.outcome
            ≡ outcome_of true true (has_digest same.digest message.now.digest cs)) }
        ensures cached { IfOk result (λ listing. listing.was_cached ≡ true → is_some (lookup
            (eq_by_cmp M.Digest.cmp message.now.digest) self.old.stored.messages) ≡ true) }
        ensures entered { let at = eq_by_cmp M.Digest.cmp message.now.digest in
            IfOk result (λ listing. listing.entered
            ≡ (not (is_some (lookup at self.old.stored.messages))
            && is_some (lookup at self.new.stored.messages))) }
        ensures ok { let same = same_listed M.Digest.cmp in
            let cs = items_at same.key list self.old.stored.lists in
            let c = at_charge message.now.digest charge in
            OnOk result (Stores same list message.now
            (fronted same.digest self.old.deque_size self.old.byte_budget c cs)
            self.old.stored self.new.stored) }
        ensures sheds { Sheds (eq_by_cmp M.Digest.cmp) self.old self.new }
        ensures err { OnErr result (self.new ≡ self.old) }

        // These never fail.
        ensures succeeds_on_duplicate { among (eq_by_cmp M.Digest.cmp) message.now.digest
            (digests_of (items_at same_number list self.old.stored.lists)) ≡ true → IsOk result }
        ensures succeeds_at_size_zero { self.old.deque_size ≡ 0 → IsOk result }
    {
        if self.deque_size == 0 {
            return Ok(Listing::unchanged(Outcome::Inserted));
        }
        let (listing, bytes) = self.insert(list, message, charge)?;
        if bytes > u128::from(self.byte_budget) {
            self.cut(list);
        }
        Ok(listing)
    }

    /// Drops the oldest digests of the list until their charges sum to at most the byte budget.
    fn cut(&mut self, list: usize)
        ensures cut { Cuts (same_listed M.Digest.cmp) list (within self.old.byte_budget
            (items_at same_number list self.old.stored.lists)) self.old.stored self.new.stored }
        ensures sheds { Sheds (eq_by_cmp M.Digest.cmp) self.old self.new }
    {
        while let Some(stale) = self.lists.evict_over(list, self.byte_budget) {
            leave(&mut self.table, stale.digest, list, &mut self.left);
        }
    }

    /// Puts the digest in front of the list, which keeps at least one. Returns also the sum of the
    /// charges.
    fn insert(
        &mut self,
        list: usize,
        message: &Digested<M>,
        charge: u64,
    ) -> Result<(Listing, u128), AllocError>
        requires there { is_some (lookup (same_number list) self.old.stored.lists) ≡ true }
        requires size { length (items_at same_number list self.old.stored.lists)
            ≤ self.old.deque_size }
        requires some { 0 < self.old.deque_size }
        requires room { bytes_of (items_at same_number list self.old.stored.lists) < 2 ^ 64 }
        ensures outcome { let same = same_listed M.Digest.cmp in
            let cs = items_at same.key list self.old.stored.lists in
            IfOk result (λ put. put.0.outcome
            ≡ outcome_of true true (has_digest same.digest message.now.digest cs)) }
        ensures cached { IfOk result (λ put. put.0.was_cached ≡ is_some (lookup
            (eq_by_cmp M.Digest.cmp message.now.digest) self.old.stored.messages)) }
        ensures entered { IfOk result (λ put. put.0.entered ≡ not (is_some (lookup
            (eq_by_cmp M.Digest.cmp message.now.digest) self.old.stored.messages))) }
        ensures bytes { IfOk result (λ put. put.1
            ≡ bytes_of (items_at same_number list self.new.stored.lists)) }
        ensures ok { let same = same_listed M.Digest.cmp in
            let cs = items_at same.key list self.old.stored.lists in
            let c = at_charge message.now.digest charge in
            OnOk result (Stores same list message.now
            (take self.old.deque_size (c ∷ without (same_charged same.digest) c cs))
            self.old.stored self.new.stored) }
        ensures sheds { Sheds (eq_by_cmp M.Digest.cmp) self.old self.new }
        ensures err { OnErr result (self.new ≡ self.old) }
        ensures there { OnOk result (is_some (lookup
            (eq_by_cmp M.Digest.cmp message.now.digest) self.new.stored.messages) ≡ true) }
        ensures named { (d : M.Digest) (x : _)
            → lookup (eq_by_cmp M.Digest.cmp d) self.new.stored.messages ≡ Some x
            → eq_by_cmp M.Digest.cmp d x.digest ≡ true }
        ensures succeeds_on_duplicate { among (eq_by_cmp M.Digest.cmp) message.now.digest
            (digests_of (items_at same_number list self.old.stored.lists)) ≡ true → IsOk result }
    {
        let found = self.table.insert(message, list, self.lists.vacant(list))?;
        let entered = !found.was_there;
        let charged = Charged {
            digest: found.item,
            charge,
        };
        let bytes = match found.place {
            Some(place) => self.lists.promote(list, place, charged),
            None => push(
                &mut self.lists,
                &mut self.table,
                list,
                charged,
                self.deque_size,
                &mut self.left,
            )?,
        };
        // Both arms leave the invariant here.
        let _lists = &self.lists;
        let listing = Listing {
            outcome: outcome(found.place),
            was_cached: found.was_there,
            entered,
        };
        Ok((listing, bytes))
    }

    /// Returns the sum of the charges on the list.
    pub fn bytes(&self, list: usize) -> u128
        ensures { result ≡ bytes_of (items_at same_number list self.now.stored.lists) }
    {
        self.lists.bytes(list)
    }

    /// Returns the digests on the list, newest first.
    pub fn list(&self, alloc: Global, list: usize) -> Result<Vec<M::Digest>, AllocError>
        ensures digests { IfOk result (λ digests. digests.items
            ≡ digests_of (items_at same_number list self.now.stored.lists)) }
        ensures succeeds_on_empty { items_at same_number list self.now.stored.lists ≡ []
            → IsOk result }
        ensures distinct { IsDistinct (same_charged (eq_by_cmp M.Digest.cmp))
            (items_at same_number list self.now.stored.lists) }
    {
        let len = self.lists.count(list);
        if len == 0 {
            return Ok(Vec::new(alloc));
        }
        let mut digests = Vec::with_capacity(alloc, len)?;
        let mut items = self.lists.walk(list);
        while let Some(item) = items.next() {
            if let Some(message) = self.table.at(item) {
                digests.push(message.digest())?;
            }
        }
        Ok(digests)
    }

    /// Copies the digests on the list to the front of `out`, newest first, as many as
    /// there are places for. Returns how many digests are on the list.
    pub fn list_into(&self, list: usize, out: &mut [M::Digest]) -> usize
        ensures len { result ≡ length (items_at same_number list self.now.stored.lists) }
        ensures digests { out.new ≡ overlaid
            (digests_of (items_at same_number list self.now.stored.lists)) out.old }
    {
        let mut items = self.lists.walk(list);
        let mut i = 0;
        while i < out.len() {
            let Some(item) = items.next() else {
                break;
            };
            if let Some(message) = self.table.at(item) {
                out[i] = message.digest();
                i += 1;
            }
        }
        self.lists.count(list)
    }

    /// Drops the list.
    pub fn remove(&mut self, list: usize)
        ensures dropped { Drops (same_listed M.Digest.cmp) (list ∷ []) []
            self.old.stored self.new.stored }
        ensures sheds { Sheds (eq_by_cmp M.Digest.cmp) self.old self.new }
    {
        while let Some(stale) = self.lists.evict(list) {
            leave(&mut self.table, stale.digest, list, &mut self.left);
        }
        self.lists.remove(list);
    }
}

/// Returns the outcome for a digest that had this place on the list.
fn outcome(place: Option<usize>) -> Outcome
    ensures { result ≡ outcome_of true true (is_some place) }
{
    if place.is_some() {
        Outcome::Duplicate
    } else {
        Outcome::Inserted
    }
}

/// Puts an item of the table in front of the list, and takes the oldest out of both if the list
/// has then more than `size`. Returns the sum of the charges on the list.
///
/// On an allocation failure the list leaves the item, and the lists stay.
fn push<M: Digestible>(
    lists: &mut Entries,
    table: &mut Table<Digested<M>>,
    list: usize,
    charged: Charged<usize>,
    size: usize,
    left: &mut Left<M>,
) -> Result<u128, AllocError>
    requires there { is_some (lookup (same_number list) lists.old.lists) ≡ true }
    requires some { 0 < size }
    requires room { sum_of (nodes_at same_number list lists.old.lists) + charged.charge < 2 ^ 128 }
    requires tabled { IsTabled M.Digest.cmp (λ m. m.digest) table.old }
    ensures bytes { IfOk result (λ bytes. bytes
        ≡ sum_of (nodes_at same_number list lists.new.lists)) }
    ensures ok { let place = vacant_at same_number list lists.old in
        OnOk result (Pushes M.Digest.cmp list (place, charged) size
        lists.old.lists lists.new.lists table.old table.new) }
    ensures stays { OnErr result (lists.new ≡ lists.old) }
    ensures err { OnErr result (Takes M.Digest.cmp (λ m. m.digest) charged.digest list
        table.old table.new) }
    ensures tabled { IsTabled M.Digest.cmp (λ m. m.digest) table.new }
    ensures left { OnOk result (Adds (eq_by_cmp M.Digest.cmp) (messages_of (items_of table.old))
        (messages_of (items_of table.new)) left.old.items left.new.items) }
    ensures left_room { OnOk result (HasRoom (length (messages_of (items_of table.new))) left.new) }
    ensures left_stays { OnErr result (Widens left.old left.new) }
{
    let pushed = match left.make_room(table.len()) {
        Ok(()) => lists.push(list, charged, size),
        Err(refused) => Err(refused),
    };
    match pushed {
        Ok((bytes, stale)) => {
            if let Some(stale) = stale {
                leave(table, stale.digest, list, left);
            }
            Ok(bytes)
        }
        Err(refused) => {
            table.remove(charged.digest, list);
            Err(refused)
        }
    }
}
