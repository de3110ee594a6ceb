//! The primary keys, their lists, and each listed message once.
ghost use Rattle.std.specs.Prelude.{◌≡◌, ◌≤◌, ◌*◌, ◌∷◌, ◌&&◌, not, Bool, false, true, length, [], None, is_some, unwrap_or, IfOk, IfSome, OnOk, OnErr, IsOk, MatchBool};
ghost use Rattle.std.specs.Option.{option_copied, option_map};
ghost use Rattle.std.specs.List.{IsDistinct, list_any};
ghost use Rattle.std.specs.Map.{lookup, keys_of};
ghost use Rattle.std.specs.Ordering.{eq_by_cmp};
ghost use Rattle.entries.specs.Overlaid.{overlaid};
ghost use Rattle.broadcast_core.specs.Content.{same_by, same_charged, affordable, at_charge, digests_of, bytes_of, among, items_at, outcome_of};
ghost use Rattle.broadcast_core.specs.Fronted.{fronted};
ghost use Rattle.broadcast_core.specs.Numbered.{IsNumbered, named_of};
ghost use Rattle.broadcast_core.specs.Stored.{has_digest, empty_shelf, Drops, Lawful, Pops, Sheds};

use crate::buffer::shelf::Shelf;
use crate::digested::{Digested, Digestible};
use crate::ordered::{PublicKey, Set};
use crate::outcome::{Listing, Outcome};
use entries::Parts;
use std::alloc::{AllocError, Global};
use std::marker::Model;

/// The primary keys, their lists, and the messages of the listed digests. A list goes by a number.
#[derive(Drop)]
pub struct Cache<P: PublicKey, M: Digestible> {
    primary: Set<P>,
    numbers: Parts<P, usize>,
    shelf: Shelf<M>,
}

impl<P: PublicKey, M: Digestible> Model for Cache<P, M> {
    ghost use Rattle.broadcast_core.specs.Content.{same_by};
    ghost use Rattle.broadcast_core.specs.Numbered.{IsNumbered, named_of};
    ghost use Rattle.broadcast_core.specs.Stored.{Cached, IsCached};

    ghost Value = { Cached P M M.Digest };

    ghost view = { λ it. record {
      primary = it.primary;
      shelf = record {
        deque_size = it.shelf.deque_size;
        byte_budget = it.shelf.byte_budget;
        stored = named_of it.numbers it.shelf.stored;
        left = it.shelf.left;
      };
    } };

    ghost invariant = { λ it. IsNumbered P.cmp M.Digest.cmp it.numbers it.shelf.stored
        × IsCached (same_by P.cmp M.Digest.cmp) it.shelf.deque_size it.shelf.byte_budget
        it.primary (named_of it.numbers it.shelf.stored) };
}

impl<P: PublicKey, M: Digestible> Cache<P, M> {
    ghost use Rattle.broadcast_core.specs.Stored.{Stores, StoresIf};

    /// Creates an empty cache. It keeps the messages that leave if it `reports` them. Does not
    /// allocate.
    pub fn new(alloc: Global, deque_size: usize, byte_budget: u64, reports: bool) -> Self
        ensures primary { result.primary ≡ [] }
        ensures shelf { result.shelf ≡ empty_shelf deque_size byte_budget reports }
    {
        Cache {
            primary: Set::default(alloc),
            numbers: Parts::new(alloc),
            shelf: Shelf::new(alloc, deque_size, byte_budget, reports),
        }
    }

    /// Returns the primary keys.
    pub fn primary(&self) -> &Set<P>
        ensures { result.now ≡ self.now.primary }
    {
        &self.primary
    }

    /// Returns the number of messages that left and were not removed yet.
    pub fn left_len(&self) -> usize
        ensures { result ≡ unwrap_or (option_map length self.now.shelf.left) 0 }
    {
        self.shelf.left_len()
    }

    /// Removes the message that left last, and returns it.
    pub fn pop_left(&mut self) -> Option<Digested<M>>
        ensures popped { Pops result self.old.shelf self.new.shelf }
        ensures primary { self.new.primary ≡ self.old.primary }
    {
        self.shelf.pop_left()
    }

    /// Returns the message of `digest`.
    pub fn get(&self, digest: &M::Digest) -> Option<&Digested<M>>
        ensures lawful { Lawful (same_by P.cmp M.Digest.cmp) self.now }
        ensures message { option_copied result
            ≡ lookup (eq_by_cmp M.Digest.cmp digest.now) self.now.shelf.stored.messages }
        ensures named { IfSome result (λ message.
            eq_by_cmp M.Digest.cmp digest.now message.now.digest ≡ true) }
    {
        self.shelf.get(digest)
    }

    /// Returns the number of messages.
    pub fn len(&self) -> usize
        ensures bounded { result ≤ length self.now.primary * self.now.shelf.deque_size }
        ensures len { result ≡ length self.now.shelf.stored.messages }
        ensures distinct { IsDistinct (eq_by_cmp M.Digest.cmp)
            (keys_of self.now.shelf.stored.messages) }
    {
        self.shelf.len()
    }

    /// Puts the digest in front of the list of a primary key, if its charge is within the byte
    /// budget, and drops the oldest digests beyond the limits.
    pub fn take(
        &mut self,
        peer: &P,
        message: &Digested<M>,
        charge: Option<u64>,
    ) -> Result<Listing, AllocError>
        ensures lawful { Lawful (same_by P.cmp M.Digest.cmp) self.old }
        ensures outcome { let same = same_by P.cmp M.Digest.cmp in
            let old = self.old.shelf in
            let cs = items_at same.key peer.now old.stored.lists in
            IfOk result (λ listing. listing.outcome
            ≡ outcome_of (list_any (same.key peer.now) self.old.primary)
            (is_some (affordable old.byte_budget message.now.digest charge))
            (has_digest same.digest message.now.digest cs)) }
        ensures cached { IfOk result (λ listing. listing.was_cached ≡ true → is_some (lookup
            (eq_by_cmp M.Digest.cmp message.now.digest) self.old.shelf.stored.messages) ≡ true) }
        ensures entered { let at = eq_by_cmp M.Digest.cmp message.now.digest in
            IfOk result (λ listing. listing.entered
            ≡ (not (is_some (lookup at self.old.shelf.stored.messages))
            && is_some (lookup at self.new.shelf.stored.messages))) }
        ensures ok { let same = same_by P.cmp M.Digest.cmp in
            let old = self.old.shelf in
            OnOk result (MatchBool (list_any (same.key peer.now) self.old.primary)
            (StoresIf same peer.now message.now old.deque_size old.byte_budget
            (affordable old.byte_budget message.now.digest charge)
            old.stored self.new.shelf.stored)
            (self.new ≡ self.old)) }
        ensures primary { self.new.primary ≡ self.old.primary }
        ensures sheds { Sheds (eq_by_cmp M.Digest.cmp) self.old.shelf self.new.shelf }
        ensures err { OnErr result (self.new ≡ self.old) }

        // These never fail.
        ensures succeeds_on_duplicate { let old = self.old.shelf.stored in
            among (eq_by_cmp M.Digest.cmp) message.now.digest
            (digests_of (items_at (eq_by_cmp P.cmp) peer.now old.lists)) ≡ true → IsOk result }
        ensures succeeds_on_ineligible { list_any (eq_by_cmp P.cmp peer.now) self.old.primary
            ≡ false → IsOk result }
        ensures succeeds_on_oversize { is_some (affordable self.old.shelf.byte_budget
            message.now.digest charge) ≡ false → IsOk result }
        ensures succeeds_at_size_zero { self.old.shelf.deque_size ≡ 0 → IsOk result }
    {
        let Some(bytes) = self.shelf.afforded(charge) else {
            return Ok(Listing::unchanged(without_charge(&self.primary, peer)));
        };
        match self.numbers.get(peer) {
            // A peer that has a list is primary, so the set is not searched.
            Some(list) => self.shelf.take(*list, message, bytes),
            None if self.primary.position(peer).is_none() => {
                Ok(Listing::unchanged(Outcome::Ineligible))
            }
            None if self.shelf.deque_size() == 0 => Ok(Listing::unchanged(Outcome::Inserted)),
            None => self.take_first(peer, message, bytes),
        }
    }

    /// Puts the digest on the list of a primary key that has none.
    fn take_first(
        &mut self,
        peer: &P,
        message: &Digested<M>,
        charge: u64,
    ) -> Result<Listing, AllocError>
        requires absent { lookup (eq_by_cmp P.cmp peer.now) self.old.shelf.stored.lists ≡ None }
        requires primary { list_any (eq_by_cmp P.cmp peer.now) self.old.primary ≡ true }
        requires affordable { charge ≤ self.old.shelf.byte_budget }
        ensures outcome { IfOk result (λ listing. listing.outcome ≡ outcome_of true true false) }
        ensures cached { IfOk result (λ listing. listing.was_cached ≡ true → is_some (lookup
            (eq_by_cmp M.Digest.cmp message.now.digest) self.old.shelf.stored.messages) ≡ true) }
        ensures entered { let at = eq_by_cmp M.Digest.cmp message.now.digest in
            IfOk result (λ listing. listing.entered
            ≡ (not (is_some (lookup at self.old.shelf.stored.messages))
            && is_some (lookup at self.new.shelf.stored.messages))) }
        ensures ok { let same = same_by P.cmp M.Digest.cmp in
            let old = self.old.shelf in
            let c = at_charge message.now.digest charge in
            OnOk result (Stores same peer.now message.now
            (fronted same.digest old.deque_size old.byte_budget c [])
            old.stored self.new.shelf.stored) }
        ensures primary_stays { self.new.primary ≡ self.old.primary }
        ensures sheds { Sheds (eq_by_cmp M.Digest.cmp) self.old.shelf self.new.shelf }
        ensures err { OnErr result (self.new ≡ self.old) }
    {
        let owner = peer.clone()?;
        let list = self.shelf.open()?;
        let Ok(_none) = self.numbers.find_or_insert(owner, list) else {
            self.shelf.close(list);
            return Err(AllocError);
        };
        // The peers ascend: so says `len`.
        let _peers = self.numbers.len();
        match self.shelf.take(list, message, charge) {
            Ok(taken) => Ok(taken),
            Err(refused) => {
                self.numbers.remove(peer);
                self.shelf.close(list);
                Err(refused)
            }
        }
    }

    /// Returns the sum of the charges on the list of `peer`.
    pub fn bytes(&self, peer: &P) -> u64
        ensures bounded { result ≤ self.now.shelf.byte_budget }
        ensures sum { let lists = self.now.shelf.stored.lists in
            result ≡ bytes_of (items_at (eq_by_cmp P.cmp) peer.now lists) }
    {
        match self.numbers.get(peer) {
            Some(list) => self.shelf.bytes(*list) as u64,
            None => 0,
        }
    }

    /// Returns the digests on the list of `peer`, newest first.
    pub fn list(&self, alloc: Global, peer: &P) -> Result<Vec<M::Digest>, AllocError>
        ensures lawful { Lawful (same_by P.cmp M.Digest.cmp) self.now }
        ensures digests { IfOk result (λ digests. digests.items
            ≡ digests_of (items_at (eq_by_cmp P.cmp) peer.now self.now.shelf.stored.lists)) }
        ensures succeeds_on_empty { let lists = self.now.shelf.stored.lists in
            items_at (eq_by_cmp P.cmp) peer.now lists ≡ [] → IsOk result }
        ensures distinct { IsDistinct (same_charged (eq_by_cmp M.Digest.cmp))
            (items_at (eq_by_cmp P.cmp) peer.now self.now.shelf.stored.lists) }
    {
        match self.numbers.get(peer) {
            Some(list) => self.shelf.list(alloc, *list),
            None => Ok(Vec::new(alloc)),
        }
    }

    /// Copies the digests on the list of `peer` to the front of `out`, newest first, as many as
    /// there are places for. Returns how many digests are on the list.
    pub fn list_into(&self, peer: &P, out: &mut [M::Digest]) -> usize
        ensures len { let lists = self.now.shelf.stored.lists in
            result ≡ length (items_at (eq_by_cmp P.cmp) peer.now lists) }
        ensures digests { out.new ≡ overlaid
            (digests_of (items_at (eq_by_cmp P.cmp) peer.now self.now.shelf.stored.lists)) out.old }
    {
        match self.numbers.get(peer) {
            Some(list) => self.shelf.list_into(*list, out),
            None => 0,
        }
    }

    /// Makes `peers` the primary keys, and drops the lists of all other keys.
    pub fn update_primary_peers(&mut self, peers: Set<P>)
        ensures lawful { Lawful (same_by P.cmp M.Digest.cmp) self.old }
        ensures primary { self.new.primary ≡ peers }
        ensures dropped { Drops (same_by P.cmp M.Digest.cmp) self.old.primary peers
            self.old.shelf.stored self.new.shelf.stored }
        ensures sheds { Sheds (eq_by_cmp M.Digest.cmp) self.old.shelf self.new.shelf }
    {
        drop_lists(
            &mut self.numbers,
            &mut self.shelf,
            self.primary.as_slice(),
            &peers,
        );
        self.primary = peers;
    }
}

/// Drops the lists of those peers of `was` that are not among `peers`.
fn drop_lists<P: PublicKey, M: Digestible>(
    numbers: &mut Parts<P, usize>,
    shelf: &mut Shelf<M>,
    was: &[P],
    peers: &Set<P>,
)
    requires { IsNumbered P.cmp M.Digest.cmp numbers.old shelf.old.stored }
    ensures numbered { IsNumbered P.cmp M.Digest.cmp numbers.new shelf.new.stored }
    ensures dropped { Drops (same_by P.cmp M.Digest.cmp) was.now peers.now
        (named_of numbers.old shelf.old.stored) (named_of numbers.new shelf.new.stored) }
    ensures sheds { Sheds (eq_by_cmp M.Digest.cmp) shelf.old shelf.new }
{
    let mut at = 0;
    for peer in was {
        let (next, is_there) = peers.seek(at, peer);
        at = next;
        if !is_there {
            drop_list(numbers, shelf, peer);
        }
    }
}

/// Drops the list of `peer`.
fn drop_list<P: PublicKey, M: Digestible>(
    numbers: &mut Parts<P, usize>,
    shelf: &mut Shelf<M>,
    peer: &P,
)
    requires { IsNumbered P.cmp M.Digest.cmp numbers.old shelf.old.stored }
    ensures numbered { IsNumbered P.cmp M.Digest.cmp numbers.new shelf.new.stored }
    ensures dropped { Drops (same_by P.cmp M.Digest.cmp) (peer.now ∷ []) []
        (named_of numbers.old shelf.old.stored) (named_of numbers.new shelf.new.stored) }
    ensures sheds { Sheds (eq_by_cmp M.Digest.cmp) shelf.old shelf.new }
{
    let list = numbers.remove(peer);
    // The peers ascend: so says `len`.
    let _peers = numbers.len();
    if let Some(list) = list {
        shelf.remove(list);
    }
}

/// Returns the outcome for a message without a charge.
fn without_charge<P: PublicKey>(primary: &Set<P>, peer: &P) -> Outcome
    ensures { (has : Bool) → result
        ≡ outcome_of (list_any (eq_by_cmp P.cmp peer.now) primary.now) false has }
{
    if primary.position(peer).is_some() {
        Outcome::Oversize
    } else {
        Outcome::Ineligible
    }
}
