//! The waiters, by digest.
ghost use Rattle.std.specs.Prelude.{◌≡◌, true, ℕ, ◌+◌, ◌++◌, [], ◌∷◌, not, nat_lt, length, if◌then◌else◌, IfOk, OnOk, IfErr};
ghost use Rattle.std.specs.List.{filter, count_by, list_any, IsDistinct};
ghost use Rattle.std.specs.BTreeMap.Range.{entries_between};
ghost use Rattle.std.specs.declared.ops.Bound.TheVariants.{Unbounded};
ghost use Rattle.std.specs.Map.{keys_of};
ghost use Rattle.std.specs.Ordering.{eq_by_cmp};
ghost use Rattle.broadcast_core.specs.Content.{items_at};
ghost use Rattle.broadcast_core.specs.Waiters.{NoneEmpty, waiting_in, is_gone, gone_from, DropsClosed, DropsClosedIf};
ghost use Rattle.broadcast_core.specs.Awaited.{AreAwaited, first_with};
ghost use Rattle.broadcast_core.specs.Counted.{counted};

use crate::buffer::gone::Gone;
use crate::items::Items;
use crate::requests::{Closable, Ticketed};
use std::alloc::{AllocError, Global};
use std::collections::BTreeMap;
use std::collections::btree_map::Entry;
use std::marker::Model;
use std::ops::Bound;

/// The waiters of each digest, in the order in which they came.
#[derive(Drop)]
pub struct Waiters<D: Ord, W> {
    alloc: Global,
    by_digest: BTreeMap<D, Items<W>>,
}

impl<D: Ord, W> Model for Waiters<D, W> {
    ghost use Rattle.std.specs.Prelude.{List};
    ghost use Rattle.broadcast_core.specs.Awaited.{AreAwaited};

    ghost Value = { List (D × List W) };

    ghost view = { λ it. it.by_digest.entries };

    ghost invariant = { λ it. AreAwaited D.cmp it.by_digest.entries };
}

impl<D: Ord + Copy, W: Drop> Waiters<D, W> {
    /// Creates an empty map. Does not allocate.
    pub fn new(alloc: Global) -> Self
        ensures { result ≡ [] }
    {
        Waiters {
            alloc,
            by_digest: BTreeMap::new(alloc),
        }
    }

    /// Returns the number of digests that have waiters.
    pub fn len(&self) -> usize
        ensures len { result ≡ length self.now }
        ensures distinct { IsDistinct (eq_by_cmp D.cmp) (keys_of self.now) }
        ensures none_empty { NoneEmpty (eq_by_cmp D.cmp) self.now }
    {
        self.by_digest.len()
    }

    /// Returns the number of waiters of `digest`.
    pub fn waiting(&self, digest: &D) -> usize
        ensures { result ≡ length (items_at (eq_by_cmp D.cmp) digest.now self.now) }
    {
        match self.by_digest.get(digest) {
            Some(waiters) => waiters.len(),
            None => 0,
        }
    }

    /// Puts the waiter behind the others of its digest. On an allocation failure the waiter is
    /// returned with it, and nothing changes.
    pub fn push(&mut self, digest: D, waiter: W) -> Result<(), (W, AllocError)>
        ensures ok { let same = eq_by_cmp D.cmp in
            OnOk result ((e : D) → items_at same e self.new
            ≡ (if same digest e
            then items_at same e self.old ++ waiter ∷ []
            else items_at same e self.old)) }
        ensures err { IfErr result (λ refused. (refused.0 ≡ waiter) × (self.new ≡ self.old)) }
    {
        append(self.alloc, &mut self.by_digest, digest, waiter)
    }

    /// Removes the waiters of `digest` and returns them. Does not allocate. Does not search if the
    /// caller knows that there are none.
    pub fn take(&mut self, digest: &D, has_none: bool) -> Items<W>
        requires { has_none ≡ true → items_at (eq_by_cmp D.cmp) digest.now self.old ≡ [] }
        ensures served { result ≡ items_at (eq_by_cmp D.cmp) digest.now self.old }
        ensures left { let same = eq_by_cmp D.cmp in
            (e : D) → items_at same e self.new
            ≡ (if same digest.now e then [] else items_at same e self.old) }
    {
        if has_none {
            return Items::new(self.alloc);
        }
        match self.by_digest.remove(digest) {
            Some(waiters) => waiters,
            None => Items::new(self.alloc),
        }
    }

    /// Drops every waiter whose ticket is in `gone`. Returns how many, saturating at `u64::MAX`.
    /// Does not allocate.
    pub fn cleanup(&mut self, gone: &[u64]) -> u64
    where
        W: Ticketed,
        ensures kept { let same = eq_by_cmp D.cmp in
            (e : D) → items_at same e self.new
            ≡ filter (λ w. not (is_gone W.ticket_of gone.now w)) (items_at same e self.old) }
        ensures removed { result ≡ counted (gone_from W.ticket_of gone.now self.old) }
        ensures distinct { IsDistinct (eq_by_cmp D.cmp) (keys_of self.old) }
        ensures distinct_left { IsDistinct (eq_by_cmp D.cmp) (keys_of self.new) }
    {
        let gone = Gone::new(gone);
        let mut removed = 0u64;
        let mut after = Bound::Unbounded;
        while let Some(digest) = next_gone(&self.by_digest, after, &gone) {
            let dropped = drop_gone(&mut self.by_digest, &digest, &gone);
            removed = removed.saturating_add(dropped as u64);
            after = Bound::Excluded(digest);
        }
        removed
    }

    /// Drops every waiter that is closed, asking each of them once. Returns how many, saturating at
    /// `u64::MAX`. Does not allocate.
    pub fn cleanup_by(&mut self) -> u64
    where
        W: Closable,
        ensures kept { let same = eq_by_cmp D.cmp in
            (e : D) → DropsClosed W.may_answer
            (items_at same e self.old) (items_at same e self.new) }
        ensures removed { (n : ℕ) × (waiting_in self.old ≡ waiting_in self.new + n)
            × (result ≡ counted n) }
        ensures distinct { IsDistinct (eq_by_cmp D.cmp) (keys_of self.old) }
        ensures distinct_left { IsDistinct (eq_by_cmp D.cmp) (keys_of self.new) }
    {
        let before = total(&self.by_digest);
        self.by_digest.retain(|_, waiters| drop_closed(waiters));
        clamped(before - total(&self.by_digest))
    }

    /// Drops the waiters of `digest` that are closed, asking each of them once. Returns how many.
    /// Does not allocate.
    pub fn cleanup_at(&mut self, digest: &D) -> u64
    where
        W: Closable,
        ensures kept { let same = eq_by_cmp D.cmp in
            (e : D) → DropsClosedIf (same digest.now e) W.may_answer
            (items_at same e self.old) (items_at same e self.new) }
        ensures removed { waiting_in self.new + result ≡ waiting_in self.old }
        ensures distinct { IsDistinct (eq_by_cmp D.cmp) (keys_of self.old) }
        ensures distinct_left { IsDistinct (eq_by_cmp D.cmp) (keys_of self.new) }
    {
        drop_closed_at(&mut self.by_digest, digest) as u64
    }

    /// Drops the waiters of the digests that are closed. Returns how many, saturating at
    /// `u64::MAX`. Does not allocate.
    pub fn cleanup_each(&mut self, digests: &[D]) -> u64
    where
        W: Closable,
        ensures kept { let same = eq_by_cmp D.cmp in
            (e : D) → DropsClosedIf (list_any (same e) digests.now) W.may_answer
            (items_at same e self.old) (items_at same e self.new) }
        ensures removed { (n : ℕ) × (waiting_in self.old ≡ waiting_in self.new + n)
            × (result ≡ counted n) }
        ensures distinct { IsDistinct (eq_by_cmp D.cmp) (keys_of self.old) }
        ensures distinct_left { IsDistinct (eq_by_cmp D.cmp) (keys_of self.new) }
    {
        let _ = &self.by_digest;
        let mut removed = 0u64;
        for digest in digests {
            removed = removed.saturating_add(self.cleanup_at(digest));
        }
        removed
    }

    /// Drops the waiters of `digest` whose tickets are in `gone`. Returns how many. Does not
    /// allocate.
    pub fn cleanup_of(&mut self, digest: &D, gone: &[u64]) -> u64
    where
        W: Ticketed,
        ensures kept { let same = eq_by_cmp D.cmp in
            (e : D) → items_at same e self.new
            ≡ (if same digest.now e
            then filter (λ w. not (is_gone W.ticket_of gone.now w)) (items_at same e self.old)
            else items_at same e self.old) }
        ensures removed { result ≡ count_by (is_gone W.ticket_of gone.now)
            (items_at (eq_by_cmp D.cmp) digest.now self.old) }
    {
        drop_gone(&mut self.by_digest, digest, &Gone::new(gone)) as u64
    }

    /// Drops all waiters. Does not allocate.
    pub fn clear(&mut self)
        ensures { self.new ≡ [] }
    {
        self.by_digest.clear();
    }
}

/// Puts the waiter behind the others of its digest. On an allocation failure the waiter is returned
/// with it, and nothing changes.
fn append<D: Ord + Copy, W: Drop>(
    alloc: Global,
    by_digest: &mut BTreeMap<D, Items<W>>,
    digest: D,
    waiter: W,
) -> Result<(), (W, AllocError)>
    requires { AreAwaited D.cmp by_digest.old.entries }
    ensures awaited { AreAwaited D.cmp by_digest.new.entries }
    ensures ok { let same = eq_by_cmp D.cmp in
        OnOk result ((e : D) → items_at same e by_digest.new.entries
        ≡ (if same digest e
        then items_at same e by_digest.old.entries ++ waiter ∷ []
        else items_at same e by_digest.old.entries)) }
    ensures err { IfErr result (λ refused. (refused.0 ≡ waiter)
        × (by_digest.new.entries ≡ by_digest.old.entries)) }
{
    match by_digest.entry(digest) {
        Ok(entry) => match entry {
            Entry::Occupied(found) => join(found.into_mut(), waiter),
            Entry::Vacant(vacant) => match one(alloc, waiter) {
                Ok(waiters) => {
                    vacant.insert(waiters);
                    Ok(())
                }
                Err(refused) => {
                    // Gives back the room for a digest.
                    if let Err(_stays) = Entry::Vacant(vacant).or_try_insert_with(|| Err(
                        AllocError,
                    )) {}
                    Err(refused)
                }
            },
        },
        Err(_refused) => Err((waiter, AllocError)),
    }
}

/// Puts the waiter behind the others. On an allocation failure the waiter is returned with it, and
/// nothing changes.
fn join<W: Drop>(waiters: &mut Items<W>, waiter: W) -> Result<(), (W, AllocError)>
    ensures ok { OnOk result (waiters.new ≡ waiters.old ++ waiter ∷ []) }
    ensures err { IfErr result (λ refused. (refused.0 ≡ waiter) × (waiters.new ≡ waiters.old)) }
{
    match waiters.push(waiter) {
        Ok(()) => Ok(()),
        Err(refused) => Err((refused.value, AllocError)),
    }
}

/// Creates a list of one waiter. On an allocation failure the waiter is returned with it.
fn one<W: Drop>(alloc: Global, waiter: W) -> Result<Items<W>, (W, AllocError)>
    ensures ok { IfOk result (λ waiters. waiters ≡ waiter ∷ []) }
    ensures err { IfErr result (λ refused. refused.0 ≡ waiter) }
{
    let mut waiters = Items::new(alloc);
    match join(&mut waiters, waiter) {
        Ok(()) => Ok(waiters),
        Err(refused) => Err(refused),
    }
}

/// Returns the number of all waiters.
fn total<D: Ord, W>(by_digest: &BTreeMap<D, Items<W>>) -> u128
    ensures { result ≡ waiting_in by_digest.now.entries }
{
    let mut all = 0u128;
    for (_, waiters) in by_digest {
        all += waiters.len() as u128;
    }
    all
}

/// Returns the number, saturating at `u64::MAX`.
fn clamped(number: u128) -> u64
    ensures { result ≡ counted number }
{
    u64::try_from(number).unwrap_or(u64::MAX)
}

/// Returns the first digest behind the bound that has a waiter whose ticket is in `gone`.
fn next_gone<D: Ord + Copy, W: Ticketed>(
    by_digest: &BTreeMap<D, Items<W>>,
    after: Bound<D>,
    gone: &Gone<'_>,
) -> Option<D>
    ensures { result ≡ first_with (is_gone W.ticket_of gone.now)
        (entries_between D.cmp after Unbounded by_digest.now.entries) }
{
    for (digest, waiters) in by_digest.range((after, Bound::Unbounded)) {
        if any_gone(waiters, gone) {
            return Some(*digest);
        }
    }
    None
}

/// Returns whether the ticket of a waiter is in `gone`.
fn any_gone<W: Ticketed>(waiters: &Items<W>, gone: &Gone<'_>) -> bool
    ensures { result ≡ list_any (is_gone W.ticket_of gone.now) waiters.now }
{
    waiters.iter().any(|waiter| gone.has(waiter.ticket()))
}

/// Drops the waiters of `digest` whose ticket is in `gone`. Returns how many.
fn drop_gone<D: Ord + Copy, W: Ticketed + Drop>(
    by_digest: &mut BTreeMap<D, Items<W>>,
    digest: &D,
    gone: &Gone<'_>,
) -> usize
    requires { AreAwaited D.cmp by_digest.old.entries }
    ensures awaited { AreAwaited D.cmp by_digest.new.entries }
    ensures lists { let same = eq_by_cmp D.cmp in
        (e : D) → items_at same e by_digest.new.entries
        ≡ (if same digest.now e
        then filter (λ w. not (is_gone W.ticket_of gone.now w))
        (items_at same e by_digest.old.entries)
        else items_at same e by_digest.old.entries) }
    ensures dropped { result ≡ count_by (is_gone W.ticket_of gone.now)
        (items_at (eq_by_cmp D.cmp) digest.now by_digest.old.entries) }
    ensures removed { gone_from W.ticket_of gone.now by_digest.new.entries + result
        ≡ gone_from W.ticket_of gone.now by_digest.old.entries }
{
    let Some(waiters) = by_digest.get_mut(digest) else {
        return 0;
    };
    let before = waiters.len();
    retain_waiting(waiters, gone);
    let left = waiters.len();
    if left == 0 {
        by_digest.remove(digest);
    }
    before - left
}

/// Drops the waiters of `digest` that are closed. Returns how many.
fn drop_closed_at<D: Ord + Copy, W: Closable + Drop>(
    by_digest: &mut BTreeMap<D, Items<W>>,
    digest: &D,
) -> usize
    requires { AreAwaited D.cmp by_digest.old.entries }
    ensures awaited { AreAwaited D.cmp by_digest.new.entries }
    ensures lists { let same = eq_by_cmp D.cmp in
        (e : D) → DropsClosedIf (same digest.now e) W.may_answer
        (items_at same e by_digest.old.entries) (items_at same e by_digest.new.entries) }
    ensures removed { waiting_in by_digest.new.entries + result ≡ waiting_in by_digest.old.entries }
{
    let Some(waiters) = by_digest.get_mut(digest) else {
        return 0;
    };
    let before = waiters.len();
    retain_open(waiters);
    let left = waiters.len();
    if left == 0 {
        by_digest.remove(digest);
    }
    before - left
}

/// Drops the waiters that are closed.
fn retain_open<W: Closable + Drop>(waiters: &mut Items<W>)
    ensures { DropsClosed W.may_answer waiters.old waiters.new }
{
    waiters.retain(|waiter| !waiter.is_closed());
}

/// Drops the waiters whose ticket is in `gone`.
fn retain_waiting<W: Ticketed + Drop>(waiters: &mut Items<W>, gone: &Gone<'_>)
    ensures { waiters.new ≡ filter (λ w. not (is_gone W.ticket_of gone.now w)) waiters.old }
{
    waiters.retain(|waiter| !gone.has(waiter.ticket()));
}

/// Drops the waiters that are closed. Returns whether any is left.
fn drop_closed<W: Closable + Drop>(waiters: &mut Items<W>) -> bool
    ensures kept { DropsClosed W.may_answer waiters.old waiters.new }
    ensures left { result ≡ nat_lt 0 (length waiters.new) }
{
    retain_open(waiters);
    waiters.len() > 0
}
