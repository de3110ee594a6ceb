//! The places of a list.
ghost use Rattle.std.specs.Prelude.{◌≡◌, ◌+◌, ◌^◌, ◌<◌, ℕ, [], false, None, Some, IfOk, OnErr, IsSome};
ghost use Rattle.std.specs.Option.{option_copied};
ghost use Rattle.entries.specs.Linked.{Relinks, with_newer, with_older, as_newest};
ghost use Rattle.entries.specs.Places.{get, is_mark, Updates};

use crate::entry::{Charged, Entry};
use crate::link::Link;
use std::alloc::{AllocError, Global};
use std::marker::Model;

/// The entries of a list, each at its place. A free place is marked, and leads to the next free
/// one.
#[derive(Drop)]
pub struct Places {
    entries: Vec<Entry<Charged<usize>>>,
    free: Link,
}

impl Model for Places {
    ghost use Rattle.std.specs.Prelude.{ℕ, map};
    ghost use Rattle.entries.specs.declared.entry.Charged.{Charged};
    ghost use Rattle.entries.specs.Places.{Heap, shown, vacant_of, IsPlaced};

    ghost Value = { Heap (Charged ℕ) };

    ghost view = { λ it. record {
      slots = map shown it.entries.items;
      vacant = vacant_of it.entries.items it.free;
    } };

    ghost invariant = { λ it. IsPlaced it.entries.items it.free };
}

impl Places {
    /// Creates no place. Does not allocate.
    pub fn new(alloc: Global) -> Self
        ensures { result ≡ record { slots = []; vacant = 0 } }
    {
        Places {
            entries: Vec::new(alloc),
            free: Link::none(),
        }
    }

    /// Returns the place of the next insert.
    pub fn vacant(&self) -> usize
        ensures { result ≡ self.now.vacant }
    {
        match self.free.get() {
            Some(place) => place,
            None => self.entries.len(),
        }
    }

    /// Returns the entry at a place, if there is one.
    pub fn get(&self, place: usize) -> Option<&Entry<Charged<usize>>>
        ensures { option_copied result ≡ get self.now place }
    {
        match self.entries.get(place) {
            Some(entry) => {
                if entry.newer.is_mark() {
                    None
                } else {
                    Some(entry)
                }
            }
            None => None,
        }
    }

    /// Returns the entry at a place that has one.
    pub fn at(&self, place: usize) -> Entry<Charged<usize>>
        requires { IsSome (get self.now place) }
        ensures { get self.now place ≡ Some result }
    {
        self.entries[place]
    }

    /// Sets the newer link of the entry that a link leads to.
    pub fn set_newer(&mut self, at: Link, newer: Link)
        requires there { (j : ℕ) → at ≡ Some j → IsSome (get self.old j) }
        requires unmarked { is_mark newer ≡ false }
        ensures { Relinks (get self.old) (get self.new) at (with_newer newer) }
    {
        if let Some(at) = at.get() {
            self.entries[at].newer = newer;
        }
    }

    /// Sets the older link of the entry that a link leads to.
    pub fn set_older(&mut self, at: Link, older: Link)
        requires { (j : ℕ) → at ≡ Some j → IsSome (get self.old j) }
        ensures { Relinks (get self.old) (get self.new) at (with_older older) }
    {
        if let Some(at) = at.get() {
            self.entries[at].older = older;
        }
    }

    /// Makes an entry the newest, with another digest.
    pub fn set_newest(&mut self, place: usize, digest: Charged<usize>, older: Link)
        requires { IsSome (get self.old place) }
        ensures { Relinks (get self.old) (get self.new) (Some place) (as_newest digest older) }
    {
        self.entries[place] = Entry {
            digest,
            newer: Link::none(),
            older,
        };
    }

    /// Puts an entry without links at the place of the next insert, and returns the place. On an
    /// allocation failure nothing changes.
    pub fn insert(&mut self, digest: Charged<usize>) -> Result<usize, AllocError>
        ensures place { IfOk result (λ place. place ≡ self.old.vacant) }
        ensures was_free { IfOk result (λ place. get self.old place ≡ None) }
        ensures updates { IfOk result (λ place. Updates self.old self.new place
            (Some (record { digest = digest; newer = None; older = None }))) }
        ensures err { OnErr result (self.new ≡ self.old) }
    {
        let entry = Entry {
            digest,
            newer: Link::none(),
            older: Link::none(),
        };
        match self.free.get() {
            Some(place) => {
                let next = self.entries[place].older;
                self.entries[place] = entry;
                self.free = next;
                Ok(place)
            }
            None => {
                let place = self.entries.len();
                match self.entries.push(entry) {
                    Ok(()) => Ok(place),
                    Err(_) => Err(AllocError),
                }
            }
        }
    }

    /// Removes the entry at a place, and returns it. Does not allocate.
    pub fn remove(&mut self, place: usize) -> Entry<Charged<usize>>
        requires there { IsSome (get self.old place) }
        requires word { place + 1 < 2 ^ 32 }
        ensures value { get self.old place ≡ Some result }
        ensures updates { Updates self.old self.new place None }
    {
        let entry = self.entries[place];
        let freed = Entry {
            digest: entry.digest,
            newer: Link::mark(),
            older: self.free,
        };
        self.entries[place] = freed;
        self.free = Link::to(place);
        entry
    }
}
