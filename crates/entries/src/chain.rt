//! The chain of a list among its places.
ghost use Rattle.std.specs.Prelude.{◌≡◌, ℕ, Bool, true, Some, None, List, [], ◌∷◌, ◌++◌, ◌+◌, ◌^◌};
ghost use Rattle.std.specs.Prelude.{MatchOption, ◌<◌, OnErr, OnOk, IfOk, IsOk, IfSome, IfNone, length};
ghost use Rattle.std.specs.Option.{option_copied};
ghost use Rattle.entries.specs.Places.{get};
ghost use Rattle.entries.specs.Linked.{IsOn, Admits, Promotes, Pushes, Pops};
ghost use Rattle.entries.specs.Linked.{HasNodes, SameValues, entry_at};
ghost use Rattle.entries.specs.Overlaid.{overlaid};
ghost use Rattle.entries.specs.Store.{nodes, bytes_of, digests_of, Trims};

use crate::entry::{Chain, Charged, Entry};
use crate::link::Link;
use crate::links::{link_front, unlink};
use crate::places::Places;
use std::alloc::{AllocError, Global};
use std::marker::Model;

/// Moves a place to the front of its chain, with another digest. Does not allocate.
pub fn promote(places: &mut Places, chain: &mut Chain, place: usize, digest: Charged<usize>)
    requires { IsOn (get places.old) chain.old place }
    ensures promoted { Promotes (get places.old) (get places.new) chain.old chain.new place digest }
    ensures bytes { chain.new.bytes ≡ chain.old.bytes }
{
    unlink(places, chain, place);
    link_front(places, chain, place, digest);
}

/// Puts a digest in front of a chain. Without memory, or without a place that a link can lead to,
/// all stays.
pub fn push_front(
    places: &mut Places,
    chain: &mut Chain,
    digest: Charged<usize>,
) -> Result<usize, AllocError>
    requires { HasNodes (get places.old) chain.old }
    ensures place { IfOk result (λ place. place ≡ places.old.vacant) }
    ensures ok { IfOk result (λ place. Pushes (get places.old)
        (get places.new) chain.old chain.new place digest) }
    ensures err { OnErr result ((chain.new ≡ chain.old) × (places.new ≡ places.old)) }
    ensures bytes { chain.new.bytes ≡ chain.old.bytes }
{
    if chain.len == usize::MAX || !Link::reaches(places.vacant()) {
        return Err(AllocError);
    }
    let place = places.insert(digest)?;
    link_front(places, chain, place, digest);
    Ok(place)
}

/// Takes the oldest place out of a chain, and frees it. Does not allocate.
#[inline(always)]
pub fn pop_oldest(places: &mut Places, chain: &mut Chain) -> Option<Charged<usize>>
    requires { HasNodes (get places.old) chain.old }
    ensures popped { Pops (get places.old) (get places.new) chain.old chain.new result }
    ensures bytes { chain.new.bytes ≡ chain.old.bytes }
{
    match chain.oldest.get() {
        None => None,
        Some(place) => {
            unlink(places, chain, place);
            let Entry { digest, .. } = places.remove(place);
            Some(digest)
        }
    }
}

/// Takes the oldest digest out of a chain that has more than `size`, with its charge. Does not
/// allocate.
#[inline(always)]
pub fn trim(places: &mut Places, chain: &mut Chain, size: usize) -> Option<Charged<usize>>
    requires nodes { HasNodes (get places.old) chain.old }
    requires sum { chain.old.bytes ≡ bytes_of (nodes (get places.old) chain.old) }
    ensures { Trims size (get places.old) (get places.new) chain.old chain.new result }
{
    if chain.len <= size {
        return None;
    }
    let stale = pop_oldest(places, chain)?;
    chain.bytes -= u128::from(stale.charge);
    Some(stale)
}

/// Returns the entry that a link leads to.
fn stands_at(places: &Places, at: Link) -> Option<&Entry<Charged<usize>>>
    ensures { option_copied result ≡ entry_at (get places.now) at }
{
    match at.get() {
        Some(at) => places.get(at),
        None => None,
    }
}

/// What is left of a walk over a chain, the newest first.
#[derive(Drop)]
pub struct Walk<'a> {
    places: Option<&'a Places>,
    at: Link,
    left: usize,
}

impl<'a> Model for Walk<'a> {
    ghost use Rattle.std.specs.Prelude.{ℕ, List};
    ghost use Rattle.std.specs.Option.{option_copied};
    ghost use Rattle.entries.specs.Store.{left_on};

    ghost Value = { List ℕ };

    ghost view = { λ it. left_on it.left it.at (option_copied it.places) };
}

/// Starts a walk over a chain.
pub fn start<'a>(places: &'a Places, chain: &Chain) -> Walk<'a>
    ensures { result ≡ digests_of (nodes (get places.now) chain.now) }
{
    Walk {
        places: Some(places),
        at: chain.newest,
        left: chain.len,
    }
}

impl<'a> Walk<'a> {
    /// Returns a walk with nothing left.
    pub fn at_end() -> Self
        ensures { result ≡ [] }
    {
        Walk {
            places: None,
            at: Link::none(),
            left: 0,
        }
    }

    /// Returns the next older digest.
    pub fn next(&mut self) -> Option<usize>
        ensures { MatchOption result ((self.old ≡ []) × (self.new ≡ []))
            (λ digest. self.old ≡ digest ∷ self.new) }
    {
        if self.left == 0 {
            return None;
        }
        let Some(places) = self.places else {
            return None;
        };
        let Some(entry) = stands_at(places, self.at) else {
            return None;
        };
        self.at = entry.older;
        self.left -= 1;
        Some(entry.digest.digest)
    }
}
