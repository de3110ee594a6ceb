//! A list in a vector of its own.
ghost use Rattle.std.specs.Prelude.{◌≡◌, ◌+◌, ◌^◌, ◌<◌, ◌∷◌, [], length, IfOk, OnErr, MatchOption};
ghost use Rattle.entries.specs.Places.{get};
ghost use Rattle.entries.specs.Linked.{IsApart, HasNodes};
ghost use Rattle.entries.specs.Store.{nodes, moved, digests_of, bytes_of, Cuts};

use crate::chain::{self, Walk};
use crate::entry::{Chain, Charged};
use crate::link::Link;
use crate::places::Places;
use std::alloc::{AllocError, Global};
use std::marker::Model;

/// The digests of a list, the newest first, each at a place of the list's own.
#[derive(Drop)]
pub struct LinkedList {
    places: Places,
    chain: Chain,
}

impl Model for LinkedList {
    ghost use Rattle.std.specs.Prelude.{ℕ};
    ghost use Rattle.entries.specs.Places.{get};
    ghost use Rattle.entries.specs.Store.{Row, nodes, IsWhole};

    ghost Value = { Row ℕ };

    ghost view = { λ it. record {
      nodes = nodes (get it.places) it.chain;
      vacant = it.places.vacant;
    } };

    ghost invariant = { λ it. IsWhole (get it.places) it.chain };
}

impl LinkedList {
    /// Creates an empty list. Does not allocate.
    pub fn new(alloc: Global) -> Self
        ensures { result ≡ record { nodes = []; vacant = 0 } }
    {
        LinkedList {
            places: Places::new(alloc),
            chain: Chain {
                newest: Link::none(),
                oldest: Link::none(),
                len: 0,
                bytes: 0,
            },
        }
    }

    /// Returns the place of the next insert.
    pub fn vacant(&self) -> usize
        ensures { result ≡ self.now.vacant }
    {
        self.places.vacant()
    }

    /// Returns the sum of the charges.
    pub fn bytes(&self) -> u128
        ensures { result ≡ bytes_of self.now.nodes }
    {
        self.chain.bytes
    }

    /// Returns how many digests the list has.
    pub fn count(&self) -> usize
        ensures { result ≡ length self.now.nodes }
    {
        self.chain.len
    }

    /// Moves the entry at `place` to the front, with another digest and charge. Does nothing if
    /// there is no such entry. Does not allocate.
    pub fn promote(&mut self, place: usize, digest: Charged<usize>)
        requires room { bytes_of self.old.nodes + digest.charge < 2 ^ 128 }
        ensures moved { self.new.nodes ≡ moved place digest self.old.nodes }
        ensures apart { IsApart self.old.nodes }
    {
        match self.places.get(place) {
            Some(entry) => {
                let was = u128::from(entry.digest.charge);
                chain::promote(&mut self.places, &mut self.chain, place, digest);
                self.chain.bytes = self.chain.bytes - was + u128::from(digest.charge);
            }
            None => {}
        }
    }

    /// Puts a digest in front, at the place of the next insert, and removes the oldest digest if
    /// there are then more than `size`. Returns what was removed.
    ///
    /// On an allocation failure nothing changes. A list that has no place below 2^32 - 2 left fails
    /// in the same way.
    pub fn push(
        &mut self,
        digest: Charged<usize>,
        size: usize,
    ) -> Result<Option<Charged<usize>>, AllocError>
        requires room { bytes_of self.old.nodes + digest.charge < 2 ^ 128 }
        ensures ok { IfOk result (λ stale.
            Cuts size stale ((self.old.vacant, digest) ∷ self.old.nodes) self.new.nodes) }
        ensures err { OnErr result (self.new ≡ self.old) }
    {
        chain::push_front(&mut self.places, &mut self.chain, digest)?;
        self.chain.bytes += u128::from(digest.charge);
        Ok(chain::trim(&mut self.places, &mut self.chain, size))
    }

    /// Removes the oldest digest, and returns it. Does not allocate.
    pub fn evict(&mut self) -> Option<Charged<usize>>
        ensures { Cuts 0 result self.old.nodes self.new.nodes }
    {
        chain::trim(&mut self.places, &mut self.chain, 0)
    }

    /// Starts a walk over the digests, the newest first. Does not allocate.
    pub fn walk(&self) -> Walk<'_>
        ensures { result ≡ digests_of self.now.nodes }
    {
        chain::start(&self.places, &self.chain)
    }
}
