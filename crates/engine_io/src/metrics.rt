//! Counters of what an engine does.
//!
//! Every counter saturates at `u64::MAX`.
ghost use Rattle.std.specs.Prelude.{◌≡◌, ℕ, ◌+◌, if◌then◌else◌, true, IsOk, OnOk, OnErr};
ghost use Rattle.std.specs.Ordering.{eq_by_cmp};
ghost use Rattle.engine_io.specs.Counters.{no_counts, zero_counters, number_of, raised, added, count_of, has_count};

use broadcast_core::PublicKey;
use std::alloc::{AllocError, Global};
use std::collections::BTreeMap;
use std::marker::Model;

/// The label of a peer's counter.
#[derive(Clone, Debug, PartialEq, Eq, Hash, Drop)]
pub struct Sequencer<P> {
    /// The peer that is counted.
    pub sequencer: P,
}

/// The result of an operation that is counted.
#[derive(Clone, Copy, Debug, PartialEq, Eq)]
pub enum Status {
    /// The operation succeeded.
    Success,
    /// The operation failed.
    Failure,
    /// The input was invalid.
    Invalid,
    /// The input or its reply was dropped.
    Dropped,
}

/// A number for each status.
#[derive(Clone, Copy, Debug, PartialEq, Eq)]
pub struct Counter {
    /// How many succeeded.
    pub success: u64,
    /// How many failed.
    pub failure: u64,
    /// How many were invalid.
    pub invalid: u64,
    /// How many were dropped.
    pub dropped: u64,
}

impl Counter {
    /// Creates a counter of zeros.
    pub const fn new() -> Self
        ensures { result ≡ no_counts }
    {
        Counter {
            success: 0,
            failure: 0,
            invalid: 0,
            dropped: 0,
        }
    }

    /// Returns the number for `status`.
    pub fn get(&self, status: Status) -> u64
        ensures { result ≡ number_of status self.now }
    {
        match status {
            Status::Success => self.success,
            Status::Failure => self.failure,
            Status::Invalid => self.invalid,
            Status::Dropped => self.dropped,
        }
    }

    /// Adds `number` to the number for `status`.
    pub fn add(&mut self, status: Status, number: u64)
        ensures { self.new ≡ added status number self.old }
    {
        match status {
            Status::Success => self.success = self.success.saturating_add(number),
            Status::Failure => self.failure = self.failure.saturating_add(number),
            Status::Invalid => self.invalid = self.invalid.saturating_add(number),
            Status::Dropped => self.dropped = self.dropped.saturating_add(number),
        }
    }
}

/// The counters of an engine.
#[derive(Drop)]
#[derive_where(Debug; P)]
pub struct Metrics<P: PublicKey> {
    peer: BTreeMap<P, u64>,
    receive: Counter,
    subscribe: Counter,
    get: Counter,
    waiters: u64,
}

impl<P: PublicKey> Model for Metrics<P> {
    ghost use Rattle.engine_io.specs.Counters.{Counters};

    ghost Value = { Counters P };

    ghost view = { λ it. record {
      peer = it.peer.entries;
      totals = record {
        receive = it.receive;
        subscribe = it.subscribe;
        get = it.get;
        waiters = it.waiters;
      };
    } };
}

impl<P: PublicKey> Clone for Metrics<P> {
    ghost use Rattle.std.specs.Ordering.{eq_by_cmp};
    ghost use Rattle.engine_io.specs.Counters.{IsCopy};

    ghost is_clone = { IsCopy (eq_by_cmp P.cmp) };

    /// Returns a copy of the counters, or an allocation failure.
    fn clone(&self) -> Result<Self, AllocError> {
        Ok(Metrics {
            peer: self.peer.clone()?,
            receive: self.receive,
            subscribe: self.subscribe,
            get: self.get,
            waiters: self.waiters,
        })
    }
}

impl<P: PublicKey> Metrics<P> {
    /// Creates counters that are all zero. Does not allocate.
    pub fn init(alloc: Global) -> Self
        ensures { result ≡ zero_counters }
    {
        Metrics {
            peer: BTreeMap::new(alloc),
            receive: Counter::new(),
            subscribe: Counter::new(),
            get: Counter::new(),
            waiters: 0,
        }
    }

    /// Returns how many payloads of `peer` were decoded.
    pub fn peer(&self, peer: &P) -> u64
        ensures { result ≡ count_of (eq_by_cmp P.cmp) peer.now self.now.peer }
    {
        match self.peer.get(peer) {
            Some(number) => *number,
            None => 0,
        }
    }

    /// Returns the number of each peer whose payloads were decoded.
    pub fn peers(&self) -> &BTreeMap<P, u64>
        ensures { result.now.entries ≡ self.now.peer }
    {
        &self.peer
    }

    /// Returns how many messages were received with `status`.
    pub fn receive(&self, status: Status) -> u64
        ensures { result ≡ number_of status self.now.totals.receive }
    {
        self.receive.get(status)
    }

    /// Returns how many subscribes ended with `status`.
    pub fn subscribe(&self, status: Status) -> u64
        ensures { result ≡ number_of status self.now.totals.subscribe }
    {
        self.subscribe.get(status)
    }

    /// Returns how many gets ended with `status`.
    pub fn get(&self, status: Status) -> u64
        ensures { result ≡ number_of status self.now.totals.get }
    {
        self.get.get(status)
    }

    /// Returns the number of awaited digests that was set last.
    pub fn waiters(&self) -> u64
        ensures { result ≡ self.now.totals.waiters }
    {
        self.waiters
    }

    /// Counts a decoded payload of `peer`. Allocates only for the first one of a peer. After an
    /// allocation failure no counter has changed.
    pub fn count_peer(&mut self, peer: &P) -> Result<(), AllocError>
        ensures counts_one { OnOk result ((q : P) → let same = eq_by_cmp P.cmp in
            count_of same q self.new.peer
            ≡ (if same peer.now q then raised (count_of same q self.old.peer) 1
            else count_of same q self.old.peer)) }
        ensures totals_stay { self.new.totals ≡ self.old.totals }
        ensures succeeds_if_counted_before { has_count (eq_by_cmp P.cmp) peer.now self.old.peer
            ≡ true → IsOk result }
        ensures unchanged_on_error { OnErr result (self.new ≡ self.old) }
    {
        count_key(&mut self.peer, peer)
    }

    /// Counts a received message with `status`.
    pub fn count_receive(&mut self, status: Status)
        ensures { self.new ≡ record self.old {
          totals = record self.old.totals {
            receive = added status 1 self.old.totals.receive;
          };
        } }
    {
        self.receive.add(status, 1);
    }

    /// Counts `number` subscribes that ended with `status`.
    pub fn count_subscribe(&mut self, status: Status, number: u64)
        ensures { self.new ≡ record self.old {
          totals = record self.old.totals {
            subscribe = added status number self.old.totals.subscribe;
          };
        } }
    {
        self.subscribe.add(status, number);
    }

    /// Counts a get that ended with `status`.
    pub fn count_get(&mut self, status: Status)
        ensures { self.new ≡ record self.old {
          totals = record self.old.totals {
            get = added status 1 self.old.totals.get;
          };
        } }
    {
        self.get.add(status, 1);
    }

    /// Sets the number of awaited digests.
    pub fn set_waiters(&mut self, number: u64)
        ensures { self.new
            ≡ record self.old { totals = record self.old.totals { waiters = number } } }
    {
        self.waiters = number;
    }
}

// Adds one to the number of the key, which is 0 if it has none.
fn count_key<P: PublicKey>(numbers: &mut BTreeMap<P, u64>, key: &P) -> Result<(), AllocError>
    ensures ok { OnOk result ((q : P) → let same = eq_by_cmp P.cmp in
        count_of same q numbers.new.entries
        ≡ (if same key.now q then raised (count_of same q numbers.old.entries) 1
        else count_of same q numbers.old.entries)) }
    ensures known { has_count (eq_by_cmp P.cmp) key.now numbers.old.entries ≡ true → IsOk result }
    ensures err { OnErr result (numbers.new.entries ≡ numbers.old.entries) }
{
    if let Some(number) = numbers.get_mut(key) {
        *number = number.saturating_add(1);
        return Ok(());
    }
    numbers.insert(key.clone()?, 1)?;
    Ok(())
}
