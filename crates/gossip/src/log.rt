//! The log of an author: the newest of its messages that fit a budget, in whatever order, how often
//! and from whomever they come.
ghost use Rattle.std.specs.Prelude.{◌≡◌, ◌≤◌, ◌<◌, ◌++◌, ℕ, [], map, nat_le, nat_lt, false, true};
ghost use Rattle.std.specs.Prelude.{length, if◌then◌else◌, slice_get, Contains};
ghost use Rattle.std.specs.Prelude.{IfOk, OnOk, OnErr, IsSome, IfSome, IfNone};
ghost use Rattle.gossip.specs.declared.message.Message.{Message};
ghost use Rattle.gossip.specs.declared.message.Arrived.TheVariants.{Untimely};
ghost use Rattle.gossip.specs.Spans.{IsCoverage, is_had, top_of};
ghost use Rattle.gossip.specs.Showing.{covered};
ghost use Rattle.gossip.specs.Sending.{lag, NoneDue, IsNext};
ghost use Rattle.gossip.specs.Held.{is_known, find, total, after, left_for, answer, IsHeld};

use crate::coverage::Coverage;
use crate::kept::{Kept, shown};
use crate::message::{Arrived, Message};
use std::alloc::{AllocError, Global};
use std::collections::VecDeque;
use std::marker::Model;

/// The newest messages of an author that fit a budget of bytes. Up to the floor nothing is listed
/// any more. Relays of one network have one budget. Contracts see a log as its budget, its floor
/// and its list.
#[derive(Drop)]
pub struct Log {
    budget: u64,
    kept: Kept,
}

impl Model for Log {
    ghost use Rattle.std.specs.Prelude.{◌≡◌};
    ghost use Rattle.gossip.specs.Held.{total, Held, IsHeld};
    ghost use Rattle.gossip.specs.Placing.{sums_after};

    ghost Value = { Held };

    ghost view = { λ it. record {
      budget = it.budget;
      floor = it.kept.floor;
      list = it.kept.list.items;
    } };

    ghost invariant = { λ it. (it.kept.total ≡ total it.kept.list.items)
        × (it.kept.sums.items ≡ sums_after it.kept.base it.kept.list.items)
        × IsHeld (record {
          budget = it.budget;
          floor = it.kept.floor;
          list = it.kept.list.items;
        }) };
}

impl Log {
    /// Creates the log of an author of whom nothing was received. Does not allocate.
    pub fn new(alloc: Global, budget: u64) -> Self
        ensures { result ≡ record { budget = budget; floor = 0; list = [] } }
    {
        Log {
            budget,
            kept: Kept {
                floor: 0,
                total: 0,
                list: VecDeque::new(alloc),
                base: 0,
                sums: VecDeque::new(alloc),
            },
        }
    }

    /// Returns the floor: no message up to it is listed, and none will be.
    pub fn floor(&self) -> u64
        ensures floor { result ≡ self.now.floor }
        ensures held { IsHeld self.now }
    {
        self.kept.floor
    }

    /// Returns what the listed messages are charged: their bytes, and `CHARGE` for each.
    pub fn bytes(&self) -> u64
        ensures total { result ≡ total self.now.list }
        ensures within { result ≤ self.now.budget }
    {
        self.kept.bytes(self.budget)
    }

    /// Returns the number of listed messages.
    pub fn len(&self) -> usize
        ensures { result ≡ length self.now.list }
    {
        self.kept.list.len()
    }

    /// Returns the listed message at the index, in order of stamps.
    pub fn get(&self, index: usize) -> Option<Message>
        ensures { result ≡ slice_get self.now.list index }
    {
        match self.kept.list.get(index) {
            Some(it) => Some(*it),
            None => None,
        }
    }

    /// Returns the listed message of the stamp.
    pub fn find(&self, stamp: u64) -> Option<Message>
        ensures { result ≡ find stamp self.now.list }
    {
        self.kept.find(stamp)
    }

    /// Returns whether the stamp is no later than the floor, or listed: what arrives of it is
    /// refused.
    pub fn has(&self, stamp: u64) -> bool
        ensures { result ≡ is_known stamp self.now }
    {
        stamp <= self.kept.floor || self.find(stamp).is_some()
    }

    /// Returns how many messages leave if this one arrives in time, the message itself included if
    /// it has no room.
    pub fn leaving(&self, message: Message) -> usize
        ensures { result ≡ length (left_for self.now message) }
    {
        if message.stamp <= message.prev
            || self.has(message.stamp)
            || u128::from(self.budget) < message.charge()
        {
            return 0;
        }
        self.kept.leaving(self.budget, message)
    }

    /// Takes a message that arrives, if its stamp is no later than `latest`; appends the handles of
    /// those that leave, its own among them if it has no room. If there is no memory, nothing
    /// changes.
    pub fn arrive(
        &mut self,
        message: Message,
        latest: u64,
        left: &mut Vec<u64>,
    ) -> Result<Arrived, AllocError>
        ensures answer { IfOk result (λ it. it
            ≡ (if nat_lt latest message.stamp then Untimely else answer self.old message)) }
        ensures after { OnOk result (self.new
            ≡ (if nat_lt latest message.stamp then self.old else after self.old message)) }
        ensures left { OnOk result (left.new.items
            ≡ left.old.items ++ (if nat_lt latest message.stamp then []
            else map (λ m. m.handle) (left_for self.old message))) }
        ensures unchanged { OnErr result (self.new ≡ self.old) }
        ensures none_left { OnErr result (left.new.items ≡ left.old.items) }
    {
        if latest < message.stamp {
            return Ok(Arrived::Untimely);
        }
        self.accept(message, left)
    }

    /// Takes a message that arrives in time.
    fn accept(&mut self, message: Message, left: &mut Vec<u64>) -> Result<Arrived, AllocError>
        ensures answer { IfOk result (λ it. it ≡ answer self.old message) }
        ensures after { OnOk result (self.new ≡ after self.old message) }
        ensures left { OnOk result (left.new.items ≡ left.old.items
            ++ map (λ m. m.handle) (left_for self.old message)) }
        ensures unchanged { OnErr result (self.new ≡ self.old) }
        ensures none_left { OnErr result (left.new.items ≡ left.old.items) }
    {
        if message.stamp <= message.prev || self.has(message.stamp) {
            return Ok(Arrived::Refused);
        }
        if u128::from(self.budget) < message.charge() {
            return Ok(Arrived::Oversize);
        }
        left.reserve(self.kept.leaving(self.budget, message))?;
        self.kept.insert(message)?;
        self.kept.shrink(self.budget, left);
        if self.kept.floor < message.stamp {
            Ok(Arrived::Listed)
        } else {
            Ok(Arrived::Passed)
        }
    }
}

impl Log {
    /// Returns what is reported to a peer: at most `MOST` spans, the first up to the floor or
    /// further. It shows only what the floor and the listed messages cover, and of these messages
    /// exactly those up to its top. What it does not show up to its top, the log does not know.
    pub fn report(&self) -> Coverage
        ensures coverage { IsCoverage 64 result }
        ensures within { (s : ℕ) → is_had s result ≡ true → is_had s (covered self.now) ≡ true }
        ensures listed { (m : Message) → Contains self.now.list m
            → is_had m.stamp result ≡ nat_le m.stamp (top_of result) }
        ensures up_to_floor { (s : ℕ) → 0 < s → s ≤ self.now.floor → is_had s result ≡ true }
        ensures news { (s : ℕ) → 0 < s → s ≤ top_of result → is_had s result ≡ false
            → is_known s self.now ≡ false }
        ensures held { IsHeld self.now }
    {
        Coverage::of(shown(&self.kept.list, self.kept.floor))
    }

    /// Returns the message that a peer with this report is sent next, while its room exceeds the
    /// bytes in flight to it: the earliest that the peer lacks and that is not in flight. Up to the
    /// top of the report, the peer lacks what the report does not show; above it, what is later
    /// than `sent`: the greatest stamp above the top of a report that was sent on this connection.
    ///
    /// A report decides only what its peer is sent. Each message that the report shows, or that is
    /// in flight, takes the time of a look-up at most, if the stamps in flight rise.
    pub fn next(
        &self,
        reported: &Coverage,
        sent: u64,
        in_flight: &[u64],
        flying: u64,
        room: u64,
    ) -> Option<Message>
        ensures room { IsSome result → flying < room }
        ensures next { IfSome result (IsNext reported.now sent in_flight.now self.now.list) }
        ensures none { IfNone result (flying < room
            → NoneDue reported.now sent in_flight.now self.now.list) }
    {
        if room <= flying {
            return None;
        }
        self.kept.first_due(reported, sent, in_flight)
    }

    /// Returns what the listed messages are charged that the report does not show. It takes the
    /// time of a few look-ups for each span of the report.
    pub fn lag(&self, reported: &Coverage) -> u64
        ensures { result ≡ lag reported.now self.now.list }
    {
        self.kept.lag_behind(self.budget, reported.spans())
    }
}
