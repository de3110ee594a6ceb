//! The messages that a log keeps.
ghost use Rattle.std.specs.Prelude.{◌≡◌, ◌≤◌, ◌+◌, ◌++◌, ◌^◌, List, map, take, nat_eq, false, true, length};
ghost use Rattle.std.specs.Prelude.{OnOk, OnErr, IfSome, IfNone};
ghost use Rattle.std.specs.List.{list_any};
ghost use Rattle.std.specs.VecDeque.{deque_len, deque_capacity};
ghost use Rattle.std.specs.Vec.{vec_len, vec_capacity};
ghost use Rattle.gossip.specs.declared.message.Message.{Message};
ghost use Rattle.gossip.specs.Newest.{charge, has_stamp, Rise};
ghost use Rattle.gossip.specs.Spans.{IsApart};
ghost use Rattle.gossip.specs.Parts.{bytes_up_to};
ghost use Rattle.gossip.specs.Cutting.{shown};
ghost use Rattle.gossip.specs.Sending.{is_lacking, lag, NoneDue, IsNext};
ghost use Rattle.gossip.specs.Placing.{up_to, sums_after, sum_behind, IsRun};
ghost use Rattle.gossip.specs.Held.{find, total, inserted, staying, leaving, floor_with};

use crate::coverage::{Coverage, MOST};
use crate::message::{CHARGE, Message};
use crate::span::Span;
use arrayvec::ArrayVec;
use std::alloc::AllocError;
use std::collections::VecDeque;

/// Returns the sum behind the first `count` messages, from `base` on.
fn sum_behind(base: u64, sums: &VecDeque<u64>, count: usize) -> u64
    ensures { (list : List Message) → take count sums.now.items ≡ sums_after base list
        → count ≡ length list → result ≡ sum_behind base list }
{
    if count == 0 {
        return base;
    }
    match sums.get(count - 1) {
        Some(sum) => *sum,
        None => 0,
    }
}

/// Sums up again from the message at this index on.
fn sum_up(list: &VecDeque<Message>, base: u64, sums: &mut VecDeque<u64>, place: usize)
    requires room { deque_len list.now ≤ deque_capacity sums.old }
    requires place { place ≤ deque_len list.now }
    requires before { take place sums.old.items ≡ sums_after base (take place list.now.items) }
    ensures { sums.new.items ≡ sums_after base list.now.items }
{
    let mut sum = sum_behind(base, sums, place);
    sums.truncate(place);
    for i in place..list.len() {
        let Some(message) = list.get(i) else {
            return;
        };
        sum = sum.wrapping_add(message.bytes).wrapping_add(CHARGE);
        sums.push_back_reserved(sum);
    }
}

/// The messages that a log keeps, in order, what they are charged, and the stamp of the last that
/// left. Beside each message stands the sum of what it and those before it are charged, from `base`
/// on, without the multiples of 2^64.
#[derive(Drop)]
pub(crate) struct Kept {
    pub(crate) floor: u64,
    pub(crate) total: u128,
    pub(crate) list: VecDeque<Message>,
    pub(crate) base: u64,
    pub(crate) sums: VecDeque<u64>,
}

impl Kept {
    /// Returns the number of messages that are no later than the stamp.
    fn up_to(&self, stamp: u64) -> usize
        requires { Rise self.now.floor self.now.list.items }
        ensures count { result ≡ up_to stamp self.now.list.items }
        ensures bound { result ≤ deque_len self.now.list }
    {
        match self.list.back() {
            Some(last) => {
                if last.stamp <= stamp {
                    self.list.len()
                } else {
                    self.list.partition_point(|it| it.stamp <= stamp)
                }
            }
            None => 0,
        }
    }

    /// Returns the message of the stamp.
    pub(crate) fn find(&self, stamp: u64) -> Option<Message>
        requires { Rise self.now.floor self.now.list.items }
        ensures { result ≡ find stamp self.now.list.items }
    {
        let count = self.up_to(stamp);
        if count == 0 {
            return None;
        }
        match self.list.get(count - 1) {
            Some(it) => { if it.stamp == stamp { Some(*it) } else { None } }
            None => None,
        }
    }

    /// Returns what the messages are charged, which is within the budget.
    pub(crate) fn bytes(&self, budget: u64) -> u64
        requires { self.now.total ≤ budget }
        ensures { result ≡ self.now.total }
    {
        self.total as u64
    }

    /// Puts a message in its place.
    pub(crate) fn insert(&mut self, message: Message) -> Result<(), AllocError>
        requires total { self.old.total ≤ 2 ^ 64 }
        requires sums { self.old.sums.items ≡ sums_after self.old.base self.old.list.items }
        requires rises { Rise self.old.floor self.old.list.items }
        requires new { has_stamp message.stamp self.old.list.items ≡ false }
        ensures floor { self.new.floor ≡ self.old.floor }
        ensures total { OnOk result (self.new.total ≡ self.old.total + charge message) }
        ensures list { OnOk result (self.new.list.items ≡ inserted message self.old.list.items) }
        ensures len { OnOk result (deque_len self.new.list ≡ deque_len self.old.list + 1) }
        ensures sums { self.new.sums.items ≡ sums_after self.new.base self.new.list.items }
        ensures same_total { OnErr result (self.new.total ≡ self.old.total) }
        ensures same { OnErr result (self.new.list.items ≡ self.old.list.items) }
    {
        self.sums.reserve(1)?;
        let place = self.up_to(message.stamp);
        self.list.insert(place, message)?;
        self.total += message.charge();
        sum_up(&self.list, self.base, &mut self.sums, place);
        Ok(())
    }

    /// Lets the earliest message go while they are charged more than the budget, and appends the
    /// handles.
    pub(crate) fn shrink(&mut self, budget: u64, left: &mut Vec<u64>)
        requires total { self.old.total ≡ total self.old.list.items }
        requires sums { self.old.sums.items ≡ sums_after self.old.base self.old.list.items }
        requires room { vec_len left.old + length (leaving budget self.old.list.items)
            ≤ vec_capacity left.old }
        ensures total { self.new.total ≡ total self.new.list.items }
        ensures sums { self.new.sums.items ≡ sums_after self.new.base self.new.list.items }
        ensures floor { self.new.floor ≡ floor_with budget self.old.floor self.old.list.items }
        ensures list { self.new.list.items ≡ staying budget self.old.list.items }
        ensures left { left.new.items ≡ left.old.items
            ++ map (λ m. m.handle) (leaving budget self.old.list.items) }
    {
        while u128::from(budget) < self.total {
            let Some(first) = self.list.pop_front() else {
                return;
            };
            if let Some(sum) = self.sums.pop_front() {
                self.base = sum;
            }
            self.total -= first.charge();
            self.floor = first.stamp;
            let _pushed = left.push(first.handle);
        }
    }

    /// Returns how many messages leave for one that is not listed, that one included.
    pub(crate) fn leaving(&self, budget: u64, message: Message) -> usize
        requires total { self.now.total ≡ total self.now.list.items }
        requires within { total self.now.list.items ≤ budget }
        requires rises { Rise self.now.floor self.now.list.items }
        requires new { has_stamp message.stamp self.now.list.items ≡ false }
        ensures { result ≡ length (leaving budget (inserted message self.now.list.items)) }
    {
        let place = self.up_to(message.stamp);
        let mut total = self.total + message.charge();
        for i in 0..place {
            if total <= u128::from(budget) {
                return i;
            }
            let Some(first) = self.list.get(i) else {
                return place;
            };
            total -= first.charge();
        }
        if total <= u128::from(budget) {
            place
        } else {
            place + 1
        }
    }
}

/// Returns the floor and the listed messages as at most `MOST` spans, of which the first is up to
/// the floor, cut off above.
pub(crate) fn shown(list: &VecDeque<Message>, floor: u64) -> ArrayVec<Span, 64>
    ensures { result.items ≡ shown 63 (record { from = 0; to = floor }) list.now.items }
{
    let mut spans = ArrayVec::new();
    let mut open = Span { from: 0, to: floor };
    for i in 0..list.len() {
        let Some(message) = list.get(i) else {
            break;
        };
        if message.prev <= open.to {
            open.to = message.stamp;
        } else if spans.len() + 1 < MOST {
            spans.push(open);
            open = Span {
                from: message.prev,
                to: message.stamp,
            };
        } else {
            break;
        }
    }
    spans.push(open);
    spans
}

/// Returns whether the stamp is in flight. If the stamps in flight rise, one that is takes a few
/// steps to find.
fn is_in_flight(stamp: u64, in_flight: &[u64]) -> bool
    ensures { result ≡ list_any (λ s. nat_eq s stamp) in_flight.now }
{
    let place = in_flight.partition_point(|it| *it < stamp);
    if in_flight.get(place) == Some(&stamp) {
        return true;
    }
    in_flight.iter().any(|it| *it == stamp)
}

/// Returns the end of the stamps from this one on of which the peer lacks none, if it does not lack
/// this one.
fn end_of_run(stamp: u64, reported: &Coverage, sent: u64) -> Option<u64>
    ensures run { IfSome result (IsRun reported.now sent stamp) }
    ensures none { IfNone result (is_lacking reported.now sent stamp ≡ true) }
{
    for span in reported.spans() {
        if span.has(stamp) {
            return Some(span.to);
        }
    }
    if reported.top() < stamp && stamp <= sent {
        return Some(sent);
    }
    None
}

impl Kept {
    /// Returns the first message that is due.
    pub(crate) fn first_due(
        &self,
        reported: &Coverage,
        sent: u64,
        in_flight: &[u64],
    ) -> Option<Message>
        requires { Rise self.now.floor self.now.list.items }
        ensures first { IfSome result
            (IsNext reported.now sent in_flight.now self.now.list.items) }
        ensures none { IfNone result
            (NoneDue reported.now sent in_flight.now self.now.list.items) }
    {
        let mut i = 0;
        loop {
            let Some(message) = self.list.get(i) else {
                return None;
            };
            match end_of_run(message.stamp, reported, sent) {
                Some(end) => i = self.up_to(end),
                None => {
                    if !is_in_flight(message.stamp, in_flight) {
                        return Some(*message);
                    }
                    i += 1;
                }
            }
        }
    }

    /// Returns what the messages up to the stamp are charged, which is within the budget.
    fn charge_up_to(&self, budget: u64, stamp: u64) -> u64
        requires rises { Rise self.now.floor self.now.list.items }
        requires sums { self.now.sums.items ≡ sums_after self.now.base self.now.list.items }
        requires within { total self.now.list.items ≤ budget }
        ensures { result ≡ bytes_up_to stamp self.now.list.items }
    {
        let before = sum_behind(self.base, &self.sums, 0);
        let count = self.up_to(stamp);
        sum_behind(self.base, &self.sums, count).wrapping_sub(before)
    }

    /// Returns what the messages are charged that are in none of the spans.
    pub(crate) fn lag_behind(&self, budget: u64, spans: &[Span]) -> u64
        requires total { self.now.total ≡ total self.now.list.items }
        requires sums { self.now.sums.items ≡ sums_after self.now.base self.now.list.items }
        requires rises { Rise self.now.floor self.now.list.items }
        requires within { total self.now.list.items ≤ budget }
        requires apart { IsApart spans.now }
        ensures { result ≡ lag spans.now self.now.list.items }
    {
        let mut bytes = self.bytes(budget);
        for span in spans {
            let before = self.charge_up_to(budget, span.from);
            let had = self.charge_up_to(budget, span.to).saturating_sub(before);
            bytes = bytes.saturating_sub(had);
        }
        bytes
    }
}
