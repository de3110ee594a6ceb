//! What the calls of logs amount to, in loops that only call them.
ghost use Rattle.std.specs.Prelude.{◌≡◌, ◌≤◌, [], true, IfOk, OnOk, Contains, map};
ghost use Rattle.std.specs.List.{IsDistinct};
ghost use Rattle.gossip.specs.Newest.{Rise, AreNewest, IsFloor, HaveTheSame, IsOneAStamp};
ghost use Rattle.gossip.specs.Showing.{AreCovered};
ghost use Rattle.gossip.specs.Held.{in_time, after_all, listed, same_stamp, history, bare, bare_of};

use crate::log::Log;
use crate::message::{Arrival, Arrived, Message};
use std::alloc::{AllocError, Global};

/// Takes messages one after another, and returns those that were put on the list. The list has the
/// newest of all messages that came in time and fit, in whatever order, how often and from
/// whomever they came.
pub fn run_log(
    alloc: Global,
    log: &mut Log,
    arrivals: &[Arrival],
) -> Result<Vec<Message>, AllocError>
    requires new { log.old.floor ≡ 0 }
    requires empty { log.old.list ≡ [] }
    ensures newest { OnOk result (AreNewest log.new.budget (history arrivals.now) log.new.list) }
    ensures floor { OnOk result (IsFloor log.new.budget (history arrivals.now) log.new.floor) }
    ensures rises { OnOk result (Rise log.new.floor log.new.list) }
    ensures after { OnOk result (log.new ≡ after_all log.old (in_time arrivals.now)) }
    ensures listed { IfOk result (λ v. v.items ≡ listed log.old (in_time arrivals.now)) }
    ensures once { IfOk result (λ v. IsDistinct same_stamp v.items) }
    ensures delivered { IfOk result (λ v. (m : Message) → Contains log.new.list m
        → Contains v.items m) }
{
    let mut all = Vec::new(alloc);
    let mut left = Vec::new(alloc);
    for it in arrivals {
        match log.arrive(it.message, it.latest, &mut left)? {
            Arrived::Listed => all.push(it.message)?,
            Arrived::Passed | Arrived::Refused | Arrived::Oversize | Arrived::Untimely => {}
        }
        left.clear();
    }
    Ok(all)
}

/// Takes the messages that came in time to each of two relays. If they are the same, in whatever
/// order, how often and from whomever they came, the two logs are the same, but for handles. An
/// author that signs different messages of one stamp is left out: of those, each log keeps what
/// came to it first.
pub fn converge(
    alloc: Global,
    logs: &mut (Log, Log),
    first: &[Arrival],
    second: &[Arrival],
) -> Result<(), AllocError>
    requires budgets { logs.old.0.budget ≡ logs.old.1.budget }
    requires new { (logs.old.0.floor ≡ 0) × (logs.old.1.floor ≡ 0) }
    requires empty { (logs.old.0.list ≡ []) × (logs.old.1.list ≡ []) }
    ensures same { OnOk result (
        HaveTheSame (map bare (history first.now)) (map bare (history second.now))
        → IsOneAStamp (map bare (history first.now))
        → bare_of logs.new.0 ≡ bare_of logs.new.1) }
{
    run_log(alloc, &mut logs.0, first)?;
    run_log(alloc, &mut logs.1, second)?;
    Ok(())
}

/// Sends the next message, one after another, until there is none, to a log to which nothing else
/// comes meanwhile. Returns whether there was none left. If the other log's budget is no less,
/// there is none left, and the other log covers the whole list.
pub fn exchange(from: &Log, to: &mut Log, left: &mut Vec<u64>) -> Result<bool, AllocError>
    ensures all { IfOk result (λ done. done ≡ true → AreCovered to.new from.now.list) }
    ensures ends { from.now.budget ≤ to.old.budget → IfOk result (λ done. done ≡ true) }
{
    let mut sent = from.floor();
    loop {
        let report = to.report();
        let Some(message) = from.next(&report, sent, &[], 0, 1) else {
            return Ok(true);
        };
        if report.top() < message.stamp {
            sent = message.stamp;
        }
        match to.arrive(message, message.stamp, left)? {
            Arrived::Oversize => return Ok(false),
            Arrived::Listed | Arrived::Passed | Arrived::Refused | Arrived::Untimely => {}
        }
    }
}
