//! The functions of the log of an author.
ghost use Rattle.std.specs.Prelude.{◌≡◌, ◌<◌, ◌≤◌, [], true, false, None, Some, IsNone, MatchOption, length, drop, slice_get};
ghost use Rattle.gossip.specs.Held.{find, is_known, total};
ghost use Rattle.gossip.specs.Sending.{IsNext, NoneDue, lag};
ghost use Rattle.gossip.specs.Spans.{IsCoverage};
ghost use Rattle.broadcast_c.specs.Calls.{BothHold};
ghost use Rattle.broadcast_c.specs.Coverages.{coverage_of};
ghost use Rattle.broadcast_c.specs.Logs.{Arrives, Reads, Reports, arrived_code, leaves};

use super::buffer::copy_front;
use crate::codes::{EMPTY, MEMORY, NO_COVERAGE, NONE, OK, SHORT};
use crate::log_handle::{LogHandle, OwnLog};
use gossip::{Arrived, Coverage, Log, Message, Span};
use std::alloc::{AllocError, Global};

/// Makes the log of an author of whom nothing was received, and frees the one that was there.
#[unsafe(no_mangle)]
pub extern "C" fn broadcast_log_new(alloc: Global, log: &mut LogHandle, budget: u64) -> u32
    ensures made { result ≡ OK → MatchOption log.new.value ⊥
        (λ it. it.log ≡ record { budget = budget; floor = 0; list = [] }) }
    ensures fails { ¬ (result ≡ OK) → (result ≡ MEMORY) × (log.new.value ≡ log.old.value) }
{
    let made = OwnLog {
        log: Log::new(alloc, budget),
    };
    match Box::new(alloc, made) {
        Ok(made) => {
            log.take(alloc);
            log.put(made);
            OK
        }
        Err(_) => MEMORY,
    }
}

/// Frees the log.
#[unsafe(no_mangle)]
pub extern "C" fn broadcast_log_free(alloc: Global, log: &mut LogHandle)
    ensures { log.new.value ≡ None }
{
    log.take(alloc);
}

/// The message is new, and on the list.
pub const LISTED: u32 = 0;

/// It is new, but has no room beside the later ones.
pub const PASSED: u32 = 1;

/// Its stamp is up to the floor or listed, or no later than the one before it.
pub const REFUSED: u32 = 2;

/// It is charged more than the budget by itself.
pub const ABOVE_BUDGET: u32 = 3;

/// Its stamp is later than may be accepted.
pub const UNTIMELY: u32 = 4;

/// Returns the number of what becomes of a message.
fn code_of(arrived: Arrived) -> u32
    ensures { result ≡ arrived_code arrived }
{
    match arrived {
        Arrived::Listed => LISTED,
        Arrived::Passed => PASSED,
        Arrived::Refused => REFUSED,
        Arrived::Oversize => ABOVE_BUDGET,
        Arrived::Untimely => UNTIMELY,
    }
}

/// Takes a message that arrives, if its stamp is no later than `latest`. Sets `arrived` to what
/// becomes of it, fills `left` with the handles of those that leave, and sets `needed` to their
/// number. If the buffer is too short, only `needed` is set.
#[unsafe(no_mangle)]
pub extern "C" fn broadcast_log_arrive(
    alloc: Global,
    log: &mut LogHandle,
    message: &Message,
    latest: u64,
    left: &mut [u64],
    needed: &mut usize,
    arrived: &mut u32,
) -> u32
    ensures taken { result ≡ OK → BothHold log.old.value log.new.value
        (Arrives latest message.now arrived.new needed.new left.old left.new) }
    ensures room { result ≡ OK → needed.new ≤ length left.old }
    ensures short { result ≡ SHORT → Reads log.old.value log.new.value (λ held.
        (needed.new ≡ length (leaves latest message.now held)) × (length left.old < needed.new)) }
    ensures empty { result ≡ EMPTY → (log.old.value ≡ None) × (log.new.value ≡ None) }
    ensures fails { ¬ (result ≡ OK) → ¬ (result ≡ SHORT) → ¬ (result ≡ EMPTY)
        → (result ≡ MEMORY) × (Reads log.old.value log.new.value (λ held. Unit {0})) }
    ensures reports_nothing { ¬ (result ≡ OK)
        → (arrived.new ≡ arrived.old) × (left.new ≡ left.old) }
    ensures needs_nothing { ¬ (result ≡ OK) → ¬ (result ≡ SHORT) → needed.new ≡ needed.old }
{
    let Some(mut held) = log.take(alloc) else {
        return EMPTY;
    };
    let count = if latest < message.stamp {
        0
    } else {
        held.log.leaving(*message)
    };
    if left.len() < count {
        *needed = count;
        log.put(held);
        return SHORT;
    }
    let mut gone = Vec::new(alloc);
    let result = held.log.arrive(*message, latest, &mut gone);
    log.put(held);
    match result {
        Ok(it) => {
            copy_front(gone.as_slice(), left);
            *needed = count;
            *arrived = code_of(it);
            OK
        }
        Err(AllocError) => MEMORY,
    }
}

/// Reports whether the stamp is no later than the floor, or listed.
#[unsafe(no_mangle)]
pub extern "C" fn broadcast_log_has(alloc: Global, log: &mut LogHandle, stamp: u64) -> u32
    ensures had { result ≡ OK → Reads log.old.value log.new.value
        (λ held. is_known stamp held ≡ true) }
    ensures not_had { result ≡ NONE → Reads log.old.value log.new.value
        (λ held. is_known stamp held ≡ false) }
    ensures empty { ¬ (result ≡ OK) → ¬ (result ≡ NONE)
        → (result ≡ EMPTY) × (log.old.value ≡ None) × (log.new.value ≡ None) }
{
    let Some(held) = log.take(alloc) else {
        return EMPTY;
    };
    let has = held.log.has(stamp);
    log.put(held);
    if has { OK } else { NONE }
}

/// Sets `out` to the listed message at the index, in order of stamps.
#[unsafe(no_mangle)]
pub extern "C" fn broadcast_log_get(
    alloc: Global,
    log: &mut LogHandle,
    index: usize,
    out: &mut Message,
) -> u32
    ensures found { result ≡ OK → Reads log.old.value log.new.value
        (λ held. slice_get held.list index ≡ Some out.new) }
    ensures none { result ≡ NONE → Reads log.old.value log.new.value
        (λ held. slice_get held.list index ≡ None) }
    ensures empty { ¬ (result ≡ OK) → ¬ (result ≡ NONE)
        → (result ≡ EMPTY) × (log.old.value ≡ None) × (log.new.value ≡ None) }
    ensures reports_nothing { ¬ (result ≡ OK) → out.new ≡ out.old }
{
    let Some(held) = log.take(alloc) else {
        return EMPTY;
    };
    let found = held.log.get(index);
    log.put(held);
    match found {
        Some(message) => {
            *out = message;
            OK
        }
        None => NONE,
    }
}

/// Sets `out` to the listed message of the stamp.
#[unsafe(no_mangle)]
pub extern "C" fn broadcast_log_find(
    alloc: Global,
    log: &mut LogHandle,
    stamp: u64,
    out: &mut Message,
) -> u32
    ensures found { result ≡ OK → Reads log.old.value log.new.value
        (λ held. find stamp held.list ≡ Some out.new) }
    ensures none { result ≡ NONE → Reads log.old.value log.new.value
        (λ held. find stamp held.list ≡ None) }
    ensures empty { ¬ (result ≡ OK) → ¬ (result ≡ NONE)
        → (result ≡ EMPTY) × (log.old.value ≡ None) × (log.new.value ≡ None) }
    ensures reports_nothing { ¬ (result ≡ OK) → out.new ≡ out.old }
{
    let Some(held) = log.take(alloc) else {
        return EMPTY;
    };
    let found = held.log.find(stamp);
    log.put(held);
    match found {
        Some(message) => {
            *out = message;
            OK
        }
        None => NONE,
    }
}

/// Sets `floor` to the log's, `len` to the number of listed messages, and `bytes` to what they are
/// charged.
#[unsafe(no_mangle)]
pub extern "C" fn broadcast_log_count(
    alloc: Global,
    log: &mut LogHandle,
    floor: &mut u64,
    len: &mut usize,
    bytes: &mut u64,
) -> u32
    ensures counted { result ≡ OK → Reads log.old.value log.new.value (λ held.
        (floor.new ≡ held.floor) × (len.new ≡ length held.list) × (bytes.new ≡ total held.list)) }
    ensures empty { ¬ (result ≡ OK)
        → (result ≡ EMPTY) × (log.old.value ≡ None) × (log.new.value ≡ None) }
    ensures reports_nothing { ¬ (result ≡ OK)
        → (floor.new ≡ floor.old) × (len.new ≡ len.old) × (bytes.new ≡ bytes.old) }
{
    let Some(held) = log.take(alloc) else {
        return EMPTY;
    };
    *floor = held.log.floor();
    *len = held.log.len();
    *bytes = held.log.bytes();
    log.put(held);
    OK
}

/// Sets `floor`, and fills `out` with the spans above it, to what is reported to a peer: at most 64
/// spans with the one up to the floor, cut off above. If the buffer is too short, only `needed` is
/// set.
#[unsafe(no_mangle)]
pub extern "C" fn broadcast_log_report(
    alloc: Global,
    log: &mut LogHandle,
    floor: &mut u64,
    out: &mut [Span],
    needed: &mut usize,
) -> u32
    ensures reported { result ≡ OK → Reads log.old.value log.new.value (λ held.
        Reports held floor.new needed.new out.old out.new) }
    ensures room { result ≡ OK → needed.new ≤ length out.old }
    ensures short { result ≡ SHORT → (length out.old < needed.new)
        × (Reads log.old.value log.new.value (λ held. Unit {0})) }
    ensures empty { ¬ (result ≡ OK) → ¬ (result ≡ SHORT)
        → (result ≡ EMPTY) × (log.old.value ≡ None) × (log.new.value ≡ None) }
    ensures reports_nothing { ¬ (result ≡ OK) → (floor.new ≡ floor.old) × (out.new ≡ out.old) }
    ensures needs_nothing { result ≡ EMPTY → needed.new ≡ needed.old }
{
    let Some(held) = log.take(alloc) else {
        return EMPTY;
    };
    let report = held.log.report();
    log.put(held);
    let above = report.above_floor();
    *needed = above.len();
    if out.len() < above.len() {
        return SHORT;
    }
    copy_front(above, out);
    *floor = report.floor();
    OK
}

/// Sets `out` to the message that a peer with this report is sent next: the earliest that the peer
/// lacks and that is not in flight, while its room exceeds the bytes in flight to it.
#[unsafe(no_mangle)]
pub extern "C" fn broadcast_log_next(
    alloc: Global,
    log: &mut LogHandle,
    floor: u64,
    spans: &[Span],
    sent: u64,
    in_flight: &[u64],
    flying: u64,
    room: u64,
    out: &mut Message,
) -> u32
    ensures next { result ≡ OK → (flying < room) × (Reads log.old.value log.new.value
        (λ held. IsNext (coverage_of floor spans.now) sent in_flight.now held.list out.new)) }
    ensures none { result ≡ NONE → flying < room → Reads log.old.value log.new.value
        (λ held. NoneDue (coverage_of floor spans.now) sent in_flight.now held.list) }
    ensures invalid { result ≡ NO_COVERAGE → ¬ (IsCoverage 64 (coverage_of floor spans.now))
        × (log.new.value ≡ log.old.value) }
    ensures valid { ¬ (result ≡ NO_COVERAGE) → IsCoverage 64 (coverage_of floor spans.now) }
    ensures empty { ¬ (result ≡ OK) → ¬ (result ≡ NONE) → ¬ (result ≡ NO_COVERAGE)
        → (result ≡ EMPTY) × (log.old.value ≡ None) × (log.new.value ≡ None) }
    ensures reports_nothing { ¬ (result ≡ OK) → out.new ≡ out.old }
{
    let Some(reported) = Coverage::reported(floor, spans) else {
        return NO_COVERAGE;
    };
    let Some(held) = log.take(alloc) else {
        return EMPTY;
    };
    let next = held.log.next(&reported, sent, in_flight, flying, room);
    log.put(held);
    match next {
        Some(message) => {
            *out = message;
            OK
        }
        None => NONE,
    }
}

/// Sets `bytes` to what the listed messages are charged that the report does not show.
#[unsafe(no_mangle)]
pub extern "C" fn broadcast_log_lag(
    alloc: Global,
    log: &mut LogHandle,
    floor: u64,
    spans: &[Span],
    bytes: &mut u64,
) -> u32
    ensures lag { result ≡ OK → Reads log.old.value log.new.value
        (λ held. bytes.new ≡ lag (coverage_of floor spans.now) held.list) }
    ensures invalid { result ≡ NO_COVERAGE → ¬ (IsCoverage 64 (coverage_of floor spans.now))
        × (log.new.value ≡ log.old.value) }
    ensures valid { ¬ (result ≡ NO_COVERAGE) → IsCoverage 64 (coverage_of floor spans.now) }
    ensures empty { ¬ (result ≡ OK) → ¬ (result ≡ NO_COVERAGE)
        → (result ≡ EMPTY) × (log.old.value ≡ None) × (log.new.value ≡ None) }
    ensures reports_nothing { ¬ (result ≡ OK) → bytes.new ≡ bytes.old }
{
    let Some(reported) = Coverage::reported(floor, spans) else {
        return NO_COVERAGE;
    };
    let Some(held) = log.take(alloc) else {
        return EMPTY;
    };
    *bytes = held.log.lag(&reported);
    log.put(held);
    OK
}
