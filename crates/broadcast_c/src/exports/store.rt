//! The functions of a store.
ghost use Rattle.std.specs.Prelude.{◌≡◌, [], true, false, None, MatchOption};
ghost use Rattle.broadcast_c.specs.Calls.{BothHold, Fails, Finds};
ghost use Rattle.broadcast_c.specs.Counting.{counted_as};
ghost use Rattle.broadcast_c.specs.Law.{Does, IsNew, store_peers, store_take, store_subscribe, store_cleanup, store_cleanup_of, store_left, store_served, store_get, store_is_primary, store_bytes, store_list, store_count};

use super::buffer::fill;
use super::counters::broadcast_counters_count;
use crate::codes::{EMPTY, MEMORY, NONE, OK, SHORT, WAITS, code_of_outcome};
use crate::counters::Counters;
use crate::handle::StoreHandle;
use crate::store::{Name, Store};
use broadcast_core::Digest;
use std::alloc::{AllocError, Global};

/// The result of taking a message.
#[repr(C)]
#[derive(Drop)]
pub struct Stored {
    /// The number of the outcome.
    pub outcome: u32,
    /// Whether the message is cached, and none of its digest was.
    pub kept: bool,
    /// The number of tickets that were served.
    pub served: usize,
    /// The number of cached messages.
    pub cached: usize,
    /// The number of messages that left and were not moved out.
    pub left: usize,
}

/// The sizes of a store.
#[repr(C)]
#[derive(Drop)]
pub struct Counts {
    /// The number of cached messages.
    pub cached: usize,
    /// The number of digests that have waiters.
    pub awaited: usize,
}

/// Makes a store, and frees the one that was there.
#[unsafe(no_mangle)]
pub extern "C" fn broadcast_store_new(
    alloc: Global,
    store: &mut StoreHandle,
    own: &Name,
    deque_size: usize,
    byte_budget: u64,
) -> u32
    ensures made { result ≡ OK → MatchOption store.new.value ⊥
        (IsNew own.now deque_size byte_budget) }
    ensures fails { ¬ (result ≡ OK) → (result ≡ MEMORY) × (store.new.value ≡ store.old.value) }
{
    match Box::new(alloc, Store::new(alloc, *own, deque_size, byte_budget)) {
        Ok(made) => {
            store.take(alloc);
            store.put(made);
            OK
        }
        Err(_) => MEMORY,
    }
}

/// Frees the store.
#[unsafe(no_mangle)]
pub extern "C" fn broadcast_store_free(alloc: Global, store: &mut StoreHandle)
    ensures { store.new.value ≡ None }
{
    store.take(alloc);
}

/// Makes the keys the primary keys. An empty set never fails.
#[unsafe(no_mangle)]
pub extern "C" fn broadcast_store_peers(
    alloc: Global,
    store: &mut StoreHandle,
    names: &[Name],
) -> u32
    ensures taken { result ≡ OK → BothHold store.old.value store.new.value
        (Does (store_peers names.now)) }
    ensures fails { ¬ (result ≡ OK) → Fails store.old.value store.new.value result }
    ensures succeeds_on_none { result ≡ MEMORY → ¬ (names.now ≡ []) }
{
    let Some(mut held) = store.take(alloc) else {
        return EMPTY;
    };
    let result = held.update_primary_peers(alloc, names);
    store.put(held);
    match result {
        Ok(()) => OK,
        Err(AllocError) => MEMORY,
    }
}

/// Takes the message of the handle under the key, by the digest, at this charge.
#[unsafe(no_mangle)]
pub extern "C" fn broadcast_store_take(
    alloc: Global,
    store: &mut StoreHandle,
    peer: &Name,
    digest: &Digest,
    charge: usize,
    handle: u64,
    out: &mut Stored,
) -> u32
    ensures taken { result ≡ OK → BothHold store.old.value store.new.value
        (Does (store_take peer.now digest.now charge handle out.new)) }
    ensures fails { ¬ (result ≡ OK) → Fails store.old.value store.new.value result }
    ensures reports_nothing { ¬ (result ≡ OK) → out.new ≡ out.old }
{
    let Some(mut held) = store.take(alloc) else {
        return EMPTY;
    };
    let result = held.take(alloc, peer, *digest, charge, handle);
    let (served, left) = (held.served.len(), held.cache.left_len());
    let (cached, _) = held.sizes();
    store.put(held);
    match result {
        Ok((outcome, kept)) => {
            *out = Stored {
                outcome: code_of_outcome(outcome),
                kept,
                served,
                cached,
                left,
            };
            OK
        }
        Err(AllocError) => MEMORY,
    }
}

/// Takes the message as `broadcast_store_take` does, and counts its outcome in `counters`.
#[unsafe(no_mangle)]
pub extern "C" fn broadcast_store_receive(
    alloc: Global,
    store: &mut StoreHandle,
    peer: &Name,
    digest: &Digest,
    charge: usize,
    handle: u64,
    counters: &mut Counters,
    out: &mut Stored,
) -> u32
    ensures taken { result ≡ OK → BothHold store.old.value store.new.value
        (Does (store_take peer.now digest.now charge handle out.new)) }
    ensures counted { result ≡ OK → counters.new ≡ counted_as out.new.outcome counters.old }
    ensures fails { ¬ (result ≡ OK) → Fails store.old.value store.new.value result }
    ensures uncounted { ¬ (result ≡ OK) → counters.new ≡ counters.old }
    ensures reports_nothing { ¬ (result ≡ OK) → out.new ≡ out.old }
{
    let status = broadcast_store_take(alloc, store, peer, digest, charge, handle, out);
    if status == OK {
        broadcast_counters_count(counters, out.outcome);
    }
    status
}

/// Copies the tickets that the last taken message served.
#[unsafe(no_mangle)]
pub extern "C" fn broadcast_store_served(
    alloc: Global,
    store: &mut StoreHandle,
    out: &mut [u64],
    needed: &mut usize,
) -> u32
    ensures finds { Finds store.old.value store.new.value result
        (Does (store_served out.old out.new needed.new result)) }
    ensures reports_nothing { result ≡ EMPTY → (out.new ≡ out.old) × (needed.new ≡ needed.old) }
{
    let Some(held) = store.take(alloc) else {
        return EMPTY;
    };
    let status = fill(held.served.as_slice(), out, needed);
    store.put(held);
    status
}

/// Moves the handles of messages that left to the front of `out`, the newest first.
#[unsafe(no_mangle)]
pub extern "C" fn broadcast_store_left(
    alloc: Global,
    store: &mut StoreHandle,
    out: &mut [u64],
    moved: &mut usize,
) -> u32
    ensures finds { Finds store.old.value store.new.value result (λ old new. (result ≡ OK)
        × Does (store_left out.old out.new moved.new) old new) }
    ensures reports_nothing { result ≡ EMPTY → (out.new ≡ out.old) × (moved.new ≡ moved.old) }
{
    let Some(mut held) = store.take(alloc) else {
        return EMPTY;
    };
    *moved = held.move_left(out);
    store.put(held);
    OK
}

/// Reports the handle of the cached message of the digest.
#[unsafe(no_mangle)]
pub extern "C" fn broadcast_store_get(
    alloc: Global,
    store: &mut StoreHandle,
    digest: &Digest,
    handle: &mut u64,
) -> u32
    ensures finds { Finds store.old.value store.new.value result
        (Does (store_get digest.now handle.new result)) }
    ensures reports_nothing { ¬ (result ≡ OK) → handle.new ≡ handle.old }
{
    let Some(held) = store.take(alloc) else {
        return EMPTY;
    };
    let found = held.handle(digest);
    store.put(held);
    match found {
        Some(it) => {
            *handle = it;
            OK
        }
        None => NONE,
    }
}

/// Lets the ticket wait for the digest, unless its message is cached.
#[unsafe(no_mangle)]
pub extern "C" fn broadcast_store_subscribe(
    alloc: Global,
    store: &mut StoreHandle,
    ticket: u64,
    digest: &Digest,
) -> u32
    ensures waits { result ≡ WAITS → BothHold store.old.value store.new.value
        (Does (store_subscribe ticket digest.now true)) }
    ensures answered { result ≡ OK → BothHold store.old.value store.new.value
        (Does (store_subscribe ticket digest.now false)) }
    ensures fails { ¬ (result ≡ OK) → ¬ (result ≡ WAITS)
        → Fails store.old.value store.new.value result }
{
    let Some(mut held) = store.take(alloc) else {
        return EMPTY;
    };
    let result = held.subscribe(ticket, *digest);
    store.put(held);
    match result {
        Ok(true) => WAITS,
        Ok(false) => OK,
        Err(AllocError) => MEMORY,
    }
}

/// Drops the waiters with these tickets.
#[unsafe(no_mangle)]
pub extern "C" fn broadcast_store_cleanup(
    alloc: Global,
    store: &mut StoreHandle,
    tickets: &[u64],
    removed: &mut u64,
) -> u32
    ensures finds { Finds store.old.value store.new.value result (λ old new. (result ≡ OK)
        × Does (store_cleanup tickets.now removed.new) old new) }
    ensures reports_nothing { result ≡ EMPTY → removed.new ≡ removed.old }
{
    let Some(mut held) = store.take(alloc) else {
        return EMPTY;
    };
    *removed = held.cleanup(tickets);
    store.put(held);
    OK
}

/// Drops the waiters of the digest with these tickets.
#[unsafe(no_mangle)]
pub extern "C" fn broadcast_store_cleanup_of(
    alloc: Global,
    store: &mut StoreHandle,
    digest: &Digest,
    tickets: &[u64],
    removed: &mut u64,
) -> u32
    ensures finds { Finds store.old.value store.new.value result (λ old new. (result ≡ OK)
        × Does (store_cleanup_of digest.now tickets.now removed.new) old new) }
    ensures reports_nothing { result ≡ EMPTY → removed.new ≡ removed.old }
{
    let Some(mut held) = store.take(alloc) else {
        return EMPTY;
    };
    *removed = held.cleanup_of(digest, tickets);
    store.put(held);
    OK
}

/// Reports whether the key is primary.
#[unsafe(no_mangle)]
pub extern "C" fn broadcast_store_is_primary(
    alloc: Global,
    store: &mut StoreHandle,
    peer: &Name,
    out: &mut bool,
) -> u32
    ensures finds { Finds store.old.value store.new.value result (λ old new. (result ≡ OK)
        × Does (store_is_primary peer.now out.new) old new) }
    ensures reports_nothing { result ≡ EMPTY → out.new ≡ out.old }
{
    let Some(held) = store.take(alloc) else {
        return EMPTY;
    };
    *out = held.is_primary(peer);
    store.put(held);
    OK
}

/// Reports what the list of the key is charged.
#[unsafe(no_mangle)]
pub extern "C" fn broadcast_store_bytes(
    alloc: Global,
    store: &mut StoreHandle,
    peer: &Name,
    out: &mut u64,
) -> u32
    ensures finds { Finds store.old.value store.new.value result (λ old new. (result ≡ OK)
        × Does (store_bytes peer.now out.new) old new) }
    ensures reports_nothing { result ≡ EMPTY → out.new ≡ out.old }
{
    let Some(held) = store.take(alloc) else {
        return EMPTY;
    };
    *out = held.cache.bytes(peer);
    store.put(held);
    OK
}

/// Copies the digests on the list of the key, newest first.
#[unsafe(no_mangle)]
pub extern "C" fn broadcast_store_list(
    alloc: Global,
    store: &mut StoreHandle,
    peer: &Name,
    out: &mut [Digest],
    needed: &mut usize,
) -> u32
    ensures finds { Finds store.old.value store.new.value result
        (Does (store_list peer.now out.old out.new needed.new result)) }
    ensures reports_nothing { result ≡ EMPTY → (out.new ≡ out.old) × (needed.new ≡ needed.old) }
{
    let Some(held) = store.take(alloc) else {
        return EMPTY;
    };
    let len = held.cache.list_into(peer, out);
    *needed = len;
    store.put(held);
    if len <= out.len() { OK } else { SHORT }
}

/// Reports the sizes of the store.
#[unsafe(no_mangle)]
pub extern "C" fn broadcast_store_count(
    alloc: Global,
    store: &mut StoreHandle,
    out: &mut Counts,
) -> u32
    ensures finds { Finds store.old.value store.new.value result (λ old new. (result ≡ OK)
        × Does (store_count out.new) old new) }
    ensures reports_nothing { result ≡ EMPTY → out.new ≡ out.old }
{
    let Some(held) = store.take(alloc) else {
        return EMPTY;
    };
    (out.cached, out.awaited) = held.sizes();
    store.put(held);
    OK
}
