//! Replies.
ghost use Rattle.std.specs.Prelude.{◌≡◌, Bool, List, [], ◌∷◌, map, Option, length, IfOk, ◌≤◌};
ghost use Rattle.std.specs.List.{All};
ghost use Rattle.broadcast_core.specs.Carried.{Carried};
ghost use Rattle.broadcast_core.specs.Handed.{to_subscribe};
ghost use Rattle.engine_io.specs.Replies.{Replied, subscribed, got, reply_of, Replies};
ghost use Rattle.engine_io.specs.Handing.{Hands};

use crate::metrics::{Metrics, Status};
use crate::outlet::Outlet;
use crate::waiter::Waiter;
use broadcast_core::{Digested, Digestible, Items, PublicKey};
use broadcast_mailbox::buffered::Reply;
use std::alloc::{AllocError, Global};

/// Hands a message to a waiter, and counts whether it was delivered.
pub fn respond_subscribe<P: PublicKey, M: Digestible, S, G, O>(
    metrics: &mut Metrics<P>,
    outlet: &mut O,
    waiter: Waiter<M, S>,
    message: Digested<M>,
)
where
    O: Outlet<S, G, Reply<M>, Option<Reply<M>>>,
    ensures { (delivered : Bool)
        × Hands O.told outlet.old metrics.old
        (subscribed waiter message delivered ∷ []) outlet.new metrics.new }
{
    let (ticket, responder) = waiter.into_parts();
    let status = if outlet.subscribed(ticket, responder, Reply::new(message)) {
        Status::Success
    } else {
        Status::Dropped
    };
    metrics.count_subscribe(status, 1);
}

/// Hands a get its message, or none, and counts whether it was delivered.
pub fn respond_get<P: PublicKey, M: Digestible, S, G, O: Outlet<S, G, Reply<M>, Option<Reply<M>>>>(
    metrics: &mut Metrics<P>,
    outlet: &mut O,
    ticket: u64,
    responder: G,
    message: Option<Digested<M>>,
)
    ensures { (delivered : Bool)
        × Hands O.told outlet.old metrics.old
        (got (record { ticket = ticket; responder = responder }) message delivered ∷ [])
        outlet.new metrics.new }
{
    let found = message.is_some();
    let reply = match message {
        Some(message) => Some(Reply::new(message)),
        None => None,
    };
    let status = match (outlet.got(ticket, responder, reply), found) {
        (true, true) => Status::Success,
        (true, false) => Status::Failure,
        (false, _) => Status::Dropped,
    };
    metrics.count_get(status);
}

/// Returns `number` copies of the message, or an error if one can't be allocated.
#[inline(always)] // Most messages have no waiter, and a call costs more than the test for that.
pub fn copies<M: Digestible>(
    alloc: Global,
    message: &Digested<M>,
    number: usize,
) -> Result<Vec<Digested<M>>, AllocError>
    ensures len { IfOk result (λ copies. length copies.items ≡ number) }
    ensures equal { IfOk result (λ copies. All (λ copy. copy ≡ message.now) copies.items) }
{
    let mut copies = Vec::with_capacity(alloc, number)?;
    for _i in 0..number {
        copies.push(message.clone()?)?;
    }
    Ok(copies)
}

/// Hands a message to each waiter, in order, and counts which were delivered. There is a copy of
/// the message for each waiter.
#[inline(always)] // As `copies`.
pub fn respond_waiters<P: PublicKey, M: Digestible, S, G, O>(
    metrics: &mut Metrics<P>,
    outlet: &mut O,
    waiters: Items<Waiter<M, S>>,
    mut copies: Vec<Digested<M>>,
)
where
    O: Outlet<S, G, Reply<M>, Option<Reply<M>>>,
    S: Drop,
    requires { length copies.items ≡ length waiters }
    ensures { (message : Carried M M.Digest) → All (λ copy. copy ≡ message) copies.items
        → (replies : Replies S G M M.Digest)
        × (map reply_of replies ≡ map (λ w. to_subscribe w message) waiters)
        × Hands O.told outlet.old metrics.old replies outlet.new metrics.new }
{
    if waiters.is_empty() {
        return;
    }
    for waiter in waiters.into_vec() {
        let Some(copy) = copies.pop() else {
            return;
        };
        respond_subscribe(metrics, outlet, waiter, copy);
    }
}
