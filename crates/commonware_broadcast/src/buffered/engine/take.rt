//! Puts a message into the cache and serves its waiters.
ghost use Rattle.std.specs.Prelude.{◌≡◌, List, Option, length, IfOk, OnErr};
ghost use Rattle.std.specs.Option.{option_map};
ghost use Rattle.broadcast_core.specs.Carried.{Carried};
ghost use Rattle.broadcast_core.specs.Content.{same_by};
ghost use Rattle.broadcast_core.specs.Fronted.{outcome_at};
ghost use Rattle.commonware_broadcast.specs.Serving.{Serves};

use crate::buffered::engine::node::Node;
use broadcast_core::{Digested, Digestible, EncodeSize, Outcome, PublicKey};
use broadcast_mailbox::buffered::Reply;
use engine_io::{Outlet, copies, respond_waiters};
use std::alloc::{AllocError, Global};

/// Takes a message under `peer`, and hands a copy to each waiter of its digest. The copies are made
/// first: after an allocation failure nothing has changed.
// Inlined as `Engine::poll_job` is.
#[inline(always)]
pub(super) fn take<P: PublicKey, M: Digestible + EncodeSize, S: Drop, G, O>(
    node: &mut Node<P, M, S, O>,
    alloc: Global,
    peer: &P,
    message: &Digested<M>,
) -> Result<Outcome, AllocError>
where
    O: Outlet<S, G, Reply<M>, Option<Reply<M>>>,
    ensures outcome { IfOk result (λ outcome. outcome
        ≡ outcome_at (same_by P.cmp M.Digest.cmp) node.old.core peer.now message.now.digest
        (option_map length (M.encoding message.now.message))) }
    ensures serves { IfOk result (λ outcome.
        Serves (same_by P.cmp M.Digest.cmp) O.told peer.now message.now
        (option_map length (M.encoding message.now.message)) node.old node.new) }
    ensures unchanged_on_error { OnErr result (node.new ≡ node.old) }
{
    let number = node.core.waiting(&message.digest());
    let copies = copies(alloc, message, number)?;
    let taken = node.core.take(peer, message)?;
    respond_waiters(&mut node.metrics, &mut node.outlet, taken.served, copies);
    Ok(taken.outcome)
}

/// Takes a message under the node's own key, as `take` does.
pub(super) fn take_own<P: PublicKey, M: Digestible + EncodeSize, S: Drop, G, O>(
    node: &mut Node<P, M, S, O>,
    alloc: Global,
    message: &Digested<M>,
) -> Result<Outcome, AllocError>
where
    O: Outlet<S, G, Reply<M>, Option<Reply<M>>>,
    ensures outcome { IfOk result (λ outcome. outcome
        ≡ outcome_at (same_by P.cmp M.Digest.cmp) node.old.core
        node.old.core.own message.now.digest
        (option_map length (M.encoding message.now.message))) }
    ensures serves { IfOk result (λ outcome.
        Serves (same_by P.cmp M.Digest.cmp) O.told node.old.core.own message.now
        (option_map length (M.encoding message.now.message)) node.old node.new) }
    ensures unchanged_on_error { OnErr result (node.new ≡ node.old) }
{
    let number = node.core.waiting(&message.digest());
    let copies = copies(alloc, message, number)?;
    let taken = node.core.take_own(message)?;
    respond_waiters(&mut node.metrics, &mut node.outlet, taken.served, copies);
    Ok(taken.outcome)
}
