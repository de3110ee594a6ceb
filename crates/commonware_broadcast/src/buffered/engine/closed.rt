//! Which waiters the next cleanup asks.
ghost use Rattle.std.specs.Prelude.{◌≡◌, ◌++◌, ◌<◌, nat_lt, true, false, length, IfSome};
ghost use Rattle.std.specs.List.{filter, list_any};
ghost use Rattle.std.specs.Ordering.{eq_by_cmp};
ghost use Rattle.broadcast_core.specs.Content.{same_by, waiting_at};

use broadcast_core::{Core, Digestible, PublicKey};
use std::alloc::Global;

/// Which waiters the next cleanup asks. The model of an engine does not show it, since it decides
/// only who is asked.
#[derive(Drop)]
pub(super) struct Closed<M: Digestible> {
    /// The digests that the requests named last. Their memory is used again.
    pub(super) digests: Vec<M::Digest>,
    // The digests of subscribes that the requests did not give, sorted, while somebody waits for
    // them. The requests tell nothing of these.
    applied: Vec<M::Digest>,
    // Whether there was no memory for one of those.
    asks_each: bool,
}

impl<M: Digestible> Closed<M> {
    /// Creates that of an engine without waiters. Does not allocate.
    pub(super) fn new(alloc: Global) -> Self {
        Closed {
            digests: Vec::new(alloc),
            applied: Vec::new(alloc),
            asks_each: false,
        }
    }

    /// Names the digests of which the requests tell nothing, too. Returns whether any other digest
    /// may be one of these, since there was no memory for it.
    pub(super) fn add_applied(&mut self) -> bool
        ensures named { result ≡ false
            → self.new.digests.items ≡ self.old.digests.items ++ self.old.applied.items }
        ensures each { self.old.asks_each ≡ true → result ≡ true }
    {
        if self.applied.is_empty() {
            return self.asks_each;
        }
        let added = self.digests.extend_from_slice(self.applied.as_slice());
        added.is_err() || self.asks_each
    }

    /// Keeps the digest of a subscribe that the requests did not give, if somebody waits for it.
    pub(super) fn keep<P: PublicKey, Waiter: Drop>(
        &mut self,
        core: &Core<P, M, Waiter>,
        digest: Option<M::Digest>,
    )
        ensures kept { IfSome digest (λ applied. 0 < length
            (waiting_at (same_by P.cmp M.Digest.cmp) core.now applied)
            → self.new.asks_each ≡ false
            → list_any (eq_by_cmp M.Digest.cmp applied) self.new.applied.items ≡ true) }
        ensures each { self.old.asks_each ≡ true → self.new.asks_each ≡ true }
    {
        if let Some(digest) = digest {
            if core.waiting(&digest) > 0 {
                self.insert(digest);
            }
        }
    }

    /// Inserts the digest among those of which the requests tell nothing. If there is no memory for
    /// it, any digest may be one of these from then on.
    fn insert(&mut self, digest: M::Digest)
        ensures kept { self.new.asks_each ≡ false
            → list_any (eq_by_cmp M.Digest.cmp digest) self.new.applied.items ≡ true }
        ensures each { self.old.asks_each ≡ true → self.new.asks_each ≡ true }
    {
        if let Err(place) = self.applied.binary_search(&digest) {
            if self.applied.insert(place, digest).is_err() {
                self.asks_each = true;
            }
        }
    }

    /// Forgets the digests that have no waiters any more.
    // Inlined as `Engine::poll_job` is.
    #[inline(always)]
    pub(super) fn forget<P: PublicKey, Waiter: Drop>(&mut self, core: &Core<P, M, Waiter>)
        ensures kept { let same = same_by P.cmp M.Digest.cmp in
            self.new.applied.items ≡ filter
            (λ digest. nat_lt 0 (length (waiting_at same core.now digest)))
            self.old.applied.items }
        ensures each { self.old.asks_each ≡ true → 0 < length core.now.waiters
            → self.new.asks_each ≡ true }
    {
        self.applied.retain(|digest| core.waiting(digest) > 0);
        self.asks_each = self.asks_each && core.awaited() > 0;
    }
}
