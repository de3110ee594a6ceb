//! The law of a store, which a caller composes from the contracts of the exports. It does nothing
//! when it runs.
ghost use Rattle.broadcast_c.specs.Law.{AreAnswered, AreGoneOnce, AreMovedOnce, AreServedOnce, HasHistory, IsCachedIfListed, IsListByConcerns, OfAllCalls, history_of, store_after};

/// Proves what any calls make of a new store, each of which did what its function promises. A call
/// that failed left the store as it was, and does not count.
///
/// The store has what the history of the calls gives, and each call was answered by the history
/// before it. A key's list depends on what concerns that key. A digest is cached if and only if it
/// is listed. A ticket that waits is served once at most. Each handle that was cached leaves once,
/// unless it is cached still, and is then moved out once, unless it is still to be.
pub fn store_law()
    ensures content { OfAllCalls (λ s first calls.
        HasHistory s (history_of s calls) (store_after first calls)) }
    ensures answered { OfAllCalls AreAnswered }
    ensures concerns { OfAllCalls (λ s first calls.
        IsListByConcerns s (history_of s calls) (store_after first calls)) }
    ensures cached { OfAllCalls (λ s first calls. IsCachedIfListed (store_after first calls)) }
    ensures served { OfAllCalls (λ s first calls. AreServedOnce first calls) }
    ensures gone { OfAllCalls (λ s first calls. AreGoneOnce first calls) }
    ensures moved { OfAllCalls (λ s first calls. AreMovedOnce first calls) }
{}
