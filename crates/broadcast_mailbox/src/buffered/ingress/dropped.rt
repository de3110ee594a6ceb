//! Of which digests subscriptions were dropped.
ghost use Rattle.std.specs.Prelude.{◌≡◌, ◌++◌, ◌∷◌, ◌⊎◌, None, false, [], true};

use crate::buffered::ingress::responder::Responder;
use futures::channel::oneshot::Receiver;
use std::alloc::Global;
use std::hint::spin_loop;
use std::marker::Model;
use std::mem;
use std::sync::Mutex;
use std::sync::atomic::{AtomicBool, Ordering};

/// A digest for which a caller no longer waits. There is one only once the caller's channel is
/// closed, and it is no `Drop`: whoever has one has to hand it on, until it is told.
pub struct Abandoned<D> {
    digest: D,
}

impl<D: Drop> Abandoned<D> {
    // Closes the channel of a caller who waits for `digest`.
    pub(super) fn close<T: Drop>(receiver: Receiver<T>, digest: D) -> Self {
        drop::<_>(receiver);
        Abandoned { digest }
    }

    /// Returns `digest`, for which the caller of `responder` waits, if that is closed.
    pub fn found<T, S: Responder<T>>(responder: &S, digest: D) -> Option<Self>
        ensures { result ≡ None → S.may_answer responder.now false }
    {
        if responder.is_closed() {
            Some(Abandoned { digest })
        } else {
            drop::<_>(digest);
            None
        }
    }

    // Returns the digest.
    pub(super) fn into_digest(self) -> D {
        let Abandoned { digest } = self;
        digest
    }
}

/// How often the lock is tried.
const TRIES: u32 = 64;

/// Of which digests subscriptions were dropped since that was last asked. The ends of a mailbox
/// share it with its subscriptions.
///
/// No thread waits for its lock, which is held for a few instructions only. A drop that does not
/// get it tells that the digest may be any.
#[derive(Drop)]
pub(super) struct Dropped<D> {
    // Whether there may be digests in `told`. Set under its lock.
    has_told: AtomicBool,
    // Whether a digest may be missing there.
    may_be_any: AtomicBool,
    told: Mutex<Told<D>>,
}

impl<D> Dropped<D> {
    /// Creates the list of a mailbox of which no subscription was dropped.
    pub(super) fn new(alloc: Global) -> Self {
        Dropped {
            has_told: AtomicBool::new(false),
            may_be_any: AtomicBool::new(false),
            told: Mutex::new(Told::new(alloc)),
        }
    }
}

impl<D: Drop> Dropped<D> {
    /// Tells that one of this digest was dropped. Whoever takes the digests asks the channels
    /// afterwards, and finds this one closed.
    pub(super) fn tell(&self, abandoned: Abandoned<D>) {
        if !self.keep(abandoned.into_digest()) {
            self.may_be_any.store(true, Ordering::SeqCst);
        }
    }

    /// Keeps the digest, if the lock can be had. Returns whether it could.
    fn keep(&self, digest: D) -> bool {
        for _ in 0..TRIES {
            if let Some(mut told) = self.told.try_lock() {
                told.add(digest);
                self.has_told.store(true, Ordering::SeqCst);
                return true;
            }
            spin_loop();
        }
        drop::<_>(digest);
        false
    }

    /// Puts the digests of which one was dropped since the last call in place of those in `taken`.
    /// Returns whether it may have been one of another digest too.
    pub(super) fn take(&self, taken: &mut Vec<D>) -> bool {
        taken.clear();
        let may_be_any = take(&self.may_be_any);
        if !take(&self.has_told) {
            return may_be_any;
        }
        for _ in 0..TRIES {
            if let Some(mut told) = self.told.try_lock() {
                return told.take(taken) || may_be_any;
            }
            spin_loop();
        }
        true
    }
}

/// Clears the mark, and returns whether it was set. One that is not set is only read, which is
/// cheaper.
fn take(mark: &AtomicBool) -> bool {
    mark.load(Ordering::SeqCst) && mark.swap(false, Ordering::SeqCst)
}

/// The most digests that are kept.
const MANY: usize = 1024;

/// The digests that were told and not yet taken. Where there is no place or no memory for one, it
/// may be any.
#[derive(Drop)]
pub(super) struct Told<D> {
    digests: Vec<D>,
    may_be_any: bool,
}

impl<D> Model for Told<D> {
    ghost use Rattle.broadcast_mailbox.specs.Told.{ToldOf};

    ghost Value = { ToldOf D };

    ghost view = { λ it. record { digests = it.digests.items; may_be_any = it.may_be_any } };
}

impl<D> Told<D> {
    /// Creates an empty list. Does not allocate.
    pub(super) fn new(alloc: Global) -> Self
        ensures { result ≡ record { digests = []; may_be_any = false } }
    {
        Told {
            digests: Vec::new(alloc),
            may_be_any: false,
        }
    }
}

impl<D: Drop> Told<D> {
    /// Adds a digest, or tells that it may be any.
    pub(super) fn add(&mut self, digest: D)
        ensures { (self.new ≡ record self.old { digests = self.old.digests ++ digest ∷ [] })
            ⊎ (self.new ≡ record self.old { may_be_any = true }) }
    {
        if self.digests.len() >= MANY || self.digests.push(digest).is_err() {
            self.may_be_any = true;
        }
    }

    /// Puts the digests in place of those in `taken`. Returns whether there may have been any
    /// other.
    pub(super) fn take(&mut self, taken: &mut Vec<D>) -> bool
        ensures taken { taken.new.items ≡ self.old.digests }
        ensures others { result ≡ self.old.may_be_any }
        ensures left { self.new ≡ record { digests = []; may_be_any = false } }
    {
        taken.clear();
        mem::swap(&mut self.digests, taken);
        mem::take(&mut self.may_be_any)
    }
}
