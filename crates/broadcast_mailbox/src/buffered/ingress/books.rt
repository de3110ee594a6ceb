//! The account of a mailbox.
ghost use Rattle.std.specs.Prelude.{◌≡◌, ◌<◌, ◌≤◌, ◌+◌, ◌^◌, ◌&&◌, not, true, false};
ghost use Rattle.broadcast_mailbox.specs.Account.{TallyState, IsSettled, one_if, is_accepted, tallied};
ghost use Rattle.broadcast_mailbox.specs.Booked.{is_queued, is_skipped};
ghost use Rattle.broadcast_mailbox.specs.Mailbox.{count_skipped};
ghost use Rattle.broadcast_mailbox.specs.Watch.{BroadcastsOnly};

use crate::MailboxError;
use crate::buffered::ingress::account::{Account, Bookkeeping, Settled, Tally};
use crate::buffered::ingress::message::{Queued, Watch};
use std::marker::PhantomData;
use std::sync::ledger::{Blank, Book, Share};

/// The account of a mailbox: it counts the tallied requests that the watch `V` matches.
///
/// `A` is the ledger of accepted requests, whose shares the tallies have, and `K` that of taken
/// requests, whose share is with whoever takes them.
#[derive(Drop)]
pub struct Books<A: Account, K: Account, V: Watch<D>, D> {
    accepted: Book<A>,
    taken: Book<K>,
    skipped: u64,
    waiting: u64,
    given_up: u64,
    of: PhantomData<(V, D)>,
    // Every accepted request was taken, was skipped, waits or was given up.
    ghost balanced: { accepted.total ≡ taken.total + skipped + waiting + given_up },
    // No broadcast is closed, so if it counts only broadcasts, none was skipped.
    ghost broadcasts: { BroadcastsOnly V.watched → skipped ≡ 0 },
}

/// What whoever takes the requests counts: those that were applied, and those that were refused.
#[derive(Drop)]
pub struct Taker<K: Account> {
    share: Share<K>,
    applied: u64,
    refused: u64,
    // Whether the request that was taken last is a counted one whose end is not known yet.
    is_open: bool,
    ghost whole: { share.parts ≡ K.all },
    ghost some: { 0 < share.parts },
    ghost sums: { share.amount ≡ applied + refused + one_if is_open },
    ghost small: { share.amount < 2 ^ 64 },
}

impl<K: Account> Taker<K> {
    /// Creates the count of who has taken nothing.
    fn new(share: Share<K>) -> Self
        requires parts { (share.parts ≡ K.all) × (0 < K.all) }
        requires nothing { share.amount ≡ 0 }
        ensures { (result.share.amount ≡ 0) × (result.refused ≡ 0) }
    {
        Taker {
            share,
            applied: 0,
            refused: 0,
            is_open: false,
        }
    }

    /// Counts the request that was taken last, if its end is not known yet.
    fn tell_outcome(&mut self, refused: bool)
        ensures applied { self.new.applied
            ≡ self.old.applied + one_if (self.old.is_open && not refused) }
        ensures refused { self.new.refused
            ≡ self.old.refused + one_if (self.old.is_open && refused) }
        ensures closed { self.new.is_open ≡ false }
        ensures same { self.new.share ≡ self.old.share }
    {
        let Taker {
            applied,
            refused: others,
            is_open,
            ..
        } = self;
        if *is_open {
            *is_open = false;
            if refused {
                *others += 1;
            } else {
                *applied += 1;
            }
        }
    }
}

impl<K: Account> Taker<K> {
    /// Counts a request that is taken, in the book too.
    fn take(&mut self, book: &mut Book<K>)
        requires { book.old.total + 1 < 2 ^ 64 }
        ensures total { book.new.total ≡ book.old.total + 1 }
        ensures amount { self.new.share.amount ≡ self.old.share.amount + 1 }
        ensures refused { self.new.refused ≡ self.old.refused }
        ensures open { self.new.is_open ≡ true }
    {
        self.tell_outcome(false);
        let Taker { share, is_open, .. } = self;
        book.add(share, 1);
        book.audit(share);
        *is_open = true;
    }

    /// Shows that it counts what the book does.
    fn audit(&mut self, book: &mut Book<K>)
        requires { K.all ≡ K.parts }
        ensures taken { self.old.share.amount ≡ book.old.total }
        ensures same { (self.new.share.amount ≡ self.old.share.amount)
            × (book.new.total ≡ book.old.total) }
        ensures same_refused { self.new.refused ≡ self.old.refused }
    {
        let Taker { share, .. } = self;
        book.audit(share);
    }

    /// Returns how many were applied, and how many refused.
    fn outcomes(&mut self) -> (u64, u64)
        ensures all { result.0 + result.1 ≡ self.old.share.amount }
        ensures refused { result.1 ≡ self.old.refused }
    {
        self.tell_outcome(false);
        (self.applied, self.refused)
    }
}

impl<A: Account, K: Account, V: Watch<D>, D> Books<A, K, V, D> {
    /// Opens the account of a mailbox that has accepted nothing.
    pub(super) fn open(accepted: Blank, taken: Blank, parts: u64) -> (Self, Tally<A>, Taker<K>)
        requires accepted { (accepted.name ≡ A.name) × (accepted.parts ≡ A.parts) }
        requires parts { (A.all ≡ A.parts) × (A.parts ≡ parts) × (0 < parts) }
        requires taken { (taken.name ≡ K.name) × (taken.parts ≡ K.parts) }
        requires one { (K.all ≡ K.parts) × (0 < K.parts) }
        ensures nothing { (result.0.accepted.total ≡ 0) × (result.0.waiting ≡ 0) }
        ensures whole { result.1 ≡ record { accepted = 0; parts = parts } }
        ensures nothing_taken { (result.2.share.amount ≡ 0) × (result.2.refused ≡ 0) }
    {
        let (accepted, share) = accepted.open::<A>();
        let (taken, taking) = taken.open::<K>();
        let books = Books {
            accepted,
            taken,
            skipped: 0,
            waiting: 0,
            given_up: 0,
            of: PhantomData,
        };
        (books, Tally::whole(share, parts), Taker::new(taking))
    }

    /// Counts a request of the tally that was enqueued with this result, if it was accepted and is
    /// to be counted.
    pub(super) fn count(
        &mut self,
        counted: bool,
        queued: &Result<Queued, MailboxError>,
        tally: &mut Tally<A>,
    )
        requires small { self.old.accepted.total + one_if (is_accepted queued.now) < 2 ^ 64 }
        requires open { BroadcastsOnly V.watched → counted ≡ true → count_skipped queued.now ≡ 0 }
        ensures waiting { self.new.waiting
            ≡ self.old.waiting + one_if (counted && is_queued queued.now) }
        ensures accepted { self.new.accepted.total
            ≡ self.old.accepted.total + one_if (counted && is_accepted queued.now) }
        ensures skipped { self.new.skipped
            ≡ self.old.skipped + one_if (counted && is_skipped queued.now) }
        ensures given_up { self.new.given_up ≡ self.old.given_up }
        ensures tallied { tally.new ≡ tallied counted (is_accepted queued.now) tally.old }
    {
        if !counted {
            return;
        }
        match queued {
            Ok(Queued::Ready(_)) | Ok(Queued::Overflow(_)) => self.accept(tally),
            Ok(Queued::Skipped(_)) => self.skip_at_once(tally),
            Ok(Queued::Closed) | Err(_) => {}
        }
    }

    // Counts a request that waits.
    fn accept(&mut self, tally: &mut Tally<A>)
        requires small { self.old.accepted.total + 1 < 2 ^ 64 }
        ensures waiting { self.new.waiting ≡ self.old.waiting + 1 }
        ensures accepted { self.new.accepted.total ≡ self.old.accepted.total + 1 }
        ensures skipped { self.new.skipped ≡ self.old.skipped }
        ensures given_up { self.new.given_up ≡ self.old.given_up }
        ensures tallied { tally.new ≡ tallied true true tally.old }
    {
        let Books {
            accepted,
            waiting,
            ..
        } = self;
        tally.count(accepted);
        *waiting += 1;
    }

    // Counts a request that is skipped at once.
    fn skip_at_once(&mut self, tally: &mut Tally<A>)
        requires small { self.old.accepted.total + 1 < 2 ^ 64 }
        requires open { ¬ BroadcastsOnly V.watched }
        ensures waiting { self.new.waiting ≡ self.old.waiting }
        ensures accepted { self.new.accepted.total ≡ self.old.accepted.total + 1 }
        ensures skipped { self.new.skipped ≡ self.old.skipped + 1 }
        ensures given_up { self.new.given_up ≡ self.old.given_up }
        ensures tallied { tally.new ≡ tallied true true tally.old }
    {
        self.accept(tally);
        self.skip(1);
    }

    // Counts requests that waited and are skipped.
    fn skip(&mut self, number: u64)
        requires waited { number ≤ self.old.waiting }
        requires small { self.old.accepted.total < 2 ^ 64 }
        requires open { BroadcastsOnly V.watched → number ≡ 0 }
        ensures waiting { self.new.waiting + number ≡ self.old.waiting }
        ensures accepted { self.new.accepted.total ≡ self.old.accepted.total }
        ensures taken { self.new.taken.total ≡ self.old.taken.total }
        ensures skipped { self.new.skipped ≡ self.old.skipped + number }
        ensures given_up { self.new.given_up ≡ self.old.given_up }
    {
        let Books {
            skipped,
            waiting,
            ..
        } = self;
        *waiting -= number;
        *skipped += number;
    }

    /// Settles the account, where nothing waits: what became of the accepted requests.
    pub(super) fn settle(&mut self, taker: &mut Taker<K>, tally: &mut Tally<A>) -> Settled
        requires nothing_waits { self.old.waiting ≡ 0 }
        requires accounts { (A.all ≡ A.parts) × (K.all ≡ K.parts) }
        requires whole { tally.old.parts ≡ A.all }
        ensures sums { IsSettled tally.old taker.old.share.amount taker.old.refused result }
        ensures skipped { result.skipped ≡ self.old.skipped }
        ensures given_up { result.given_up ≡ self.old.given_up }
        ensures same { (self.new.waiting ≡ self.old.waiting)
            × (self.new.accepted.total ≡ self.old.accepted.total) }
        ensures broadcasts { BroadcastsOnly V.watched → result.skipped ≡ 0 }
    {
        let Books {
            accepted,
            taken,
            skipped,
            given_up,
            ..
        } = self;
        tally.audit(accepted);
        taker.audit(taken);
        let (applied, refused) = taker.outcomes();
        Settled {
            applied,
            refused,
            skipped: *skipped,
            given_up: *given_up,
        }
    }
}

impl<A: Account, K: Account, V: Watch<D>, D> Bookkeeping for Books<A, K, V, D> {
    type Taker = Taker<K>;

    ghost accepted = { λ books. books.accepted.total };

    ghost waiting = { λ books. books.waiting };

    ghost skips = { λ books. books.skipped };

    ghost given_up = { λ books. books.given_up };

    ghost only_open = { BroadcastsOnly V.watched };

    ghost taken = { λ taking. taking.share.amount };

    ghost refusals = { λ taking. taking.refused };

    ghost undecided = { λ taking. taking.is_open };

    fn take(&mut self, taker: &mut Taker<K>, counted: bool, skipped: u64) {
        self.skip(skipped);
        if !counted {
            return;
        }
        let Books { taken, waiting, .. } = self;
        *waiting -= 1;
        taker.take(taken);
    }

    fn give_up(&mut self) {
        let Books {
            waiting,
            given_up,
            ..
        } = self;
        *given_up += *waiting;
        *waiting = 0;
    }

    fn tell_outcome(taker: &mut Taker<K>, refused: bool) {
        taker.tell_outcome(refused);
    }
}
