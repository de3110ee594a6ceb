//! The counts of the requests that are made through tallies, and of those that are skipped.
ghost use Rattle.std.specs.Prelude.{◌≡◌, ◌≤◌, ◌<◌, ◌+◌, ◌^◌, ◌&&◌, ◌||◌, ◌/◌, ◌↔◌, ℕ, Bool, false, ⊤, IsTrue, IfOk, IfErr, IfSome, IfNone, is_err, is_none, true};
ghost use Rattle.broadcast_core.specs.Counted.{counted as capped};
ghost use Rattle.broadcast_mailbox.specs.Account.{one_if, TallyState, tallied};
ghost use Rattle.broadcast_mailbox.specs.Skips.{no_skips};

use std::marker::{Brand, Model};
use std::sync::ledger::{Book, Ledger, Share};

/// A ledger whose number of parts a type may name.
pub trait Account: Ledger {
    /// The number of its parts.
    ghost all: { ℕ };
}

impl Account for Brand {
    ghost all = { 0 };
}

/// Counts what becomes of the counted requests of a mailbox, under its lock. `()` is for a mailbox
/// without tallies, and counts nothing.
pub trait Bookkeeping: Drop {
    /// What whoever takes the requests holds: how many counted ones it took.
    type Taker: Drop;

    /// How many counted requests were accepted.
    ghost accepted: { Self → ℕ };

    /// How many of them wait.
    ghost waiting: { Self → ℕ };

    /// How many of them were skipped.
    ghost skips: { Self → ℕ };

    /// How many of them were given up.
    ghost given_up: { Self → ℕ };

    /// Whether it counts only requests that stay open.
    ghost only_open: { Type 0 };

    /// How many counted requests were taken.
    ghost taken: { Self.Taker → ℕ };

    /// How many of them were refused.
    ghost refusals: { Self.Taker → ℕ };

    /// Whether the one that was taken last is neither applied nor refused yet.
    ghost undecided: { Self.Taker → Bool };

    /// Counts a request that is taken, if it is a counted one, and counted ones that are skipped.
    fn take(&mut self, taker: &mut Self::Taker, counted: bool, skipped: u64)
        requires waited { one_if counted + skipped ≤ waiting self.old }
        requires few { (waiting self.old ≤ accepted self.old) × (accepted self.old < 2 ^ 64) }
        requires skips_none { only_open → skipped ≡ 0 }
        ensures waiting { waiting self.new + one_if counted + skipped ≡ waiting self.old }
        ensures skips { skips self.new ≡ skips self.old + skipped }
        ensures given_up { given_up self.new ≡ given_up self.old }
        ensures accepted { accepted self.new ≡ accepted self.old }
        ensures taken { taken taker.new ≡ taken taker.old + one_if counted }
        ensures refusals { refusals taker.new ≡ refusals taker.old }
        ensures undecided { undecided taker.new ≡ (counted || undecided taker.old) };

    /// Counts the requests that wait as given up.
    fn give_up(&mut self)
        requires few { (waiting self.old ≤ accepted self.old) × (accepted self.old < 2 ^ 64) }
        ensures waiting { waiting self.new ≡ 0 }
        ensures skips { skips self.new ≡ skips self.old }
        ensures given_up { given_up self.new ≡ given_up self.old + waiting self.old }
        ensures accepted { accepted self.new ≡ accepted self.old };

    /// Counts the request that was taken last as refused, or else as applied, if it is a counted
    /// one that was not counted so before.
    fn tell_outcome(taker: &mut Self::Taker, refused: bool)
        ensures taken { taken taker.new ≡ taken taker.old }
        ensures refusals { refusals taker.new
            ≡ refusals taker.old + one_if (undecided taker.old && refused) }
        ensures closed { undecided taker.new ≡ false };
}

impl Bookkeeping for () {
    type Taker = ();

    ghost accepted = { λ _. 0 };

    ghost waiting = { λ _. 0 };

    ghost skips = { λ _. 0 };

    ghost given_up = { λ _. 0 };

    ghost only_open = { ⊤ };

    ghost taken = { λ _. 0 };

    ghost refusals = { λ _. 0 };

    ghost undecided = { λ _. false };

    fn take(&mut self, _taker: &mut (), _counted: bool, _skipped: u64) {}

    fn give_up(&mut self) {}

    fn tell_outcome(_taker: &mut (), _refused: bool) {}
}

/// Counts accepted requests for one account, of which it has some parts. All tallies of an account
/// have its parts together, and the requests that it counts.
///
/// Contracts see the number of accepted requests and of parts.
#[derive(Drop)]
pub struct Tally<A: Account> {
    share: Share<A>,
    number: u64,
    parts: u64,
    all: u64,
}

impl<A: Account> Model for Tally<A> {
    ghost use Rattle.std.specs.Prelude.{◌≡◌, ◌<◌};
    ghost use Rattle.broadcast_core.specs.Counted.{counted as capped};
    ghost use Rattle.broadcast_mailbox.specs.Account.{TallyState};

    ghost Value = { TallyState };

    ghost view = { λ t. record { accepted = t.share.amount; parts = t.share.parts } };

    ghost invariant = { λ t. (t.number ≡ capped t.share.amount) × (t.parts ≡ t.share.parts)
        × (0 < t.share.parts) × (t.all ≡ A.all) };
}

impl<A: Account> Tally<A> {
    /// Creates the tally that has all parts of its account.
    pub(super) fn whole(share: Share<A>, parts: u64) -> Self
        requires parts { (share.parts ≡ parts) × (0 < parts) × (parts ≡ A.all) }
        requires nothing { share.amount ≡ 0 }
        ensures { result ≡ record { accepted = 0; parts = parts } }
    {
        Tally {
            share,
            number: 0,
            parts,
            all: parts,
        }
    }

    /// Counts an accepted request, in the book too.
    pub(super) fn count(&mut self, book: &mut Book<A>)
        requires { book.old.total + 1 < 2 ^ 64 }
        ensures total { book.new.total ≡ book.old.total + 1 }
        ensures tallied { self.new ≡ tallied true true self.old }
    {
        book.add(&mut self.share, 1);
        book.audit(&mut self.share);
        self.number = self.number.saturating_add(1);
    }

    /// Shows that the whole tally counts what the book does.
    pub(super) fn audit(&mut self, book: &mut Book<A>)
        requires account { A.all ≡ A.parts }
        requires whole { self.old.parts ≡ A.all }
        ensures accepted { self.old.accepted ≡ book.old.total }
        ensures same { (self.new ≡ self.old) × (book.new.total ≡ book.old.total) }
    {
        book.audit(&mut self.share);
    }

    /// Returns how many accepted requests it counts, and at most `u64::MAX`.
    pub fn accepted(&self) -> u64
        ensures { result ≡ capped self.now.accepted }
    {
        self.number
    }

    /// Returns how many parts it has.
    pub fn parts(&self) -> u64
        ensures { result ≡ self.now.parts }
    {
        self.parts
    }

    /// Returns whether it has all parts of its account.
    pub fn is_whole(&self) -> bool
        ensures { IsTrue result ↔ (self.now.parts ≡ A.all) }
    {
        self.parts == self.all
    }

    /// Cuts off a tally that counts nothing and has half of the parts, rounded down. Fails only if
    /// it has one part.
    pub fn split(self) -> Result<(Self, Self), Self>
        ensures parts { IfOk result (λ both. both.1.parts ≡ self.parts / 2) }
        ensures parts_add_up { IfOk result (λ both. both.0.parts + both.1.parts ≡ self.parts) }
        ensures accepted { IfOk result (λ both.
            (both.0.accepted ≡ self.accepted) × (both.1.accepted ≡ 0)) }
        ensures fails_with_one_part { (is_err result ≡ true) ↔ (self.parts ≡ 1) }
        ensures unchanged_on_error { IfErr result (λ tally. tally ≡ self) }
    {
        if self.parts == 1 {
            return Err(self);
        }
        let Tally {
            mut share,
            number,
            parts,
            all,
        } = self;
        let half = parts / 2;
        let other = share.split_off(half, 0);
        let rest = Tally {
            share,
            number,
            parts: parts - half,
            all,
        };
        let other = Tally {
            share: other,
            number: 0,
            parts: half,
            all,
        };
        Ok((rest, other))
    }

    /// Cuts off a tally that counts nothing and has one part. Returns `None` only if there is one
    /// part.
    pub fn split_one(&mut self) -> Option<Self>
        ensures one { IfSome result (λ part. part ≡ record { accepted = 0; parts = 1 }) }
        ensures parts_add_up { IfSome result (λ _. self.new.parts + 1 ≡ self.old.parts) }
        ensures accepted { self.new.accepted ≡ self.old.accepted }
        ensures none_with_one_part { (is_none result ≡ true) ↔ (self.old.parts ≡ 1) }
        ensures unchanged_on_none { IfNone result (self.new ≡ self.old) }
    {
        if self.parts == 1 {
            return None;
        }
        self.parts -= 1;
        Some(Tally {
            share: self.share.split_off(1, 0),
            number: 0,
            parts: 1,
            all: self.all,
        })
    }

    /// Joins both tallies: their numbers and their parts add up.
    pub fn join(self, other: Self) -> Self
        requires { A.parts < 2 ^ 64 }
        ensures accepted { result.accepted ≡ self.accepted + other.accepted }
        ensures parts { result.parts ≡ self.parts + other.parts }
    {
        let Tally {
            mut share,
            number,
            parts,
            all,
        } = self;
        let Tally {
            share: more,
            number: other_number,
            parts: other_parts,
            all: _,
        } = other;
        share.merge(more);
        Tally {
            share,
            number: number.saturating_add(other_number),
            parts: parts + other_parts,
            all,
        }
    }
}

/// The outcomes of the tallied requests that the watch matches.
#[derive(Clone, Copy, Debug, PartialEq, Eq)]
pub struct Settled {
    /// How many were applied.
    pub applied: u64,
    /// How many were refused.
    pub refused: u64,
    /// How many were closed and dropped.
    pub skipped: u64,
    /// How many were dropped when the mailbox was closed.
    pub given_up: u64,
}

/// The number of closed requests that were dropped instead of taken.
#[derive(Clone, Copy, Debug, PartialEq, Eq)]
pub(super) struct Skips {
    /// All of them.
    pub(super) all: usize,
    /// Those that are counted.
    pub(super) counted: usize,
}

impl Skips {
    /// Returns that none was skipped.
    pub(super) const fn none() -> Self
        ensures { result ≡ no_skips }
    {
        Skips { all: 0, counted: 0 }
    }

    /// Counts one more, which is counted or not.
    pub(super) fn count(&mut self, counted: bool)
        requires { (self.old.all + 1 < 2 ^ 64) × (self.old.counted ≤ self.old.all) }
        ensures all { self.new.all ≡ self.old.all + 1 }
        ensures counted { self.new.counted ≡ one_if counted + self.old.counted }
    {
        self.all += 1;
        if counted {
            self.counted += 1;
        }
    }
}
