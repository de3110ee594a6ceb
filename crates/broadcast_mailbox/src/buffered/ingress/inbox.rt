//! The queue of a mailbox with its counts, and with the wakers of the task that takes its requests.
ghost use Rattle.std.specs.Prelude.{◌≡◌, ◌⊎◌, ◌↔◌, ◌≤◌, ◌<◌, ◌^◌, ◌+◌, ◌&&◌, ◌||◌, List, Option, true, false, Ok, Err, OnErr, [], None, is_some};
ghost use Rattle.std.specs.NonZero.{non_zero_usize_get};
ghost use Rattle.broadcast_mailbox.specs.declared.buffered.ingress.message.Request.{Request};
ghost use Rattle.broadcast_mailbox.specs.Queue.{IsSound, HasRoom, last_ticket, counted_in, waiting};
ghost use Rattle.broadcast_mailbox.specs.Mailbox.{Enqueues, Takes, RequestsStop, Closes, IsCounted, counts_of, taken_of, mailbox_after};
ghost use Rattle.futures.specs.Poll.{IfReady, OnPending};
ghost use Rattle.futures.specs.Task.{Hears, IsArmed, Keeps};
ghost use Rattle.broadcast_mailbox.specs.Attended.{ready};
ghost use Rattle.broadcast_mailbox.specs.Account.{TallyState, IsSettled, counted_of, is_accepted, one_if, tallied};
ghost use Rattle.broadcast_mailbox.specs.Booked.{are_open, is_skipped, TakesBooked, TakesOut};
ghost use Rattle.broadcast_mailbox.specs.Watch.{BroadcastsOnly};

use crate::MailboxError;
use crate::buffered::ingress::account::{Account, Bookkeeping, Settled, Tally};
use crate::buffered::ingress::books::{Books, Taker};
use crate::buffered::ingress::message::{Counts, Named, Queueable, Queued, Request, Watch};
use crate::buffered::ingress::queue::Queue;
use broadcast_core::Closable;
use futures::task::{Context, Poll, Source, Waker};
use std::alloc::Global;
use std::marker::Model;
use std::num::NonZeroUsize;

/// The state of a mailbox: the requests that wait, in the order of their tickets, whether it is
/// closed or asked to stop, and how many requests were taken, skipped and given up.
///
/// The contracts hold whatever `is_closed` of a message returns. No call but `enqueue` allocates.
#[derive(Drop)]
pub struct Inbox<T> {
    queue: Queue<T>,
    stop: bool,
    taken: u64,
    skipped: u64,
    given_up: u64,
}

impl<T> Model for Inbox<T> {
    ghost use Rattle.std.specs.Prelude.{◌≡◌, ◌+◌, ◌≤◌, length};
    ghost use Rattle.broadcast_mailbox.specs.Queue.{waiting, last_ticket};
    ghost use Rattle.broadcast_mailbox.specs.Mailbox.{MailboxState};

    ghost Value = { MailboxState T };

    ghost view = { λ i. record {
      queue = i.queue;
      stop = i.stop;
      taken = i.taken;
      skipped = i.skipped;
      given_up = i.given_up;
    } };

    ghost invariant = { λ i.
        (i.queue.next ≡ i.taken + i.skipped + length (waiting i.queue) + i.given_up)
        × (i.queue.next ≤ last_ticket) };
}

impl<T> Inbox<T> {
    /// Creates an open, empty inbox whose ready list has `mailbox_size` places.
    pub fn new(alloc: Global, mailbox_size: NonZeroUsize) -> Self
        ensures { result ≡ mailbox_after (non_zero_usize_get mailbox_size) 0 }
    {
        Inbox::resumed_after(alloc, mailbox_size, 0)
    }

    // Creates an open, empty inbox after `drawn` requests that were taken.
    fn resumed_after(alloc: Global, mailbox_size: NonZeroUsize, drawn: u64) -> Self
        ensures { result ≡ mailbox_after (non_zero_usize_get mailbox_size) drawn }
    {
        Inbox {
            queue: Queue::resumed_after(alloc, mailbox_size, drawn),
            stop: false,
            taken: drawn,
            skipped: 0,
            given_up: 0,
        }
    }

    /// Asks whoever takes the requests to stop.
    pub fn request_stop(&mut self)
        ensures { RequestsStop self.old self.new }
    {
        self.stop = true;
    }

    /// Returns whether a stop was asked for.
    pub fn stop_requested(&self) -> bool
        ensures { result ≡ self.now.stop }
    {
        self.stop
    }

    /// Returns how many requests were accepted, and what became of them.
    pub fn counts(&self) -> Counts
        ensures value { result ≡ counts_of self.now }
        ensures add_up { IsCounted self.now }
        ensures sound { IsSound self.now.queue }
    {
        Counts {
            accepted: self.queue.drawn(),
            taken: self.taken,
            skipped: self.skipped,
            waiting: self.queue.len() as u64,
            given_up: self.given_up,
        }
    }
}

impl<T: Closable + Drop> Inbox<T> {
    /// Draws a ticket for the message and queues it. If the ready list is full, a closed message is
    /// dropped. After an error the inbox is unchanged.
    #[inline(always)]
    pub fn enqueue(&mut self, message: T) -> Result<Queued, MailboxError>
        ensures step { Enqueues T.may_answer self.old message false result self.new }
        ensures unchanged_on_error { OnErr result (self.new ≡ self.old) }

        // A closed inbox, or one whose tickets are all drawn, does not allocate. Nor does a message
        // that is skipped.
        ensures closed_exactly_after_close { (result ≡ Ok Queued.Closed)
            ↔ (self.old.queue.closed ≡ true) }
        ensures exhausted_exactly_at_last_ticket { (result ≡ Err MailboxError.Exhausted)
            ↔ ((self.old.queue.closed ≡ false) × (self.old.queue.next ≡ last_ticket)) }
        ensures allocates_only_for_open_or_ready { result ≡ Err MailboxError.Memory
            → HasRoom self.old.queue ⊎ T.may_answer message false }
    {
        self.enqueue_as(message, false)
    }

    // Enqueues as `enqueue` does, with this mark on the request.
    // Inlined as `Queue::push` is.
    #[inline(always)]
    pub(super) fn enqueue_as(&mut self, message: T, counted: bool) -> Result<Queued, MailboxError>
        ensures { Enqueues T.may_answer self.old message counted result self.new }
    {
        let queued = self.queue.push(message, counted);
        if let Ok(Queued::Skipped(_)) = queued {
            self.skipped += 1;
        }
        queued
    }

    /// Removes the oldest request and returns it with its ticket, or `None` if none waits. The
    /// ready list is then filled from the overflow, whose closed requests are skipped.
    pub fn take(&mut self) -> Option<(u64, T)>
        ensures { (request : Option (Request T)) × (skipped : List (Request T))
            × Takes T.may_answer self.old request skipped self.new
            × (result ≡ taken_of request) }
    {
        let (request, _skipped) = self.take_request();
        let request = request?;
        Some((request.ticket, request.message))
    }

    // Takes as `take` does, and keeps the mark of the request. Returns also how many counted
    // requests were skipped.
    // Inlined as `Queue::pop` is.
    #[inline(always)]
    pub(super) fn take_request(&mut self) -> (Option<Request<T>>, u64)
        ensures { (skipped : List (Request T))
            × Takes T.may_answer self.old result.0 skipped self.new
            × (result.1 ≡ counted_in skipped) }
    {
        let (popped, skips) = self.queue.pop();
        let Some(request) = popped else {
            return (None, 0);
        };
        self.taken += 1;
        self.skipped += skips.all as u64;
        (Some(request), skips.counted as u64)
    }

    /// Closes the inbox and drops the requests that wait. Returns how many they were.
    pub fn close(&mut self) -> u64
        ensures { Closes self.old result self.new }
    {
        let waiting = self.queue.close() as u64;
        self.given_up += waiting;
        waiting
    }
}

/// The wakers that a call takes out. The caller drops them, which wakes the task, once it has let
/// the lock of the inbox go.
pub(super) type Woken = (Option<Waker>, Option<Waker>);

/// An inbox with its account, and with the wakers of the task that takes its requests.
#[derive(Drop)]
pub(super) struct Attended<T: Named, A: Bookkeeping> {
    inbox: Inbox<T>,
    account: A,
    // Wakes the task once a request is queued.
    queued: Option<Waker>,
    // Wakes the task once a stop is requested.
    stopped: Option<Waker>,
    // A task is registered only while it has nothing to take, and while no stop is requested.
    ghost none_waits: { is_some queued ≡ true → waiting inbox.queue ≡ [] },
    ghost not_stopped: { inbox.stop ≡ true → stopped ≡ None },
    // The account counts the requests that are marked as counted.
    ghost counted: { A.waiting account ≡ counted_in (waiting inbox.queue) },
    // If it counts only requests that stay open, so does each of those.
    ghost open: { A.only_open → are_open T.stays_open (waiting inbox.queue) ≡ true },
    // Every request that it counts drew a ticket.
    ghost drawn: { A.accepted account ≤ inbox.queue.next },
    ghost accepted: { A.waiting account ≤ A.accepted account },
    ghost few: { A.accepted account < 2 ^ 64 },
}

impl<T: Named, A: Bookkeeping> Attended<T, A> {
    /// Creates an inbox for which no task waits.
    pub(super) fn new(inbox: Inbox<T>, account: A) -> Self
        requires nothing_waits { waiting inbox.queue ≡ [] }
        requires nothing_counted { (A.waiting account ≡ 0) × (A.accepted account ≡ 0) }
        ensures inbox { result.inbox ≡ inbox }
        ensures nobody { (result.queued ≡ None) × (result.stopped ≡ None) }
    {
        Attended {
            inbox,
            account,
            queued: None,
            stopped: None,
        }
    }

    /// Requests a stop.
    pub(super) fn request_stop(&mut self) -> Woken
        ensures step { RequestsStop self.old.inbox self.new.inbox }
        ensures wakes { result ≡ (None, self.old.stopped) }
        ensures stays { (self.new.queued ≡ self.old.queued)
            × (self.new.account ≡ self.old.account) }
    {
        self.inbox.request_stop();
        (None, self.stopped.take())
    }

    /// Returns whether a stop was requested. If not, the task is registered for one.
    pub(super) fn poll_stopped(&mut self, cx: &mut Context<'_>, source: &Source) -> bool
        ensures value { result ≡ self.old.inbox.stop }
        ensures unchanged { (self.new.inbox ≡ self.old.inbox)
            × (self.new.account ≡ self.old.account) }
        ensures heard { result ≡ false → Hears cx.new source.now.id }
        ensures armed { result ≡ false → IsArmed cx.new }
        ensures kept { Keeps cx.old cx.new }
    {
        if self.inbox.stop_requested() {
            return true;
        }
        let _: Poll<()> = cx.register(source, &mut self.stopped);
        false
    }

    /// Returns how many requests were accepted, and what became of them.
    pub(super) fn counts(&self) -> Counts
        ensures value { result ≡ counts_of self.now.inbox }
        ensures add_up { result.accepted
            ≡ result.taken + result.skipped + result.waiting + result.given_up }
    {
        self.inbox.counts()
    }
}

impl<T: Queueable + Drop, A: Bookkeeping> Attended<T, A> {
    /// Queues a message.
    // Inlined as `Queue::push` is.
    #[inline(always)]
    pub(super) fn enqueue(&mut self, message: T) -> (Result<Queued, MailboxError>, Woken)
        ensures step { Enqueues T.may_answer self.old.inbox message false result.0 self.new.inbox }
        ensures wakes { result.1 ≡ (self.old.queued, None) }
        ensures stays { (self.new.stopped ≡ self.old.stopped)
            × (self.new.account ≡ self.old.account) }
    {
        let woken = self.queued.take();
        (self.inbox.enqueue(message), (woken, None))
    }

    /// Takes the oldest request. If none waits, the task is registered for one.
    pub(super) fn poll_next(
        &mut self,
        taker: &mut A::Taker,
        cx: &mut Context<'_>,
        source: &Source,
    ) -> Poll<Request<T>>
        ensures step { TakesBooked T.may_answer self.old.inbox (A.skips self.old.account)
            (ready result) self.new.inbox (A.skips self.new.account) }
        ensures gives_up_none { A.given_up self.new.account ≡ A.given_up self.old.account }
        ensures taken { A.taken taker.new ≡ A.taken taker.old + counted_of (ready result) }
        ensures refused { A.refusals taker.new ≡ A.refusals taker.old }
        ensures undecided { IfReady result (λ request.
            A.undecided taker.new ≡ (request.counted || A.undecided taker.old)) }
        ensures decides_none { OnPending result (A.undecided taker.new ≡ A.undecided taker.old) }
        ensures heard { OnPending result (Hears cx.new source.now.id) }
        ensures armed { OnPending result (IsArmed cx.new) }
        ensures kept { Keeps cx.old cx.new }
    {
        let (request, skipped) = self.inbox.take_request();
        match request {
            Some(request) => {
                self.account.take(taker, request.counted, skipped);
                Poll::Ready(request)
            }
            None => cx.register(source, &mut self.queued),
        }
    }

    /// Takes the oldest request, or `None` if none waits.
    pub(super) fn take(&mut self, taker: &mut A::Taker) -> Option<(u64, T)>
        ensures step { TakesOut T.may_answer self.old.inbox (A.skips self.old.account) result
            self.new.inbox (A.skips self.new.account) }
        ensures gives_up_none { A.given_up self.new.account ≡ A.given_up self.old.account }
    {
        let (request, skipped) = self.inbox.take_request();
        let request = request?;
        self.account.take(taker, request.counted, skipped);
        Some((request.ticket, request.message))
    }

    /// Closes the inbox. Returns how many requests were given up.
    pub(super) fn close(&mut self) -> (u64, Woken)
        ensures step { Closes self.old.inbox result.0 self.new.inbox }
        ensures wakes { result.1 ≡ (self.old.queued, self.old.stopped) }
        ensures counts_none { A.waiting self.new.account ≡ 0 }
        ensures skips_none { A.skips self.new.account ≡ A.skips self.old.account }
        ensures given_up { A.given_up self.new.account ≡ A.given_up self.old.account
            + counted_in (waiting self.old.inbox.queue) }
    {
        let woken = (self.queued.take(), self.stopped.take());
        self.account.give_up();
        (self.inbox.close(), woken)
    }
}

impl<T: Queueable + Drop, A: Account, K: Account, V: Watch<D>, D> Attended<T, Books<A, K, V, D>> {
    /// Queues a message for a tally, which counts it if it is accepted and `counted`.
    pub(super) fn enqueue_as(
        &mut self,
        message: T,
        counted: bool,
        tally: &mut Tally<A>,
    ) -> (Result<Queued, MailboxError>, Woken)
        requires { BroadcastsOnly V.watched → counted ≡ true → T.stays_open message ≡ true }
        ensures step { Enqueues T.may_answer self.old.inbox message counted result.0
            self.new.inbox }
        ensures tallied { tally.new ≡ tallied counted (is_accepted result.0) tally.old }
        ensures skips { self.new.account.skipped
            ≡ self.old.account.skipped + one_if (counted && is_skipped result.0) }
        ensures gives_up_none { self.new.account.given_up ≡ self.old.account.given_up }
        ensures wakes { result.1 ≡ (self.old.queued, None) }
        ensures stays { self.new.stopped ≡ self.old.stopped }
    {
        let woken = self.queued.take();
        let queued = self.inbox.enqueue_as(message, counted);
        self.account.count(counted, &queued, tally);
        (queued, (woken, None))
    }

    /// Closes the inbox and settles its account with the tally that has all parts.
    pub(super) fn settle(&mut self, taker: &mut Taker<K>, tally: &mut Tally<A>) -> (Settled, Woken)
        requires accounts { (A.all ≡ A.parts) × (K.all ≡ K.parts) }
        requires whole { tally.old.parts ≡ A.all }
        ensures sums { IsSettled tally.old taker.old.share.amount taker.old.refused result.0 }
        // Those that were skipped before, and those that were given up before or wait.
        ensures skipped { result.0.skipped ≡ self.old.account.skipped }
        ensures given_up { result.0.given_up ≡ self.old.account.given_up
            + counted_in (waiting self.old.inbox.queue) }
        ensures broadcasts { BroadcastsOnly V.watched → result.0.skipped ≡ 0 }
    {
        let (_given_up, woken) = self.close();
        (self.account.settle(taker, tally), woken)
    }
}
