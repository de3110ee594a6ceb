//! The requests that wait in a mailbox: a bounded ready list, and an unbounded overflow behind it.
ghost use Rattle.std.specs.Prelude.{◌≡◌, ◌≤◌, ◌↔◌, ◌+◌, ◌^◌, ◌<◌, ◌∷◌, IsTrue, List, length, []};
ghost use Rattle.std.specs.NonZero.{non_zero_usize_get};
ghost use Rattle.broadcast_mailbox.specs.declared.buffered.ingress.message.Request.{Request};
ghost use Rattle.broadcast_mailbox.specs.Queue.{Pushes, Pops, Draws, HasRoom, IsSound, last_ticket, queue_after, shut_down, waiting};
ghost use Rattle.broadcast_mailbox.specs.Skips.{CountsSkipped};
ghost use Rattle.broadcast_mailbox.specs.Overflow.{Handles, Drains, PutsWithin};
ghost use Rattle.std.specs.VecDeque.{deque_capacity, deque_len};

use crate::MailboxError;
use crate::buffered::ingress::account::Skips;
use crate::buffered::ingress::message::{Queued, Request};
use broadcast_core::Closable;
use std::alloc::{AllocError, Global};
use std::collections::VecDeque;
use std::marker::Model;
use std::num::NonZeroUsize;

/// The requests that wait, whether the queue is closed, and the next ticket. Only a push allocates.
#[derive(Drop)]
pub(super) struct Queue<T> {
    size: usize,
    ready: VecDeque<Request<T>>,
    overflow: Pending<Request<T>>,
    closed: bool,
    next: u64,
}

impl<T> Model for Queue<T> {
    ghost use Rattle.broadcast_mailbox.specs.Queue.{QueueState, IsSound};

    ghost Value = { QueueState T };

    ghost view = { λ q. record {
      size = q.size;
      ready = q.ready.items;
      overflow = q.overflow;
      closed = q.closed;
      next = q.next;
    } };

    ghost invariant = { λ q. IsSound (record {
      size = q.size;
      ready = q.ready.items;
      overflow = q.overflow;
      closed = q.closed;
      next = q.next;
    }) };
}

impl<T> Queue<T> {
    /// Creates an open, empty queue whose ready list has `size` places, with `drawn` tickets drawn.
    pub(super) fn resumed_after(alloc: Global, size: NonZeroUsize, drawn: u64) -> Self
        ensures { result ≡ queue_after (non_zero_usize_get size) drawn }
    {
        Queue {
            size: size.get(),
            ready: VecDeque::new(alloc),
            overflow: Pending::default(alloc),
            closed: false,
            next: drawn,
        }
    }

    /// Returns how many requests wait.
    pub(super) fn len(&self) -> usize
        ensures { result ≡ length (waiting self.now) }
    {
        self.ready.len() + self.overflow.len()
    }

    /// Returns how many tickets were drawn.
    pub(super) fn drawn(&self) -> u64
        ensures drawn { result ≡ self.now.next }
        ensures sound { IsSound self.now }
    {
        self.next
    }
}

impl<T: Closable + Drop> Queue<T> {
    /// Draws a ticket for the message and queues it. After an error the queue is unchanged.
    // Inlined, so that a request is written to its place and not copied by each call on the way.
    #[inline(always)]
    pub(super) fn push(&mut self, message: T, counted: bool) -> Result<Queued, MailboxError>
        ensures step { Pushes T.may_answer self.old message counted result self.new }
        ensures drawn { self.new.next ≤ last_ticket }
    {
        if self.closed {
            Ok(Queued::Closed)
        } else if self.next == u64::MAX {
            Err(MailboxError::Exhausted)
        } else if self.has_room() {
            self.push_ready(message, counted)
        } else {
            self.push_overflow(message, counted)
        }
    }

    // Returns whether a message goes to the ready list.
    fn has_room(&self) -> bool
        ensures { IsTrue result ↔ HasRoom self.now }
    {
        self.overflow.is_empty() && self.ready.len() < self.size
    }

    // Puts the message into the ready list.
    #[inline(always)]
    fn push_ready(&mut self, message: T, counted: bool) -> Result<Queued, MailboxError>
        requires draws { Draws self.old self.old.next }
        requires room { HasRoom self.old }
        ensures step { Pushes T.may_answer self.old message counted result self.new }
        ensures drawn { self.new.next ≤ last_ticket }
    {
        let ticket = self.next;
        let request = Request {
            ticket,
            message,
            counted,
        };
        if self.ready.push_back(request).is_err() {
            return Err(MailboxError::Memory);
        }
        self.next = ticket + 1;
        Ok(Queued::Ready(ticket))
    }

    // Hands the message, which finds no room, to the overflow.
    // By itself, since it is rare and large.
    #[inline(never)]
    fn push_overflow(&mut self, message: T, counted: bool) -> Result<Queued, MailboxError>
        requires draws { Draws self.old self.old.next }
        requires no_room { ¬ HasRoom self.old }
        ensures step { Pushes T.may_answer self.old message counted result self.new }
        ensures drawn { self.new.next ≤ last_ticket }
    {
        let ticket = self.next;
        let before = self.overflow.len();
        let request = Request {
            ticket,
            message,
            counted,
        };
        if Policy::handle(&mut self.overflow, request).is_err() {
            return Err(MailboxError::Memory);
        }
        self.next += 1;
        if self.overflow.len() == before {
            Ok(Queued::Skipped(ticket))
        } else {
            Ok(Queued::Overflow(ticket))
        }
    }

    /// Removes and returns the oldest request, if there is one, and fills the ready list from the
    /// overflow. Returns also how many closed requests were dropped on the way.
    // Inlined, so that a request is copied once.
    #[inline(always)]
    pub(super) fn pop(&mut self) -> (Option<Request<T>>, Skips)
        ensures step { (skipped : List (Request T))
            × Pops T.may_answer self.old result.0 skipped self.new
            × CountsSkipped result.1 skipped }
        ensures drawn { self.new.next ≤ last_ticket }
    {
        let Some(request) = self.ready.pop_front() else {
            return (None, Skips::none());
        };
        if self.overflow.is_empty() {
            return (Some(request), Skips::none());
        }
        let skipped = self.overflow.refill(&mut self.ready, self.size);
        (Some(request), skipped)
    }

    /// Closes the queue and drops the requests that wait. Returns how many they were.
    pub(super) fn close(&mut self) -> usize
        ensures all { result ≡ length (waiting self.old) }
        ensures after { self.new ≡ shut_down self.old }
        ensures drawn { self.new.next ≤ last_ticket }
    {
        let waiting = self.len();
        self.ready.clear();
        self.overflow.clear();
        self.closed = true;
        waiting
    }
}

/// Keeps messages that find no room, in order.
pub trait Overflow<T: Closable> {
    /// The messages, oldest first.
    ghost kept: { Self → List T };

    /// Returns whether no message is kept.
    fn is_empty(&self) -> bool
        ensures { IsTrue result ↔ (kept self.now ≡ []) };

    /// Removes the messages, oldest first: drops a closed one, and offers an open one to `push`.
    /// If `push` hands a message back, that message stays first, and the call returns. Does not
    /// allocate.
    fn drain<F: FnMut(T) -> Option<T>>(&mut self, push: F)
        requires { (state : F) (message : T) → F.pre state message }
        ensures { (skipped : List T) × (last : F)
            × Drains T.may_answer (λ f x r g. F.step f x r g) push (kept self.old)
            skipped (kept self.new) last };
}

/// Handles the messages that find no room.
pub trait Policy: Closable + Drop {
    /// The overflow, which keeps such messages.
    type Overflow: Overflow<Self>;

    /// Appends the message to the overflow, or drops it if it is closed. Only an open message
    /// allocates. After an error the overflow is unchanged.
    fn handle(overflow: &mut Self::Overflow, message: Self) -> Result<(), AllocError>
        ensures { Handles Self.may_answer (Self.Overflow.kept overflow.old) message
            result (Self.Overflow.kept overflow.new) };
}

/// Messages that wait in order. Contracts see the list of them, oldest first.
#[derive(Drop)]
pub struct Pending<T> {
    messages: VecDeque<T>,
}

impl<T> Model for Pending<T> {
    ghost Value = { List T };

    ghost view = { λ pending. pending.messages.items };
}

impl<T> Pending<T> {
    /// Creates an empty overflow. Does not allocate.
    pub fn default(alloc: Global) -> Self
        ensures { result ≡ [] }
    {
        Pending {
            messages: VecDeque::new(alloc),
        }
    }

    /// Returns how many messages wait.
    pub fn len(&self) -> usize
        ensures value { result ≡ length self.now }
        ensures small { result < 2 ^ 63 }
    {
        self.messages.len()
    }
}

impl<T: Drop> Pending<T> {
    /// Drops all messages.
    pub(super) fn clear(&mut self)
        ensures { self.new ≡ [] }
    {
        self.messages.clear();
    }
}

impl<T: Closable + Drop> Pending<T> {
    /// Appends the message, or drops it if it is closed. Only an open message allocates. After an
    /// error the messages are unchanged.
    pub(super) fn append(&mut self, message: T) -> Result<(), AllocError>
        ensures { Handles T.may_answer self.old message result self.new }
    {
        if message.is_closed() {
            return Ok(());
        }
        self.messages.push_back(message)?;
        Ok(())
    }
}

impl<T: Closable + Drop> Pending<Request<T>> {
    /// Moves requests, oldest first, to the end of the ready list while it has fewer than `size`,
    /// and drops closed ones. Returns how many were dropped. Does not allocate.
    pub(super) fn refill(&mut self, ready: &mut VecDeque<Request<T>>, size: usize) -> Skips
        requires { size ≤ deque_capacity ready.old }
        ensures { (skipped : List (Request T))
            × Drains (λ (request : Request T) answer. T.may_answer request.message answer)
            (PutsWithin size) ready.old.items self.old
            skipped self.new ready.new.items
            × CountsSkipped result skipped }
    {
        refill_front(&mut self.messages, ready, size)
    }
}

impl<T: Closable + Drop> Overflow<T> for Pending<T> {
    ghost kept = { λ pending. pending };

    fn is_empty(&self) -> bool {
        self.messages.is_empty()
    }

    fn drain<F: FnMut(T) -> Option<T>>(&mut self, push: F) {
        drain_front(&mut self.messages, push);
    }
}

// Moves requests to the end of the ready list, as `Pending::refill` does.
// By itself, since it is rare and large.
#[inline(never)]
fn refill_front<T: Closable + Drop>(
    requests: &mut VecDeque<Request<T>>,
    ready: &mut VecDeque<Request<T>>,
    size: usize,
) -> Skips
    requires { size ≤ deque_capacity ready.old }
    ensures { (skipped : List (Request T))
        × Drains (λ (request : Request T) answer. T.may_answer request.message answer)
        (PutsWithin size) ready.old.items requests.old.items
        skipped requests.new.items ready.new.items
        × CountsSkipped result skipped }
{
    let mut skips = Skips::none();
    while let Some(request) = requests.pop_front() {
        if request.is_closed() {
            skips.count(request.counted);
            continue;
        }
        if ready.len() >= size {
            requests.push_front_reserved(request);
            return skips;
        }
        ready.push_back_reserved(request);
    }
    skips
}

// Drains the messages, as `Overflow::drain` does.
fn drain_front<T, F>(messages: &mut VecDeque<T>, mut push: F)
where
    T: Closable + Drop,
    F: FnMut(T) -> Option<T>,
    requires { (state : F) (message : T) → F.pre state message }
    ensures { (skipped : List T) × (last : F)
        × Drains T.may_answer (λ f x r g. F.step f x r g) push messages.old.items
        skipped messages.new.items last }
{
    while let Some(message) = messages.pop_front() {
        if message.is_closed() {
            continue;
        }
        if let Some(back) = push(message) {
            hand_back(messages, back);
            return;
        }
    }
}

// Puts the message in front of the others, into the place that its removal left.
fn hand_back<T: Closable + Drop>(messages: &mut VecDeque<T>, back: T)
    requires { deque_len messages.old < deque_capacity messages.old }
    ensures { messages.new.items ≡ back ∷ messages.old.items }
{
    messages.push_front_reserved(back);
}
