//! A queue from which one task takes.
ghost use Rattle.std.specs.Prelude.{◌≡◌, [], ◌∷◌, ◌++◌, None, OnOk, OnErr, IfOk};
ghost use Rattle.futures.specs.Poll.{OnPending, IfReady};
ghost use Rattle.futures.specs.Task.{Hears, IsArmed, Keeps};

use futures::task::{Context, Poll, Source, Waker};
use std::alloc::{AllocError, Global};
use std::collections::VecDeque;
use std::marker::Model;
use std::sync::atomic::{AtomicBool, Ordering};
use std::sync::{Mutex, Wait};

/// The items of a line, and the task that waits for one.
#[derive(Drop)]
struct Waiting<T> {
    items: VecDeque<T>,
    waker: Option<Waker>,
}

impl<T> Waiting<T> {
    fn give(&mut self, item: T) -> Result<Option<Waker>, AllocError>
    where
        T: Drop,
        ensures last { OnOk result (self.new.items.items ≡ self.old.items.items ++ item ∷ []) }
        ensures wakes { IfOk result (λ woken. woken ≡ self.old.waker) }
        ensures nobody_waits { OnOk result (self.new.waker ≡ None) }
        ensures unchanged { OnErr result (self.new.items.items ≡ self.old.items.items) }
    {
        self.items.push_back(item)?;
        Ok(self.waker.take())
    }

    fn poll(&mut self, source: &Source, cx: &mut Context<'_>) -> Poll<T>
        ensures first { IfReady result (λ item.
            self.old.items.items ≡ item ∷ self.new.items.items) }
        ensures empty { OnPending result (self.old.items.items ≡ []) }
        ensures heard { OnPending result (Hears cx.new source.now.id) }
        ensures armed { OnPending result (IsArmed cx.new) }
        ensures kept { Keeps cx.old cx.new }
    {
        match self.items.pop_front() {
            Some(item) => Poll::Ready(item),
            None => cx.register(source, &mut self.waker),
        }
    }
}

/// A queue from which one task takes. Any thread may put items into it. Contracts see the source
/// that fires once an item is there.
#[derive(Drop)]
pub struct Line<T> {
    // Fires once an item is there.
    given: Source,
    // Whether an item is there. Set under the lock.
    has_item: AtomicBool,
    waiting: Mutex<Waiting<T>>,
}

impl<T> Model for Line<T> {
    ghost use Rattle.std.specs.Prelude.{ℕ};

    ghost Value = { ℕ };

    ghost view = { λ line. line.given.id };
}

impl<T> Line<T> {
    /// Creates an empty line.
    pub fn new(alloc: Global) -> Self {
        Line {
            given: Source::new(),
            has_item: AtomicBool::new(false),
            waiting: Mutex::new(Waiting {
                items: VecDeque::new(alloc),
                waker: None,
            }),
        }
    }

    /// Puts an item at the end, and wakes the task that waits.
    pub fn give(&self, rt: &impl Wait, item: T) -> Result<(), AllocError>
    where
        T: Drop,
    {
        let mut waiting = self.waiting.lock(rt);
        let woken = waiting.give(item)?;
        self.has_item.store(true, Ordering::SeqCst);
        drop(waiting);
        drop(woken);
        Ok(())
    }

    /// Returns whether an item is there. Takes no lock.
    pub fn has_item(&self) -> bool {
        self.has_item.load(Ordering::SeqCst)
    }

    /// Takes the item in front. If there is none, the task is woken once there is.
    pub fn poll(&self, rt: &impl Wait, cx: &mut Context<'_>) -> Poll<T>
        ensures heard { OnPending result (Hears cx.new self.now) }
        ensures armed { OnPending result (IsArmed cx.new) }
        ensures kept { Keeps cx.old cx.new }
    {
        let mut waiting = self.waiting.lock(rt);
        let polled = waiting.poll(&self.given, cx);
        self.has_item
            .store(!waiting.items.is_empty(), Ordering::SeqCst);
        polled
    }
}
