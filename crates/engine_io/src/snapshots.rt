//! The counters of a running engine, for those who ask for them.
ghost use Rattle.std.specs.Prelude.{◌≡◌, true, false, None, Ok, Err, [], ◌∷◌, ◌++◌, OnOk, OnErr, IfOk, IfErr};
ghost use Rattle.std.specs.Ordering.{eq_by_cmp};
ghost use Rattle.futures.specs.Task.{IsArmed, Keeps};
ghost use Rattle.engine_io.specs.Counters.{IsCopy};
ghost use Rattle.engine_io.specs.declared.snapshots.MetricsError.TheVariants.{Memory, Ended};

use crate::asleep::{CannotWait, block_on_asleep};
use crate::metrics::Metrics;
use broadcast_core::PublicKey;
use futures::channel::oneshot::{self, Canceled, Sender};
use futures::task::{Context, Poll, Source, Waker};
use std::alloc::{AllocError, AllocGlobal, Global};
use std::mem;
use std::random::RandomSource;
use std::sync::atomic::{AtomicBool, Ordering};
use std::sync::{Mutex, Wait};
use thiserror::Error;

/// Why the counters of a started engine can't be had.
#[derive(Clone, Copy, Debug, PartialEq, Eq, Error)]
pub enum MetricsError {
    /// An allocation failed.
    #[error("out of memory")]
    Memory,
    /// The engine has ended. Its report has the counters.
    #[error("the engine has ended")]
    Ended,
}

/// A copy of the counters, or an allocation failure.
type Copied<P> = Result<Metrics<P>, AllocError>;

/// The callers that ask for the counters of an engine, and what wakes its thread. Nobody may ask
/// once it has ended.
#[derive(Drop)]
struct Asking<P: PublicKey> {
    callers: Vec<Sender<Copied<P>>>,
    waker: Option<Waker>,
    has_ended: bool,
}

impl<P: PublicKey> Asking<P> {
    fn new(alloc: Global) -> Self
        ensures nobody_asks { result.callers.items ≡ [] }
        ensures runs { result.has_ended ≡ false }
    {
        Asking {
            callers: Vec::new(alloc),
            waker: None,
            has_ended: false,
        }
    }

    /// Adds a caller. Returns what wakes the thread of the engine.
    fn add(&mut self, caller: Sender<Copied<P>>) -> Result<Option<Waker>, MetricsError>
        ensures ended { self.old.has_ended ≡ true → result ≡ Err Ended }
        ensures memory { self.old.has_ended ≡ false → OnErr result (result ≡ Err Memory) }
        ensures same_end { self.new.has_ended ≡ self.old.has_ended }
        ensures last { OnOk result
            (self.new.callers.items ≡ self.old.callers.items ++ caller ∷ []) }
        ensures wakes { IfOk result (λ woken. woken ≡ self.old.waker) }
        ensures nobody_waits { OnOk result (self.new.waker ≡ None) }
        ensures unchanged { OnErr result (self.new.callers.items ≡ self.old.callers.items) }
    {
        if self.has_ended {
            return Err(MetricsError::Ended);
        }
        let Ok(()) = self.callers.push(caller) else {
            return Err(MetricsError::Memory);
        };
        Ok(self.waker.take())
    }

    /// Takes all callers. The thread is woken once another one asks.
    fn take(
        &mut self,
        alloc: Global,
        source: &Source,
        cx: &mut Context<'_>,
    ) -> Vec<Sender<Copied<P>>>
        ensures all { result.items ≡ self.old.callers.items }
        ensures none_left { self.new.callers.items ≡ [] }
        ensures same_end { self.new.has_ended ≡ self.old.has_ended }
        ensures armed { IsArmed cx.new }
        ensures kept { Keeps cx.old cx.new }
    {
        let _pending: Poll<()> = cx.register(source, &mut self.waker);
        mem::replace(&mut self.callers, Vec::new(alloc))
    }

    /// Takes all callers and what wakes the thread of the engine, and no caller from then on.
    fn end(&mut self, alloc: Global) -> (Vec<Sender<Copied<P>>>, Option<Waker>)
        ensures all { result.0.items ≡ self.old.callers.items }
        ensures none_left { self.new.callers.items ≡ [] }
        ensures waker { result.1 ≡ self.old.waker }
        ensures wakes_nobody { self.new.waker ≡ None }
        ensures ended { self.new.has_ended ≡ true }
    {
        self.has_ended = true;
        let callers = mem::replace(&mut self.callers, Vec::new(alloc));
        (callers, self.waker.take())
    }
}

/// Where callers ask for the counters of a running engine.
///
/// The task of the engine looks at a flag before its polls, and is woken once somebody asks.
#[derive(Drop)]
pub struct Snapshots<P: PublicKey> {
    // Fires once somebody asks.
    asked: Source,
    asking: Mutex<Asking<P>>,
    // Whether somebody asked since the callers were last taken.
    is_asked: AtomicBool,
}

impl<P: PublicKey> Snapshots<P> {
    /// Creates the place of an engine that has not ended, for whose counters nobody asks.
    pub fn new(alloc: Global) -> Self {
        Snapshots {
            asked: Source::new(),
            asking: Mutex::new(Asking::new(alloc)),
            is_asked: AtomicBool::new(false),
        }
    }

    /// Waits for a copy of the counters.
    pub fn ask<R>(&self, rt: &R) -> Result<Metrics<P>, MetricsError>
    where
        R: Wait + RandomSource + AllocGlobal,
    {
        let Ok((sender, receiver)) = oneshot::channel(rt.alloc()) else {
            return Err(MetricsError::Memory);
        };
        self.put(rt, sender)?;
        told(block_on_asleep(rt, receiver))
    }

    /// Adds a caller, and wakes the thread of the engine.
    fn put(&self, rt: &impl Wait, caller: Sender<Copied<P>>) -> Result<(), MetricsError> {
        let mut asking = self.asking.lock(rt);
        let woken = asking.add(caller)?;
        self.is_asked.store(true, Ordering::SeqCst);
        drop(asking);
        drop(woken);
        Ok(())
    }

    /// Lets the thread of the engine look for callers, and register, at its next poll.
    pub fn look_again(&self) {
        self.is_asked.store(true, Ordering::SeqCst);
    }

    /// Hands a copy of the counters to all who asked, if somebody did since the last time.
    pub fn answer_asked(
        &self,
        rt: &impl Wait,
        alloc: Global,
        metrics: &Metrics<P>,
        cx: &mut Context<'_>,
    )
        ensures { Keeps cx.old cx.new }
    {
        if self.is_asked.load(Ordering::SeqCst) {
            self.answer(rt, alloc, metrics, cx);
        }
    }

    /// Hands a copy of the counters to all who ask for them. The thread is woken once another one
    /// asks.
    pub fn answer(&self, rt: &impl Wait, alloc: Global, metrics: &Metrics<P>, cx: &mut Context<'_>)
        ensures armed { IsArmed cx.new }
        ensures kept { Keeps cx.old cx.new }
    {
        self.is_asked.store(false, Ordering::SeqCst);
        let callers = self.asking.lock(rt).take(alloc, &self.asked, cx);
        for caller in callers {
            let _is_sent = caller.send(copy_of(metrics));
        }
    }

    /// Tells callers that the engine has ended: those who ask, and those who will.
    pub fn end(&self, rt: &impl Wait, alloc: Global) {
        let (callers, waker) = self.asking.lock(rt).end(alloc);
        drop::<_>((callers, waker));
    }
}

/// Returns what a caller is told, by what its wait returned.
fn told<P: PublicKey>(
    waited: Result<Result<Copied<P>, Canceled>, CannotWait>,
) -> Result<Metrics<P>, MetricsError>
    ensures copied { IfOk waited (λ sent. IfOk sent (λ copied. IfOk copied (λ metrics.
        result ≡ Ok metrics))) }
    ensures not_copied { IfOk waited (λ sent. IfOk sent (λ copied. IfErr copied (λ error.
        result ≡ Err Memory))) }
    ensures canceled { IfOk waited (λ sent. IfErr sent (λ error. result ≡ Err Ended)) }
    ensures cannot_wait { IfErr waited (λ error. result ≡ Err Memory) }
{
    match waited {
        Ok(Ok(Ok(metrics))) => Ok(metrics),
        Ok(Err(Canceled)) => Err(MetricsError::Ended),
        Ok(Ok(Err(AllocError))) | Err(_) => Err(MetricsError::Memory),
    }
}

/// Returns a copy of the counters, or an allocation failure.
fn copy_of<P: PublicKey>(metrics: &Metrics<P>) -> Copied<P>
    ensures { IfOk result (IsCopy (eq_by_cmp P.cmp) metrics.now) }
{
    metrics.clone()
}
