//! A thread that polls one future, and sleeps at once while it is pending.
ghost use Rattle.std.specs.Prelude.{◌≡◌, ◌↔◌, ◌<◌, true, IfOk, IfErr};

use futures::Future;
use futures::executor::block_on_driving;
use futures::task::{Doorbell, Drive, Queue};
use std::alloc::{AllocError, AllocGlobal};
use std::io;
use std::random::RandomSource;
use std::sync::{Mutex, Wait};
use std::thread::{Threads, available_parallelism};
use thiserror::Error;

/// A driver whose lock is held, so that no thread waits in it.
#[derive(Drop)]
struct Idle;

impl<R> Drive<R> for Idle {
    fn wait(&mut self, _rt: &R, _may_sleep: bool) -> io::Result<()> {
        Ok(())
    }

    fn dispatch(&mut self, _rt: &R) -> io::Result<()> {
        Ok(())
    }
}

/// A thread could not be made ready to wait: there was no memory, or there were no random bytes.
///
/// Nothing but a `Seat` that could not be made gives one.
#[derive(Clone, Copy, Debug, PartialEq, Eq, Error)]
#[error("the thread can't wait")]
pub struct CannotWait(());

/// Polls one future on a thread until it is ready. While the future is pending, the thread sleeps.
///
/// The thread of `block_on` yields 64 times before it sleeps, and beside another that wants its
/// processor each yield gives a whole time slice away. One that finds its driver taken sleeps at
/// once.
#[derive(Drop)]
pub struct Seat {
    queue: Queue,
}

impl Seat {
    /// Creates a queue that has room for the task of the future, so that `block_on` needs no
    /// memory.
    fn new<R: RandomSource + AllocGlobal>(rt: &R) -> Result<Self, CannotWait> {
        match Self::with_room(rt) {
            Ok(seat) => Ok(seat),
            Err(_) => Err(CannotWait(())),
        }
    }

    /// Creates a seat for a future that owns `value`, and puts that in a box. If either fails, the
    /// value is handed back.
    pub fn with_boxed<R, T>(rt: &R, value: T) -> Result<(Self, Box<T>), (CannotWait, T)>
    where
        R: RandomSource + AllocGlobal,
        ensures boxed { IfOk result (λ made. made.1.value ≡ value) }
        ensures handed_back { IfErr result (λ failed. failed.1 ≡ value) }
    {
        let held = match Box::new(rt.alloc(), value) {
            Ok(held) => held,
            Err(refused) => return Err((CannotWait(()), refused.value)),
        };
        match Self::new(rt) {
            Ok(seat) => Ok((seat, held)),
            Err(failure) => Err((failure, Box::into_inner(held))),
        }
    }

    fn with_room<R: RandomSource + AllocGlobal>(rt: &R) -> io::Result<Self> {
        let queue = Queue::new(rt, Doorbell::parking())?;
        // The second time the number is one that was handed back, and there is room to hand it back
        // again.
        queue.add()?.cancel();
        let vacancy = queue.add()?;
        let is_reused = vacancy.task() == 0;
        vacancy.cancel();
        if is_reused {
            Ok(Seat { queue })
        } else {
            Err(io::Error::from(AllocError))
        }
    }

    /// Polls `future` on this thread until it is ready.
    pub fn block_on<R: Wait, F: Future>(self, rt: &R, future: F) -> F::Output
        requires { F.can_poll future }
        ensures { F.gives future result }
    {
        let driver = Mutex::new(Idle);
        let taken = driver.lock(rt);
        let waited = block_on_driving(rt, &self.queue, &driver, future);
        drop::<_>(taken);
        match waited {
            Ok(output) => output,
            // It fails where its queue has no room for a task, and this one has. No clause says so.
            Err(_) => {
                for _ in rt.forever() {}
                unreachable!()
            }
        }
    }
}

/// Returns whether threads may look before they sleep: more than one processor may be used, so
/// another thread may run meanwhile.
pub fn may_look(rt: &impl Threads) -> bool {
    match available_parallelism(rt) {
        Ok(processors) => are_several(processors.get()),
        Err(_) => false,
    }
}

/// Returns whether another thread may run while one looks.
fn are_several(processors: usize) -> bool
    ensures { (result ≡ true) ↔ (1 < processors) }
{
    processors > 1
}

/// Polls `future` on this thread until it is ready. The thread sleeps while it is pending.
pub fn block_on_asleep<R, F>(rt: &R, future: F) -> Result<F::Output, CannotWait>
where
    R: Wait + RandomSource + AllocGlobal,
    F: Future,
    requires { F.can_poll future }
    ensures { IfOk result (F.gives future) }
{
    let seat = Seat::new(rt)?;
    Ok(seat.block_on(rt, future))
}
