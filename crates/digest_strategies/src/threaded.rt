//! Digests on other threads.
ghost use Rattle.std.specs.Prelude.{◌≡◌, IfOk};

use crate::strategy::{Job, Strategy};
use crate::worker::Work;
use futures::task::{Context, Poll};
use std::alloc::{AllocError, Global};
use std::marker::PhantomData;
use std::sync::Arc;
use std::thread::Threads;

/// Digests each message on a thread of its own, which passes a gate before.
#[derive(Drop)]
pub struct Threaded<G, R> {
    gate: Arc<G>,
    alloc: Global,
    rt: R,
}

impl<G, R> Threaded<G, R> {
    /// Creates a strategy whose workers pass `gate`.
    pub fn new(rt: R, alloc: Global, gate: Arc<G>) -> Self {
        Threaded { gate, alloc, rt }
    }
}

/// The job of a message that a worker digests. It may move to another thread, as its worker may.
/// Dropping it waits for the worker.
pub struct Working<M: Work<G, R>, G, R: Drop> {
    worker: Option<M::Worker>,
    rt: R,
    gate: PhantomData<G>,
}

impl<M: Work<G, R>, G, R: Drop> Drop for Working<M, G, R> {
    fn drop(self) {
        let Working {
            worker,
            rt,
            gate: _,
        } = self;
        if let Some(worker) = worker {
            drop(M::join(worker, &rt));
        }
        drop(rt);
    }
}

impl<M: Work<G, R>, G, R: Clone + Drop> Strategy<M> for Threaded<G, R> {
    type Job = Working<M, G, R>;

    /// Starts a worker, or digests at once if no thread can be started.
    fn start(&self, message: M) -> Result<Working<M, G, R>, AllocError> {
        let rt = self.rt.clone()?;
        let gate = Arc::try_clone(&self.gate)?;
        let worker = message.start(&self.rt, self.alloc, gate)?;
        Ok(Working {
            worker: Some(worker),
            rt,
            gate: PhantomData,
        })
    }
}

impl<M: Work<G, R>, G, R: Drop> Job<M> for Working<M, G, R> {
    ghost use Rattle.digest_strategies.specs.Workers.{HoldsWorkerOf, MayWaitFor};

    ghost is_of = { λ job message. HoldsWorkerOf M.is_of job.worker message };

    ghost needs = { λ job source. MayWaitFor M.needs job.worker source };

    /// Joins the worker once it is done, and returns its message. Later polls are pending.
    fn poll(&mut self, cx: &mut Context<'_>) -> Poll<(M, M::Digest)> {
        if let Some(worker) = &mut self.worker {
            if let Poll::Pending = M::poll(worker, cx) {
                return Poll::Pending;
            }
        }
        match self.worker.take() {
            Some(worker) => Poll::Ready(M::join(worker, &self.rt)),
            None => cx.yield_now(),
        }
    }
}
