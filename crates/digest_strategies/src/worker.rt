//! Threads that digest one message each, and leave it in a place.
ghost use Rattle.std.specs.Prelude.{◌≡◌, ℕ, IfOk, IfSome};
ghost use Rattle.std.specs.Arc.{arc_value};
ghost use Rattle.futures.specs.Poll.{OnPending};
ghost use Rattle.futures.specs.Task.{Hears, IsArmed, Keeps};
ghost use Rattle.digest_strategies.specs.Heard.{HearsAll};

use crate::gate::{Gate, Open};
use broadcast_core::{Digest, Digestible, TestMessage};
use counted_slot::{Counted, Fits, TAKEN};
use futures::Future;
use futures::channel::oneshot::{self, Receiver};
use futures::task::{Context, Poll};
use std::alloc::{AllocError, Global};
use std::marker::Model;
use std::sync::{Arc, Wait};
use std::thread::{self, Parker, Threads};

/// The word of a place in which a message was left.
const FILLED: u64 = 1 << 32;

/// A message with its own digest.
#[derive(Drop)]
struct Answer<M: Digestible> {
    message: M,
    digest: M::Digest,
}

impl<M: Digestible> Fits for Answer<M> {
    type Tag = M;

    ghost fits = { λ m answer. (answer.message ≡ m) × (answer.digest ≡ M.digest_of m) };
}

/// Where a thread leaves a message with its own digest. In a contract it is that message.
#[derive(Drop)]
struct Place<M: Digestible> {
    answer: Counted<Option<Answer<M>>>,
    // Who joins the worker sleeps here, until the message is left.
    left: Parker,
}

impl<M: Digestible> Model for Place<M> {
    ghost Value = { M };

    ghost view = { λ it. it.answer };
}

impl<M: Digestible> Place<M> {
    /// Creates the place of the message, which is not left there yet.
    fn new(message: &M) -> Self
        ensures { result ≡ message.now }
    {
        Place {
            answer: Counted::new(None, message),
            left: Parker::new(),
        }
    }

    /// Digests the message of the place, and leaves it there.
    fn digest(&self, message: M)
        requires { message ≡ self.now }
    {
        let digest = message.digest();
        let (found, claim) = self.answer.turn(0, TAKEN);
        if found == 0 {
            let before = claim.put(Some(Answer { message, digest }), FILLED);
            drop(before);
        } else {
            claim.done();
        }
        self.left.unpark();
    }

    /// Takes the message of the place, if it was left there.
    fn take(&self) -> Option<Answer<M>>
        ensures { IfSome result (λ it.
            (it.message ≡ self.now) × (it.digest ≡ M.digest_of self.now)) }
    {
        let (found, claim) = self.answer.turn(FILLED, FILLED + TAKEN);
        if found == FILLED {
            return claim.put(None, 0);
        }
        claim.done();
        None
    }
}

/// A message to digest, with the place for it.
#[derive(Drop)]
struct Task<M: Digestible> {
    message: M,
    place: Arc<Place<M>>,
    ghost own: { (arc_value place) ≡ message },
}

impl<M: Digestible> Task<M> {
    /// Digests the message, and leaves it in its place.
    fn complete(self) {
        let Task { message, place } = self;
        place.digest(message);
    }
}

/// A thread that digests a message, and leaves it where it is joined. In a contract it is that
/// message, with the source that fires once it is left.
///
/// It may move to another thread. It cannot be dropped, only joined.
pub struct Worker<M: Digestible> {
    place: Arc<Place<M>>,
    // Closes once the message is left.
    watch: Receiver<()>,
}

impl<M: Digestible> Model for Worker<M> {
    ghost use Rattle.std.specs.Arc.{arc_value};
    ghost use Rattle.futures.specs.Channel.{completed_source};
    ghost use Rattle.digest_strategies.specs.Workers.{Digesting};

    ghost Value = { Digesting M };

    ghost view = { λ it. record {
      message = arc_value it.place;
      source = completed_source it.watch;
    } };
}

impl<M: Digestible> Worker<M> {
    /// Starts a thread that passes the gate and digests the message. If no thread can be started,
    /// both are done at once.
    pub fn start<G, R>(
        rt: &R,
        alloc: Global,
        gate: Arc<G>,
        message: M,
    ) -> Result<Worker<M>, AllocError>
    where
        M: Send + Sync + 'static,
        M::Digest: 'static,
        G: Gate + Send + Sync + Drop + 'static,
        R: Threads,
        ensures { IfOk result (λ worker. worker.message ≡ message) }
    {
        let (finished, watch) = oneshot::channel::<()>(alloc)?;
        let place = Arc::new(alloc, Place::new(&message))?;
        let task = Task {
            message,
            place: Arc::try_clone(&place)?,
        };
        let work = move || {
            gate.pass();
            drop(gate);
            task.complete();
            drop(finished);
        };
        match thread::spawn(rt, work) {
            Ok(thread) => drop(thread),
            Err(refused) => {
                let work = refused.value;
                work();
            }
        }
        Ok(Worker { place, watch })
    }

    /// Returns whether the message was left. If not, the task is woken once it is.
    pub fn poll(&mut self, cx: &mut Context<'_>) -> Poll<()>
        ensures stays { self.new.message ≡ self.old.message }
        ensures heard { OnPending result (Hears cx.new self.new.source) }
        ensures armed { OnPending result (IsArmed cx.new) }
        ensures kept { Keeps cx.old cx.new }
    {
        match self.watch.poll(cx) {
            Poll::Ready(_) => Poll::Ready(()),
            Poll::Pending => Poll::Pending,
        }
    }

    /// Waits until the message is left. Returns it with its own digest.
    pub fn join<R: Wait>(self, rt: &R) -> (M, M::Digest)
        ensures { (result.0 ≡ self.message) × (result.1 ≡ M.digest_of self.message) }
    {
        let Worker { place, watch } = self;
        drop(watch);
        for _ in rt.forever() {
            if let Some(Answer { message, digest }) = place.take() {
                return (message, digest);
            }
            place.left.park(rt);
        }
        unreachable!()
    }
}

/// A message that a worker digests, behind a gate `G`, with a runtime `R`.
///
/// The calls are those of `Worker`. An impl names message and `G`, and makes the calls.
pub trait Work<G, R>: Digestible {
    /// A worker that was started.
    type Worker;

    /// Whether this may be the message of the worker.
    ghost is_of: { Self.Worker → Self → Type 0 };

    /// Holds of each source that wakes who waits for the worker.
    ghost needs: { Self.Worker → ℕ → Type 0 };

    /// Starts to digest the message once the gate is passed.
    fn start(self, rt: &R, alloc: Global, gate: Arc<G>) -> Result<Self::Worker, AllocError>
        ensures { IfOk result (λ worker. is_of worker self) };

    /// Returns whether the message is digested. If not, the task is woken once it is.
    fn poll(worker: &mut Self::Worker, cx: &mut Context<'_>) -> Poll<()>
        ensures stays { (message : Self) → is_of worker.old message → is_of worker.new message }
        ensures heard { OnPending result (HearsAll cx.new (needs worker.new)) }
        ensures armed { OnPending result (IsArmed cx.new) }
        ensures kept { Keeps cx.old cx.new };

    /// Waits for the worker. Returns the message with its own digest.
    fn join(worker: Self::Worker, rt: &R) -> (Self, Self::Digest)
        ensures { (message : Self) → is_of worker message
            → (result.0 ≡ message) × (result.1 ≡ Self.digest_of message) };
}

impl<R: Threads + Wait> Work<Open, R> for TestMessage {
    type Worker = Worker<TestMessage>;

    ghost is_of = { λ worker message. worker.message ≡ message };

    ghost needs = { λ worker source. source ≡ worker.source };

    fn start(
        self,
        rt: &R,
        alloc: Global,
        gate: Arc<Open>,
    ) -> Result<Worker<TestMessage>, AllocError>
        ensures { IfOk result (λ worker. worker.message ≡ self) }
    {
        Worker::start(rt, alloc, gate, self)
    }

    fn poll(worker: &mut Worker<TestMessage>, cx: &mut Context<'_>) -> Poll<()> {
        worker.poll(cx)
    }

    fn join(worker: Worker<TestMessage>, rt: &R) -> (TestMessage, Digest) {
        worker.join(rt)
    }
}
