//! A started engine.
ghost use Rattle.std.specs.Prelude.{◌≡◌, IfOk};
ghost use Rattle.std.specs.Arc.{arc_value};
ghost use Rattle.broadcast_mailbox.specs.Ends.{IngressEnd, MailboxEnd};

use crate::buffered::engine::{Report, Running, StartError, spawn};
use crate::buffered::front::MailboxEngine;
use crate::buffered::runtime::{Movable, Runtime};
use broadcast_core::{Codec, Digestible, PublicKey};
use broadcast_mailbox::buffered::{Bookkeeping, Incoming, Ingress, Stopper};
use digest_strategies::Strategy;
use engine_io::{Metrics, MetricsError, Provider, Receiver, Sender, Snapshots};
use std::alloc::{AllocError, AllocGlobal};
use std::marker::Model;
use std::random::RandomSource;
use std::sync::{Arc, Wait};
use std::thread::{JoinHandle, Threads};

/// An engine that runs in a thread of its own. If it is dropped, the engine is asked to stop, and
/// its end is not waited for.
///
/// Contracts see it as an end of the engine's mailbox.
pub struct Handle<P: PublicKey, M: Digestible, R: Wait, A: Bookkeeping = ()> {
    control: Arc<Control<P, M, R, A>>,
    thread: JoinHandle<MailboxReport<P, M, R, A>>,
}

impl<P: PublicKey, M: Digestible, R: Wait, A: Bookkeeping> Model for Handle<P, M, R, A> {
    ghost use Rattle.std.specs.Arc.{arc_value};
    ghost use Rattle.broadcast_mailbox.specs.Ends.{MailboxEnd};

    ghost Value = { MailboxEnd };

    ghost view = { λ it. arc_value it.control };
}

/// The report of a started engine that has a mailbox.
pub type MailboxReport<P, M, R, A = ()> = Report<P, Ingress<Incoming<P, M>, R, A>>;

/// The channel to a started engine: it requests a stop, and asks for the counters.
#[derive(Drop)]
struct Control<P: PublicKey, M: Digestible, R, A: Bookkeeping> {
    stopper: Stopper<Incoming<P, M>, R, A>,
    snapshots: Arc<Snapshots<P>>,
}

impl<P: PublicKey, M: Digestible, R, A: Bookkeeping> Model for Control<P, M, R, A> {
    ghost use Rattle.broadcast_mailbox.specs.Ends.{MailboxEnd};

    ghost Value = { MailboxEnd };

    ghost view = { λ it. it.stopper };
}

impl<P: PublicKey, M: Digestible, R: AllocGlobal + Clone + Drop, A: Bookkeeping> Control<
    P,
    M,
    R,
    A,
> {
    /// Creates what reaches the engine that takes these requests, and where its counters are asked
    /// for. Returns a runtime for its thread, too.
    fn new(
        rt: &R,
        requests: &Ingress<Incoming<P, M>, R, A>,
    ) -> Result<(R, Arc<Self>, Arc<Snapshots<P>>), AllocError>
        ensures { IfOk result (λ made. (arc_value made.1).inbox ≡ requests.now.inbox) }
    {
        let own = rt.clone()?;
        let snapshots = Arc::new(rt.alloc(), Snapshots::new(rt.alloc()))?;
        let control = Control {
            snapshots: Arc::try_clone(&snapshots)?,
            stopper: requests.stopper()?,
        };
        Ok((own, Arc::new(rt.alloc(), control)?, snapshots))
    }
}

impl<P: PublicKey, M: Digestible, R: Threads + Wait + Drop, A: Bookkeeping> Handle<P, M, R, A> {
    /// Asks the engine to stop. Does not wait for its end.
    pub fn stop(&self) {
        self.control.stopper.request_stop();
    }

    /// Returns a copy of the counters that the engine has now. Waits for its thread, but not for
    /// any input. The engine may be polled once after it.
    pub fn metrics(&self, rt: &R) -> Result<Metrics<P>, MetricsError>
    where
        R: RandomSource + AllocGlobal,
    {
        self.control.snapshots.ask(rt)
    }

    /// Waits for the end of the engine. Returns what it leaves.
    pub fn join(self, rt: &R) -> MailboxReport<P, M, R, A> {
        let Handle { control, thread } = self;
        let report = thread.join(rt);
        drop::<_>(control);
        report
    }
}

impl<P: PublicKey, M: Digestible, R: Wait + Drop, A: Bookkeeping> Drop for Handle<P, M, R, A> {
    fn drop(self) {
        let Handle { control, thread } = self;
        control.stopper.request_stop();
        drop::<_>(control);
        drop::<_>(thread);
    }
}

impl<P, M, B, R, T, A> MailboxEngine<P, M, B, T, R, A>
where
    P: PublicKey + Send + 'static,
    M: Digestible + Codec + Send + Sync + 'static,
    M::Digest: 'static,
    M::Cfg: Send + Drop + 'static,
    B: Provider<P> + Movable,
    R: Runtime,
    T: Strategy<M> + Movable,
    A: Bookkeeping + Send + 'static,
    A::Taker: Send + 'static,
{
    /// Starts the engine in a thread of its own, where it runs until it ends.
    ///
    /// After an error the engine is given up, and its mailbox is closed.
    pub fn start<N, V>(self, rt: &R, network: (N, V)) -> Result<Handle<P, M, R, A>, StartError>
    where
        T::Job: Send + 'static,
        N: Sender<P> + Movable,
        V: Receiver<P> + Movable,
        ensures { IfOk result (λ handle. handle.inbox ≡ self.requests.inbox) }
    {
        let Ok((own, control, snapshots)) = Control::new(rt, self.requests()) else {
            self.requests().close();
            drop::<_>((self, network));
            return Err(StartError::Memory);
        };
        let running = Running {
            engine: self,
            network,
        };
        let work = move || {
            let report = running.run(&own, &snapshots);
            drop::<_>((snapshots, own));
            report
        };
        match spawn(rt, work, &control.stopper) {
            Ok(thread) => Ok(Handle { control, thread }),
            Err(error) => {
                drop::<_>(control);
                Err(error)
            }
        }
    }
}
