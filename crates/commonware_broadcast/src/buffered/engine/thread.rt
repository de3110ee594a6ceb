//! What starts the thread of an engine.
use broadcast_mailbox::buffered::{Bookkeeping, Named, Stopper};
use engine_io::may_look;
use std::sync::Wait;
use std::thread;
use std::thread::{JoinHandle, Threads};
use thiserror::Error;

/// Why an engine was not started. It is given up then, and its mailbox is closed.
#[derive(Clone, Copy, Debug, PartialEq, Eq, Error)]
pub enum StartError {
    /// An allocation failed.
    #[error("out of memory")]
    Memory,
    /// No thread could be started.
    #[error("no thread could be started")]
    Spawn,
}

/// Starts a thread that does `work`, the run of an engine whose mailbox has this stopper. If no
/// thread can be started, the engine is stopped and ends at once, on the calling thread.
pub(crate) fn spawn<Out, F, Incoming, R, A>(
    rt: &R,
    work: F,
    stopper: &Stopper<Incoming, R, A>,
) -> Result<JoinHandle<Out>, StartError>
where
    Out: Send + Drop + 'static,
    F: FnOnce() -> Out + Send + 'static,
    Incoming: Named,
    R: Threads + Wait,
    A: Bookkeeping,
    requires { F.pre work }
{
    stopper.set_may_look(may_look(rt));
    match thread::spawn(rt, work) {
        Ok(thread) => Ok(thread),
        Err(refused) => {
            // A stop is looked at first, so this run ends the engine at once.
            stopper.request_stop();
            let work = refused.value;
            drop(work());
            Err(StartError::Spawn)
        }
    }
}
