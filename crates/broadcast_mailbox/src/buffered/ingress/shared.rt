//! The inbox that the ends of a mailbox share, and the law of its tickets.
ghost use Rattle.std.specs.Prelude.{◌≡◌, [], true, IfOk, ℕ, List};
ghost use Rattle.std.specs.Arc.{arc_value};
ghost use Rattle.broadcast_mailbox.specs.Queue.{waiting};
ghost use Rattle.broadcast_mailbox.specs.Ends.{SharedInbox};
ghost use Rattle.broadcast_mailbox.specs.Account.{TallyState, is_accepted, tallied};
ghost use Rattle.broadcast_mailbox.specs.Watch.{BroadcastsOnly};
ghost use Rattle.broadcast_mailbox.specs.Mailbox.{MailboxState, mailbox_after};
ghost use Rattle.broadcast_mailbox.specs.Tickets.{Call, Runs, IsLawful};

use crate::MailboxError;
use crate::buffered::ingress::account::{Account, Bookkeeping, Tally};
use crate::buffered::ingress::books::Books;
use crate::buffered::ingress::dropped::Dropped;
use crate::buffered::ingress::inbox::{Attended, Inbox};
use crate::buffered::ingress::look::Alertness;
use crate::buffered::ingress::message::{Named, Queueable, Queued, Watch};
use broadcast_core::Closable;
use futures::task::Source;
use std::alloc::{AllocError, Global};
use std::marker::Model;
use std::num::NonZeroUsize;
use std::sync::atomic::{AtomicBool, Ordering};
use std::sync::{Arc, Mutex, Wait};
use std::time::Clock;

/// The inbox that the ends of a mailbox share.
///
/// Each call of an end takes the lock once, and makes one call of the inbox under it. The task that
/// takes the requests is woken after the lock is let go.
#[derive(Drop)]
pub(super) struct Shared<T: Named, A: Bookkeeping> {
    // Fires once a request is queued.
    pub(super) queued: Source,
    // Fires once a stop is requested.
    pub(super) stopped: Source,
    // Set before the inbox is asked to stop, so that who polls need not take the lock to see that
    // nobody asked.
    stop_requested: AtomicBool,
    dropped: Arc<Dropped<T::Digest>>,
    pub(super) alertness: Arc<Alertness>,
    pub(super) state: Mutex<Attended<T, A>>,
}

impl<T: Named, A: Bookkeeping> Model for Shared<T, A> {
    ghost use Rattle.broadcast_mailbox.specs.Ends.{SharedInbox};

    ghost Value = { SharedInbox };

    ghost view = { λ it. record {
      queued = it.queued.id;
      stopped = it.stopped.id;
    } };
}

impl<T: Named, A: Bookkeeping> Shared<T, A> {
    // Puts the inbox behind a lock, beside what is told of its subscriptions.
    fn new(
        inbox: Inbox<T>,
        account: A,
        dropped: Arc<Dropped<T::Digest>>,
        alertness: Arc<Alertness>,
    ) -> Self
        requires nothing_waits { waiting inbox.queue ≡ [] }
        requires nothing_counted { (A.waiting account ≡ 0) × (A.accepted account ≡ 0) }
    {
        Shared {
            queued: Source::new(),
            stopped: Source::new(),
            stop_requested: AtomicBool::new(false),
            dropped,
            alertness,
            state: Mutex::new(Attended::new(inbox, account)),
        }
    }

    /// Returns where a subscription tells that it is dropped.
    pub(super) fn dropped(&self) -> &Arc<Dropped<T::Digest>> {
        &self.dropped
    }

    /// Puts the digests of which a subscription was dropped since the last call in place of those
    /// in `taken`. Returns whether it may have been one of another digest too.
    pub(super) fn take_dropped(&self, taken: &mut Vec<T::Digest>) -> bool {
        self.dropped.take(taken)
    }

    /// Requests a stop.
    pub(super) fn request_stop(&self, rt: &impl Wait) {
        self.stop_requested.store(true, Ordering::SeqCst);
        let woken = self.state.lock(rt).request_stop();
        drop(woken);
        self.alertness.ask();
    }

    /// Lets threads look for some microseconds before they sleep, or not.
    pub(super) fn set_may_look(&self, may_look: bool) {
        self.alertness.set_may_look(may_look);
    }

    /// Returns whether the task is awake. If so, who waits for a reply looks before it sleeps.
    pub(super) fn awake(&self) -> Option<Arc<Alertness>> {
        if self.alertness.is_awake() {
            Arc::try_clone(&self.alertness).ok()
        } else {
            None
        }
    }

    /// Looks, if the task may, whether something came since its last poll for a request. Returns
    /// whether something may have. If not, the task is to sleep.
    pub(super) fn look(&self, clock: &impl Clock) -> bool {
        self.alertness.look(clock)
    }

    /// Returns whether a stop was requested. Takes no lock.
    pub(super) fn stop_requested(&self) -> bool {
        self.stop_requested.load(Ordering::SeqCst)
    }
}

impl<T: Named + Drop, A: Bookkeeping> Shared<T, A> {
    /// Shares a new inbox whose ready list has `mailbox_size` places.
    pub(super) fn create(
        alloc: Global,
        mailbox_size: NonZeroUsize,
        account: A,
    ) -> Result<Arc<Self>, AllocError>
        requires { (A.waiting account ≡ 0) × (A.accepted account ≡ 0) }
    {
        let Ok((dropped, alertness)) = marks(alloc) else {
            drop::<_>(account);
            return Err(AllocError);
        };
        let inbox = Inbox::new(alloc, mailbox_size);
        let Ok(shared) = Arc::new(alloc, Shared::new(inbox, account, dropped, alertness)) else {
            return Err(AllocError);
        };
        Ok(shared)
    }

    /// Copies what an end of the inbox has: the right to wait, and the inbox.
    pub(super) fn ends<R: Clone>(rt: &R, inbox: &Arc<Self>) -> Result<(R, Arc<Self>), AllocError>
        ensures { IfOk result (λ end. arc_value end.1 ≡ arc_value inbox.now) }
    {
        let inbox = Arc::try_clone(inbox)?;
        match rt.clone() {
            Ok(rt) => Ok((rt, inbox)),
            Err(error) => {
                drop::<_>(inbox);
                Err(error)
            }
        }
    }
}

impl<T: Queueable + Drop, A: Bookkeeping> Shared<T, A> {
    /// Queues a message.
    // Inlined as `Queue::push` is.
    #[inline(always)]
    pub(super) fn enqueue(&self, rt: &impl Wait, message: T) -> Result<Queued, MailboxError> {
        let (queued, woken) = self.state.lock(rt).enqueue(message);
        drop(woken);
        self.alertness.ask();
        queued
    }
}

impl<T: Queueable + Drop, A: Account, K: Account, V: Watch<D>, D> Shared<T, Books<A, K, V, D>> {
    /// Queues a message for a tally, which counts it if it is accepted and `counted`.
    pub(super) fn enqueue_as(
        &self,
        rt: &impl Wait,
        message: T,
        counted: bool,
        tally: &mut Tally<A>,
    ) -> Result<Queued, MailboxError>
        requires { BroadcastsOnly V.watched → counted ≡ true → T.stays_open message ≡ true }
        ensures { tally.new ≡ tallied counted (is_accepted result) tally.old }
    {
        let (queued, woken) = self.state.lock(rt).enqueue_as(message, counted, tally);
        drop(woken);
        self.alertness.ask();
        queued
    }
}

/// Creates what is told of dropped subscriptions, and of whether the task is awake.
fn marks<D: Ord + Drop>(alloc: Global) -> Result<(Arc<Dropped<D>>, Arc<Alertness>), AllocError> {
    let alertness = Arc::new(alloc, Alertness::new())?;
    let dropped = Arc::new(alloc, Dropped::new(alloc))?;
    Ok((dropped, alertness))
}

/// Proves that every ticket ends once. Over any list of calls of an inbox that begins empty,
/// however many requests were taken before, the tickets rise as they are drawn and as they are
/// taken, each drawn ticket has exactly one end, and the counts are the numbers of those tickets
/// and of the requests before. The calls are those of `Inbox`, by their contracts.
pub fn ticket_law<T: Closable>()
    ensures { (size before : ℕ) (calls : List (Call T)) (last : MailboxState T)
        → Runs T.may_answer (mailbox_after size before) calls last
        → IsLawful before calls last }
{}
