//! The first step of a poll.
ghost use Rattle.std.specs.Prelude.{◌≡◌, ℕ, Bool, true, false, List};
ghost use Rattle.futures.specs.Task.{Keeps};
ghost use Rattle.broadcast_mailbox.specs.declared.buffered.ingress.message.Request.{Request};
ghost use Rattle.commonware_broadcast.specs.First.{Empties, hears_stop};
ghost use Rattle.engine_io.specs.Heard.{HearsAll};

use broadcast_mailbox::buffered::Awaits;
use engine_io::Requests;
use futures::task::Context;

/// The first step of a poll.
#[derive(Drop)]
pub(super) enum First<P: Drop, J: Drop> {
    /// It ends, since a stop was asked for.
    Stop,
    /// It polls the job of a message of this peer, and takes nothing from any source.
    Job(P, J),
    /// It looks at its sources. Holds whether it has registered for a stop.
    Sources(bool),
}

/// Returns what a poll does first: a stop, or else the pending job, which leaves its slot, or else
/// the sources.
pub(super) fn comes_first<P: Drop, J: Drop, T: Awaits, Q: Requests<T>>(
    requests: &mut Q,
    slot: &mut Option<(P, J)>,
    cx: &mut Context<'_>,
) -> First<P, J>
    ensures stop_first { Q.stops requests.old → result ≡ First.Stop }
    ensures only_if_asked { result ≡ First.Stop → Q.may_stop requests.old }
    ensures job_alone { Empties result slot.old slot.new }
    ensures tells { (given : List (Request T)) → Q.told requests.old given
        → Q.told requests.new given }
    ensures outcomes { (before : List Bool) → Q.outcomes requests.old before
        → Q.outcomes requests.new before }
    ensures quiet { Q.quiet requests.new → Q.quiet requests.old }
    ensures heard_stop { hears_stop result ≡ true → HearsAll cx.new (Q.needs_stop requests.new) }
    ensures unasked { result ≡ First.Sources false → requests.new ≡ requests.old }
    ensures kept { Keeps cx.old cx.new }
{
    // Who has a job may be pending at once. Others register for a stop once there is nothing to do.
    let is_asked = slot.is_some() || requests.may_be_stopped();
    if is_to_stop(requests, is_asked, cx) {
        return First::Stop;
    }
    // A job is large, and mostly there is none: its place is not copied then.
    if slot.is_none() {
        return First::Sources(is_asked);
    }
    match slot.take() {
        Some((peer, job)) => First::Job(peer, job),
        None => First::Sources(is_asked),
    }
}

/// Returns whether the engine is to stop, and else lets a stop wake its task. Does nothing unless
/// `is_asked`.
// Inlined as `Engine::poll_job` is.
#[inline(always)]
pub(super) fn is_to_stop<T: Awaits, Q: Requests<T>>(
    requests: &mut Q,
    is_asked: bool,
    cx: &mut Context<'_>,
) -> bool
    ensures stops { is_asked ≡ true → Q.stops requests.old → result ≡ true }
    ensures only_if_asked { result ≡ true → (is_asked ≡ true) × Q.may_stop requests.old }
    ensures heard { is_asked ≡ true → result ≡ false → HearsAll cx.new (Q.needs_stop requests.new) }
    ensures unasked { is_asked ≡ false → requests.new ≡ requests.old }
    ensures tells { (given : List (Request T)) → Q.told requests.old given
        → Q.told requests.new given }
    ensures outcomes { (before : List Bool) → Q.outcomes requests.old before
        → Q.outcomes requests.new before }
    ensures quiet { Q.quiet requests.new → Q.quiet requests.old }
    ensures same_needs { result ≡ false
        → (source : ℕ) → Q.needs requests.new source → Q.needs requests.old source }
    ensures kept { Keeps cx.old cx.new }
{
    is_asked && requests.stopped(cx)
}
