//! How a caller waits for its reply.
ghost use Rattle.std.specs.Prelude.{◌≡◌, ◌<◌, ◌-◌, ◌↔◌, IsSome, IfSome};
ghost use Rattle.std.specs.Duration.{as_nanos};

use crate::buffered::ingress::look::{Alertness, Mark};
use std::sync::{Arc, Wait};
use std::thread::Parker;
use std::time::{Clock, Duration, Instant};

/// The bell of one call, which ends the wait of its caller once the reply is there. One thread
/// waits for it.
#[derive(Drop)]
pub(super) struct Bell {
    rung: Mark,
    parker: Parker,
    // Of the taker of the request if it was awake, so that the thread looks before it sleeps.
    taker: Option<Arc<Alertness>>,
}

impl Bell {
    /// Creates a bell that was not rung. The thread looks before it sleeps if `taker`.
    pub(super) fn new(taker: Option<Arc<Alertness>>) -> Self {
        Bell {
            rung: Mark::new(),
            parker: Parker::new(),
            taker,
        }
    }

    /// Ends the wait of the thread, or the next one.
    pub(super) fn ring(&self) {
        if self.taker.is_some() {
            self.rung.set();
        }
        self.parker.unpark();
    }

    /// Waits until the bell is rung. May return before.
    pub(super) fn wait(&self, rt: &impl Wait) {
        if !self.is_seen() {
            self.parker.park(rt);
        }
    }

    /// Waits until the bell is rung, and sleeps for no longer than `time`. May return before.
    pub(super) fn wait_timeout(&self, rt: &impl Wait, time: Duration) {
        if !self.is_seen() {
            self.parker.park_timeout(rt, time);
        }
    }

    /// Looks for some microseconds whether the bell is rung, if the thread looks at all.
    fn is_seen(&self) -> bool {
        match &self.taker {
            Some(taker) => taker.look_for_reply(&self.rung),
            None => false,
        }
    }
}

/// The time for which a caller waits at most.
#[derive(Clone, Copy)]
pub(super) struct Limit {
    // `None` if the clock could not be read.
    start: Option<Instant>,
    time: Duration,
}

impl Limit {
    /// Creates the limit of a wait for `time` from now on.
    pub(super) fn new(clock: &impl Clock, time: Duration) -> Self
        ensures { result.time ≡ time }
    {
        Limit {
            start: Instant::now(clock).ok(),
            time,
        }
    }

    /// Returns the time that is left, or `None` if there is none or the clock can't be read.
    pub(super) fn left(&self, clock: &impl Clock) -> Option<Duration> {
        let passed = self.start?.elapsed(clock).ok()?;
        self.left_after(passed)
    }

    /// Returns the time that is left once `passed` is over, or `None` if there is none.
    fn left_after(&self, passed: Duration) -> Option<Duration>
        ensures some { IsSome result ↔ (as_nanos passed < as_nanos self.now.time) }
        ensures rest { IfSome result (λ left.
            as_nanos left ≡ as_nanos self.now.time - as_nanos passed) }
    {
        let left = self.time.checked_sub(passed)?;
        if left.is_zero() { None } else { Some(left) }
    }
}
