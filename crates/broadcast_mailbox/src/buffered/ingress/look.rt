//! What threads look at before they sleep.
ghost use Rattle.std.specs.Prelude.{◌≡◌, ◌*◌, ◌-◌, true, false, min, max};

use std::hint::spin_loop;
use std::sync::atomic::{AtomicBool, AtomicU32, AtomicU64, AtomicUsize, Ordering};
use std::thread::yield_now;
use std::time::Clock;

/// How often a thread glances at a mark before it sleeps. That takes 10 microseconds or more, as
/// long as another thread takes to wake.
const GLANCES: u32 = 100;

/// How often it looks in a glance, which takes as long as a caller needs to see a reply.
const LOOKS: u32 = 20;

/// How often the taker of the requests sleeps at once after it looked in vain.
const RESTS: u32 = 16;

/// A yield that takes longer gave the processor to other work, in microseconds.
const DEAR: u64 = 100;

/// For how long threads do not yield after a first such one, in microseconds.
const LEAST_BAN: u64 = 1_000;

/// For how long they do not at most, in microseconds.
const MOST_BAN: u64 = 256_000;

/// A mark that one thread sets, and at which another looks before it sleeps.
#[derive(Drop)]
pub(super) struct Mark {
    is_set: AtomicBool,
}

impl Mark {
    /// Creates a mark that is not set.
    pub(super) fn new() -> Self {
        Mark {
            is_set: AtomicBool::new(false),
        }
    }

    /// Sets the mark. One that is set is only read, which is cheaper.
    pub(super) fn set(&self) {
        if !self.is_set.load(Ordering::SeqCst) {
            self.is_set.store(true, Ordering::Release);
        }
    }

    /// Clears the mark. One that is not set is only read.
    fn clear(&self) {
        if self.is_set.load(Ordering::Acquire) {
            self.is_set.store(false, Ordering::Release);
        }
    }

    /// Looks a few times whether the mark is set, and clears it. Returns whether it was.
    fn glance(&self) -> bool {
        for _ in 0..LOOKS {
            if self.is_set.load(Ordering::Acquire) {
                self.clear();
                return true;
            }
            spin_loop();
        }
        false
    }
}

/// Whether the threads of one side may yield between their glances. Times are microseconds of the
/// taker's clock.
#[derive(Drop)]
struct Yields {
    // They may not before that time.
    banned_until: AtomicU64,
    // For how long they may not after the next dear yield.
    ban: AtomicU64,
}

impl Yields {
    /// Creates those of threads that may yield at once.
    fn new() -> Self {
        Yields {
            banned_until: AtomicU64::new(0),
            ban: AtomicU64::new(LEAST_BAN),
        }
    }

    /// Returns whether the threads may yield at that time.
    fn may_yield(&self, now: u64) -> bool {
        self.banned_until.load(Ordering::Relaxed) <= now
    }

    /// Notes a yield, which was over at the time `now`. A dear one bans the next ones.
    fn note(&self, is_dear: bool, now: u64) {
        let ban = self.ban.load(Ordering::Relaxed);
        if is_dear {
            self.banned_until
                .store(now.saturating_add(ban), Ordering::Relaxed);
        }
        let next = next_ban(ban, is_dear);
        if next != ban {
            self.ban.store(next, Ordering::Relaxed);
        }
    }
}

/// Returns for how long the next dear yield bans others, by how long this one did or would have:
/// for twice as long after a dear one, and else for a microsecond less.
fn next_ban(ban: u64, is_dear: bool) -> u64
    ensures dear { is_dear ≡ true → result ≡ min (ban * 2) 256000 }
    ensures other { is_dear ≡ false → result ≡ max (ban - 1) 1000 }
{
    if is_dear {
        ban.saturating_mul(2).min(MOST_BAN)
    } else {
        ban.saturating_sub(1).max(LEAST_BAN)
    }
}

/// What stands on cache lines of its own, so that who writes it does not slow down who reads what
/// stands beside it.
#[derive(Drop)]
struct Apart<T> {
    _before: [u64; 8],
    value: T,
    _after: [u64; 8],
}

impl<T> Apart<T> {
    /// Puts the value on cache lines of its own.
    fn new(value: T) -> Self {
        Apart {
            _before: [0; 8],
            value,
            _after: [0; 8],
        }
    }
}

/// What the callers of a mailbox and the taker of its requests tell each other so that they need
/// not sleep.
///
/// Between glances threads yield to those that look for a reply, since several of them may be on
/// one processor. Beside other work a yield gives a whole time slice away, so nobody yields for a
/// while after one that took long.
#[derive(Drop)]
pub(super) struct Alertness {
    // Whether threads may look before they sleep.
    may_look: Apart<AtomicBool>,
    // Whether the taker polls or looks, so that a reply may come soon.
    is_awake: Apart<AtomicBool>,
    // How often the taker is still to sleep at once.
    rests: AtomicU32,
    yields_of_callers: Yields,
    yields_of_taker: Yields,
    // How many callers look.
    looking: Apart<AtomicUsize>,
    // Set once there may be something to do for the taker.
    asked: Apart<Mark>,
    // The time of the taker's last glance.
    now: Apart<AtomicU64>,
}

impl Alertness {
    /// Creates that of a mailbox whose threads sleep at once.
    pub(super) fn new() -> Self {
        Alertness {
            may_look: Apart::new(AtomicBool::new(false)),
            is_awake: Apart::new(AtomicBool::new(false)),
            rests: AtomicU32::new(0),
            yields_of_callers: Yields::new(),
            yields_of_taker: Yields::new(),
            looking: Apart::new(AtomicUsize::new(0)),
            asked: Apart::new(Mark::new()),
            now: Apart::new(AtomicU64::new(0)),
        }
    }

    /// Lets threads look before they sleep, or not.
    pub(super) fn set_may_look(&self, may_look: bool) {
        self.may_look.value.store(may_look, Ordering::Release);
    }

    /// Returns whether the taker is awake. If so, who waits for a reply looks before it sleeps.
    pub(super) fn is_awake(&self) -> bool {
        self.is_awake.value.load(Ordering::Acquire)
    }

    /// Tells the taker that there may be something to do.
    pub(super) fn ask(&self) {
        self.asked.value.set();
    }

    /// Begins a poll of the taker for a request.
    pub(super) fn begin(&self) {
        if self.may_look.value.load(Ordering::Acquire) {
            if !self.is_awake() {
                self.is_awake.value.store(true, Ordering::Release);
            }
            self.asked.value.clear();
        }
    }

    /// Looks for some microseconds whether the mark of a caller is set, and clears it. Returns
    /// whether it was.
    pub(super) fn look_for_reply(&self, mark: &Mark) -> bool {
        self.looking.value.fetch_add(1, Ordering::Relaxed);
        let is_seen = self.glance_for_reply(mark);
        self.looking.value.fetch_sub(1, Ordering::Relaxed);
        is_seen
    }

    fn glance_for_reply(&self, mark: &Mark) -> bool {
        for _ in 0..GLANCES {
            if mark.glance() {
                return true;
            }
            if self.looking.value.load(Ordering::Relaxed) > 1 {
                self.yield_to_callers();
            }
        }
        false
    }

    /// Lets other callers look. Without a clock of its own a caller takes that of the taker, which
    /// stands still once the taker sleeps.
    fn yield_to_callers(&self) {
        let before = self.now.value.load(Ordering::Relaxed);
        if self.yields_of_callers.may_yield(before) {
            yield_now();
            let now = self.now.value.load(Ordering::Relaxed);
            let is_dear = now.saturating_sub(before) > DEAR || !self.is_awake();
            self.yields_of_callers.note(is_dear, now);
        }
    }

    /// Looks, if the taker may, whether something came since its last poll for a request began.
    /// Returns whether something may have. If not, the taker is to sleep.
    pub(super) fn look(&self, clock: &impl Clock) -> bool {
        if !self.is_awake() {
            return false;
        }
        if self.is_rested() {
            if self.look_for_request(clock) {
                return true;
            }
            self.rests.store(RESTS, Ordering::Release);
        }
        self.is_awake.value.store(false, Ordering::Release);
        false
    }

    /// Looks for some microseconds whether something came. Returns whether something may have.
    fn look_for_request(&self, clock: &impl Clock) -> bool {
        for _ in 0..GLANCES {
            if self.asked.value.glance() {
                return true;
            }
            let before = self.read(clock);
            // They were answered, and may need this processor.
            if self.looking.value.load(Ordering::Relaxed) > 0
                && self.yields_of_taker.may_yield(before)
            {
                yield_now();
                let now = self.read(clock);
                self.yields_of_taker
                    .note(now.saturating_sub(before) > DEAR, now);
            }
        }
        false
    }

    /// Reads the clock, if it can be read, and tells the callers. Returns the time.
    fn read(&self, clock: &impl Clock) -> u64 {
        if let Ok(time) = clock.monotonic() {
            let micros = u64::try_from(time.as_micros()).unwrap_or(u64::MAX);
            self.now.value.store(micros, Ordering::Relaxed);
        }
        self.now.value.load(Ordering::Relaxed)
    }

    /// Returns whether the taker looks this time. It does not some times after it looked in vain.
    fn is_rested(&self) -> bool {
        let rests = self.rests.load(Ordering::Acquire);
        if rests > 0 {
            self.rests.store(rests - 1, Ordering::Release);
        }
        rests == 0
    }
}
