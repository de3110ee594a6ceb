//! A bucket of tokens, in whole numbers.
ghost use Rattle.std.specs.Prelude.{◌≡◌, ◌+◌, ◌*◌, ◌-◌, ◌/◌, ◌^◌, ◌<◌, ◌≤◌, IfSome, IfNone, ℕ, min};
ghost use Rattle.gossip.specs.Tokens.{lacking_at, level_at, owed_at, after_charging, capped};
ghost use Rattle.gossip.specs.Tokens.{charged, after_calls, cost_of, AreRested, IsBounded};

use std::marker::Model;

/// The number of parts of a token: that of the nanoseconds of a second.
pub const PARTS: u128 = 1_000_000_000;

/// The number of values of a word.
const WORD: u128 = 1 << 64;

/// Holds at most `burst` tokens, and gains `rate` tokens a second. It may be overdrawn: what it
/// gains then pays the debt first. It is counted in billionths of a token, so each nanosecond
/// brings `rate` of them, and nothing is lost by rounding. All values of the fields are buckets.
#[repr(C)]
#[derive(Debug, Drop)]
pub struct Bucket {
    rate: u64,
    burst: u64,
    at: u64,
    low: u64,
    high: u64,
}

impl Model for Bucket {
    ghost use Rattle.std.specs.Prelude.{◌+◌, ◌*◌, ◌^◌, ◌/◌, ◌%◌, ◌<◌};
    ghost use Rattle.std.proofs.lemmas.Nat.{div-mul-add, mod-mul-add};
    ghost use Rattle.gossip.specs.Tokens.{Tokens};

    ghost Value = { Tokens };

    ghost view = { λ it. record {
      rate = it.rate;
      burst = it.burst;
      at = it.at;
      lacking = it.high * 2 ^ 64 + it.low;
    } };

    ghost invariant = { λ it. it.low < 2 ^ 64 };

    ghost inverse = { λ b. record {
      rate = b.rate;
      burst = b.burst;
      at = b.at;
      low = b.lacking % 2 ^ 64;
      high = b.lacking / 2 ^ 64;
    } };

    ghost inverse_ok = { λ it fits i. record {
      rate = it.rate;
      burst = it.burst;
      at = it.at;
      low = mod-mul-add it.high (2 ^ 64) it.low fits i;
      high = div-mul-add it.high (2 ^ 64) it.low fits i;
    } };
}

impl Bucket {
    /// Creates a full bucket at this time, in nanoseconds.
    pub fn new(rate: u64, burst: u64, now: u64) -> Self
        ensures { result ≡ record { rate = rate; burst = burst; at = now; lacking = 0 } }
    {
        Bucket {
            rate,
            burst,
            at: now,
            low: 0,
            high: 0,
        }
    }

    // Returns the billionths of a token that the bucket lacks at this time to be full.
    fn lacking(&self, now: u64) -> u128
        ensures { result ≡ lacking_at self.now now }
    {
        let gained = u128::from(self.rate) * u128::from(now.saturating_sub(self.at));
        (u128::from(self.high) * WORD + u128::from(self.low)).saturating_sub(gained)
    }

    /// Returns the whole tokens that the bucket has at this time: 0 while it is overdrawn.
    pub fn level(&self, now: u64) -> u64
        ensures level { result ≡ level_at self.now now / 1000000000 }
        ensures debt_first { (t : ℕ) → self.now.at ≤ now → now ≤ t → level_at self.now t
            ≡ min (self.now.burst * 1000000000) (level_at self.now now
            + (self.now.rate * (t - now) - owed_at self.now now)) }
    {
        let full = u128::from(self.burst) * PARTS;
        (full.saturating_sub(self.lacking(now)) / PARTS) as u64
    }

    /// Returns the first time from `now` on at which the bucket has `cost` tokens, if none are
    /// charged meanwhile. Returns `None` if there is no such time, or it has no number.
    pub fn ready(&self, now: u64, cost: u64) -> Option<u64>
        ensures has { IfSome result (λ at. (now ≤ at)
            × (cost * 1000000000 ≤ level_at self.now at)) }
        ensures first { IfSome result (λ at. (t : ℕ) → now ≤ t → t < at
            → level_at self.now t < cost * 1000000000) }
        ensures never { IfNone result ((t : ℕ) → now ≤ t → t < 2 ^ 64
            → level_at self.now t < cost * 1000000000) }
    {
        if self.level(now) >= cost {
            return Some(now);
        }
        if self.burst < cost || self.rate == 0 {
            return None;
        }
        let at = u128::from(self.at).saturating_add(self.wait(now, cost));
        match u64::try_from(at) {
            Ok(at) => Some(at),
            Err(_) => None,
        }
    }

    // Returns how long after `at` the bucket has `cost` tokens, which it does not have now.
    fn wait(&self, now: u64, cost: u64) -> u128
        requires holds { cost ≤ self.now.burst }
        requires gains { 0 < self.now.rate }
        requires lacks { level_at self.now now < cost * 1000000000 }
        ensures later { now ≤ self.now.at + result }
        ensures has { cost * 1000000000 ≤ level_at self.now (self.now.at + result) }
        ensures first { (t : ℕ) → t < self.now.at + result
            → level_at self.now t < cost * 1000000000 }
    {
        let spare = u128::from(self.burst - cost) * PARTS;
        (self.lacking(self.at) - spare).div_ceil(u128::from(self.rate))
    }

    /// Charges `cost` tokens at this time, also if the bucket does not have them.
    pub fn charge(&mut self, now: u64, cost: u64)
        ensures charged { self.new ≡ capped (after_charging self.old now cost) }
        ensures exact { 0 < level_at self.old now → self.new ≡ after_charging self.old now cost }
        ensures taken { level_at self.new now ≡ level_at self.old now - cost * 1000000000 }
        ensures owed { lacking_at self.old now + cost * 1000000000 < 2 ^ 128
            → owed_at self.new now
            ≡ owed_at self.old now + (cost * 1000000000 - level_at self.old now) }
    {
        let lacking = self.lacking(now).saturating_add(u128::from(cost) * PARTS);
        self.high = (lacking / WORD) as u64;
        self.low = (lacking % WORD) as u64;
        self.at = self.at.max(now);
    }
}

/// A call: its time, the tokens that must be there, and those that it is charged then.
#[derive(Clone, Copy, Debug, PartialEq, Eq)]
pub struct Call {
    pub now: u64,
    pub needed: u64,
    pub cost: u64,
}

/// Charges each call whose tokens are there, one after another, and returns what was charged. It
/// shows what the decisions of `level` and `charge` amount to over a history. A caller that rests
/// until a token is ready before it charges again is charged at each call (`rested`), and so no
/// more than `bounded` says.
pub fn charge_all(bucket: &mut Bucket, calls: &[Call]) -> u128
    ensures charged { result ≡ charged bucket.old calls.now }
    ensures left { bucket.new ≡ after_calls bucket.old calls.now }
    ensures bounded { IsBounded bucket.old calls.now }
    ensures rested { AreRested bucket.old calls.now
        → charged bucket.old calls.now ≡ cost_of calls.now }
{
    let mut total: u128 = 0;
    for call in calls {
        if bucket.level(call.now) >= call.needed.max(1) {
            bucket.charge(call.now, call.cost);
            total += u128::from(call.cost);
        }
    }
    total
}
