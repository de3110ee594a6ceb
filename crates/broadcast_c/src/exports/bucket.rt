//! The functions of buckets: what a rate allows.
ghost use Rattle.std.specs.Prelude.{◌≡◌, ◌+◌, ◌*◌, ◌-◌, ◌/◌, ◌^◌, ◌<◌, ◌≤◌, ℕ};
ghost use Rattle.gossip.specs.Tokens.{lacking_at, level_at, owed_at, after_charging, capped};

use crate::codes::{NONE, OK};
use gossip::Bucket;

/// Returns the whole tokens that the bucket has at this time: 0 while it is overdrawn.
#[unsafe(no_mangle)]
pub extern "C" fn broadcast_bucket_level(bucket: &Bucket, now: u64) -> u64
    ensures { result ≡ level_at bucket.now now / 1000000000 }
{
    bucket.level(now)
}

/// Charges `cost` tokens at this time, also if the bucket does not have them.
#[unsafe(no_mangle)]
pub extern "C" fn broadcast_bucket_charge(bucket: &mut Bucket, now: u64, cost: u64)
    ensures charged { bucket.new ≡ capped (after_charging bucket.old now cost) }
    ensures taken { level_at bucket.new now ≡ level_at bucket.old now - cost * 1000000000 }
    ensures owed { lacking_at bucket.old now + cost * 1000000000 < 2 ^ 128
        → owed_at bucket.new now
        ≡ owed_at bucket.old now + (cost * 1000000000 - level_at bucket.old now) }
{
    bucket.charge(now, cost);
}

/// Sets `at` to the first time from `now` on at which the bucket has `cost` tokens, if none are
/// charged meanwhile. Returns `NONE` if there is no such time, or it has no number.
#[unsafe(no_mangle)]
pub extern "C" fn broadcast_bucket_ready(bucket: &Bucket, now: u64, cost: u64, at: &mut u64) -> u32
    ensures has { result ≡ OK → (now ≤ at.new)
        × (cost * 1000000000 ≤ level_at bucket.now at.new) }
    ensures first { result ≡ OK → (t : ℕ) → now ≤ t → t < at.new
        → level_at bucket.now t < cost * 1000000000 }
    ensures never { ¬ (result ≡ OK) → (result ≡ NONE) × ((t : ℕ) → now ≤ t → t < 2 ^ 64
        → level_at bucket.now t < cost * 1000000000) }
    ensures reports_nothing { ¬ (result ≡ OK) → at.new ≡ at.old }
{
    match bucket.ready(now, cost) {
        Some(ready) => {
            *at = ready;
            OK
        }
        None => NONE,
    }
}
