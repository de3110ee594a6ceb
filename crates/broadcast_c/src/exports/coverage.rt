//! The functions of coverages: which stamps of an author a relay has had.
ghost use Rattle.std.specs.Prelude.{◌≡◌, true, false};
ghost use Rattle.gossip.specs.Missing.{HasAll, IsFirstMissing};
ghost use Rattle.gossip.specs.Spans.{IsCoverage, is_had};
ghost use Rattle.broadcast_c.specs.Coverages.{coverage_of};

use crate::codes::{NO_COVERAGE, NONE, OK};
use gossip::{Coverage, Span};

/// Reports whether a coverage has the stamp: all stamps up to `floor`, and those of the spans.
#[unsafe(no_mangle)]
pub extern "C" fn broadcast_coverage_has(floor: u64, spans: &[Span], stamp: u64) -> u32
    ensures had { result ≡ OK → is_had stamp (coverage_of floor spans.now) ≡ true }
    ensures not_had { result ≡ NONE → is_had stamp (coverage_of floor spans.now) ≡ false }
    ensures invalid { ¬ (result ≡ OK) → ¬ (result ≡ NONE)
        → (result ≡ NO_COVERAGE) × ¬ (IsCoverage 64 (coverage_of floor spans.now)) }
    ensures valid { ¬ (result ≡ NO_COVERAGE) → IsCoverage 64 (coverage_of floor spans.now) }
{
    match Coverage::reported(floor, spans) {
        Some(coverage) => { if coverage.covers(stamp) { OK } else { NONE } }
        None => NO_COVERAGE,
    }
}

/// Sets `stamp` to the least one after `above` and up to `upto` that the other coverage has and the
/// first lacks.
#[unsafe(no_mangle)]
pub extern "C" fn broadcast_coverage_missing(
    floor: u64,
    spans: &[Span],
    other_floor: u64,
    others: &[Span],
    above: u64,
    upto: u64,
    stamp: &mut u64,
) -> u32
    ensures first { result ≡ OK → IsFirstMissing (coverage_of floor spans.now)
        (coverage_of other_floor others.now) above upto stamp.new }
    ensures none { result ≡ NONE → HasAll (coverage_of floor spans.now)
        (coverage_of other_floor others.now) above upto }
    ensures invalid { ¬ (result ≡ OK) → ¬ (result ≡ NONE) → (result ≡ NO_COVERAGE)
        × ¬ (IsCoverage 64 (coverage_of floor spans.now)
        × IsCoverage 64 (coverage_of other_floor others.now)) }
    ensures valid { ¬ (result ≡ NO_COVERAGE) → IsCoverage 64 (coverage_of floor spans.now)
        × IsCoverage 64 (coverage_of other_floor others.now) }
    ensures reports_nothing { ¬ (result ≡ OK) → stamp.new ≡ stamp.old }
{
    let Some(had) = Coverage::reported(floor, spans) else {
        return NO_COVERAGE;
    };
    let Some(other) = Coverage::reported(other_floor, others) else {
        return NO_COVERAGE;
    };
    match had.first_missing(&other, above, upto) {
        Some(first) => {
            *stamp = first;
            OK
        }
        None => NONE,
    }
}
