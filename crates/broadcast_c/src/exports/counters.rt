//! The functions of counters.
ghost use Rattle.std.specs.Prelude.{◌≡◌};
ghost use Rattle.broadcast_c.specs.Counting.{counted_as, summed};

use crate::codes::{DUPLICATE, INELIGIBLE, INSERTED, INVALID, OVERSIZE};
use crate::counters::Counters;
use broadcast_core::Outcome;

/// Counts a payload: `what` is the number of an outcome, or `INVALID`. Another number counts
/// nothing.
#[unsafe(no_mangle)]
pub extern "C" fn broadcast_counters_count(counters: &mut Counters, what: u32)
    ensures { counters.new ≡ counted_as what counters.old }
{
    match what {
        INSERTED => counters.count(Outcome::Inserted),
        DUPLICATE => counters.count(Outcome::Duplicate),
        INELIGIBLE => counters.count(Outcome::Ineligible),
        OVERSIZE => counters.count(Outcome::Oversize),
        INVALID => counters.count_invalid(),
        _ => {}
    }
}

/// Adds the numbers of `more`.
#[unsafe(no_mangle)]
pub extern "C" fn broadcast_counters_add(counters: &mut Counters, more: &Counters)
    ensures { counters.new ≡ summed more.now counters.old }
{
    counters.add(more);
}
