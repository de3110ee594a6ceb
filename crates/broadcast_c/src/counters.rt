//! Counters of the payloads of a peer.
ghost use Rattle.std.specs.Prelude.{◌≡◌};
ghost use Rattle.broadcast_c.specs.Counting.{counted, raised, summed};

use broadcast_core::Outcome;

/// The numbers of payloads by what happened to them. Each saturates at `u64::MAX`.
#[repr(C)]
#[derive(Clone, Copy, Debug, PartialEq, Eq)]
pub struct Counters {
    /// Inserted at the front of the list.
    pub inserted: u64,
    /// Moved to the front of the list.
    pub duplicate: u64,
    /// From a key that was not primary.
    pub ineligible: u64,
    /// Charged more than the byte budget.
    pub oversize: u64,
    /// Not decoded.
    pub invalid: u64,
}

impl Counters {
    /// Counts a message with this outcome.
    pub fn count(&mut self, outcome: Outcome)
        ensures { self.new ≡ counted outcome self.old }
    {
        match outcome {
            Outcome::Inserted => self.inserted = sum(self.inserted, 1),
            Outcome::Duplicate => self.duplicate = sum(self.duplicate, 1),
            Outcome::Ineligible => self.ineligible = sum(self.ineligible, 1),
            Outcome::Oversize => self.oversize = sum(self.oversize, 1),
        }
    }

    /// Counts a payload that does not decode.
    pub fn count_invalid(&mut self)
        ensures { self.new ≡ record self.old { invalid = raised self.old.invalid 1 } }
    {
        self.invalid = sum(self.invalid, 1);
    }

    /// Adds the numbers of `more`.
    pub fn add(&mut self, more: &Counters)
        ensures { self.new ≡ summed more.now self.old }
    {
        *self = Counters {
            inserted: sum(self.inserted, more.inserted),
            duplicate: sum(self.duplicate, more.duplicate),
            ineligible: sum(self.ineligible, more.ineligible),
            oversize: sum(self.oversize, more.oversize),
            invalid: sum(self.invalid, more.invalid),
        };
    }
}

// Returns the sum, saturating at `u64::MAX`.
fn sum(number: u64, more: u64) -> u64
    ensures { result ≡ raised number more }
{
    number.saturating_add(more)
}
