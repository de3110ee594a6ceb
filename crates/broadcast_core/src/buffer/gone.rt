//! Tickets of waiters that are gone.
ghost use Rattle.std.specs.Prelude.{◌≡◌, ◌==◌, ◌<◌, ◌%◌, ℕ, true, false, length, get_or};
ghost use Rattle.std.specs.List.{list_any};

use std::marker::Model;

/// The most tickets that are searched from end to end although they are sorted.
const FEW: usize = 64;

/// The tickets of waiters that are gone, in any order. Many are searched faster if they are sorted.
#[derive(Drop)]
pub struct Gone<'a> {
    tickets: &'a [u64],
    is_sorted: bool,
    low_bits: [bool; 1024],
}

impl<'a> Model for Gone<'a> {
    ghost use Rattle.std.specs.Prelude.{◌≡◌, ◌<◌, ◌%◌, ℕ, List, true, false, length, get_or};
    ghost use Rattle.std.specs.List.Sorted.{IsNonDecreasing};

    ghost Value = { List ℕ };

    ghost view = { λ it. it.tickets.now };

    ghost invariant = { λ it. (it.is_sorted ≡ true → IsNonDecreasing it.tickets.now)
        × ((k : ℕ) → k < length it.tickets.now
        → get_or it.low_bits (get_or it.tickets.now k 0 % 1024) false ≡ true) };
}

impl<'a> Gone<'a> {
    /// Creates the set of the tickets.
    pub fn new(tickets: &'a [u64]) -> Self
        ensures { result ≡ tickets.now }
    {
        Gone {
            tickets,
            is_sorted: tickets.is_sorted(),
            low_bits: low_bits(tickets),
        }
    }

    /// Returns whether the ticket is one of them. Most others differ from all in the low ten bits.
    pub fn has(&self, ticket: u64) -> bool
        ensures { result ≡ list_any (λ t. ticket == t) self.now }
    {
        if !self.low_bits[(ticket % 1024) as usize] {
            return false;
        }
        if self.is_sorted && self.tickets.len() > FEW {
            self.tickets.binary_search(&ticket).is_ok()
        } else {
            self.tickets.contains(&ticket)
        }
    }
}

/// Returns for each number of ten bits whether a ticket has them as its lowest.
fn low_bits(tickets: &[u64]) -> [bool; 1024]
    ensures { (k : ℕ) → k < length tickets.now
        → get_or result (get_or tickets.now k 0 % 1024) false ≡ true }
{
    let mut seen = [false; 1024];
    for ticket in tickets {
        seen[(*ticket % 1024) as usize] = true;
    }
    seen
}
