//! A place that stands in an item itself.
ghost use Rattle.std.specs.Prelude.{◌≡◌, ◌+◌, ◌^◌, ◌<◌, true, None, Some, MatchBool, ⊤, is_some, if◌then◌else◌};
ghost use Rattle.entries.specs.Overlaid.{same_number};
ghost use Rattle.entries.specs.Placed.{first_place};

use std::marker::Model;

/// The word of a place that is none.
const NOWHERE: u32 = u32::MAX;

/// The number of a list and a place on it, or none, in 32 bits each.
#[derive(Drop)]
pub struct Near {
    list: u32,
    place: u32,
}

impl Model for Near {
    ghost use Rattle.std.specs.Prelude.{ℕ, Option};
    ghost use Rattle.entries.specs.Placed.{near_of};

    ghost Value = { Option (ℕ × ℕ) };

    ghost view = { λ it. near_of it.list it.place };
}

impl Near {
    /// Creates none.
    pub fn none() -> Self
        ensures { result ≡ None }
    {
        Near {
            list: 0,
            place: NOWHERE,
        }
    }

    /// Creates the place on a list.
    pub fn to(list: usize, place: usize) -> Self
        requires list { list < 2 ^ 32 }
        requires place { place + 1 < 2 ^ 32 }
        ensures { result ≡ Some (list, place) }
    {
        Near {
            list: list as u32,
            place: place as u32,
        }
    }

    /// Returns whether the number of the list and the place have 32 bits each.
    pub fn reaches(list: usize, place: usize) -> bool
        ensures { MatchBool result ((list < 2 ^ 32) × (place + 1 < 2 ^ 32)) ⊤ }
    {
        list <= u32::MAX as usize && place < NOWHERE as usize
    }

    /// Returns whether there is none.
    pub fn is_none(&self) -> bool
        ensures { MatchBool result (self.now ≡ None) (is_some self.now ≡ true) }
    {
        self.place == NOWHERE
    }

    /// Returns the place if it is one of the list.
    pub fn of(&self, list: usize) -> Option<usize>
        ensures { result ≡ first_place (same_number list) self.now }
    {
        if self.place != NOWHERE && list.cmp(&(self.list as usize)).is_eq() {
            Some(self.place as usize)
        } else {
            None
        }
    }

    /// Drops the place if it is one of the list.
    pub fn drop_of(&mut self, list: usize)
        ensures { self.new ≡ (if is_some (first_place (same_number list) self.old)
            then None else self.old) }
    {
        if self.of(list).is_some() {
            *self = Near::none();
        }
    }
}
