//! A link to a place.
ghost use Rattle.std.specs.Prelude.{◌≡◌, ◌+◌, ◌^◌, ◌<◌, ℕ, None, Some, MatchBool, ⊤};
ghost use Rattle.entries.specs.Places.{mark, is_mark};

use std::marker::Model;

/// The word of a link that leads nowhere.
const NOWHERE: u32 = u32::MAX;

/// The word of the link that marks a free place.
const MARK: u32 = u32::MAX - 1;

/// The place that a link leads to, or none, in 32 bits.
#[derive(Clone, Copy)]
pub struct Link {
    at: u32,
}

impl Model for Link {
    ghost use Rattle.std.specs.Prelude.{Option, ℕ};
    ghost use Rattle.entries.specs.Link.{link_of, word_of};

    ghost Value = { Option ℕ };

    ghost view = { λ it. link_of it.at };

    ghost inverse = { λ at. record { at = word_of at } };
}

impl Link {
    /// Creates a link that leads nowhere.
    pub fn none() -> Self
        ensures { result ≡ None }
    {
        Link { at: NOWHERE }
    }

    /// Creates a link to a place.
    pub fn to(place: usize) -> Self
        requires { place + 1 < 2 ^ 32 }
        ensures { result ≡ Some place }
    {
        Link { at: place as u32 }
    }

    /// Creates the link that marks a free place.
    pub fn mark() -> Self
        ensures { result ≡ Some mark }
    {
        Link { at: MARK }
    }

    /// Returns whether the link marks a free place.
    pub fn is_mark(self) -> bool
        ensures { result ≡ is_mark self }
    {
        self.at == MARK
    }

    /// Returns whether a list can have the place.
    pub fn reaches(place: usize) -> bool
        ensures { MatchBool result (place + 2 < 2 ^ 32) ⊤ }
    {
        place < MARK as usize
    }

    /// Returns the place that the link leads to.
    pub fn get(self) -> Option<usize>
        ensures { result ≡ self }
    {
        if self.at == NOWHERE {
            None
        } else {
            Some(self.at as usize)
        }
    }
}
