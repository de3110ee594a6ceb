//! What a relay has had of an author.
ghost use Rattle.std.specs.Prelude.{◌≡◌, ◌≤◌, ◌<◌, ℕ, true, ◌↔◌, IsTrue, IsSome, IfSome, IfNone, ◌∷◌, drop};
ghost use Rattle.gossip.specs.Spans.{floor_of, top_of, is_had, Follow, IsApart, IsCoverage};
ghost use Rattle.gossip.specs.Missing.{HasAll, IsFirstMissing, IsRunEnd};

use crate::span::Span;
use arrayvec::ArrayVec;
use std::marker::Model;

/// The most spans of a coverage.
pub const MOST: usize = 64;

/// The stamps of an author that a relay has had: at most 64 spans with gaps between them, of which
/// the first begins at 0. Contracts see it as the list of its spans.
#[derive(Drop)]
pub struct Coverage {
    spans: ArrayVec<Span, 64>,
}

impl Model for Coverage {
    ghost use Rattle.std.specs.Prelude.{List};
    ghost use Rattle.gossip.specs.declared.span.Span.{Span};
    ghost use Rattle.gossip.specs.Spans.{IsCoverage};

    ghost Value = { List Span };

    ghost view = { λ it. it.spans.items };

    ghost invariant = { λ it. IsCoverage 64 it.spans.items };
}

/// Returns whether the spans begin after `end`, and have gaps between them and stamps in them.
fn follow(end: u64, spans: &[Span]) -> bool
    ensures { IsTrue result ↔ Follow end spans.now }
{
    let mut end = end;
    for span in spans {
        if span.from <= end || span.to <= span.from {
            return false;
        }
        end = span.to;
    }
    true
}

/// Returns the end of the stamps that were had one after another from `at` on.
fn run_end(spans: &[Span], at: u64) -> u64
    requires { IsApart spans.now }
    ensures { IsRunEnd spans.now at result }
{
    for span in spans {
        if at < span.from {
            return at;
        }
        if at < span.to {
            return span.to;
        }
    }
    at
}

/// Returns the least stamp after `above` and up to `upto` that they have and that was not had.
fn first_missing(had: &[Span], theirs: &[Span], above: u64, upto: u64) -> Option<u64>
    requires had_apart { IsApart had.now }
    requires theirs_apart { IsApart theirs.now }
    ensures first { IfSome result (IsFirstMissing had.now theirs.now above upto) }
    ensures none { IfNone result (HasAll had.now theirs.now above upto) }
{
    for span in theirs {
        let end = run_end(had, span.from.max(above));
        if end < span.to && end < upto {
            return Some(end + 1);
        }
    }
    None
}

impl Coverage {
    /// Creates the coverage of these spans.
    pub(crate) fn of(spans: ArrayVec<Span, 64>) -> Self
        requires { IsCoverage 64 spans.items }
        ensures { result ≡ spans.items }
    {
        Coverage { spans }
    }

    /// Creates the coverage that a peer reported: all stamps up to the floor, and the spans after
    /// it. Returns `None` if there are too many spans, one has no stamp, or they are not in order
    /// with gaps between them.
    pub fn reported(floor: u64, spans: &[Span]) -> Option<Self>
        ensures reported { IsSome result
            ↔ IsCoverage 64 (record { from = 0; to = floor } ∷ spans.now) }
        ensures spans { IfSome result (λ it. it ≡ record { from = 0; to = floor } ∷ spans.now) }
    {
        if spans.len() >= MOST || !follow(floor, spans) {
            return None;
        }
        let mut all = ArrayVec::new();
        all.push(Span { from: 0, to: floor });
        match all.try_extend_from_slice(spans) {
            Ok(()) => Some(Coverage { spans: all }),
            Err(_) => None,
        }
    }

    /// Returns the floor: all stamps up to it were had.
    pub fn floor(&self) -> u64
        ensures { result ≡ floor_of self.now }
    {
        match self.spans.as_slice() {
            [first, ..] => first.to,
            [] => 0,
        }
    }

    /// Returns the top: the greatest stamp that was had, or 0 if none was.
    pub fn top(&self) -> u64
        ensures top { result ≡ top_of self.now }
        ensures greatest { (s : ℕ) → is_had s self.now ≡ true → s ≤ result }
        ensures had { 0 < result → is_had result self.now ≡ true }
    {
        match self.spans.as_slice().last() {
            Some(last) => last.to,
            None => 0,
        }
    }

    /// Returns the spans.
    pub fn spans(&self) -> &[Span]
        ensures value { result.now ≡ self.now }
        ensures apart { IsApart result.now }
    {
        self.spans.as_slice()
    }

    /// Returns the spans above the floor. A relay reports them to its peers, with the floor.
    pub fn above_floor(&self) -> &[Span]
        ensures { result.now ≡ drop 1 self.now }
    {
        match self.spans.as_slice() {
            [_, rest @ ..] => rest,
            [] => &[],
        }
    }

    /// Returns whether the stamp was had.
    pub fn covers(&self, stamp: u64) -> bool
        ensures { result ≡ is_had stamp self.now }
    {
        self.spans.as_slice().iter().any(|span| span.has(stamp))
    }

    /// Returns the least stamp after `above` and up to `upto` that the other coverage has and this
    /// one lacks.
    pub fn first_missing(&self, other: &Coverage, above: u64, upto: u64) -> Option<u64>
        ensures first { IfSome result (IsFirstMissing self.now other.now above upto) }
        ensures none { IfNone result (HasAll self.now other.now above upto) }
    {
        first_missing(self.spans.as_slice(), other.spans.as_slice(), above, upto)
    }
}
