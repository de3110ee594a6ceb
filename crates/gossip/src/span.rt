//! A span of an author's stamps.
ghost use Rattle.std.specs.Prelude.{◌≡◌};
ghost use Rattle.gossip.specs.Spans.{is_in, nothing};

/// The stamps after `from` and up to `to`.
#[repr(C)]
#[derive(Clone, Copy, Debug, PartialEq, Eq)]
pub struct Span {
    pub from: u64,
    pub to: u64,
}

impl Span {
    /// Returns whether the stamp is one of the span's.
    pub fn has(self, stamp: u64) -> bool
        ensures { result ≡ is_in stamp self }
    {
        self.from < stamp && stamp <= self.to
    }
}

impl Default for Span {
    /// Returns the span of no stamps.
    fn default() -> Self
        ensures { result ≡ nothing }
    {
        Span { from: 0, to: 0 }
    }
}
