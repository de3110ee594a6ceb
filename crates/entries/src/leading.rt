//! The word that chooses where a key stands.
ghost use Rattle.std.specs.Prelude.{◌≡◌, ℕ};
ghost use Rattle.std.specs.declared.cmp.Ordering.TheVariants.{Equal};
ghost use Rattle.entries.specs.Leads.{equal_numbers};

/// A value with a leading word, as the first of its bytes. Equal values share it, and values that
/// differ mostly differ in it. A word that is always 0 is lawful.
pub trait Leading: Ord {
    /// The leading word.
    ghost leading_of: { Self → ℕ };

    /// Returns the leading word.
    fn leading(&self) -> u64
        ensures { result ≡ leading_of self.now };

    /// Values that compare equal have the same word.
    ghost shared: { (x y : Self) → Self.cmp x y ≡ Equal → leading_of x ≡ leading_of y };
}

impl Leading for u8 {
    ghost leading_of = { λ x. x };

    ghost shared = { equal_numbers };

    #[inline(always)]
    fn leading(&self) -> u64 {
        u64::from(*self)
    }
}

impl Leading for u64 {
    ghost leading_of = { λ x. x };

    ghost shared = { equal_numbers };

    #[inline(always)]
    fn leading(&self) -> u64 {
        *self
    }
}
