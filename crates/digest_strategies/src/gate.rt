//! The gate that a worker passes before it digests.

/// A gate that each worker of a strategy passes before it digests.
pub trait Gate {
    /// Passes the gate. It may wait until others pass.
    fn pass(&self);
}

/// A gate that is passed at once.
#[derive(Clone, Copy, Debug, PartialEq, Eq)]
pub struct Open;

impl Gate for Open {
    fn pass(&self) {}
}
