//! Why a world can't be made.
ghost use Rattle.std.specs.Prelude.{◌≡◌};
ghost use Rattle.broadcast_world.specs.declared.error.WorldError.{WorldError};

use std::alloc::AllocError;
use thiserror::Error;

/// Why a world can't be made.
#[derive(Clone, Copy, Debug, PartialEq, Eq, Error)]
pub enum WorldError {
    /// Two nodes have one key, or a node and a hostile peer have.
    #[error("two participants have one key")]
    SharedKey,
    /// An allocation failed.
    #[error("out of memory")]
    Memory,
}

impl From<AllocError> for WorldError {
    ghost from_gives = { λ _ e. e ≡ WorldError.Memory };

    fn from(_error: AllocError) -> WorldError {
        WorldError::Memory
    }
}
