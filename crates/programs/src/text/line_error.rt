//! Why a line is refused.
use std::alloc::AllocError;

/// Why a line is refused.
#[derive(Clone, Copy, Debug, PartialEq, Eq)]
pub enum LineError {
    /// The words are not those of any line.
    Syntax,
    /// An allocation failed.
    Memory,
}

impl From<AllocError> for LineError {
    fn from(_error: AllocError) -> LineError {
        LineError::Memory
    }
}
