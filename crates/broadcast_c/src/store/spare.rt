//! The block of the message that was taken last.
ghost use Rattle.std.specs.Prelude.{◌≡◌, IfOk};
ghost use Rattle.std.specs.Arc.{arc_value};

use super::held::Held;
use std::alloc::{AllocError, Global};
use std::marker::Model;
use std::sync::Arc;

/// The message that was taken last, which the cache may share. If the cache does not, the next
/// message is written over it, which spares an allocation. Contracts see no value in it.
#[derive(Drop)]
pub struct Spare {
    last: Option<Arc<Held>>,
}

impl Model for Spare {
    ghost Value = { Unit {0} };

    ghost view = { λ _. tt };
}

impl Spare {
    /// Creates one without a message. Does not allocate.
    pub fn new() -> Self {
        Spare { last: None }
    }

    /// Returns the message in the block of the last one, if nothing else shares that. Otherwise
    /// allocates a block.
    pub fn share(&mut self, alloc: Global, held: Held) -> Result<Arc<Held>, AllocError>
        ensures { IfOk result (λ shared. arc_value shared ≡ held) }
    {
        if let Some(mut last) = self.last.take() {
            if let Some(place) = Arc::get_mut(&mut last) {
                *place = held;
                return Ok(last);
            }
        }
        Ok(Arc::new(alloc, held)?)
    }

    /// Keeps the message, whose block the next one may have.
    pub fn put(&mut self, message: Arc<Held>) {
        self.last = Some(message);
    }
}
