//! A sender that records.
ghost use Rattle.std.specs.Prelude.{◌≡◌, List, [], ◌∷◌, ◌++◌, false};
ghost use Rattle.broadcast_core.specs.declared.event.Sent.{Sent};

use crate::network::Sender;
use broadcast_core::{Items, Recipients, Sent};
use std::alloc::Global;

/// Records what it is handed.
#[derive(Drop)]
pub struct RecordingSender<P> {
    /// What was sent, oldest first.
    pub sent: Vec<Sent<P>>,
    /// Whether there was no memory to record something.
    pub lost: bool,
}

impl<P> RecordingSender<P> {
    /// Creates a sender that was handed nothing. Does not allocate.
    pub fn new(alloc: Global) -> Self
        ensures nothing { result.sent.items ≡ [] }
        ensures keeps_all { result.lost ≡ false }
    {
        RecordingSender {
            sent: Vec::new(alloc),
            lost: false,
        }
    }
}

/// What was sent is what is recorded, unless something was lost.
impl<P: Drop> Sender<P> for RecordingSender<P> {
    ghost told = { λ it sent. it.lost ≡ false → it.sent.items ≡ sent };

    fn send(&mut self, recipients: Recipients<P>, bytes: Vec<u8>, priority: bool)
        ensures { (sent : List (Sent P)) → (self.old.lost ≡ false → self.old.sent.items ≡ sent)
            → self.new.lost ≡ false → self.new.sent.items ≡ sent ++ record {
              recipients = recipients;
              bytes = bytes.items;
              priority = priority;
            } ∷ [] }
    {
        let sent = Sent {
            recipients,
            bytes: Items::from_vec(bytes),
            priority,
        };
        if self.sent.push(sent).is_err() {
            self.lost = true;
        }
    }
}
