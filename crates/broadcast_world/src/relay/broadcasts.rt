//! Messages that are broadcast one after the other.
ghost use Rattle.std.specs.Prelude.{◌≡◌, List, Ok, IfOk};
ghost use Rattle.broadcast_core.specs.declared.ordered.Recipients.TheVariants as to;
ghost use Rattle.broadcast_world.specs.Answered.{AreAnswered};

use broadcast_core::Recipients;
use broadcast_mailbox::{Broadcaster, Feedback, MailboxError};
use std::alloc::{AllocError, Global};

/// The answers of a broadcaster.
#[derive(Debug, PartialEq, Eq, Drop)]
pub struct Relayed {
    /// The feedback for each message that was handed over, in order. After a `Closed` no message
    /// was handed over.
    pub feedbacks: Vec<Feedback>,
    /// Why the message after these was refused, which ends a relay too.
    pub refused: Option<MailboxError>,
}

/// Broadcasts each of the messages once to all, in order, until the broadcaster is closed or
/// refuses one.
///
/// Fails if the places for the feedbacks can't be allocated, before anything is broadcast.
pub fn relay_to<P: Drop + 'static, B: Broadcaster<Recipients = Recipients<P>>>(
    alloc: Global,
    broadcaster: &B,
    messages: Vec<B::Message>,
) -> Result<Relayed, AllocError>
    ensures { IfOk result (λ relayed. AreAnswered
        (λ message answer. B.may_answer broadcaster.now to.All message answer)
        messages.items relayed.feedbacks.items relayed.refused) }
{
    let mut feedbacks = Vec::with_capacity(alloc, messages.len())?;
    let mut refused = None;
    for message in messages {
        match broadcaster.broadcast(Recipients::All, message) {
            Ok(feedback) => {
                feedbacks.push_reserved(feedback);
                if !feedback.accepted() {
                    break;
                }
            }
            Err(error) => {
                refused = Some(error);
                break;
            }
        }
    }
    Ok(Relayed { feedbacks, refused })
}
