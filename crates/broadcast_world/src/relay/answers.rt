//! The relay of the answers to events.
ghost use Rattle.std.specs.Prelude.{◌≡◌, List, [], ◌∷◌, ◌++◌, IfOk, OnOk};
ghost use Rattle.std.specs.Option.{option_to_list};
ghost use Rattle.std.specs.Ordering.{eq_by_cmp};
ghost use Rattle.broadcast_core.specs.declared.event.Answer.{Answer as Told};
ghost use Rattle.broadcast_world.specs.Relayed.{told, relayed};

use crate::relay::firsts::Firsts;
use broadcast_core::{Answer, Digested, Digestible};
use std::alloc::{AllocError, Global};

/// Returns the messages with which subscribes were answered, in order, each digest at its first
/// place only: of each `Answered`, and of each `Taken` that served a waiter.
pub fn relay_answers<M: Digestible>(
    alloc: Global,
    answers: Vec<Answer<M>>,
) -> Result<Vec<Digested<M>>, AllocError>
    ensures { IfOk result (λ messages.
        messages.items ≡ relayed (eq_by_cmp M.Digest.cmp) answers.items) }
{
    let mut firsts = Firsts::new(alloc);
    for answer in answers {
        add_told(&mut firsts, answer)?;
    }
    Ok(firsts.into_vec())
}

/// Appends the message with which the answer replies to subscribes, unless one with its digest is
/// there already.
fn add_told<M: Digestible>(firsts: &mut Firsts<M>, answer: Answer<M>) -> Result<(), AllocError>
    ensures { (earlier : List (Told M M.Digest))
        → firsts.old ≡ relayed (eq_by_cmp M.Digest.cmp) earlier
        → OnOk result (firsts.new ≡ relayed (eq_by_cmp M.Digest.cmp) (earlier ++ answer ∷ [])) }
{
    match told(answer) {
        Some(message) => firsts.add(message),
        None => Ok(()),
    }
}

/// Returns the message with which the answer replies to subscribes, if it does.
fn told<M: Digestible>(answer: Answer<M>) -> Option<Digested<M>>
    ensures { option_to_list result ≡ told answer }
{
    match answer {
        Answer::Answered(message) => Some(message),
        Answer::Taken {
            served,
            message,
            ..
        } => {
            if served.is_empty() {
                None
            } else {
                Some(message)
            }
        }
        _ => None,
    }
}
