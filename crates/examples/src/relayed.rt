//! Messages that a relay hands to a mailbox, whose requests nobody takes.
use super::two_nodes::message;
use anyhow::Error;
use broadcast_mailbox::buffered::{Mailbox, channel};
use broadcast_world::relay::{Relayed, relay_to};
use commonware_broadcast::{Digested, TestMessage};
use std::alloc::{AllocError, AllocGlobal, Global};
use std::io::Write;
use std::num::NonZeroUsize;
use std::sync::Wait;

/// Creates two messages.
fn messages(alloc: Global) -> Result<Vec<Digested<TestMessage>>, AllocError> {
    Ok(vec![in alloc; message(alloc, b"a")?, message(alloc, b"b")?]?)
}

/// Lets a relay hand the messages to a mailbox. Returns what it was told, if there is memory for
/// that, and how many broadcasts wait.
fn run<R>(rt: &R) -> Result<(Result<Relayed, AllocError>, u64), Error>
where
    R: Wait + AllocGlobal + Clone + Send + Drop + 'static,
{
    let (mailbox, ingress) = channel(rt.clone()?, rt.alloc(), NonZeroUsize::MIN)?;
    let relayed = relay(rt.alloc(), &mailbox);
    let waiting = ingress.counts().waiting;
    drop::<_>((mailbox, ingress));
    Ok((relayed, waiting))
}

/// Hands the messages to a mailbox.
fn relay<R>(alloc: Global, mailbox: &Mailbox<u64, TestMessage, R>) -> Result<Relayed, AllocError>
where
    R: Wait + Clone + Send + Drop + 'static,
{
    relay_to(alloc, mailbox, messages(alloc)?)
}

/// Prints the feedback for each message, and how many broadcasts wait. If there is no memory for
/// feedbacks, none does.
pub fn show<R, W>(rt: &R, out: &mut W) -> Result<(), Error>
where
    R: Wait + AllocGlobal + Clone + Send + Drop + 'static,
    W: Write,
{
    let (relayed, waiting) = run(rt)?;
    let feedbacks = match relayed {
        Ok(relayed) => Some(relayed.feedbacks),
        Err(_) => None,
    };
    writeln!(out, "relayed: {feedbacks:?}, {waiting} wait")?;
    Ok(())
}
