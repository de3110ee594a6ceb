//! A mailbox: callers ask on one end, and whoever takes the requests replies on the other.
use super::two_nodes::message;
use anyhow::Error;
use broadcast_mailbox::buffered::{
    Get, Incoming, Ingress, Mailbox, Message, Reply, Responder, Subscription, channel,
};
use broadcast_mailbox::{Broadcaster, Digested, Feedback, Recipients, TestMessage};
use futures::executor::block_on;
use std::alloc::{AllocError, AllocGlobal};
use std::io::Write;
use std::num::NonZeroUsize;
use std::random::RandomSource;
use std::sync::Wait;

/// What a broadcaster was told, and the futures of a get and a subscription.
type Asked = (Feedback, Get<TestMessage>, Subscription<TestMessage>);

/// Broadcasts a message, and asks for it by a get and by a subscription.
fn ask<R: Wait + Clone + Send + Drop + 'static>(
    mailbox: &Mailbox<u64, TestMessage, R>,
    message: &Digested<TestMessage>,
) -> Result<Asked, Error> {
    let told = mailbox.broadcast(Recipients::All, message.clone()?)?;
    let get = mailbox.get(message.digest())?;
    let subscription = mailbox.subscribe(message.digest())?;
    Ok((told, get, subscription))
}

/// Takes `count` requests, and replies to them as a node that has the message.
fn serve<R: Wait>(
    ingress: &Ingress<Incoming<u64, TestMessage>, R>,
    message: &Digested<TestMessage>,
    count: u64,
) -> Result<(), AllocError> {
    for _ in 0..count {
        if let Some((_ticket, request)) = ingress.take() {
            reply(request, message.clone()?);
        }
    }
    Ok(())
}

/// Replies to a request with the message.
fn reply(request: Incoming<u64, TestMessage>, message: Digested<TestMessage>) {
    match request {
        Message::Broadcast { .. } => {}
        Message::Subscribe { responder, .. } => {
            let _delivered = responder.send(Reply::new(message));
        }
        Message::Get { responder, .. } => {
            let _delivered = responder.send(Some(Reply::new(message)));
        }
    }
}

/// Asks at one end of a mailbox, and replies at the other. Returns what the broadcaster was told,
/// and whether the get and the subscription received a message.
fn run<R>(rt: &R) -> Result<(Feedback, bool, bool), Error>
where
    R: Wait + RandomSource + AllocGlobal + Clone + Send + Drop + 'static,
{
    let message = message(rt.alloc(), b"hello")?;
    let (mailbox, ingress) = channel(rt.clone()?, rt.alloc(), NonZeroUsize::MIN)?;
    let asked = ask(&mailbox, &message);
    let served = serve(&ingress, &message, 3);
    drop::<_>((mailbox, ingress, message));
    let (told, get, subscription) = asked?;
    served?;
    let got = block_on(rt, get)?.is_some();
    let arrived = block_on(rt, subscription)?.is_ok();
    Ok((told, got, arrived))
}

/// Prints what the broadcaster was told, and whether the get and the subscription received a
/// message.
pub fn show<R, W>(rt: &R, out: &mut W) -> Result<(), Error>
where
    R: Wait + RandomSource + AllocGlobal + Clone + Send + Drop + 'static,
    W: Write,
{
    let received = run(rt)?;
    writeln!(out, "mailbox: {received:?}")?;
    Ok(())
}
