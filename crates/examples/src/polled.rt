//! An engine that its caller polls, without a thread.
use super::alone::parts_of;
use super::two_nodes::{KEY_1, message};
use anyhow::Error;
use commonware_broadcast::buffered::{
    Config, Engine, Get, Mailbox, MailboxEngine, Sequential, Turn, drive,
};
use commonware_broadcast::{
    Broadcaster, Codec, Digest, Digestible, Key, MailboxError, RangeCfg, Recipients, TestMessage,
};
use futures::task::{Doorbell, Poll, Solo};
use memory_network::{Inbound, Outbound, PeerSets};
use std::alloc::AllocGlobal;
use std::io::Write;
use std::random::RandomSource;
use std::sync::Wait;

/// The most polls of the engine.
const POLLS: usize = 8;

/// The engine of a node.
type Polled<M, R> = MailboxEngine<Key, M, PeerSets<Key, R>, Sequential, R>;

/// The network of the engine.
type Ends<R> = (Outbound<Key, R>, Inbound<Key, R>);

/// What the engine did at each poll at which it did something, and whether a get was answered.
type Seen = (Vec<Turn<Key, Digest>>, bool);

/// Creates an engine, its network and its mailbox. It is generic in the message, since the check
/// refuses a function that makes an engine of a named one.
fn new_engine<M, R>(
    rt: &R,
    codec_config: M::Cfg,
) -> Result<(Polled<M, R>, Ends<R>, Mailbox<Key, M, R>), Error>
where
    M: Digestible + Codec,
    M::Cfg: Drop,
    R: Wait + AllocGlobal + Clone + Drop,
{
    let (own, provider, network) = parts_of(rt)?;
    let config = Config::new(KEY_1, provider).with_codec_config(codec_config);
    let (engine, mailbox) = Engine::new(own, rt.alloc(), config)?;
    Ok((engine, network, mailbox))
}

/// Broadcasts a message at the node of the mailbox, and asks for it.
fn ask<R>(rt: &R, mailbox: &Mailbox<Key, TestMessage, R>) -> Result<Get<TestMessage>, MailboxError>
where
    R: Wait + AllocGlobal + Clone + Send + Drop + 'static,
{
    let message = message(rt.alloc(), b"hello")?;
    let digest = message.digest();
    let _feedback = mailbox.broadcast(Recipients::All, message)?;
    mailbox.get(digest)
}

/// Polls the engine.
fn poll<R: Wait + RandomSource + AllocGlobal + Drop>(
    rt: &R,
    engine: &mut Polled<TestMessage, R>,
    network: &mut Ends<R>,
) -> Result<Vec<Turn<Key, Digest>>, Error> {
    let task = Solo::new(rt, Doorbell::spinning())?;
    let mut cx = task.begin();
    let turns = drive(rt.alloc(), engine, &mut cx, network, POLLS);
    // The task is to be polled again.
    let _: Poll<()> = cx.yield_now();
    cx.park();
    Ok(turns?)
}

/// Broadcasts a message at a node and asks for it, and polls its engine then.
fn run<R>(rt: &R) -> Result<Seen, Error>
where
    R: Wait + RandomSource + AllocGlobal + Clone + Send + Drop + 'static,
{
    let (mut engine, mut network, mailbox) = new_engine(rt, RangeCfg::any())?;
    let asked = ask(rt, &mailbox);
    let polled = poll(rt, &mut engine, &mut network);
    drop::<_>((engine, network, mailbox));
    let answered = matches!(asked?.try_wait(), Poll::Ready(Some(_)));
    Ok((polled?, answered))
}

/// Prints the turns of the engine, and whether the get was answered.
pub fn show<R, W>(rt: &R, out: &mut W) -> Result<(), Error>
where
    R: Wait + RandomSource + AllocGlobal + Clone + Send + Drop + 'static,
    W: Write,
{
    let (turns, answered) = run(rt)?;
    writeln!(out, "polled: {turns:?}, {answered}")?;
    Ok(())
}
