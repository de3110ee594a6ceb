//! Two nodes in threads, over a network in memory: the file to begin with.
use anyhow::Error;
use commonware_broadcast::buffered::{self, Config, EndCause, Handle, Mailbox, Runtime};
use commonware_broadcast::{Broadcaster, Digested, Key, RangeCfg, Recipients, TestMessage};
use memory_network::Network;
use std::alloc::{AllocError, AllocGlobal, Global};
use std::io::Write;

/// The key of node 1.
pub const KEY_1: Key = Key { bytes: [1; 32] };

const KEY_2: Key = Key { bytes: [2; 32] };

/// Creates a message.
pub fn message(alloc: Global, content: &[u8]) -> Result<Digested<TestMessage>, AllocError> {
    let content = Vec::from_slice(alloc, content)?;
    Digested::compute(alloc, TestMessage::shared(alloc, content)?)
}

/// The mailbox by which callers ask a node.
type Asked<R> = Mailbox<Key, TestMessage, R>;

/// A started node.
type Node<R> = (Handle<Key, TestMessage, R>, Asked<R>);

/// Starts a node of the network.
fn start<R: Runtime>(rt: &R, network: &Network<Key>, public_key: Key) -> Result<Node<R>, Error> {
    let ends = network.join(rt, &public_key)?;
    let config = Config::new(public_key, ends.provider).with_codec_config(RangeCfg::any());
    Ok(buffered::start(rt, config, (ends.sender, ends.receiver))?)
}

/// Lets node 1 broadcast a message for which node 2 waits. Returns what node 2 receives.
fn pass_on<R>(rt: &R, one: &Asked<R>, two: &Asked<R>) -> Result<Digested<TestMessage>, Error>
where
    R: Runtime,
{
    let message = message(rt.alloc(), b"hello")?;
    let awaited = two.subscribe(message.digest())?;
    let _feedback = one.broadcast(Recipients::All, message)?;
    Ok(awaited.wait(rt)?)
}

/// Stops a node. Returns why it ended.
fn stop<R: Runtime>(rt: &R, (handle, mailbox): Node<R>) -> EndCause {
    drop::<_>(mailbox);
    handle.stop();
    handle.join(rt).cause()
}

/// Runs both nodes. Returns what node 2 received, and why it ended.
fn run<R: Runtime>(rt: &R) -> Result<(Digested<TestMessage>, EndCause), Error> {
    let network = Network::between(rt, &[KEY_1, KEY_2])?;
    let one = start(rt, &network, KEY_1)?;
    let two = start(rt, &network, KEY_2)?;
    let received = pass_on(rt, &one.1, &two.1);
    let _cause = stop(rt, one);
    let cause = stop(rt, two);
    Ok((received?, cause))
}

/// Prints what node 2 received, and why it ended.
pub fn show<R: Runtime, W: Write>(rt: &R, out: &mut W) -> Result<(), Error> {
    let (received, cause) = run(rt)?;
    writeln!(out, "two nodes: {:?}, {cause:?}", received.inner().content)?;
    Ok(())
}
