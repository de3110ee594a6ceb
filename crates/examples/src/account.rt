//! A node whose account says what became of each broadcast, though the node is stopped at once.
ghost use Rattle.std.specs.Prelude.{◌≡◌};
ghost use Rattle.std.specs.NonZero.{non_zero_u32_get};

use super::alone::parts_of;
use super::two_nodes::{KEY_1, message};
use anyhow::Error;
use commonware_broadcast::buffered::{
    Account, Books, Broadcasts, Config, EndCause, Engine, Handle, Runtime, Sequential, Settled,
    Tally, WatchedMailbox, WatchedNode,
};
use commonware_broadcast::{Codec, Digested, Digestible, Key, MailboxError, RangeCfg, Recipients};
use memory_network::PeerSets;
use std::alloc::{AllocError, AllocGlobal};
use std::io::Write;
use std::marker::Brand;
use std::num::NonZeroU32;
use std::sync::Wait;
use std::sync::ledger::Blank;

/// How often the message is broadcast.
const BROADCASTS: u64 = 10;

/// A started node whose mailbox counts broadcasts, and the tally by which they are counted.
type Counted<M, R, A, K> = (
    Handle<Key, M, R, Books<A, K, Broadcasts, <M as Digestible>::Digest>>,
    WatchedMailbox<Key, M, R, A, K, Broadcasts>,
    Tally<A>,
);

/// Why the engine ended, and how many broadcasts were accepted, and settled.
type Left = (EndCause, u64, u64);

/// Lets the node broadcast, stops it, and settles its account.
fn settle<M: Digestible, R: Runtime, A: Account, K: Account>(
    rt: &R,
    node: Counted<M, R, A, K>,
    message: &Digested<M>,
) -> Result<Left, Error>
    requires accounts { (A.all ≡ A.parts) × (K.all ≡ K.parts) }
{
    let (handle, mailbox, mut tally) = node;
    let told = broadcast(&mailbox, &mut tally, message);
    drop::<_>(mailbox);
    handle.stop();
    let report = handle.join(rt);
    let (cause, accepted) = (report.cause(), tally.accepted());
    let settled = match report.settle(tally) {
        Ok(settled) => sum(settled),
        Err(lacking) => {
            drop::<_>(lacking);
            0
        }
    };
    told?;
    Ok((cause, accepted, settled))
}

/// Broadcasts the message often, which the tally counts.
fn broadcast<M: Digestible, R: Wait, A: Account, K: Account>(
    mailbox: &WatchedMailbox<Key, M, R, A, K, Broadcasts>,
    tally: &mut Tally<A>,
    message: &Digested<M>,
) -> Result<(), MailboxError> {
    for _ in 0..BROADCASTS {
        let _feedback = mailbox.broadcast_as(tally, Recipients::All, message.clone()?)?;
    }
    Ok(())
}

/// Returns how many requests were settled.
fn sum(settled: Settled) -> u64 {
    settled
        .applied
        .saturating_add(settled.refused)
        .saturating_add(settled.skipped)
        .saturating_add(settled.given_up)
}

/// Starts a node whose account has these ledgers, and lets it broadcast.
fn run_with<M, R, A, K>(
    rt: &R,
    codec_config: M::Cfg,
    message: &Digested<M>,
    parts: NonZeroU32,
    accepted: Blank,
    taken: Blank,
) -> Result<Left, Error>
where
    M: Digestible + Codec + Send + Sync + 'static,
    M::Digest: Send + 'static,
    M::Cfg: Send + Drop + 'static,
    R: Runtime,
    A: Account + Send + Sync + 'static,
    K: Account + Send + Sync + 'static,
    requires accepted { (accepted.name ≡ A.name) × (accepted.parts ≡ A.parts) }
    requires parts { (A.all ≡ A.parts) × (A.parts ≡ non_zero_u32_get parts) }
    requires taken { (taken.name ≡ K.name) × (taken.parts ≡ K.parts) }
    requires one { (K.all ≡ K.parts) × (K.parts ≡ 1) }
{
    let (own, provider, network) = parts_of(rt)?;
    let config = Config::new(KEY_1, provider).with_codec_config(codec_config);
    let made: Result<
        WatchedNode<Key, M, PeerSets<Key, R>, Sequential, R, A, K, Broadcasts>,
        AllocError,
    > = Engine::new_watched(own, rt.alloc(), config, parts, accepted, taken);
    let (engine, mailbox, tally) = made?;
    let handle = engine.start(rt, network)?;
    settle(rt, (handle, mailbox, tally), message)
}

/// Runs a node with an account of one part. It picks the ledgers of the account, and is generic in
/// the message, since the check refuses a function that makes an engine of a named one.
fn run<M, R>(rt: &R, codec_config: M::Cfg, message: &Digested<M>) -> Result<Left, Error>
where
    M: Digestible + Codec + Send + Sync + 'static,
    M::Digest: Send + 'static,
    M::Cfg: Send + Drop + 'static,
    R: Runtime,
{
    let parts = NonZeroU32::MIN;
    let accepted = Blank::new(parts.get() as u64);
    run_with::<M, R, Brand, Brand>(rt, codec_config, message, parts, accepted, Blank::new(1))
}

/// Prints what is left of the account.
pub fn show<R: Runtime, W: Write>(rt: &R, out: &mut W) -> Result<(), Error> {
    let message = message(rt.alloc(), b"hello")?;
    let (cause, accepted, settled) = run(rt, RangeCfg::any(), &message)?;
    drop::<_>(message);
    writeln!(
        out,
        "account: {cause:?}, {accepted} accepted, {settled} settled"
    )?;
    Ok(())
}
