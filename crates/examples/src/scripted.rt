//! A node over scripts. Its contract is lists: what its sources gave, what it sent, to whom it
//! replied what, and what it counted. So the promises of an engine are proved whole where its
//! sources are known.
ghost use Rattle.std.specs.Prelude.{◌≡◌, [], false, IfOk};
ghost use Rattle.broadcast_core.specs.Setting.{whole, setting};
ghost use Rattle.broadcast_core.specs.Content.{same_by};
ghost use Rattle.examples.specs.Driven.{IsNew, KeptAll, Driven};

use super::two_nodes::message;
use super::worked_examples::{core_examples, engine_examples, world_examples};
use anyhow::Error;
use broadcast_core::{
    Codec, Digest, Digested, Digestible, Items, PublicKey, RangeCfg, Recipients, Set,
};
use commonware_broadcast::buffered::{
    Config, Engine, Fixed, Message, NetworkFailed, Reply, Request, Strategy, Turn, drive,
    new_engine_law,
};
use commonware_broadcast::mocks::{RecordingOutlet, RecordingSender, Script, ScriptedRequests};
use futures::task::{Context, Doorbell, Poll, Solo};
use std::alloc::{AllocError, AllocGlobal, Global};
use std::io::Write;
use std::random::RandomSource;
use std::sync::Wait;

/// A script of peer sets.
pub type Sets<P> = Script<Option<Set<P>>>;

/// A script of payloads with their senders.
pub type Payloads<P> = Script<Result<(P, Items<u8>), NetworkFailed>>;

/// A script of requests, whose responders are closed from the start or never.
pub type Asked<P, M> = ScriptedRequests<Message<P, M, Fixed, Fixed>>;

/// The replies that an engine handed out.
pub type Replies<M> = RecordingOutlet<Fixed, Fixed, Reply<M>, Option<Reply<M>>>;

/// An engine over scripts.
pub type ScriptedEngine<P, M, T> = Engine<P, M, Fixed, Replies<M>, Sets<P>, Asked<P, M>, T>;

/// An engine over scripts that was driven, with its network and its turns.
pub type DrivenEngine<P, M, T> = (
    ScriptedEngine<P, M, T>,
    (RecordingSender<P>, Payloads<P>),
    Result<Vec<Turn<P, <M as Digestible>::Digest>>, AllocError>,
);

/// Creates an engine over the scripts, and polls it `limit` times, or until it ends. There are no
/// turns if the places for them can't be allocated.
pub fn drive_new<P: PublicKey, M: Digestible + Codec, T>(
    alloc: Global,
    cx: &mut Context<'_>,
    cfg: Config<P, M::Cfg, Sets<P>, T>,
    requests: Asked<P, M>,
    payloads: Payloads<P>,
    limit: usize,
) -> DrivenEngine<P, M, T>
where
    M::Cfg: Drop,
    T: Strategy<M> + Drop,
    requires new_sets { IsNew cfg.peer_provider }
    requires new_requests { IsNew requests.script }
    requires new_payloads { IsNew payloads }
    ensures driven { IfOk result.2 (λ turns. KeptAll result.0 result.1 → Driven
        (setting cfg.public_key cfg.deque_size cfg.byte_budget cfg.priority
        (same_by P.cmp M.Digest.cmp) M.digest_of M.encoding
        (whole (M.reading cfg.codec_config))) result.0 result.1 turns.items) }
{
    let outlet: Replies<M> = RecordingOutlet::new(alloc);
    let mut engine: ScriptedEngine<P, M, T> = Engine::over(alloc, cfg, requests, outlet);
    let mut network = (RecordingSender::new(alloc), payloads);
    new_engine_law::<P, M, Fixed, Fixed>();
    let turns = drive(alloc, &mut engine, cx, &mut network, limit);
    (engine, network, turns)
}

/// Returns the script of one peer set.
fn sets(alloc: Global) -> Result<Sets<u64>, AllocError>
    ensures { IfOk result (λ sets. IsNew sets) }
{
    let peers = Set::from_iter_dedup(vec![in alloc; 1, 2]?)?;
    Ok(Script::new(vec![in alloc; Poll::Ready(Some(peers))]?))
}

/// Creates a request of a script.
fn asked<P: PublicKey, M: Digestible>(
    ticket: u64,
    message: Message<P, M, Fixed, Fixed>,
) -> Poll<Request<Message<P, M, Fixed, Fixed>>> {
    Poll::Ready(Request {
        ticket,
        message,
        counted: false,
    })
}

/// Returns the script of a broadcast of the message, and of a get of it.
fn requests<M: Digestible>(alloc: Global, message: Digested<M>) -> Result<Asked<u64, M>, AllocError>
    ensures { IfOk result (λ requests. IsNew requests.script) }
{
    let responder = Fixed { closed: false };
    let get = asked(1, Message::get(message.digest(), responder));
    let broadcast = asked(0, Message::broadcast(Recipients::All, message));
    let mut results = Vec::new(alloc);
    results.push(broadcast)?;
    results.push(get)?;
    Ok(ScriptedRequests::new(Script::new(results), None))
}

/// Drives a node over a peer set, a broadcast and a get. Returns its turns.
fn run<R: Wait + RandomSource + AllocGlobal>(rt: &R) -> Result<Vec<Turn<u64, Digest>>, Error> {
    let alloc = rt.alloc();
    let requests = requests(alloc, message(alloc, b"hello")?)?;
    let cfg = Config::new(1, sets(alloc)?).with_codec_config(RangeCfg::any());
    let task = Solo::new(rt, Doorbell::spinning())?;
    let mut cx = task.begin();
    let (engine, network, driven) = drive_new(
        alloc,
        &mut cx,
        cfg,
        requests,
        Script::new(Vec::new(alloc)),
        8,
    );
    // The task is to be polled again.
    let _: Poll<()> = cx.yield_now();
    cx.park();
    drop::<_>((engine, network));
    Ok(driven?)
}

/// Prints the turns of the node.
pub fn show<R, W>(rt: &R, out: &mut W) -> Result<(), Error>
where
    R: Wait + RandomSource + AllocGlobal,
    W: Write,
{
    core_examples();
    engine_examples();
    world_examples();
    let turns = run(rt)?;
    writeln!(out, "scripted: {turns:?}")?;
    Ok(())
}
