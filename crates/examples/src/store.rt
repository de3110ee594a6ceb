//! A look into a core, and answers to a list of events. Both are proved to give only what was taken
//! before, under the digest that was asked for.
ghost use Rattle.std.specs.Prelude.{◌≡◌, ℕ, false, IfOk, IfSome};
ghost use Rattle.broadcast_core.specs.Setting.{whole, Setting, setting};
ghost use Rattle.broadcast_core.specs.Content.{same_by};
ghost use Rattle.broadcast_core.specs.Happening.{History};
ghost use Rattle.broadcast_core.specs.HasContent.{HasContent};
ghost use Rattle.broadcast_core.specs.Log.{log_of};
ghost use Rattle.broadcast_core.specs.TakenLaw.{IsFrom, FoundWasTaken};

use super::two_nodes::message;
use anyhow::Error;
use broadcast_core::{
    Codec, Core, Digest, Digested, Digestible, Event, PublicKey, RangeCfg, Recipients, Run, Set,
    TestMessage, answer_law, cache_law, run, same_law,
};
use std::alloc::{AllocError, Global};
use std::io;

/// Returns the message of the digest, if the core has it. After whatever history, it was taken
/// before, under that digest.
fn find<'a, P: PublicKey, M: Digestible>(
    core: &'a Core<P, M, u64>,
    digest: &M::Digest,
) -> Option<&'a Digested<M>>
    ensures { (s : Setting P M M.Digest) (past : History P M M.Digest ℕ ℕ)
        → s.same ≡ same_by P.cmp M.Digest.cmp → HasContent s past core.now
        → IfSome result (λ found. IsFrom s digest.now past found.now) }
{
    same_law::<P, M::Digest>();
    cache_law::<P, M, u64, u64>();
    core.get(digest)
}

/// Runs the events. Each message that an answer finds was taken by an earlier event, under the
/// digest that was asked for.
fn answers<P: PublicKey, M: Digestible + Codec>(
    alloc: Global,
    own: P,
    cfg: &M::Cfg,
    events: Vec<Event<P, M>>,
) -> Result<Run<P, M>, AllocError>
    ensures { let s = setting own 10 1000 false (same_by P.cmp M.Digest.cmp) M.digest_of
        M.encoding (whole (M.reading cfg.now)) in
        IfOk result (λ run. FoundWasTaken s (log_of events.items run.answers)) }
{
    same_law::<P, M::Digest>();
    answer_law::<P, M, u64, u64>();
    run(alloc, own, 10, 1000, false, cfg, events)
}

/// Returns the events of a peer set, a broadcast of the message, and a get of it.
fn events(
    alloc: Global,
    message: Digested<TestMessage>,
) -> Result<Vec<Event<u64, TestMessage>>, AllocError> {
    let primary = Set::from_iter_dedup(vec![in alloc; 1]?)?;
    let digest = message.digest();
    let events = vec![in alloc;
        Event::Peers(primary),
        Event::Broadcast(Recipients::All, message),
        Event::Get(7, digest),
    ]?;
    Ok(events)
}

/// Returns how many answers there are, and whether the core that is left finds the message.
fn look(run: &Run<u64, TestMessage>, digest: &Digest) -> (usize, bool) {
    (run.answers.len(), find(&run.core, digest).is_some())
}

/// Prints how many answers there are, and whether the core that is left finds the message.
pub fn show<W: io::Write>(alloc: Global, out: &mut W) -> Result<(), Error> {
    let message = message(alloc, b"hello")?;
    let digest = message.digest();
    let run = answers(alloc, 1, &RangeCfg::any(), events(alloc, message)?)?;
    let (number, found) = look(&run, &digest);
    drop::<_>(run);
    writeln!(out, "store: {number} answers, {found}")?;
    Ok(())
}
