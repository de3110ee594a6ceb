//! Two runs: that of all steps, and that of the steps without the hostile ones.
ghost use Rattle.std.specs.Prelude.{◌≡◌, [], ◌∷◌, ◌++◌, true, false, Err, IfOk, OnOk, map};
ghost use Rattle.std.specs.List.{list_any};
ghost use Rattle.std.specs.Ordering.{eq_by_cmp};
ghost use Rattle.broadcast_world.specs.Made.{shares_key};
ghost use Rattle.broadcast_world.specs.Broadcasts.{HasOrigins};
ghost use Rattle.broadcast_world.specs.World.{Log, log_of};
ghost use Rattle.broadcast_world.specs.Steps.{HasWorld, TakesSteps};
ghost use Rattle.broadcast_world.specs.TwoRuns.{
  HasCleanCaches,
  HasCleanDigests,
  HasFewMoreDigests,
  HasHonestLists,
  IsRun,
  without_hostile,
};
ghost use Rattle.broadcast_world.specs.SameAnswers.{
  AddsHostileAnswers,
  HasCleanGets,
  KeepsAnswers,
  WaitsInBoth,
};

use crate::error::WorldError;
use crate::run::run_world;
use crate::state::World;
use crate::step::{Step, WorldLog};
use broadcast_core::{Items, PublicKey, RangeCfg};
use std::alloc::{AllocError, Global};

/// The logs and the last worlds of two runs.
#[derive(Drop)]
pub struct Comparison<P: PublicKey> {
    /// The answers to all steps.
    pub with_log: WorldLog,
    /// The world after all steps.
    pub with_world: World<P>,
    /// The answers to the steps without the hostile ones.
    pub without_log: WorldLog,
    /// The world after the steps without the hostile ones.
    pub without_world: World<P>,
}

/// Returns the steps without the hostile ones.
pub fn without_hostile<'a, P: PublicKey>(
    alloc: Global,
    steps: &'a [Step<P>],
) -> Result<Vec<&'a Step<P>>, AllocError>
    ensures { IfOk result (λ clean. map (λ s. s.now) clean.items ≡ without_hostile steps.now) }
{
    let mut clean = Vec::new(alloc);
    for step in steps {
        push_honest(&mut clean, step)?;
    }
    Ok(clean)
}

/// Appends the step, unless it is hostile.
fn push_honest<'a, P: PublicKey>(
    clean: &mut Vec<&'a Step<P>>,
    step: &'a Step<P>,
) -> Result<(), AllocError>
    ensures { OnOk result (map (λ s. s.now) clean.new.items
        ≡ map (λ s. s.now) clean.old.items ++ without_hostile (step.now ∷ [])) }
{
    if step.is_hostile() {
        return Ok(());
    }
    clean.push(step)?;
    Ok(())
}

/// Runs the steps in two new worlds with the same keys and limits: all of them in one, and those
/// that are not hostile in the other.
///
/// The clauses after `clean_origins` compare both runs after the same steps, hostile ones left out,
/// as long as no step was refused for memory. Hostile steps change no list of another key. They
/// lose no answer and make none later, and those that they add are to requests for what they sent.
/// A node caches at most `deque_size` digests more for each of its hostile primary keys. One whose
/// peer sets never held a hostile key has the same cache, and its gets have the same answers.
///
/// `SharedKey` is judged first, and does not allocate.
pub fn compare<P: PublicKey>(
    alloc: Global,
    nodes: Vec<P>,
    hostile: Vec<P>,
    deque_size: usize,
    byte_budget: u64,
    range: RangeCfg,
    steps: &[Step<P>],
) -> Result<Comparison<P>, WorldError>
    ensures shared { shares_key P.cmp nodes.items hostile.items ≡ true
        → result ≡ Err WorldError.SharedKey }
    ensures shared_only { result ≡ Err WorldError.SharedKey
        → shares_key P.cmp nodes.items hostile.items ≡ true }
    ensures nodes { IfOk result (λ both. (q : P)
        → list_any (eq_by_cmp P.cmp q) both.with_world.scene.nodes
        ≡ list_any (eq_by_cmp P.cmp q) nodes.items) }
    ensures hostile { IfOk result (λ both. (q : P)
        → list_any (eq_by_cmp P.cmp q) both.with_world.scene.hostile
        ≡ list_any (eq_by_cmp P.cmp q) hostile.items) }
    ensures apart { IfOk result (λ both. (q : P)
        → list_any (eq_by_cmp P.cmp q) both.with_world.scene.nodes ≡ true
        → list_any (eq_by_cmp P.cmp q) both.with_world.scene.hostile ≡ false) }
    ensures deque_size { IfOk result (λ both. both.with_world.scene.deque_size ≡ deque_size) }
    ensures byte_budget { IfOk result (λ both. both.with_world.scene.byte_budget ≡ byte_budget) }
    ensures range { IfOk result (λ both. both.with_world.scene.range ≡ range) }
    ensures same_scene { IfOk result (λ both. both.without_world.scene ≡ both.with_world.scene) }
    ensures with_run { IfOk result (λ both.
        IsRun P.cmp steps.now both.with_log.answers both.with_world) }
    ensures without_run { IfOk result (λ both.
        IsRun P.cmp (without_hostile steps.now) both.without_log.answers both.without_world) }
    ensures origins { IfOk result (λ both. HasOrigins P.cmp both.with_world.scene
        (log_of steps.now both.with_log.answers) both.with_world.cores) }
    ensures clean_origins { IfOk result (λ both. HasOrigins P.cmp both.without_world.scene
        (log_of (without_hostile steps.now) both.without_log.answers) both.without_world.cores) }
    ensures honest_lists { IfOk result (λ both. HasHonestLists P.cmp both.with_world.scene
        (log_of steps.now both.with_log.answers)
        (log_of (without_hostile steps.now) both.without_log.answers)) }
    ensures clean_digests { IfOk result (λ both. HasCleanDigests P.cmp both.with_world.scene
        (log_of steps.now both.with_log.answers)
        (log_of (without_hostile steps.now) both.without_log.answers)) }
    ensures few_more_digests { IfOk result (λ both. HasFewMoreDigests P.cmp both.with_world.scene
        (log_of steps.now both.with_log.answers)
        (log_of (without_hostile steps.now) both.without_log.answers)) }
    ensures clean_caches { IfOk result (λ both. HasCleanCaches P.cmp both.with_world.scene
        (log_of steps.now both.with_log.answers)
        (log_of (without_hostile steps.now) both.without_log.answers)) }
    ensures clean_gets { IfOk result (λ both. HasCleanGets P.cmp both.with_world.scene
        (log_of steps.now both.with_log.answers)
        (log_of (without_hostile steps.now) both.without_log.answers)) }
    ensures answers_kept { IfOk result (λ both. KeepsAnswers P.cmp both.with_world.scene
        (log_of steps.now both.with_log.answers)
        (log_of (without_hostile steps.now) both.without_log.answers)) }
    ensures waits_in_both { IfOk result (λ both. WaitsInBoth P.cmp both.with_world.scene
        (log_of steps.now both.with_log.answers)
        (log_of (without_hostile steps.now) both.without_log.answers)) }
    ensures added_answers { IfOk result (λ both. AddsHostileAnswers P.cmp both.with_world.scene
        (log_of steps.now both.with_log.answers)
        (log_of (without_hostile steps.now) both.without_log.answers)) }
{
    let with_world = World::new(alloc, nodes, hostile, deque_size, byte_budget, range)?;
    let without_world = with_world.anew(alloc)?;
    let both = run_both(alloc, with_world, without_world, steps)?;
    Ok(both)
}

/// Runs all steps in one world, and those that are not hostile in the other.
fn run_both<P: PublicKey>(
    alloc: Global,
    mut with_world: World<P>,
    mut without_world: World<P>,
    steps: &[Step<P>],
) -> Result<Comparison<P>, AllocError>
    ensures with_run { IfOk result (λ both. (log : Log P) → HasWorld P.cmp log with_world
        → TakesSteps P.cmp log steps.now both.with_log.answers with_world both.with_world) }
    ensures without_run { IfOk result (λ both. (log : Log P) → HasWorld P.cmp log without_world
        → TakesSteps P.cmp log (without_hostile steps.now) both.without_log.answers
        without_world both.without_world) }
{
    let with_log = run_world(alloc, &mut with_world, steps)?;
    let without_log = run_clean(alloc, &mut without_world, steps)?;
    Ok(Comparison {
        with_log,
        with_world,
        without_log,
        without_world,
    })
}

/// Takes the steps that are not hostile in order, and returns their answers.
fn run_clean<P: PublicKey>(
    alloc: Global,
    world: &mut World<P>,
    steps: &[Step<P>],
) -> Result<WorldLog, AllocError>
    ensures ok { IfOk result (λ run. (log : Log P) → HasWorld P.cmp log world.old
        → TakesSteps P.cmp log (without_hostile steps.now) run.answers world.old world.new) }
{
    let clean = without_hostile(alloc, steps)?;
    run_each(alloc, world, &clean)
}

/// Takes the steps in order, and returns their answers.
fn run_each<P: PublicKey>(
    alloc: Global,
    world: &mut World<P>,
    steps: &[&Step<P>],
) -> Result<WorldLog, AllocError>
    ensures { IfOk result (λ run. (log : Log P) → HasWorld P.cmp log world.old
        → TakesSteps P.cmp log (map (λ s. s.now) steps.now) run.answers world.old world.new) }
{
    let mut answers = Vec::with_capacity(alloc, steps.len())?;
    for step in steps {
        answers.push_reserved(world.take(alloc, step));
    }
    Ok(WorldLog {
        answers: Items::from_vec(answers),
    })
}
