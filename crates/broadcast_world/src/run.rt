//! A list of steps, one after the other.
ghost use Rattle.std.specs.Prelude.{◌≡◌, ◌++◌, IfOk, OnErr};
ghost use Rattle.broadcast_world.specs.Broadcasts.{HasOrigins};
ghost use Rattle.broadcast_world.specs.World.{Log, log_of};
ghost use Rattle.broadcast_world.specs.Steps.{HasWorld, TakesSteps};

use crate::state::World;
use crate::step::{Step, WorldLog};
use broadcast_core::{Items, PublicKey};
use std::alloc::{AllocError, Global};

/// Takes the steps in order, and returns their answers.
///
/// Places for the answers are reserved first. `Err` is their allocation failure, and then no step
/// was taken.
pub fn run_world<P: PublicKey>(
    alloc: Global,
    world: &mut World<P>,
    steps: &[Step<P>],
) -> Result<WorldLog, AllocError>
    ensures ok { IfOk result (λ run. (log : Log P) → HasWorld P.cmp log world.old
        → TakesSteps P.cmp log steps.now run.answers world.old world.new) }
    ensures origins { IfOk result (λ run. (log : Log P) → HasWorld P.cmp log world.old
        → HasOrigins P.cmp world.new.scene (log_of steps.now run.answers ++ log) world.new.cores) }
    ensures err { OnErr result (world.new ≡ world.old) }
{
    let mut answers = Vec::with_capacity(alloc, steps.len())?;
    for step in steps {
        answers.push_reserved(world.take(alloc, step));
    }
    Ok(WorldLog {
        answers: Items::from_vec(answers),
    })
}
