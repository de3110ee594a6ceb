//! The program `world`: takes the steps of a file in a world of nodes, with and without its hostile
//! ones, and prints their answers.
ghost use Rattle.std.specs.Prelude.{IfOk};
ghost use Rattle.programs.specs.Runs.{AreRuns};

pub mod report;
pub mod settings;
pub mod steps;

use crate::text::fault::Fault;
use broadcast_core::RangeCfg;
use broadcast_world::{Comparison, Step, compare};
use report::{nodes_of, write_part};
use settings::{Settings, world_fault};
use std::alloc::Global;
use std::io::{BufWriter, Read, Write};
use steps::read_steps;

/// The number of bytes that are written at once.
const BUFFER_LEN: usize = 64 * 1024;

/// Takes the steps of `reader`, and writes their answers to `out` or the fault to `err`. Returns
/// the exit status. The words are the arguments without the program's name.
pub fn play<H: AllocGlobal, R: Read + Drop, W: Write + Drop, E: Write + Drop>(
    rt: &H,
    words: &[String],
    reader: R,
    out: W,
    err: E,
) -> u8 {
    match simulate(rt.alloc(), words, reader, out) {
        Ok(()) => 0,
        Err(fault) => fault.report(err),
    }
}

/// Takes the steps, and prints the report.
fn simulate<R: Read + Drop, W: Write + Drop>(
    alloc: Global,
    words: &[String],
    reader: R,
    out: W,
) -> Result<(), Fault> {
    let settings = Settings::parse(alloc, words)?;
    if settings.share_key() {
        return Err(Fault::SharedKey);
    }
    let steps = read_steps(alloc, reader)?;
    print(alloc, &run_both(alloc, settings, &steps)?, out)
}

/// Runs the steps with and without the hostile ones, in worlds with these settings. Messages may
/// have any length.
pub fn run_both(
    alloc: Global,
    settings: Settings,
    steps: &[Step<u64>],
) -> Result<Comparison<u64>, Fault>
    ensures { IfOk result (AreRuns settings steps.now) }
{
    let Settings {
        deque_size,
        nodes,
        hostile,
        byte_budget,
    } = settings;
    let (nodes, hostile) = (nodes.into_vec(), hostile.into_vec());
    let range = RangeCfg::any();
    match compare(alloc, nodes, hostile, deque_size, byte_budget, range, steps) {
        Ok(both) => Ok(both),
        Err(error) => Err(world_fault(error)),
    }
}

/// Prints the report. All allocations come before the first line, so that a refused one prints
/// nothing.
fn print<W: Write + Drop>(alloc: Global, both: &Comparison<u64>, out: W) -> Result<(), Fault> {
    let with = nodes_of(alloc, &both.with_world)?;
    let without = nodes_of(alloc, &both.without_world)?;
    let Ok(mut out) = BufWriter::with_capacity(alloc, BUFFER_LEN, out) else {
        return Err(Fault::Memory);
    };
    if write_part(&mut out, "with", &both.with_log, &with).is_err()
        || write_part(&mut out, "without", &both.without_log, &without).is_err()
    {
        return Err(Fault::Write);
    }
    out.flush().map_err(|_| Fault::Write)
}
