//! The program `replay`: runs the events of a file, and prints the answer to each of them.
ghost use Rattle.std.specs.Prelude.{IfOk};
ghost use Rattle.broadcast_core.specs.HasRun.{HasRun};
ghost use Rattle.programs.specs.Runs.{setting_of};

pub mod events;
pub mod loopback;
pub mod report;
pub mod settings;

use crate::text::fault::Fault;
use crate::text::peer_list::lists_of;
use broadcast_core::{Event, Run, TestMessage, run};
use broadcast_mailbox::buffered::Inbox;
use events::read_events;
use loopback::{Request, loop_back};
use report::write_report;
use settings::{Settings, USAGE};
use std::alloc::{AllocError, Global};
use std::io::{BufWriter, Read, Write};
use std::sync::{Mutex, Wait};

/// The number of bytes that are written at once.
const BUFFER_LEN: usize = 64 * 1024;

/// Runs the events of `reader`, and writes their answers to `out` or the fault to `err`. Returns
/// the exit status. The words are the arguments without the program's name.
///
/// Before the first event runs, each broadcast is queued in the inbox and taken again, so that a
/// run uses an inbox too.
pub fn play<H: Wait + AllocGlobal, R: Read + Drop, W: Write + Drop, E: Write + Drop>(
    rt: &H,
    inbox: &Mutex<Inbox<Request>>,
    words: &[String],
    reader: R,
    out: W,
    err: E,
) -> u8 {
    match replay(rt, inbox, words, reader, out) {
        Ok(()) => 0,
        Err(fault) => fault.report(err),
    }
}

/// Runs the events, and prints the report.
fn replay<H: Wait + AllocGlobal, R: Read + Drop, W: Write + Drop>(
    rt: &H,
    inbox: &Mutex<Inbox<Request>>,
    words: &[String],
    reader: R,
    out: W,
) -> Result<(), Fault> {
    let settings = Settings::parse(words).ok_or(Fault::Usage(USAGE))?;
    let mut events = read_events(rt.alloc(), reader)?;
    loop_back(&mut inbox.lock(rt), rt.alloc(), &mut events)?;
    let run = run_events(rt.alloc(), settings, events)?;
    print(rt.alloc(), &run, out)
}

/// Runs the events with these settings. No message is sent as priority.
pub fn run_events(
    alloc: Global,
    settings: Settings,
    events: Vec<Event<u64, TestMessage>>,
) -> Result<Run<u64, TestMessage>, AllocError>
    ensures { IfOk result (λ run.
        HasRun (setting_of settings) events.items run.answers run.sent run.core) }
{
    let Settings {
        own,
        deque_size,
        byte_budget,
        range,
    } = settings;
    run(alloc, own, deque_size, byte_budget, false, &range, events)
}

/// Prints the report. All allocations come before the first line, so that a refused one prints
/// nothing.
fn print<W: Write + Drop>(alloc: Global, run: &Run<u64, TestMessage>, out: W) -> Result<(), Fault> {
    let lists = lists_of(alloc, &run.core)?;
    let Ok(mut out) = BufWriter::with_capacity(alloc, BUFFER_LEN, out) else {
        return Err(Fault::Memory);
    };
    let written = write_report(&mut out, run, &lists);
    if written.is_err() || out.flush().is_err() {
        return Err(Fault::Write);
    }
    Ok(())
}
