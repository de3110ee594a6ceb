//! The steps of a reader.
use crate::text::event::{File, parse_event};
use crate::text::fault::Fault;
use crate::text::line_error::LineError;
use crate::text::lines::{LineFormat, read_all};
use crate::text::words::{Words, expect_number};
use broadcast_core::{Event, TestMessage};
use broadcast_world::Step;
use std::alloc::Global;
use std::io::Read;

/// The lines of a step file.
struct StepLines;

impl LineFormat for StepLines {
    type Item = Step<u64>;

    fn parse(alloc: Global, line: &[u8]) -> Result<Step<u64>, LineError> {
        let mut words = Words::new(line, b' ');
        let word = words.expect()?;
        let number = expect_number(words.expect()?)?;
        if word == b"deliver".as_slice() {
            words.end()?;
            return Ok(Step::Deliver(number));
        }
        let event = parse_event(alloc, File::Steps, word, words)?;
        Ok(step_of(number, event))
    }
}

/// Returns the step of an event at a node, or of a payload that a hostile key sends.
fn step_of(number: u64, event: Event<u64, TestMessage>) -> Step<u64> {
    match event {
        Event::Peers(peers) => Step::Peers(number, peers),
        Event::Broadcast(recipients, message) => Step::Broadcast(number, recipients, message),
        Event::Payload(to, bytes) => Step::Hostile {
            from: number,
            to,
            bytes,
        },
        Event::Subscribe(ticket, digest) => Step::Subscribe(number, ticket, digest),
        Event::Get(ticket, digest) => Step::Get(number, ticket, digest),
        Event::Cleanup(tickets) => Step::Cleanup(number, tickets),
    }
}

/// Returns the steps of the whole input, one for each line.
///
/// # Errors
///
/// Fails with [`Fault::Read`] if the reader fails, also after a line that is no step; else with
/// [`Fault::Syntax`] and the number of the first line that is none. Fails with [`Fault::Memory`] if
/// an allocation fails.
pub fn read_steps<R: Read + Drop>(alloc: Global, reader: R) -> Result<Vec<Step<u64>>, Fault> {
    read_all::<StepLines, R>(alloc, reader)
}
