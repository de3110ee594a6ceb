//! The events of a reader.
use crate::text::event::{File, parse_event};
use crate::text::fault::Fault;
use crate::text::line_error::LineError;
use crate::text::lines::{LineFormat, read_all};
use crate::text::words::Words;
use broadcast_core::{Event, TestMessage};
use std::alloc::Global;
use std::io::Read;

/// The lines of an event file.
struct EventLines;

impl LineFormat for EventLines {
    type Item = Event<u64, TestMessage>;

    fn parse(alloc: Global, line: &[u8]) -> Result<Event<u64, TestMessage>, LineError> {
        let mut words = Words::new(line, b' ');
        let word = words.expect()?;
        parse_event(alloc, File::Events, word, words)
    }
}

/// Returns the events of the whole input, one for each line.
///
/// # Errors
///
/// Fails with [`Fault::Read`] if the reader fails, also after a line that is no event; else with
/// [`Fault::Syntax`] and the number of the first line that is none. Fails with [`Fault::Memory`] if
/// an allocation fails.
pub fn read_events<R: Read + Drop>(
    alloc: Global,
    reader: R,
) -> Result<Vec<Event<u64, TestMessage>>, Fault> {
    read_all::<EventLines, R>(alloc, reader)
}
