//! The lines of events, of which a file of steps has some too.
use crate::text::byte_list::parse_byte_list;
use crate::text::line_error::LineError;
use crate::text::message::{parse_message, parse_request};
use crate::text::recipients::parse_recipients;
use crate::text::words::{Words, expect_number, parse_numbers};
use broadcast_core::{Event, Items, Set, TestMessage};
use std::alloc::Global;

/// A file whose lines are read.
#[derive(Clone, Copy, Debug, PartialEq, Eq)]
pub enum File {
    /// The events of a node.
    Events,
    /// The steps of a world.
    Steps,
}

impl File {
    /// Returns the first word of a line with a payload.
    fn payload(self) -> &'static [u8] {
        match self {
            File::Events => b"payload",
            File::Steps => b"hostile",
        }
    }
}

/// Returns the event of a line, by its first word and those of the event.
///
/// # Errors
///
/// Fails with [`LineError::Syntax`] if the words are those of no line, and with
/// [`LineError::Memory`] if an allocation fails.
pub fn parse_event(
    alloc: Global,
    file: File,
    word: &[u8],
    words: Words<'_>,
) -> Result<Event<u64, TestMessage>, LineError> {
    if word == b"peers".as_slice() {
        return parse_peers(alloc, words);
    }
    if word == b"broadcast".as_slice() {
        return parse_broadcast(alloc, words);
    }
    if word == file.payload() {
        return parse_payload(alloc, words);
    }
    if word == b"subscribe".as_slice() {
        let (ticket, digest) = parse_request(alloc, words)?;
        return Ok(Event::Subscribe(ticket, digest));
    }
    if word == b"get".as_slice() {
        let (ticket, digest) = parse_request(alloc, words)?;
        return Ok(Event::Get(ticket, digest));
    }
    if word == b"cleanup".as_slice() {
        let tickets = parse_numbers(alloc, words)?;
        return Ok(Event::Cleanup(Items::from_vec(tickets)));
    }
    Err(LineError::Syntax)
}

/// Returns the peer set of the keys.
fn parse_peers(alloc: Global, words: Words<'_>) -> Result<Event<u64, TestMessage>, LineError> {
    let keys = parse_numbers(alloc, words)?;
    Ok(Event::Peers(Set::from_iter_dedup(keys)?))
}

/// Returns the broadcast of the recipients and the message.
fn parse_broadcast(
    alloc: Global,
    mut words: Words<'_>,
) -> Result<Event<u64, TestMessage>, LineError> {
    let recipients = parse_recipients(alloc, words.expect()?)?;
    Ok(Event::Broadcast(recipients, parse_message(alloc, words)?))
}

/// Returns the payload of the key and the bytes.
fn parse_payload(alloc: Global, words: Words<'_>) -> Result<Event<u64, TestMessage>, LineError> {
    let (key, bytes) = words.expect_two()?;
    let key = expect_number(key)?;
    let bytes = parse_byte_list(alloc, bytes)?;
    Ok(Event::Payload(key, Items::from_vec(bytes)))
}
