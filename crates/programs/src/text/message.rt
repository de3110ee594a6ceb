//! Messages as words.
use crate::text::byte_list::parse_byte_list;
use crate::text::line_error::LineError;
use crate::text::words::{Words, expect_number, strip_mark};
use broadcast_core::{Digest, Digested, TestMessage};
use std::alloc::Global;

/// Returns the message that the words spell: a commitment, a content and, after `as:`, the content
/// whose digest the message goes by. Without that it goes by its own digest.
///
/// # Errors
///
/// Fails with [`LineError::Syntax`] if the words spell no message, and with [`LineError::Memory`]
/// if an allocation fails.
pub fn parse_message(
    alloc: Global,
    mut words: Words<'_>,
) -> Result<Digested<TestMessage>, LineError> {
    let commitment = parse_byte_list(alloc, words.expect()?)?;
    let content = parse_byte_list(alloc, words.expect()?)?;
    name(alloc, TestMessage::new(commitment, content), words)
}

/// Gives the message the digest that the words name, or its own if there are none.
fn name(
    alloc: Global,
    message: TestMessage,
    mut words: Words<'_>,
) -> Result<Digested<TestMessage>, LineError> {
    let Some(word) = words.take() else {
        return Ok(Digested::compute(alloc, message)?);
    };
    words.end()?;
    let digest = parse_digest(alloc, strip_mark(word, b"as:")?)?;
    Ok(Digested::precomputed(alloc, message, digest)?)
}

/// Returns the ticket and the digest of a request: a number, and the content that the digest is
/// of.
///
/// # Errors
///
/// Fails with [`LineError::Syntax`] if the words are no request, and with [`LineError::Memory`] if
/// an allocation fails.
pub fn parse_request(alloc: Global, words: Words<'_>) -> Result<(u64, Digest), LineError> {
    let (ticket, content) = words.expect_two()?;
    Ok((expect_number(ticket)?, parse_digest(alloc, content)?))
}

/// Returns the digest of the content that the word spells.
fn parse_digest(alloc: Global, word: &[u8]) -> Result<Digest, LineError> {
    let content = parse_byte_list(alloc, word)?;
    Ok(Digest::sha256(&content))
}
