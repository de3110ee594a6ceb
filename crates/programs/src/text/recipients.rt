//! Recipients as words.
use crate::text::line_error::LineError;
use crate::text::words::{Words, parse_numbers, strip_mark};
use broadcast_core::{Items, Recipients};
use std::alloc::Global;

/// Returns the recipients that the word spells: `all`, or one or more keys after `to:`, separated
/// by commas.
///
/// # Errors
///
/// Fails with [`LineError::Syntax`] if it spells none, and with [`LineError::Memory`] if an
/// allocation fails.
pub fn parse_recipients(alloc: Global, word: &[u8]) -> Result<Recipients<u64>, LineError> {
    if word == b"all".as_slice() {
        return Ok(Recipients::All);
    }
    let keys = parse_keys(alloc, strip_mark(word, b"to:")?)?;
    match keys.as_slice() {
        [key] => Ok(Recipients::One(*key)),
        _ => Ok(Recipients::Some(Items::from_vec(keys))),
    }
}

/// Returns the keys that the text spells, one or more of them, separated by commas.
///
/// # Errors
///
/// Fails with [`LineError::Syntax`] if it spells none, and with [`LineError::Memory`] if an
/// allocation fails.
pub fn parse_keys(alloc: Global, text: &[u8]) -> Result<Vec<u64>, LineError> {
    parse_numbers(alloc, Words::new(text, b','))
}
