//! Words of a line, and numbers.
ghost use Rattle.std.specs.Prelude.{◌<◌, IfSome, length};

use crate::text::line_error::LineError;
use memchr::memchr;
use std::alloc::Global;

/// How many places of a text are looked at one by one.
const NEAR: usize = 8;

/// Words between separators. There is one word more than there are separators, and a word may be
/// empty.
#[derive(Drop)]
pub struct Words<'a> {
    rest: &'a [u8],
    separator: u8,
    has_ended: bool,
}

impl<'a> Words<'a> {
    /// Creates the words of a text.
    pub fn new(text: &'a [u8], separator: u8) -> Self {
        Words {
            rest: text,
            separator,
            has_ended: false,
        }
    }

    /// Takes the next word, or returns `None` if no word is left.
    pub fn take(&mut self) -> Option<&'a [u8]> {
        if self.has_ended {
            return None;
        }
        let rest = self.rest;
        match place_of(self.separator, rest) {
            Some(end) => {
                self.rest = &rest[end + 1..];
                Some(&rest[..end])
            }
            None => {
                self.has_ended = true;
                Some(rest)
            }
        }
    }

    /// Takes the next word.
    ///
    /// # Errors
    ///
    /// Fails with [`LineError::Syntax`] if no word is left.
    pub fn expect(&mut self) -> Result<&'a [u8], LineError> {
        self.take().ok_or(LineError::Syntax)
    }

    /// Returns the two words that are left.
    ///
    /// # Errors
    ///
    /// Fails with [`LineError::Syntax`] if more words or fewer are left.
    pub fn expect_two(mut self) -> Result<(&'a [u8], &'a [u8]), LineError> {
        let first = self.expect()?;
        let second = self.expect()?;
        self.end()?;
        Ok((first, second))
    }

    /// Returns `Ok` if no word is left.
    ///
    /// # Errors
    ///
    /// Fails with [`LineError::Syntax`] if a word is left.
    pub fn end(mut self) -> Result<(), LineError> {
        match self.take() {
            None => Ok(()),
            Some(_) => Err(LineError::Syntax),
        }
    }
}

/// Returns the first place of a byte. The nearest places are looked at one by one, since most words
/// are short, and the others by `memchr`.
fn place_of(byte: u8, text: &[u8]) -> Option<usize>
    ensures { IfSome result (λ place. place < length text.now) }
{
    for place in 0..text.len().min(NEAR) {
        if text[place] == byte {
            return Some(place);
        }
    }
    memchr(byte, text)
}

/// Returns the number that the word spells: decimal digits without leading zeros, up to
/// `u64::MAX`.
pub fn parse_number(word: &[u8]) -> Option<u64> {
    if !begins_number(word) {
        return None;
    }
    let mut number = 0;
    for digit in word {
        number = with_digit(number, *digit)?;
    }
    Some(number)
}

/// Returns the number whose digits are those of `number`, and this one behind them.
fn with_digit(number: u64, digit: u8) -> Option<u64> {
    if !digit.is_ascii_digit() {
        return None;
    }
    number.checked_mul(10)?.checked_add(u64::from(digit - b'0'))
}

/// Returns whether the first byte is a digit, and a zero only if it stands alone.
fn begins_number(word: &[u8]) -> bool {
    match word {
        [] => false,
        [digit] => digit.is_ascii_digit(),
        [first, ..] => matches!(first, b'1'..=b'9'),
    }
}

/// Returns the number that the word spells.
///
/// # Errors
///
/// Fails with [`LineError::Syntax`] if it spells none.
pub fn expect_number(word: &[u8]) -> Result<u64, LineError> {
    parse_number(word).ok_or(LineError::Syntax)
}

/// Returns the numbers of the words.
///
/// # Errors
///
/// Fails with [`LineError::Syntax`] if a word spells no number, and with [`LineError::Memory`] if
/// an allocation fails.
pub fn parse_numbers(alloc: Global, mut words: Words<'_>) -> Result<Vec<u64>, LineError> {
    let mut numbers = Vec::new(alloc);
    // A loop must be shown to end. No vector has room for that many numbers.
    for _ in 0..u64::MAX {
        let Some(word) = words.take() else {
            return Ok(numbers);
        };
        let Ok(()) = numbers.push(expect_number(word)?) else {
            break;
        };
    }
    Err(LineError::Memory)
}

/// Returns what follows the mark.
///
/// # Errors
///
/// Fails with [`LineError::Syntax`] if the word does not begin with the mark.
pub fn strip_mark<'a>(word: &'a [u8], mark: &[u8]) -> Result<&'a [u8], LineError> {
    word.strip_prefix(mark).ok_or(LineError::Syntax)
}
