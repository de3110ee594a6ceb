//! Byte lists as words: the bytes in lower-case hexadecimal, or a dash if there are none.
ghost use Rattle.std.specs.Prelude.{◌≡◌, ◌+◌, ◌*◌, ◌≤◌, ◌<◌, length};

use crate::text::line_error::LineError;
use std::alloc::Global;
use std::io::{self, Write};

/// The word of no bytes.
const NO_BYTES: &[u8] = b"-";

/// Stands for the value of a byte that is no digit.
const NO_DIGIT: u8 = u8::MAX;

/// The number of bytes that are read at once.
const PIECE_LEN: usize = 16;

/// The number of bytes that are written at once.
const CHUNK_LEN: usize = 64;

/// Returns the bytes that the word spells.
///
/// # Errors
///
/// Fails with [`LineError::Syntax`] if it spells none, and with [`LineError::Memory`] if an
/// allocation fails.
pub fn parse_byte_list(alloc: Global, word: &[u8]) -> Result<Vec<u8>, LineError> {
    if word == NO_BYTES {
        return Ok(Vec::new(alloc));
    }
    if word.is_empty() || word.len() % 2 != 0 {
        return Err(LineError::Syntax);
    }
    let mut bytes = vec![in alloc; 0; word.len() / 2]?;
    if decode(word, &mut bytes) {
        Ok(bytes)
    } else {
        Err(LineError::Syntax)
    }
}

/// Returns whether the value is that of a digit.
fn is_digit_value(value: u8) -> bool {
    value < 16
}

/// Writes the byte of each two digits to `bytes`. Returns whether all of them are digits.
///
/// It goes on after one that is no digit, so that no loop has a branch. For pieces of a known
/// length the compiler takes vectors, and a quarter of the time.
fn decode(digits: &[u8], bytes: &mut [u8]) -> bool
    requires { length digits.now ≡ 2 * length bytes.old }
{
    if bytes.len() < PIECE_LEN {
        return is_digit_value(decode_few(digits, bytes));
    }
    let mut greatest = 0u8;
    for piece in 0..bytes.len() / PIECE_LEN {
        greatest = greatest.max(decode_piece(digits, bytes, piece * PIECE_LEN));
    }
    // The last piece may begin within the one before.
    greatest = greatest.max(decode_piece(digits, bytes, bytes.len() - PIECE_LEN));
    is_digit_value(greatest)
}

/// Writes the bytes of a piece, which begins at the byte `start`. Returns the greatest value of its
/// digits.
fn decode_piece(digits: &[u8], bytes: &mut [u8], start: usize) -> u8
    requires digits { length digits.now ≡ 2 * length bytes.old }
    requires piece { start + PIECE_LEN ≤ length bytes.old }
    ensures same_len { length bytes.new ≡ length bytes.old }
{
    let values = piece_values(digits, 2 * start);
    let mut greatest = 0u8;
    for i in 0..PIECE_LEN {
        let high = values[2 * i];
        let low = values[2 * i + 1];
        greatest = greatest.max(high).max(low);
        bytes[start + i] = high.wrapping_mul(16).wrapping_add(low);
    }
    greatest
}

/// Returns the values of the digits of a piece, which begins at the digit `start`.
fn piece_values(digits: &[u8], start: usize) -> [u8; 2 * PIECE_LEN]
    requires { start + 2 * PIECE_LEN ≤ length digits.now }
{
    let mut values = [0; 2 * PIECE_LEN];
    for i in 0..2 * PIECE_LEN {
        values[i] = digit_value(digits[start + i]);
    }
    values
}

/// Writes the bytes one by one. Returns the greatest value of their digits.
fn decode_few(digits: &[u8], bytes: &mut [u8]) -> u8
    requires { length digits.now ≡ 2 * length bytes.old }
{
    let mut greatest = 0u8;
    for i in 0..bytes.len() {
        let high = digit_value(digits[2 * i]);
        let low = digit_value(digits[2 * i + 1]);
        greatest = greatest.max(high).max(low);
        bytes[i] = high.wrapping_mul(16).wrapping_add(low);
    }
    greatest
}

/// Returns the value of a lower-case hexadecimal digit, or `NO_DIGIT`.
fn digit_value(digit: u8) -> u8 {
    match digit {
        b'0'..=b'9' => digit - b'0',
        b'a'..=b'f' => digit - b'a' + 10,
        _ => NO_DIGIT,
    }
}

/// Writes the word that spells the bytes.
pub fn write_byte_list<W: Write>(out: &mut W, bytes: &[u8]) -> io::Result<()> {
    if bytes.is_empty() {
        return out.write_all(NO_BYTES);
    }
    let mut rest = bytes;
    while !rest.is_empty() {
        let (chunk, after) = rest.split_at(rest.len().min(CHUNK_LEN));
        write_chunk(out, chunk)?;
        rest = after;
    }
    Ok(())
}

/// Writes a space and the word of a byte list.
pub fn write_spaced<W: Write>(out: &mut W, bytes: &[u8]) -> io::Result<()> {
    out.write_all(b" ")?;
    write_byte_list(out, bytes)
}

/// Writes the digits of a few bytes.
fn write_chunk<W: Write>(out: &mut W, chunk: &[u8]) -> io::Result<()>
    requires { length chunk.now ≤ CHUNK_LEN }
{
    let mut digits = [0; 2 * CHUNK_LEN];
    let digits = &mut digits[..2 * chunk.len()];
    encode(chunk, digits);
    out.write_all(digits)
}

/// Writes the digits of the bytes to `digits`. Without a table the compiler takes vectors, and two
/// fifths of the instructions.
fn encode(bytes: &[u8], digits: &mut [u8])
    requires { length digits.old ≡ 2 * length bytes.now }
{
    for i in 0..bytes.len() {
        digits[2 * i] = digit_of(bytes[i] / 16);
        digits[2 * i + 1] = digit_of(bytes[i] % 16);
    }
}

/// Returns the digit of a value.
fn digit_of(value: u8) -> u8
    requires { value < 16 }
{
    if value < 10 {
        b'0' + value
    } else {
        b'a' - 10 + value
    }
}
