//! The lines of a reader, each read as an item.
use crate::text::fault::Fault;
use crate::text::line_error::LineError;
use memchr::memchr;
use std::alloc::Global;
use std::io::{BufRead, BufReader, ErrorKind, Read};

/// The number of bytes that are read at once.
const BUFFER_LEN: usize = 64 * 1024;

/// How far a line has been read.
enum Progress {
    /// To the end of the line.
    LineEnd,
    /// To the end of the input.
    InputEnd,
    /// To the end of what was buffered.
    More,
}

/// How each line of a text is read.
pub trait LineFormat {
    /// What a line is read as.
    type Item: Drop;

    /// Returns the item of a line, which is given without its end.
    ///
    /// # Errors
    ///
    /// Fails with [`LineError::Syntax`] if the line is none of the format, and with
    /// [`LineError::Memory`] if an allocation fails.
    fn parse(alloc: Global, line: &[u8]) -> Result<Self::Item, LineError>;
}

/// Returns the items of the whole input, one for each line. A line ends with a line feed; the last
/// line may lack it.
///
/// # Errors
///
/// Fails with [`Fault::Read`] if the reader fails, also after a line that is none of the format;
/// else with [`Fault::Syntax`] and the number of the first such line. Fails with
/// [`Fault::Memory`] if an allocation fails.
pub fn read_all<L: LineFormat, R: Read + Drop>(
    alloc: Global,
    reader: R,
) -> Result<Vec<L::Item>, Fault> {
    let mut items = Vec::new(alloc);
    let Ok(mut reader) = BufReader::with_capacity(alloc, BUFFER_LEN, reader) else {
        return Err(Fault::Memory);
    };
    read_items::<L, _>(alloc, &mut reader, &mut items)?;
    Ok(items)
}

/// Appends the item of each line that is left.
fn read_items<L: LineFormat, R: BufRead>(
    alloc: Global,
    reader: &mut R,
    items: &mut Vec<L::Item>,
) -> Result<(), Fault> {
    let mut line = Vec::new(alloc);
    // A loop must be shown to end. No vector has room for that many items.
    for _ in 0..u64::MAX {
        match read_item::<L, R>(alloc, reader, &mut line, items) {
            Ok(true) => {}
            Ok(false) => return Ok(()),
            Err(fault) => return Err(fault),
        }
    }
    Err(Fault::Memory)
}

/// Appends the item of the next line. Returns whether there was one.
fn read_item<L: LineFormat, R: BufRead>(
    alloc: Global,
    reader: &mut R,
    line: &mut Vec<u8>,
    items: &mut Vec<L::Item>,
) -> Result<bool, Fault> {
    let Some(parsed) = parse_line::<L, R>(alloc, reader, line)? else {
        return Ok(false);
    };
    let item = match parsed {
        Ok(item) => item,
        Err(error) => return Err(fault_of(reader, error, items.len() as u64 + 1)),
    };
    if items.push(item).is_err() {
        return Err(Fault::Memory);
    }
    Ok(true)
}

/// What a line is read as.
type Parsed<L> = Result<<L as LineFormat>::Item, LineError>;

/// Returns what the next line is read as, if there is one.
fn parse_line<L: LineFormat, R: BufRead>(
    alloc: Global,
    reader: &mut R,
    line: &mut Vec<u8>,
) -> Result<Option<Parsed<L>>, Fault> {
    if let Some(parsed) = parse_buffered::<L, R>(alloc, reader)? {
        return Ok(Some(parsed));
    }
    if next_line(reader, line)? {
        Ok(Some(L::parse(alloc, line)))
    } else {
        Ok(None)
    }
}

/// Returns what the next line is read as if it is buffered to its end, so that it is not copied.
/// Otherwise returns `None`, and nothing is read.
fn parse_buffered<L: LineFormat, R: BufRead>(
    alloc: Global,
    reader: &mut R,
) -> Result<Option<Parsed<L>>, Fault> {
    let buffered = match reader.fill_buf() {
        Ok(buffered) => buffered,
        Err(error) if error.kind() == ErrorKind::Interrupted => return Ok(None),
        Err(_) => return Err(Fault::Read),
    };
    let Some(end) = memchr(b'\n', buffered) else {
        return Ok(None);
    };
    let parsed = L::parse(alloc, &buffered[..end]);
    reader.consume(end + 1);
    Ok(Some(parsed))
}

/// Returns the fault of a line that was not read. What is left is read too.
fn fault_of<R: BufRead>(reader: &mut R, error: LineError, number: u64) -> Fault {
    match error {
        LineError::Memory => Fault::Memory,
        LineError::Syntax => match skip_rest(reader) {
            // A failed read goes before, even if it comes after this line.
            Err(fault) => fault,
            Ok(()) => Fault::Syntax(number),
        },
    }
}

/// Reads what is left, and drops it. Does not allocate.
fn skip_rest<R: BufRead>(reader: &mut R) -> Result<(), Fault> {
    // No input is so long that the bound is met.
    for _ in 0..u64::MAX {
        if skip_buffered(reader)? {
            break;
        }
    }
    Ok(())
}

/// Drops what is buffered. Returns whether the input has ended.
fn skip_buffered<R: BufRead>(reader: &mut R) -> Result<bool, Fault> {
    let used = match reader.fill_buf() {
        Ok(buffered) => buffered.len(),
        Err(error) if error.kind() == ErrorKind::Interrupted => return Ok(false),
        Err(_) => return Err(Fault::Read),
    };
    reader.consume(used);
    Ok(used == 0)
}

/// Reads the next line without its end. Returns whether there was one.
fn next_line<R: BufRead>(reader: &mut R, line: &mut Vec<u8>) -> Result<bool, Fault> {
    let has_end = read_line(reader, line)?;
    Ok(has_end || !line.is_empty())
}

/// Reads to the next line's end, which is dropped, or to the end of the input. Returns whether the
/// line has an end.
///
/// The end of a line is sought by `memchr`: `BufRead::read_until` makes a run over long lines a
/// third slower.
fn read_line<R: BufRead>(reader: &mut R, line: &mut Vec<u8>) -> Result<bool, Fault> {
    line.clear();
    // No line is so long that the bound is met.
    for _ in 0..u64::MAX {
        match append_buffered(reader, line)? {
            Progress::LineEnd => return Ok(true),
            Progress::InputEnd => return Ok(false),
            Progress::More => {}
        }
    }
    Err(Fault::Memory)
}

/// Appends what is buffered to the line, up to the line's end, which is dropped.
fn append_buffered<R: BufRead>(reader: &mut R, line: &mut Vec<u8>) -> Result<Progress, Fault> {
    let buffered = match reader.fill_buf() {
        Ok(buffered) => buffered,
        Err(error) if error.kind() == ErrorKind::Interrupted => return Ok(Progress::More),
        Err(_) => return Err(Fault::Read),
    };
    if buffered.is_empty() {
        return Ok(Progress::InputEnd);
    }
    match memchr(b'\n', buffered) {
        Some(end) => {
            line.extend_from_slice(&buffered[..end])?;
            reader.consume(end + 1);
            Ok(Progress::LineEnd)
        }
        None => {
            line.extend_from_slice(buffered)?;
            let used = buffered.len();
            reader.consume(used);
            Ok(Progress::More)
        }
    }
}
