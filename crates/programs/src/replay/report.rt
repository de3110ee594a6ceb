//! What the program prints.
use crate::text::answer::write_answer;
use crate::text::byte_list::write_spaced;
use crate::text::peer_list::{PeerList, write_lists};
use broadcast_core::{Answer, Recipients, Run, Sent, TestMessage};
use std::io::{self, Write};

/// Writes the answers and the closing report.
pub fn write_report<W: Write>(
    out: &mut W,
    run: &Run<u64, TestMessage>,
    lists: &[PeerList<'_>],
) -> io::Result<()> {
    write_answers(out, run.answers.as_slice())?;
    write_lists(out, lists)?;
    writeln!(out, "cached {}", run.core.cached_len())?;
    writeln!(out, "awaited {}", run.core.awaited())?;
    write_sends(out, run.sent.as_slice())
}

/// Writes the line of each answer.
fn write_answers<W: Write>(out: &mut W, answers: &[Answer<TestMessage>]) -> io::Result<()> {
    for answer in answers {
        write_answer(out, answer)?;
    }
    Ok(())
}

/// Writes the line of each send.
fn write_sends<W: Write>(out: &mut W, sends: &[Sent<u64>]) -> io::Result<()> {
    for sent in sends {
        write_sent(out, sent)?;
    }
    Ok(())
}

/// Writes the line of a send.
fn write_sent<W: Write>(out: &mut W, sent: &Sent<u64>) -> io::Result<()> {
    out.write_all(b"sent ")?;
    write_recipients(out, &sent.recipients)?;
    write_spaced(out, sent.bytes.as_slice())?;
    out.write_all(b"\n")
}

/// Writes `all`, or the keys with commas between.
fn write_recipients<W: Write>(out: &mut W, recipients: &Recipients<u64>) -> io::Result<()> {
    match recipients {
        Recipients::All => out.write_all(b"all"),
        Recipients::One(key) => write!(out, "{key}"),
        Recipients::Some(keys) => write_keys(out, keys.as_slice()),
    }
}

/// Writes the keys with commas between.
fn write_keys<W: Write>(out: &mut W, keys: &[u64]) -> io::Result<()> {
    let Some((first, others)) = keys.split_first() else {
        return Ok(());
    };
    write!(out, "{first}")?;
    for key in others {
        write!(out, ",{key}")?;
    }
    Ok(())
}
