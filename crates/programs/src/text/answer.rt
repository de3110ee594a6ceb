//! Answers as lines.
use crate::text::byte_list::write_spaced;
use broadcast_core::{Answer, Cause, CodecError, Outcome, TestMessage};
use std::io::{self, Write};

/// Writes the line of an answer.
pub fn write_answer<W: Write>(out: &mut W, answer: &Answer<TestMessage>) -> io::Result<()> {
    match answer {
        Answer::Peers => out.write_all(b"ok\n"),
        Answer::Taken {
            outcome,
            served,
            message: _,
        } => write_taken(out, *outcome, served.as_slice()),
        Answer::Invalid(refusal) => write_invalid(out, *refusal),
        Answer::Waiting => out.write_all(b"waiting\n"),
        Answer::Answered(message) => write_message(out, b"answered", message.inner()),
        Answer::Got(Some(message)) => write_message(out, b"found", message.inner()),
        Answer::Got(None) => out.write_all(b"none\n"),
        Answer::Removed(count) => writeln!(out, "removed {count}"),
        Answer::Refused(Cause::Memory) => out.write_all(b"refused memory\n"),
        Answer::Refused(Cause::Unencodable) => out.write_all(b"refused unencodable\n"),
    }
}

/// Writes the line of a taken message.
fn write_taken<W: Write>(out: &mut W, outcome: Outcome, served: &[u64]) -> io::Result<()> {
    out.write_all(outcome_text(outcome))?;
    write_numbers(out, served)?;
    out.write_all(b"\n")
}

/// Returns the word of the outcome.
fn outcome_text(outcome: Outcome) -> &'static [u8] {
    match outcome {
        Outcome::Inserted => b"inserted",
        Outcome::Duplicate => b"duplicate",
        Outcome::Ineligible => b"ineligible",
        Outcome::Oversize => b"oversize",
    }
}

/// Writes each number after a space.
fn write_numbers<W: Write>(out: &mut W, numbers: &[u64]) -> io::Result<()> {
    for number in numbers {
        write!(out, " {number}")?;
    }
    Ok(())
}

/// Writes the line of a refused payload.
fn write_invalid<W: Write>(out: &mut W, refusal: CodecError) -> io::Result<()> {
    match refusal {
        CodecError::EndOfBuffer => out.write_all(b"invalid EndOfBuffer\n"),
        CodecError::InvalidLength(length) => writeln!(out, "invalid InvalidLength {length}"),
        CodecError::Invalid(reason) => writeln!(out, "invalid Invalid {reason}"),
        CodecError::ExtraData(count) => writeln!(out, "invalid ExtraData {count}"),
        CodecError::Unencodable => out.write_all(b"invalid Unencodable\n"),
        CodecError::Memory => out.write_all(b"invalid Memory\n"),
    }
}

/// Writes the line of a word and a message.
fn write_message<W: Write>(out: &mut W, word: &[u8], message: &TestMessage) -> io::Result<()> {
    out.write_all(word)?;
    write_spaced(out, &message.commitment)?;
    write_spaced(out, &message.content)?;
    out.write_all(b"\n")
}
