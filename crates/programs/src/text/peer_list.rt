//! The lists of a cache as lines.
use crate::text::byte_list::write_spaced;
use broadcast_core::{Core, TestMessage};
use std::alloc::{AllocError, Global};
use std::io::{self, Write};

/// The messages of a peer's list, newest first.
#[derive(Drop)]
pub struct PeerList<'a> {
    peer: u64,
    messages: Vec<&'a TestMessage>,
}

/// Returns the lists that are not empty, in ascending order of their keys.
pub fn lists_of<'a>(
    alloc: Global,
    core: &'a Core<u64, TestMessage, u64>,
) -> Result<Vec<PeerList<'a>>, AllocError> {
    let mut lists = Vec::new(alloc);
    // Only primary peers have lists.
    for peer in core.primary().as_slice() {
        push_list(&mut lists, alloc, core, peer)?;
    }
    Ok(lists)
}

/// Appends the peer's list if it is not empty.
fn push_list<'a>(
    lists: &mut Vec<PeerList<'a>>,
    alloc: Global,
    core: &'a Core<u64, TestMessage, u64>,
    peer: &u64,
) -> Result<(), AllocError> {
    let messages = messages_of(alloc, core, peer)?;
    if !messages.is_empty() {
        lists.push(PeerList {
            peer: *peer,
            messages,
        })?;
    }
    Ok(())
}

/// Returns the messages of the peer's list, newest first.
fn messages_of<'a>(
    alloc: Global,
    core: &'a Core<u64, TestMessage, u64>,
    peer: &u64,
) -> Result<Vec<&'a TestMessage>, AllocError> {
    let digests = core.list(alloc, peer)?;
    let mut messages = Vec::with_capacity(alloc, digests.len())?;
    for digest in &digests {
        // Each listed digest is cached.
        if let Some(message) = core.get(digest) {
            messages.push(message.inner())?;
        }
    }
    Ok(messages)
}

/// Writes the line of each list.
pub fn write_lists<W: Write>(out: &mut W, lists: &[PeerList<'_>]) -> io::Result<()> {
    for list in lists {
        write_list(out, list)?;
    }
    Ok(())
}

/// Writes the line of a list.
pub fn write_list<W: Write>(out: &mut W, list: &PeerList<'_>) -> io::Result<()> {
    write_entry(out, list.peer, &list.messages)
}

/// Writes the line of a peer's list.
fn write_entry<W: Write>(out: &mut W, peer: u64, messages: &[&TestMessage]) -> io::Result<()> {
    write!(out, "list {peer}")?;
    write_contents(out, messages)?;
    out.write_all(b"\n")
}

/// Writes each content after a space.
fn write_contents<W: Write>(out: &mut W, messages: &[&TestMessage]) -> io::Result<()> {
    for message in messages {
        write_spaced(out, &message.content)?;
    }
    Ok(())
}
