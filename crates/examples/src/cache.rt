//! A cache driven by hand.
use super::two_nodes::message;
use anyhow::Error;
use broadcast_core::{Core, Digested, Set, Taken, TestMessage};
use std::alloc::{AllocError, Global};
use std::io::Write;

/// Takes a message from peer 5, for which the caller with ticket 7 waits.
fn take_one(alloc: Global, message: &Digested<TestMessage>) -> Result<Taken<u64>, AllocError> {
    let primary = Set::from_iter_dedup(vec![in alloc; 1, 5]?)?;
    let mut core = Core::new(alloc, 1, 10, u64::MAX);
    core.update_primary_peers(primary);
    take_awaited(&mut core, message)
}

fn take_awaited(
    core: &mut Core<u64, TestMessage, u64>,
    message: &Digested<TestMessage>,
) -> Result<Taken<u64>, AllocError> {
    core.subscribe(message.digest(), 7)?;
    core.take(&5, message)
}

/// Prints what became of the message.
pub fn show<W: Write>(alloc: Global, out: &mut W) -> Result<(), Error> {
    let taken = take_one(alloc, &message(alloc, b"hello")?)?;
    writeln!(out, "cache: {taken:?}")?;
    Ok(())
}
