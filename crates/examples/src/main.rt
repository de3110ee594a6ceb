// SPDX-License-Identifier: Apache-2.0
//! Programs over the crates, a file for each. Begin with [`two_nodes`].
//!
//! `examples` runs all of them, and `examples NAME` the one of this name.
#![tactic(auto)]

mod account;
mod alone;
mod block;
mod cache;
mod mailbox;
mod polled;
mod relayed;
mod scripted;
mod store;
mod two_nodes;
mod worked_examples;

use anyhow::Error;
use commonware_broadcast::buffered::Runtime;
use std::env;
use std::io::{Stdout, Write};
use std::process::ExitCode;

/// The file of an example.
#[derive(Clone, Copy)]
enum Example {
    TwoNodes,
    Cache,
    Block,
    Store,
    Relayed,
    Account,
    Polled,
    Scripted,
    Mailbox,
}

/// All examples with their names, in the order in which they run.
const EXAMPLES: [(&str, Example); 9] = [
    ("two_nodes", Example::TwoNodes),
    ("cache", Example::Cache),
    ("block", Example::Block),
    ("store", Example::Store),
    ("relayed", Example::Relayed),
    ("account", Example::Account),
    ("polled", Example::Polled),
    ("scripted", Example::Scripted),
    ("mailbox", Example::Mailbox),
];

fn main(rt: HostRuntime) -> Result<ExitCode, Error> {
    let mut words = env::args(&rt)?;
    let _program = words.next();
    if show_named(&rt, words.next(), &mut rt.stdout())? {
        return Ok(ExitCode::SUCCESS);
    }
    writeln!(rt.stderr(), "usage: examples [NAME], as examples two_nodes")?;
    Ok(ExitCode::from(2))
}

/// Runs the example of this name, or all if there is none. Returns whether any ran.
fn show_named<R: Runtime>(rt: &R, name: Option<String>, out: &mut Stdout) -> Result<bool, Error> {
    let mut has_run = false;
    for (its_name, example) in EXAMPLES {
        if is_named(&name, its_name.as_bytes()) {
            show(rt, example, out)?;
            has_run = true;
        }
    }
    Ok(has_run)
}

/// Returns whether the example of this name is to run.
fn is_named(name: &Option<String>, its_name: &[u8]) -> bool {
    match name {
        Some(name) => name.as_bytes() == its_name,
        None => true,
    }
}

/// Runs an example, which prints its results.
fn show<R: Runtime>(rt: &R, example: Example, out: &mut Stdout) -> Result<(), Error> {
    match example {
        Example::TwoNodes => two_nodes::show(rt, out),
        Example::Cache => cache::show(rt.alloc(), out),
        Example::Block => block::show(rt.alloc(), out),
        Example::Store => store::show(rt.alloc(), out),
        Example::Relayed => relayed::show(rt, out),
        Example::Account => account::show(rt, out),
        Example::Polled => polled::show(rt, out),
        Example::Scripted => scripted::show(rt, out),
        Example::Mailbox => mailbox::show(rt, out),
    }
}
