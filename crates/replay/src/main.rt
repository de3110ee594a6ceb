// SPDX-License-Identifier: Apache-2.0
//! Runs a file of events from standard input, as `replay OWN SIZE [MAX [BUDGET]]`.
#![tactic(auto)]

use broadcast_mailbox::buffered::Inbox;
use programs::replay::play;
use programs::replay::settings::USAGE;
use programs::text::arguments::read_arguments;
use std::num::NonZeroUsize;
use std::process::ExitCode;
use std::sync::Mutex;

fn main(rt: HostRuntime) -> ExitCode {
    let inbox = Mutex::new(Inbox::new(rt.alloc(), NonZeroUsize::MIN));
    let status = match read_arguments(&rt, USAGE) {
        Ok(words) => play(&rt, &inbox, &words, rt.stdin(), rt.stdout(), rt.stderr()),
        Err(fault) => fault.report(rt.stderr()),
    };
    ExitCode::from(status)
}
