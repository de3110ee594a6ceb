// SPDX-License-Identifier: Apache-2.0
//! Takes the steps of a file from standard input, as `world SIZE NODES HOSTILE [BUDGET]`.
#![tactic(auto)]

use programs::text::arguments::read_arguments;
use programs::world::play;
use programs::world::settings::USAGE;
use std::process::ExitCode;

fn main(rt: HostRuntime) -> ExitCode {
    let status = match read_arguments(&rt, USAGE) {
        Ok(words) => play(&rt, &words, rt.stdin(), rt.stdout(), rt.stderr()),
        Err(fault) => fault.report(rt.stderr()),
    };
    ExitCode::from(status)
}
