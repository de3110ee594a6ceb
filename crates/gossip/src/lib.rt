// SPDX-License-Identifier: Apache-2.0
//! The decisions of a relay that replicates authors' logs: what it keeps of them, what it reports
//! to a peer, what it sends to a peer next, what a peer lacks, and what a rate grants. No call
//! reads a clock or a socket: times are arguments.
#![tactic(auto)]

pub mod bucket;
pub mod coverage;
mod kept;
pub mod laws;
pub mod log;
pub mod message;
pub mod span;

pub use bucket::{Bucket, Call, charge_all};
pub use coverage::Coverage;
pub use laws::{converge, exchange, run_log};
pub use log::Log;
pub use message::{Arrival, Arrived, CHARGE, Message};
pub use span::Span;
