// SPDX-License-Identifier: Apache-2.0
//! The interfaces of an engine: its sources and sinks, its inputs, turns and counters, who asks for
//! those, and scripts and recorders for tests.
#![tactic(auto)]

pub mod asleep;
pub mod input;
pub mod metrics;
pub mod mocks;
pub mod network;
pub mod outlet;
pub mod reply;
pub mod requests;
pub mod snapshots;
pub mod waiter;

pub use asleep::{CannotWait, Seat, block_on_asleep, may_look};
pub use input::{EndCause, Input, Turn};
pub use metrics::{Counter, Metrics, Sequencer, Status};
pub use network::{NetworkFailed, Provider, Receiver, Sender};
pub use outlet::{Direct, Outlet};
pub use reply::{copies, respond_get, respond_subscribe, respond_waiters};
pub use requests::Requests;
pub use snapshots::{MetricsError, Snapshots};
pub use waiter::Waiter;
