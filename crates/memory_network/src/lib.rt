// SPDX-License-Identifier: Apache-2.0
//! A network in memory, for nodes that run in threads of one process.
//!
//! Each payload goes to its recipients alone, and a node gets what it is sent in order. Peer sets
//! can be changed, and payloads handed in under any key, from any thread.
#![tactic(auto)]

pub mod line;
pub mod mail;
pub mod network;

pub use line::Line;
pub use mail::{Inbound, Mail, Outbound, Payload, PeerSets, Received};
pub use network::{Ends, JoinError, Network};
