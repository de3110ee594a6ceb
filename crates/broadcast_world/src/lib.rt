// SPDX-License-Identifier: Apache-2.0
//! Many nodes and a hostile network, step by step; and the relay of messages to another network.
#![tactic(auto)]

mod apply;
mod broadcast;
mod encoded;
mod error;
mod made;
mod node;
mod nodes;
mod packet;
pub mod relay;
mod run;
mod state;
mod step;
mod two_runs;

pub use error::WorldError;
pub use made::shares_key;
pub use run::run_world;
pub use state::World;
pub use step::{Step, WorldAnswer, WorldLog};
pub use two_runs::{Comparison, compare, without_hostile};
