// SPDX-License-Identifier: Apache-2.0
//! Strategies that digest messages: at once, or on a thread for each.
//!
//! An engine starts a job for each payload, polls it, and gets the message back with its digest.
#![tactic(auto)]

pub mod gate;
pub mod mocks;
pub mod strategy;
pub mod threaded;
pub mod worker;

pub use gate::{Gate, Open};
pub use strategy::{Done, Job, Sequential, Strategy};
pub use threaded::{Threaded, Working};
pub use worker::{Work, Worker};
