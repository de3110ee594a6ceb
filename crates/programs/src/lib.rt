// SPDX-License-Identifier: Apache-2.0
//! The programs `replay` and `world` as a library: their text, and what they do.
#![tactic(auto)]

pub mod replay;
pub mod text;
pub mod world;
