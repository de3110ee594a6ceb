// SPDX-License-Identifier: Apache-2.0
//! The static library: a cache of messages that the caller keeps, the wire format, a relay's
//! coverages, buckets and what it sends, counters and SHA-256, for callers in Rust and C.
//!
//! `ffi/broadcast_c.h` declares the functions of `exports`. A caller owns a store by a handle,
//! which is all zeros before its first call.
#![tactic(auto)]

mod codes;
mod counters;
mod exports;
mod handle;
mod laws;
mod log_handle;
mod parts;
mod store;

pub use laws::store_law;
