// SPDX-License-Identifier: Apache-2.0
//! Lists of digests by key, the newest first, each linked in a vector of its own, the messages of
//! their digests, and an ordered map in parts.
#![tactic(auto)]

pub mod bucket;
pub mod chain;
pub mod entry;
pub mod item;
pub mod leading;
pub mod link;
pub mod links;
pub mod list;
pub mod near;
pub mod parts;
pub mod places;
pub mod store;
pub mod table;

pub use entry::Charged;
pub use leading::Leading;
pub use parts::Parts;
pub use store::Entries;
pub use table::{Found, Named, Table};
