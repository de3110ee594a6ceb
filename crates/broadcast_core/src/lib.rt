// SPDX-License-Identifier: Apache-2.0
//! The cache of a node that broadcasts messages: it lists the newest digests of each peer, caches
//! their messages and replies to those who ask for one.
//!
//! Everything a caller needs stands at the top of this crate.
#![tactic(auto)]

pub mod buffer;
mod bytes32;
pub mod codec;
mod digest;
pub mod digested;
mod event;
mod items;
mod laws;
pub mod mocks;
pub mod ordered;
mod outcome;
pub mod requests;
pub mod runner;

pub use buffer::{Core, Reporting};
pub use codec::blocks::{ByteList, OneOf, Record, Tag, Wire};
pub use codec::{Codec, CodecError, EncodeSize, RangeCfg, Read, Write, byte_list, decode_cfg};
pub use digest::Digest;
pub use digested::{Digested, Digestible};
pub use entries::Leading;
pub use event::{Answer, Cause, Event, Run, Sent};
pub use items::Items;
pub use laws::{answer_law, cache_law, codec_law, list_law, same_law};
pub use mocks::TestMessage;
pub use ordered::{Key, PublicKey, Recipients, Set};
pub use outcome::{Outcome, Subscribed, Taken};
pub use requests::{Closable, Ticketed};
pub use runner::run;
