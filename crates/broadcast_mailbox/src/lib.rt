// SPDX-License-Identifier: Apache-2.0
//! Broadcasts messages to peers: the mailbox through which callers on any thread reach a node.
#![tactic(auto)]

mod broadcaster;
pub mod buffered;

pub use broadcaster::{Broadcaster, Feedback, MailboxError};

// The cache and what it rests on, so that a caller depends on this crate alone.
pub use broadcast_core::{
    Answer, Cause, Closable, Codec, CodecError, Core, Digested, Digestible, EncodeSize, Event,
    Items, Outcome, PublicKey, RangeCfg, Read, Recipients, Run, Sent, Set, Subscribed, Taken,
    TestMessage, Ticketed, Write, decode_cfg, run,
};
