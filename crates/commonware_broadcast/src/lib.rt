// SPDX-License-Identifier: Apache-2.0
//! A node that buffers what its peers broadcast: its engine, and the mailbox of its callers.
#![tactic(auto)]

pub mod buffered;
pub mod mocks;

// The mailbox, the cache, and what sources of one's own are polled with, so that a caller depends
// on this crate alone.
pub use broadcast_core::{ByteList, Digest, Key, OneOf, Record, Tag, Wire, byte_list, codec_law};
pub use broadcast_mailbox::{
    Answer, Broadcaster, Cause, Closable, Codec, CodecError, Core, Digested, Digestible,
    EncodeSize, Event, Feedback, Items, MailboxError, Outcome, PublicKey, RangeCfg, Read,
    Recipients, Run, Sent, Set, Subscribed, Taken, TestMessage, Ticketed, Write, decode_cfg, run,
};
pub use futures::task::{Context, Poll, Source, Waker};
