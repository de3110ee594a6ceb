//! Broadcasts messages to peers, and buffers what they broadcast.
pub mod config;
pub mod engine;
pub mod front;
pub mod launch;
pub mod runtime;
pub mod started;

pub use crate::mocks;
pub use broadcast_mailbox::buffered::{
    Abandoned, Account, All, Answering, Awaits, Bookkeeping, Books, Broadcasts, Counts, Fixed, Get,
    Inbox, Incoming, Ingress, Kind, Mailbox, Message, Named, Overflow, Pending, Policy, Queueable,
    Queued, Reply, Request, Responder, Settled, Stopper, Subscription, Taker, Tally, Watch,
    WatchedEnds, WatchedMailbox, channel, ticket_law, watched_channel,
};
pub use config::Config;
pub use digest_strategies::{
    Done, Gate, Job, Open, Sequential, Strategy, Threaded, Work, Worker, Working,
};
pub use engine::{Engine, Report, StartError, drive, new_engine_law};
pub use engine_io::{
    CannotWait, Counter, Direct, EndCause, Input, Metrics, MetricsError, NetworkFailed, Outlet,
    Provider, Receiver, Requests, Sender, Sequencer, Snapshots, Status, Turn, snapshots,
};
pub use front::{MailboxEngine, WatchedEngine, WatchedNode};
pub use launch::start;
pub use runtime::{Movable, Runtime};
pub use started::{Handle, MailboxReport};
