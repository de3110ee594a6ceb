//! The mailbox of a node that keeps the latest messages of each peer.
mod ingress;

pub use ingress::account::{Account, Bookkeeping, Settled, Tally};
pub use ingress::books::{Books, Taker};
pub use ingress::dropped::Abandoned;
pub use ingress::get::Get;
pub use ingress::inbox::Inbox;
pub use ingress::ingress_end::{Ingress, Stopper};
pub use ingress::mailbox::{
    Incoming, Mailbox, WatchedEnds, WatchedMailbox, channel, watched_channel,
};
pub use ingress::message::{
    All, Awaits, Broadcasts, Counts, Kind, Message, Named, Queueable, Queued, Request, Watch,
};
pub use ingress::queue::{Overflow, Pending, Policy};
pub use ingress::reply::{Answering, Reply};
pub use ingress::responder::{Fixed, Responder};
pub use ingress::shared::ticket_law;
pub use ingress::subscription::Subscription;
