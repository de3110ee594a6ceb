//! The mailbox of a node: the messages of callers, the inbox that queues them, and both ends.
pub mod account;
pub mod awaited;
mod bell;
pub mod books;
pub mod dropped;
pub mod get;
pub mod inbox;
pub mod ingress_end;
mod look;
pub mod mailbox;
pub mod message;
pub mod queue;
pub mod reply;
pub mod responder;
pub mod shared;
pub mod subscription;
