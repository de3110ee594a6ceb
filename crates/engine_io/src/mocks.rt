//! Sources that follow a script, and sinks that record, for tests.
//!
//! Each source and sink tells exactly what it gave, or was handed.
mod outlet;
mod provider;
mod receiver;
mod requests;
mod script;
mod sender;

pub use outlet::{Handed, RecordingOutlet, Replied};
pub use requests::ScriptedRequests;
pub use script::Script;
pub use sender::RecordingSender;
