//! A message, a strategy, sources that follow a script, and sinks that record, for tests.
pub use broadcast_core::TestMessage;
pub use digest_strategies::mocks::{Slow, SlowJob};
pub use engine_io::mocks::{
    Handed, RecordingOutlet, RecordingSender, Replied, Script, ScriptedRequests,
};
