//! The engine of a node.
mod apply;
mod arrival;
mod broadcast;
mod closed;
mod driver;
mod first;
mod handler;
mod laws;
mod next;
mod node;
mod poll;
mod report;
mod running;
mod state;
mod take;
mod thread;

pub use driver::drive;
pub use laws::new_engine_law;
pub use report::Report;
pub(crate) use running::Running;
pub use state::Engine;
pub use thread::StartError;
pub(crate) use thread::spawn;
