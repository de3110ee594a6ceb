//! The exported functions.

mod bucket;
mod buffer;
mod counters;
mod coverage;
mod digest;
mod log;
mod packet;
mod store;
