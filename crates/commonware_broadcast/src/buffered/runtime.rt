//! What a started node needs of its runtime, and of what moves to its thread.
use std::alloc::AllocGlobal;
use std::random::RandomSource;
use std::sync::Wait;
use std::thread::Threads;
use std::time::Clock;

/// What a node that is started needs of its runtime: threads, the right to wait, a clock, random
/// bytes and an allocator. Each type that has these is one.
pub trait Runtime: Threads
    + Wait
    + Clock
    + RandomSource
    + AllocGlobal
    + Clone
    + Send
    + Sync
    + Drop
    + 'static {}

impl<R> Runtime for R
where
    R: Threads + Wait + Clock + RandomSource + AllocGlobal + Clone + Send + Sync + Drop + 'static,
{}

/// What may move to another thread, and be dropped there.
pub trait Movable: Send + Drop + 'static {}

impl<T: Send + Drop + 'static> Movable for T {}
