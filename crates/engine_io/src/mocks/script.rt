//! A list of the results of polls.
ghost use Rattle.std.specs.Prelude.{◌≡◌};
ghost use Rattle.futures.specs.Poll.{OnPending};
ghost use Rattle.futures.specs.Task.{IsArmed, Keeps};
ghost use Rattle.engine_io.specs.Scripts.{next_of, after_next};

use futures::task::{Context, Poll, Source, Waker};
use std::collections::VecDeque;
use std::marker::Model;
use std::snapshot::Snapshot;

/// The results of the polls of a source, in order. Once they are over, every poll is pending.
///
/// A script of peer sets is a `Provider`, and a script of payloads is a `Receiver`: the end of the
/// sets and a failure of the network are results like others.
#[derive(Drop)]
pub struct Script<A> {
    rest: VecDeque<Poll<A>>,
    all: Snapshot<Vec<Poll<A>>>,
    // Nobody wakes who waits for more than there is.
    never: Source,
    waker: Option<Waker>,
}

impl<A> Model for Script<A> {
    ghost use Rattle.engine_io.specs.Scripts.{Scripted};

    ghost Value = { Scripted A };

    ghost view = { λ it. record { all = it.all.value.items; rest = it.rest.items } };
}

impl<A> Script<A> {
    /// Creates a script of the results. Does not allocate.
    pub fn new(results: Vec<Poll<A>>) -> Self
        ensures { result ≡ record { all = results.items; rest = results.items } }
    {
        Script {
            all: Snapshot::of(&results),
            rest: VecDeque::from(results),
            never: Source::new(),
            waker: None,
        }
    }

    /// Returns the result of the next poll. If it is pending, the task is woken at once; after the
    /// last result it is never woken.
    pub fn poll(&mut self, cx: &mut Context<'_>) -> Poll<A>
        ensures next { result ≡ next_of self.old.rest }
        ensures leaves { self.new ≡ record self.old { rest = after_next self.old.rest } }
        ensures armed { OnPending result (IsArmed cx.new) }
        ensures kept { Keeps cx.old cx.new }
    {
        match self.rest.pop_front() {
            Some(Poll::Ready(value)) => Poll::Ready(value),
            Some(Poll::Pending) => cx.yield_now(),
            None => cx.register(&self.never, &mut self.waker),
        }
    }
}
