//! A script of requests.
ghost use Rattle.std.specs.Prelude.{◌≡◌, List, Some, true, false};
ghost use Rattle.futures.specs.Task.{IsArmed, Keeps};
ghost use Rattle.engine_io.specs.Scripts.{HasGiven, IsQuiet};
ghost use Rattle.engine_io.specs.Sources.{given};
ghost use Rattle.broadcast_mailbox.specs.declared.buffered.ingress.message.Request.{Request as Asked};

use super::script::Script;
use crate::requests::Requests;
use broadcast_mailbox::buffered::{Awaits, Request};
use futures::task::{Context, Poll, Source, Waker};

/// Gives the requests of a script, until the engine is to stop.
#[derive(Drop)]
pub struct ScriptedRequests<T> {
    /// The results of the polls.
    pub script: Script<Request<T>>,
    /// After how many calls of `stopped` the engine is to stop, if ever.
    pub stops_after: Option<u64>,
    /// Whether the requests were closed.
    pub closed: bool,
    // Nobody wakes an engine that is never to stop.
    never: Source,
    waker: Option<Waker>,
}

impl<T> ScriptedRequests<T> {
    /// Creates the requests of a script. The engine is to stop after that many calls of `stopped`.
    pub fn new(script: Script<Request<T>>, stops_after: Option<u64>) -> Self
        ensures script { result.script ≡ script }
        ensures stops_after { result.stops_after ≡ stops_after }
        ensures open { result.closed ≡ false }
    {
        ScriptedRequests {
            script,
            stops_after,
            closed: false,
            never: Source::new(),
            waker: None,
        }
    }
}

/// The requests are those that were given, and the next poll is pending if that is its result.
impl<T: Awaits> Requests<T> for ScriptedRequests<T> {
    ghost told = { λ it requests. HasGiven given it.script requests };

    ghost quiet = { λ it. IsQuiet it.script };

    ghost stops = { λ it. it.stops_after ≡ Some 0 };

    ghost may_stop = { λ it. it.stops_after ≡ Some 0 };

    ghost closed = { λ it. it.closed ≡ true };

    // Nothing wakes who waits for more than there is, or for a stop that never comes.
    ghost needs = { λ _ _. ⊥ };

    ghost needs_stop = { λ _ _. ⊥ };

    fn stopped(&mut self, cx: &mut Context<'_>) -> bool
        ensures stops { self.old.stops_after ≡ Some 0 → result ≡ true }
        ensures only_if_asked { result ≡ true → self.old.stops_after ≡ Some 0 }
        ensures tells { (requests : List (Asked T)) → HasGiven given self.old.script requests
            → HasGiven given self.new.script requests }
        ensures armed { result ≡ false → IsArmed cx.new }
        ensures quiet { IsQuiet self.new.script → IsQuiet self.old.script }
        ensures kept { Keeps cx.old cx.new }
    {
        match self.stops_after {
            Some(0) => true,
            Some(calls) => {
                self.stops_after = Some(calls - 1);
                let _: Poll<()> = cx.yield_now();
                false
            }
            None => {
                let _: Poll<()> = cx.register(&self.never, &mut self.waker);
                false
            }
        }
    }

    fn poll_next(&mut self, cx: &mut Context<'_>) -> Poll<Request<T>> {
        self.script.poll(cx)
    }

    fn tell_outcome(&mut self, _refused: bool)
        ensures tells { (requests : List (Asked T)) → HasGiven given self.old.script requests
            → HasGiven given self.new.script requests }
    {}

    /// Records that the requests are closed.
    fn close(&mut self)
        ensures closes { self.new.closed ≡ true }
        ensures tells { (requests : List (Asked T)) → HasGiven given self.old.script requests
            → HasGiven given self.new.script requests }
    {
        self.closed = true;
    }
}
