//! Worked examples of the definitions of the core, of engines and of worlds.
ghost use Rattle.examples.specs.CoreExamples.{Repeats, Broadcasts, Stays, Requests, Budgets};
ghost use Rattle.examples.specs.WorkedExamples.{Served, Mixed, HungUp, Ends};
ghost use Rattle.examples.specs.WorldExamples.{Packets, Events};

/// Does nothing. Its contract has lists of events with the answers, lists, waiters and sends
/// that the definitions give.
pub fn core_examples()
    ensures repeats { Repeats }
    ensures broadcasts { Broadcasts }
    ensures stays { Stays }
    ensures requests { Requests }
    ensures budgets { Budgets }
{}

/// Does nothing. Its contract has steps of an engine, with the turns, replies, sends and counts
/// that the definitions give.
pub fn engine_examples()
    ensures served { Served }
    ensures mixed { Mixed }
    ensures hung_up { HungUp }
    ensures ends { Ends }
{}

/// Does nothing. Its contract has steps of a world, with the packets that they make and the events
/// that they give.
pub fn world_examples()
    ensures packets { Packets }
    ensures events { Events }
{}
