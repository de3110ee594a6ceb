//! The law of a new engine.
ghost use Rattle.std.specs.Prelude.{◌≡◌, []};
ghost use Rattle.broadcast_core.specs.Content.{Content};
ghost use Rattle.broadcast_core.specs.Empty.{empty};
ghost use Rattle.broadcast_core.specs.Setting.{Setting};
ghost use Rattle.broadcast_core.specs.HasContent.{HasContent};
ghost use Rattle.engine_io.specs.Replies.{Asker};

use broadcast_core::{Digestible, PublicKey};

/// Proves that a new engine, as `Engine::over` creates it, has the content of the empty history.
pub fn new_engine_law<P: PublicKey, M: Digestible, S, G>()
    ensures { (s : Setting P M M.Digest)
        → (core : Content P M M.Digest (Asker S))
        → core ≡ empty s.own s.deque_size s.byte_budget → HasContent {V = Asker G} s [] core }
{}
