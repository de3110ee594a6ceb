//! Messages, each digest once.
ghost use Rattle.std.specs.Prelude.{◌≡◌, [], ◌∷◌, ◌++◌, if◌then◌else◌, OnOk};
ghost use Rattle.std.specs.List.{list_any};
ghost use Rattle.std.specs.Ordering.{eq_by_cmp};
ghost use Rattle.broadcast_world.specs.Relay.{same_digest};

use broadcast_core::{Digested, Digestible};
use std::alloc::{AllocError, Global};
use std::collections::BTreeSet;
use std::marker::Model;

/// Messages in the order in which they were added, each digest at its first place only.
#[derive(Drop)]
pub struct Firsts<M: Digestible> {
    digests: BTreeSet<M::Digest>,
    messages: Vec<Digested<M>>,
}

impl<M: Digestible> Model for Firsts<M> {
    ghost use Rattle.std.specs.Prelude.{◌≡◌, List};
    ghost use Rattle.std.specs.List.{list_any};
    ghost use Rattle.std.specs.Ordering.{eq_by_cmp};
    ghost use Rattle.std.specs.BTreeSet.{contains};
    ghost use Rattle.broadcast_core.specs.Carried.{Carried};

    ghost Value = { List (Carried M M.Digest) };

    ghost view = { λ it. it.messages.items };

    ghost invariant = { λ it. (d : M.Digest) → contains M.Digest.cmp it.digests d
        ≡ list_any (λ c. eq_by_cmp M.Digest.cmp d c.digest) it.messages.items };
}

impl<M: Digestible> Firsts<M> {
    /// Creates an empty list. Does not allocate.
    pub fn new(alloc: Global) -> Self
        ensures { result ≡ [] }
    {
        Firsts {
            digests: BTreeSet::new(alloc),
            messages: Vec::new(alloc),
        }
    }

    /// Appends the message, unless one with its digest is there already.
    pub fn add(&mut self, message: Digested<M>) -> Result<(), AllocError>
        ensures { OnOk result (self.new ≡
            (if list_any (same_digest (eq_by_cmp M.Digest.cmp) message) self.old
            then self.old else self.old ++ message ∷ [])) }
    {
        self.messages.reserve(1)?;
        if self.digests.insert(message.digest())? {
            self.messages.push_reserved(message);
        }
        Ok(())
    }

    /// Returns the messages.
    pub fn into_vec(self) -> Vec<Digested<M>>
        ensures { result.items ≡ self }
    {
        let Firsts { messages, .. } = self;
        messages
    }
}
