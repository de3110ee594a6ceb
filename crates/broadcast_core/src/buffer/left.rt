//! The messages that left a cache.
ghost use Rattle.std.specs.Prelude.{◌≡◌, ◌++◌, ◌∷◌, [], if◌then◌else◌, OnOk, IfSome, Some, None, unwrap_or, length};
ghost use Rattle.std.specs.Option.{option_map, option_to_list};
ghost use Rattle.std.specs.Ordering.{eq_by_cmp};
ghost use Rattle.entries.specs.Table.{items_of, messages_of, Takes};
ghost use Rattle.broadcast_core.specs.Left.{Adds, HasRoom};

use crate::digested::{Digested, Digestible};
use entries::Table;
use std::alloc::{AllocError, Global};
use std::marker::Model;

/// The messages that left a cache, if they are kept, until somebody asks for them.
#[derive(Drop)]
pub struct Left<M: Digestible> {
    kept: Option<Vec<Digested<M>>>,
}

impl<M: Digestible> Model for Left<M> {
    ghost use Rattle.std.specs.Prelude.{unwrap_or, vec_capacity};
    ghost use Rattle.std.specs.Option.{option_map};
    ghost use Rattle.broadcast_core.specs.Carried.{Carried};
    ghost use Rattle.broadcast_core.specs.Left.{Left};

    ghost Value = { Left (Carried M M.Digest) };

    ghost view = { λ it. record {
      items = option_map (λ kept. kept.items) it.kept;
      room = unwrap_or (option_map (λ kept. vec_capacity kept) it.kept) 0;
    } };
}

impl<M: Digestible> Left<M> {
    ghost use Rattle.broadcast_core.specs.Left.{HasRoom, Widens};

    /// Creates one that keeps each message, or none. Does not allocate.
    pub fn new(alloc: Global, is_on: bool) -> Self
        ensures { result.items ≡ (if is_on then Some [] else None) }
    {
        Left {
            kept: if is_on { Some(Vec::new(alloc)) } else { None },
        }
    }

    /// Returns the number of messages.
    pub fn len(&self) -> usize
        ensures { result ≡ unwrap_or (option_map length self.now.items) 0 }
    {
        match &self.kept {
            Some(kept) => kept.len(),
            None => 0,
        }
    }

    /// Makes room for `more` messages. The messages stay.
    pub fn make_room(&mut self, more: usize) -> Result<(), AllocError>
        ensures stays { Widens self.old self.new }
        ensures room { OnOk result (HasRoom more self.new) }
    {
        match &mut self.kept {
            Some(kept) => kept.reserve(more),
            None => Ok(()),
        }
    }

    /// Puts a message behind the others. Does not allocate.
    pub fn push(&mut self, message: Digested<M>)
        requires { HasRoom 1 self.old }
        ensures added { self.new.items ≡ option_map (λ xs. xs ++ message ∷ []) self.old.items }
        ensures room { self.new.room ≡ self.old.room }
    {
        if let Some(kept) = &mut self.kept {
            kept.push_reserved(message);
        }
    }

    /// Removes the newest message, and returns it.
    pub fn pop(&mut self) -> Option<Digested<M>>
        ensures removed { self.old.items
            ≡ option_map (λ xs. xs ++ option_to_list result) self.new.items }
        ensures empty { result ≡ None → IfSome self.old.items (λ xs. xs ≡ []) }
        ensures room { self.new.room ≡ self.old.room }
    {
        match &mut self.kept {
            Some(kept) => kept.pop(),
            None => None,
        }
    }
}

/// Removes the place of the list from an item. A message that leaves with its last place is added
/// to `left`.
pub fn leave<M: Digestible>(
    table: &mut Table<Digested<M>>,
    item: usize,
    list: usize,
    left: &mut Left<M>,
)
    requires { HasRoom (length (messages_of (items_of table.old))) left.old }
    ensures taken { Takes M.Digest.cmp (λ m. m.digest) item list table.old table.new }
    ensures left { Adds (eq_by_cmp M.Digest.cmp) (messages_of (items_of table.old))
        (messages_of (items_of table.new)) left.old.items left.new.items }
    ensures room { HasRoom (length (messages_of (items_of table.new))) left.new }
{
    // The names differ: so says `len`.
    let _names = table.len();
    if let Some(message) = table.remove(item, list) {
        left.push(message);
    }
}
