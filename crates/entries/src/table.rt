// SPDX-License-Identifier: Apache-2.0
//! The messages by name, each in an item that goes by a number.
ghost use Rattle.std.specs.Prelude.{◌≡◌, true, false, length, is_some, IsSome, Some, None, [], IfOk, OnErr};
ghost use Rattle.std.specs.Prelude.{MatchOption};
ghost use Rattle.std.specs.Option.{option_copied, option_map};
ghost use Rattle.std.specs.List.{IsDistinct};
ghost use Rattle.std.specs.Map.{lookup, keys_of};
ghost use Rattle.std.specs.Ordering.{eq_by_cmp};
ghost use Rattle.slab.specs.Slab.{get};
ghost use Rattle.entries.specs.Overlaid.{same_number};
ghost use Rattle.entries.specs.Table.{place_at, Joins, Leaves, item_at, name_at, items_of};
ghost use Rattle.entries.specs.Table.{GoesBy, IsTabled, KeepsNames, Takes, left_from};
ghost use Rattle.entries.specs.Slots.{JoinsItem, AddsItem, LeavesItem, Inserts};

use crate::item::Item;
use crate::leading::Leading;
use crate::parts::Parts;
use slab::Slab;
use std::alloc::{AllocError, Global};
use std::marker::Model;

/// What goes by a name.
pub trait Named: Drop {
    /// The name. Of those with equal names a table keeps the first.
    type Name: Copy + Ord + Leading;

    /// The own name.
    ghost name_of: { Self → Self.Name };

    /// Returns the own name. Does not allocate.
    fn name(&self) -> Self::Name
        ensures { result ≡ name_of self.now };
}

/// Where a message stands.
#[derive(Clone, Copy)]
pub struct Found {
    /// The number of its item.
    pub item: usize,
    /// The place of its entry on the list, if it had one.
    pub place: Option<usize>,
    /// Whether a message of its name was there.
    pub was_there: bool,
}

/// Each message once, under a number, and by list the place of its entry. A message has a place.
#[derive(Drop)]
pub struct Table<T: Named> {
    alloc: Global,
    items: Slab<Item<T>>,
    index: Parts<T::Name, usize>,
}

impl<T: Named> Model for Table<T> {
    ghost use Rattle.entries.specs.Table.{Tabled, IsTabled};

    ghost Value = { Tabled T.Name T };

    ghost view = { λ it. record { index = it.index; slots = it.items.slots } };

    ghost invariant = { λ it. IsTabled T.Name.cmp T.name_of
        (record { index = it.index; slots = it.items.slots }) };
}

impl<T: Named + Clone> Table<T> {
    /// Creates an empty table. Does not allocate.
    pub fn new(alloc: Global) -> Self
        ensures { result ≡ record { index = []; slots = [] } }
    {
        Table {
            alloc,
            items: Slab::new(alloc),
            index: Parts::new(alloc),
        }
    }

    /// Returns the number of messages.
    pub fn len(&self) -> usize
        ensures len { result ≡ length (items_of self.now) }
        ensures distinct { IsDistinct (eq_by_cmp T.Name.cmp) (keys_of (items_of self.now)) }
        ensures tabled { IsTabled T.Name.cmp T.name_of self.now }
    {
        self.index.len()
    }

    /// Returns the message of `name`.
    pub fn get(&self, name: &T::Name) -> Option<&T>
        ensures { option_copied result ≡ option_map (λ item. item.message)
            (lookup (eq_by_cmp T.Name.cmp name.now) (items_of self.now)) }
    {
        match self.index.get(name) {
            Some(item) => self.at(*item),
            None => None,
        }
    }

    /// Returns the message of an item.
    pub fn at(&self, item: usize) -> Option<&T>
        ensures { option_copied result
            ≡ option_map (λ found. found.message) (item_at self.now item) }
    {
        match self.items.get(item) {
            Some(found) => Some(found.message()),
            None => None,
        }
    }

    /// Returns the place of the list for the message, if it has one. Otherwise gives it this place,
    /// and caches a copy of the message if none of its name is there.
    ///
    /// A place that is there is returned without an allocation. On an allocation failure nothing
    /// changes.
    pub fn insert(&mut self, message: &T, list: usize, place: usize) -> Result<Found, AllocError>
        requires copies { (x y : T) → T.is_clone x y → y ≡ x }
        ensures place { IfOk result (λ found. found.place ≡ place_at (eq_by_cmp T.Name.cmp)
            same_number (items_of self.old) (T.name_of message.now) list) }
        ensures there { IfOk result (λ found. found.was_there ≡ is_some (lookup
            (eq_by_cmp T.Name.cmp (T.name_of message.now)) (items_of self.old))) }
        ensures item { IfOk result (λ found. GoesBy T.Name.cmp T.name_of
            (T.name_of message.now) self.new found.item) }
        ensures stays { IfOk result (λ found. IsSome found.place → self.new ≡ self.old) }
        ensures joined { IfOk result (λ found. found.place ≡ None
            → Joins (eq_by_cmp T.Name.cmp) same_number T.Name.cmp T.is_clone
            (T.name_of message.now) message.now list place (items_of self.old)
            (items_of self.new)) }
        ensures names { KeepsNames T.name_of self.old self.new }
        ensures fails_for_new_places { OnErr result (place_at (eq_by_cmp T.Name.cmp)
            same_number (items_of self.old) (T.name_of message.now) list ≡ None) }
        ensures err { OnErr result (self.new ≡ self.old) }
        ensures tabled { IsTabled T.Name.cmp T.name_of self.new }
    {
        insert(
            self.alloc,
            &mut self.items,
            &mut self.index,
            message,
            list,
            place,
        )
    }

    /// Removes the place of the list from an item, and the message with its last place. Returns the
    /// message if it leaves. Does not allocate.
    pub fn remove(&mut self, item: usize, list: usize) -> Option<T>
        ensures taken { Takes T.Name.cmp T.name_of item list self.old self.new }
        ensures left { result ≡ left_from item self.old self.new }
    {
        remove(&mut self.items, &mut self.index, item, list)
    }
}

/// Returns the place of the list for the message, or gives it one.
fn insert<T: Named + Clone>(
    alloc: Global,
    items: &mut Slab<Item<T>>,
    index: &mut Parts<T::Name, usize>,
    message: &T,
    list: usize,
    place: usize,
) -> Result<Found, AllocError>
    requires copies { (x y : T) → T.is_clone x y → y ≡ x }
    requires tabled { IsTabled T.Name.cmp T.name_of
        (record { index = index.old; slots = items.old.slots }) }
    ensures { Inserts T.Name.cmp T.name_of T.is_clone message.now list place result
        (record { index = index.old; slots = items.old.slots })
        (record { index = index.new; slots = items.new.slots }) }
{
    // The names ascend: so says `len`.
    let _names = index.len();
    let name = message.name();
    match index.find_or_insert(name, items.vacant_key()) {
        Ok(Some(item)) => join(items, item, list, place),
        Ok(None) => match add(alloc, items, message, list, place) {
            Ok(item) => Ok(Found {
                item,
                place: None,
                was_there: false,
            }),
            Err(refused) => {
                index.remove(&name);
                Err(refused)
            }
        },
        Err(refused) => Err(refused),
    }
}

/// Returns the place of the list in an item, or gives it one.
fn join<T: Drop>(
    items: &mut Slab<Item<T>>,
    item: usize,
    list: usize,
    place: usize,
) -> Result<Found, AllocError>
    requires { is_some (get items.old item) ≡ true }
    ensures { JoinsItem item list place result items.old.slots items.new.slots }
{
    match items.get_mut(item) {
        Some(found) => match found.join(list, place) {
            Ok(place) => Ok(Found {
                item,
                place,
                was_there: true,
            }),
            Err(refused) => Err(refused),
        },
        None => unreachable!(),
    }
}

/// Puts in an item with one place.
fn add<T: Clone + Drop>(
    alloc: Global,
    items: &mut Slab<Item<T>>,
    message: &T,
    list: usize,
    place: usize,
) -> Result<usize, AllocError>
    ensures ok { IfOk result (λ item. AddsItem T.is_clone message.now item list place
        items.old.slots items.new.slots) }
    ensures number { IfOk result (λ item. item ≡ items.old.vacant_key) }
    ensures err { OnErr result (items.new.slots ≡ items.old.slots) }
{
    items.reserve(1)?;
    let item = Item::new(alloc, message, list, place)?;
    Ok(items.insert_reserved(item))
}

/// Removes the place of the list from an item, and the message with its last place. Returns the
/// message if it leaves.
fn remove<T: Named>(
    items: &mut Slab<Item<T>>,
    index: &mut Parts<T::Name, usize>,
    item: usize,
    list: usize,
) -> Option<T>
    requires { IsTabled T.Name.cmp T.name_of
        (record { index = index.old; slots = items.old.slots }) }
    ensures taken { Takes T.Name.cmp T.name_of item list
        (record { index = index.old; slots = items.old.slots })
        (record { index = index.new; slots = items.new.slots }) }
    ensures left { result ≡ left_from item
        (record { index = index.old; slots = items.old.slots })
        (record { index = index.new; slots = items.new.slots }) }
{
    // The names ascend: so says `len`.
    let _names = index.len();
    if leave(items, item, list) {
        match items.try_remove(item) {
            Some(found) => {
                index.remove(&found.message().name());
                Some(found.into_message())
            }
            None => None,
        }
    } else {
        None
    }
}

/// Removes the place of the list from an item. Returns whether there is one, with no place left.
fn leave<T: Drop>(items: &mut Slab<Item<T>>, item: usize, list: usize) -> bool
    ensures { MatchOption (get items.old item)
        ((result ≡ false) × (items.new.slots ≡ items.old.slots))
        (λ was. LeavesItem item list was result items.old.slots items.new.slots) }
{
    match items.get_mut(item) {
        Some(found) => found.remove(list),
        None => false,
    }
}
