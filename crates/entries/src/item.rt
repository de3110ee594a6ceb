//! A message with the places of its entries.
ghost use Rattle.std.specs.Prelude.{◌≡◌, true, [], ◌∷◌, ◌++◌, List, Some, None, MatchBool, OnOk, OnErr, IfOk};
ghost use Rattle.std.specs.Prelude.{IsSome, is_some, if◌then◌else◌, ℕ};
ghost use Rattle.std.specs.Map.{lookup};
ghost use Rattle.entries.specs.Overlaid.{same_number};
ghost use Rattle.entries.specs.Placed.{all_places, near_place as near_of, Adds, Leaves};

use crate::near::Near;
use std::alloc::{AllocError, Global};
use std::collections::BTreeMap;
use std::marker::Model;

/// The most places that stand in a vector, which is searched from end to end.
const FEW: usize = 8;

/// A message, with the place of its entry by list.
///
/// Four places stand beside the others, so that a message with up to four needs no allocation.
#[derive(Drop)]
pub struct Item<T: Drop> {
    message: T,
    first: Near,
    second: Near,
    third: Near,
    fourth: Near,
    few: Vec<(usize, usize)>,
    others: BTreeMap<usize, usize>,
}

impl<T: Drop> Model for Item<T> {
    ghost use Rattle.std.specs.Prelude.{ℕ, ◌++◌};
    ghost use Rattle.entries.specs.Placed.{Placed, all_places};

    ghost Value = { Placed ℕ T };

    ghost view = { λ it. record {
      message = it.message;
      places = all_places it.first it.second it.third it.fourth
          (it.few.items ++ it.others.entries);
    } };
}

impl<T: Drop> Item<T> {
    /// Creates a copy of a message, with one place.
    pub fn new(alloc: Global, message: &T, list: usize, place: usize) -> Result<Self, AllocError>
    where
        T: Clone,
        ensures message { IfOk result (λ item. T.is_clone message.now item.message) }
        ensures places { IfOk result (λ item. item.places ≡ (list, place) ∷ []) }
    {
        let message = message.clone()?;
        let mut few = Vec::new(alloc);
        if Near::reaches(list, place) {
            return Ok(Item {
                message,
                first: Near::to(list, place),
                second: Near::none(),
                third: Near::none(),
                fourth: Near::none(),
                few,
                others: BTreeMap::new(alloc),
            });
        }
        few.push((list, place))?;
        Ok(Item {
            message,
            first: Near::none(),
            second: Near::none(),
            third: Near::none(),
            fourth: Near::none(),
            few,
            others: BTreeMap::new(alloc),
        })
    }

    /// Returns the message.
    pub fn message(&self) -> &T
        ensures { result.now ≡ self.now.message }
    {
        &self.message
    }

    /// Returns the message, and drops the places.
    pub fn into_message(self) -> T
        ensures { result ≡ self.message }
    {
        let Item { message, .. } = self;
        message
    }

    /// Returns the place of the list.
    pub fn place(&self, list: usize) -> Option<usize>
        ensures { result ≡ lookup (same_number list) self.now.places }
    {
        match near_place(&self.first, &self.second, &self.third, &self.fourth, list) {
            Some(place) => Some(place),
            None => far_place(&self.few, &self.others, list),
        }
    }

    // Adds the place of a list that has none. On an allocation failure nothing changes.
    fn add(&mut self, list: usize, place: usize) -> Result<(), AllocError>
        requires { lookup (same_number list) self.old.places ≡ None }
        ensures message { self.new.message ≡ self.old.message }
        ensures places { OnOk result (Adds same_number list place
            self.old.places self.new.places) }
        ensures err { OnErr result (self.new ≡ self.old) }
    {
        if Near::reaches(list, place) {
            if self.first.is_none() {
                self.first = Near::to(list, place);
                return Ok(());
            }
            if self.second.is_none() {
                self.second = Near::to(list, place);
                return Ok(());
            }
            if self.third.is_none() {
                self.third = Near::to(list, place);
                return Ok(());
            }
            if self.fourth.is_none() {
                self.fourth = Near::to(list, place);
                return Ok(());
            }
        }
        add_far(&mut self.few, &mut self.others, list, place)?;
        Ok(())
    }

    /// Returns the place of the list, if it has one, and changes nothing. Otherwise gives it this
    /// place. On an allocation failure nothing changes.
    pub fn join(&mut self, list: usize, place: usize) -> Result<Option<usize>, AllocError>
        ensures message { self.new.message ≡ self.old.message }
        ensures found { IfOk result (λ found. found
            ≡ lookup (same_number list) self.old.places) }
        ensures stays { IfOk result (λ found. IsSome found → self.new ≡ self.old) }
        ensures places { IfOk result (λ found. found ≡ None → (q : ℕ)
            → lookup (same_number q) self.new.places ≡ (if same_number list q then Some place
            else lookup (same_number q) self.old.places)) }
        ensures fails_for_new_places { OnErr result
            (lookup (same_number list) self.old.places ≡ None) }
        ensures err { OnErr result (self.new ≡ self.old) }
    {
        match self.place(list) {
            Some(found) => Ok(Some(found)),
            None => {
                self.add(list, place)?;
                Ok(None)
            }
        }
    }

    /// Removes the place of the list. Returns whether none is left. Does not allocate.
    pub fn remove(&mut self, list: usize) -> bool
        ensures message { self.new.message ≡ self.old.message }
        ensures places { (q : ℕ) → lookup (same_number q) self.new.places
            ≡ (if same_number list q then None else lookup (same_number q) self.old.places) }
        ensures empty { MatchBool result (self.new.places ≡ []) (self.new.places ≡ [] → ⊥) }
    {
        self.first.drop_of(list);
        self.second.drop_of(list);
        self.third.drop_of(list);
        self.fourth.drop_of(list);
        drop_far(&mut self.few, &mut self.others, list);
        if none_near(&self.first, &self.second, &self.third, &self.fourth) {
            none_far(&self.few, &self.others)
        } else {
            false
        }
    }
}

/// Returns the place of the list among those in front.
fn near_place(
    first: &Near,
    second: &Near,
    third: &Near,
    fourth: &Near,
    list: usize,
) -> Option<usize>
    ensures { result ≡ near_of (same_number list) first.now second.now third.now fourth.now }
{
    if let Some(place) = first.of(list) {
        return Some(place);
    }
    if let Some(place) = second.of(list) {
        return Some(place);
    }
    if let Some(place) = third.of(list) {
        return Some(place);
    }
    fourth.of(list)
}

/// Returns whether there is no place in front.
fn none_near(first: &Near, second: &Near, third: &Near, fourth: &Near) -> bool
    ensures { let places = all_places first.now second.now third.now fourth.now in
        MatchBool result ((others : List (ℕ × ℕ)) → places others ≡ others)
        ((others : List (ℕ × ℕ)) → places others ≡ [] → ⊥) }
{
    first.is_none() && second.is_none() && third.is_none() && fourth.is_none()
}

/// Returns the place of the list among those behind.
fn far_place(few: &[(usize, usize)], others: &BTreeMap<usize, usize>, list: usize) -> Option<usize>
    ensures { result ≡ lookup (same_number list) (few.now ++ others.now.entries) }
{
    if let Some(place) = place_among(few, list) {
        return Some(place);
    }
    others.get(&list).copied()
}

/// Adds the place of a list that has none there. On an allocation failure nothing changes.
fn add_far(
    few: &mut Vec<(usize, usize)>,
    others: &mut BTreeMap<usize, usize>,
    list: usize,
    place: usize,
) -> Result<(), AllocError>
    requires { lookup (same_number list) (few.old.items ++ others.old.entries) ≡ None }
    ensures ok { OnOk result (Adds same_number list place
        (few.old.items ++ others.old.entries) (few.new.items ++ others.new.entries)) }
    ensures err { OnErr result (few.new.items ++ others.new.entries
        ≡ few.old.items ++ others.old.entries) }
{
    if few.len() < FEW {
        few.push((list, place))?;
    } else {
        others.insert(list, place)?;
    }
    Ok(())
}

/// Drops the place of the list from those behind.
fn drop_far(few: &mut Vec<(usize, usize)>, others: &mut BTreeMap<usize, usize>, list: usize)
    ensures { Leaves same_number list
        (few.old.items ++ others.old.entries) (few.new.items ++ others.new.entries) }
{
    if few.is_empty() && others.is_empty() {
        return;
    }
    drop_among(few, list);
    others.remove(&list);
}

/// Returns whether there is no place behind.
#[tactic(auto, using(crate::proofs::Items::last_left, crate::proofs::Items::few_left))]
fn none_far(few: &[(usize, usize)], others: &BTreeMap<usize, usize>) -> bool
    ensures { let places = few.now ++ others.now.entries in
        MatchBool result (places ≡ []) (places ≡ [] → ⊥) }
{
    few.is_empty() && others.is_empty()
}

/// Returns the place of the list among the places.
fn place_among(places: &[(usize, usize)], list: usize) -> Option<usize>
    ensures { result ≡ lookup (same_number list) places.now }
{
    for (owner, place) in places {
        if list.cmp(owner).is_eq() {
            return Some(*place);
        }
    }
    None
}

/// Drops the place of the list from the places.
fn drop_among(places: &mut Vec<(usize, usize)>, list: usize)
    ensures { (q : ℕ) → lookup (same_number q) places.new.items ≡ (if
        same_number list q then None else lookup (same_number q) places.old.items) }
{
    places.retain(|entry| !list.cmp(&entry.0).is_eq());
}
