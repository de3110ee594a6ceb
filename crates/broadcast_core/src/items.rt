//! A list that contracts see as its elements.
ghost use Rattle.std.specs.Prelude.{◌≡◌, ◌==◌, List, [], ◌∷◌, ◌++◌, length, OnOk, IfErr};
ghost use Rattle.std.specs.Cmp.Lexicographic.{pointwise, lists_per, lists_equiv};
ghost use Rattle.std.specs.Fn.{CalledAt};
ghost use Rattle.std.specs.List.{AllZip};
ghost use Rattle.std.specs.List.Retain.{IsFiltered};
ghost use Rattle.std.specs.Slice.Iter.{iter_rest};
ghost use Rattle.std.specs.Vec.Iter.{into_iter_items};

use std::alloc::{AllocError, AllocFailed, Global};
use std::marker::Model;
use std::{slice, vec};

/// A vector that contracts see as the list of its elements, without its capacity: two of them are
/// the same if their elements are. Only `clone` and `push` allocate.
#[derive(Debug, Drop)]
pub struct Items<T> {
    elements: Vec<T>,
}

impl<T> Model for Items<T> {
    ghost Value = { List T };

    ghost view = { λ items. items.elements.items };
}

impl<T> Items<T> {
    /// Creates an empty list.
    pub fn new(alloc: Global) -> Self
        ensures { result ≡ [] }
    {
        Items {
            elements: Vec::new(alloc),
        }
    }

    /// Creates a list of the elements.
    pub fn from_vec(elements: Vec<T>) -> Self
        ensures { result ≡ elements.items }
    {
        Items { elements }
    }

    /// Returns the elements as a vector.
    pub fn into_vec(self) -> Vec<T>
        ensures { result.items ≡ self }
    {
        let Items { elements } = self;
        elements
    }

    /// Returns the number of elements.
    pub fn len(&self) -> usize
        ensures { result ≡ length self.now }
    {
        self.elements.len()
    }

    /// Returns whether the list has no elements.
    pub fn is_empty(&self) -> bool
        ensures { result ≡ (length self.now == 0) }
    {
        self.elements.is_empty()
    }

    /// Returns the elements, in order.
    pub fn as_slice(&self) -> &[T]
        ensures { result.now ≡ self.now }
    {
        &self.elements
    }

    /// Returns an iterator over the elements, in order.
    pub fn iter(&self) -> slice::Iter<'_, T>
        ensures { iter_rest result ≡ self.now }
    {
        self.elements.iter()
    }

    /// Appends an element. On an allocation failure the element is returned and nothing changes.
    pub(crate) fn push(&mut self, element: T) -> Result<(), AllocFailed<T>>
        ensures ok { OnOk result (self.new ≡ self.old ++ element ∷ []) }
        ensures err { IfErr result (λ refused. (refused.value ≡ element) × (self.new ≡ self.old)) }
    {
        self.elements.push(element)
    }

    /// Keeps the elements for which `keep` returns true, in order.
    pub(crate) fn retain<F: FnMut(&T) -> bool>(&mut self, keep: F)
    where
        T: Drop,
        requires { F.IsAlwaysCallable keep }
        ensures { IsFiltered (CalledAt F.FnMut) keep self.old self.new }
    {
        self.elements.retain(keep)
    }
}

impl<T: Clone> Clone for Items<T> {
    ghost is_clone = { λ items copy. AllZip T.is_clone items copy };

    /// Returns a list of clones of the elements, in order.
    fn clone(&self) -> Result<Self, AllocError> {
        Ok(Items {
            elements: self.elements.clone()?,
        })
    }
}

impl<T: PartialEq> PartialEq for Items<T> {
    ghost eq = { pointwise T.eq };

    ghost laws = { lists_per T.laws };

    /// Returns whether both lists have equal elements in the same order.
    fn eq(&self, other: &Self) -> bool {
        self.elements == other.elements
    }
}

impl<T: Eq> Eq for Items<T> {
    ghost laws = { lists_equiv T.Eq.laws };
}

impl<T> From<Vec<T>> for Items<T> {
    ghost from_gives = { λ elements items. items ≡ elements.items };

    fn from(elements: Vec<T>) -> Self {
        Items { elements }
    }
}

impl<'a, T> IntoIterator for &'a Items<T> {
    type Item = &'a T;

    type IntoIter = slice::Iter<'a, T>;

    ghost into_iter_gives = { λ items it. iter_rest it ≡ items.now };

    fn into_iter(self) -> Self::IntoIter {
        self.iter()
    }
}

impl<T: Drop> IntoIterator for Items<T> {
    type Item = T;

    type IntoIter = vec::IntoIter<T>;

    ghost into_iter_gives = { λ items it. into_iter_items it ≡ items };

    fn into_iter(self) -> Self::IntoIter {
        self.into_vec().into_iter()
    }
}
