//! A few entries of a map, in no order.
ghost use Rattle.std.specs.Prelude.{◌≡◌, ◌<◌, ◌≤◌, ◌-◌, ◌∷◌, ◌++◌, [], length, IfOk, OnOk, OnErr, None, IsSome};
ghost use Rattle.std.specs.Prelude.{not, nat_eq, vec_len, vec_capacity};
ghost use Rattle.std.specs.List.{filter};
ghost use Rattle.std.specs.Map.{lookup};
ghost use Rattle.std.specs.Option.{option_copied};
ghost use Rattle.std.specs.Ordering.{eq_by_cmp};
ghost use Rattle.entries.specs.Parts.{number, spread};

use crate::leading::Leading;
use std::alloc::{AllocError, Global};
use std::marker::Model;
use std::mem;

/// A few entries, which are searched from end to end.
#[derive(Drop)]
pub struct Bucket<K: Leading + Drop, V: Copy> {
    entries: Vec<(K, V)>,
}

/// Contracts see the entries.
impl<K: Leading + Drop, V: Copy> Model for Bucket<K, V> {
    ghost use Rattle.std.specs.Prelude.{List};

    ghost Value = { List (K × V) };

    ghost view = { λ it. it.entries.items };
}

impl<K: Leading + Drop, V: Copy> Bucket<K, V> {
    /// Creates an empty bucket. Does not allocate.
    pub fn new(alloc: Global) -> Self
        ensures { result ≡ [] }
    {
        Bucket {
            entries: Vec::new(alloc),
        }
    }

    /// Returns the number of entries.
    pub fn len(&self) -> usize
        ensures { result ≡ length self.now }
    {
        self.entries.len()
    }

    /// Returns the value of `key`.
    #[inline(always)]
    pub fn get(&self, key: &K) -> Option<&V>
        ensures { option_copied result ≡ lookup (eq_by_cmp K.cmp key.now) self.now }
    {
        value_among(&self.entries, key)
    }

    /// Puts in an entry. On an allocation failure nothing changes.
    pub fn push(&mut self, key: K, value: V) -> Result<(), AllocError>
        ensures ok { OnOk result (self.new ≡ self.old ++ (key, value) ∷ []) }
        ensures err { OnErr result (self.new ≡ self.old) }
    {
        self.entries.reserve_exact(1)?;
        self.entries.push((key, value))?;
        Ok(())
    }

    /// Removes `key`, and returns its value.
    pub fn remove(&mut self, key: &K) -> Option<V>
        ensures value { result ≡ lookup (eq_by_cmp K.cmp key.now) self.old }
        ensures stays { result ≡ None → self.new ≡ self.old }
        ensures removed { IsSome result
            → self.new ≡ filter (λ e. not (eq_by_cmp K.cmp key.now e.0)) self.old }
    {
        let value = *value_among(&self.entries, key)?;
        self.entries.retain(|entry| !key.cmp(&entry.0).is_eq());
        Some(value)
    }

    /// Moves the entries whose keys go to the last of so many buckets to a new one. On an
    /// allocation failure nothing changes.
    pub fn split(&mut self, alloc: Global, bits: u32, buckets: usize) -> Result<Self, AllocError>
        requires bits { bits < 32 }
        requires some { 0 < buckets }
        ensures kept { OnOk result (self.new ≡ filter (λ e. not (nat_eq
            (number bits buckets (spread (K.leading_of e.0))) (buckets - 1))) self.old) }
        ensures moved { IfOk result (λ moved. moved ≡ filter (λ e. nat_eq
            (number bits buckets (spread (K.leading_of e.0))) (buckets - 1)) self.old) }
        ensures err { OnErr result (self.new ≡ self.old) }
    {
        let len = self.entries.len();
        let mut kept = Vec::with_capacity(alloc, len)?;
        let mut moved = Vec::with_capacity(alloc, len)?;
        let entries = mem::replace(&mut self.entries, Vec::new(alloc));
        divide(entries, bits, buckets, &mut kept, &mut moved);
        kept.shrink_to_fit();
        moved.shrink_to_fit();
        self.entries = kept;
        Ok(Bucket { entries: moved })
    }
}

/// Returns the value of `key` among the entries.
#[inline(always)]
fn value_among<'a, K: Ord, V: Copy>(entries: &'a [(K, V)], key: &K) -> Option<&'a V>
    ensures { option_copied result ≡ lookup (eq_by_cmp K.cmp key.now) entries.now }
{
    for (other, value) in entries {
        if key.cmp(other).is_eq() {
            return Some(value);
        }
    }
    None
}

/// Moves the entries whose keys go to the last of so many buckets to one vector, and the others to
/// another. Both have room.
fn divide<K: Leading + Drop, V: Copy>(
    entries: Vec<(K, V)>,
    bits: u32,
    buckets: usize,
    kept: &mut Vec<(K, V)>,
    moved: &mut Vec<(K, V)>,
)
    requires bits { bits < 32 }
    requires some { 0 < buckets }
    requires empty { (kept.old.items ≡ []) × (moved.old.items ≡ []) }
    requires kept_room { vec_len entries ≤ vec_capacity kept.old }
    requires moved_room { vec_len entries ≤ vec_capacity moved.old }
    ensures kept { kept.new.items ≡ filter (λ e. not (nat_eq
        (number bits buckets (spread (K.leading_of e.0))) (buckets - 1))) entries.items }
    ensures moved { moved.new.items ≡ filter (λ e. nat_eq
        (number bits buckets (spread (K.leading_of e.0))) (buckets - 1)) entries.items }
{
    let mut rest = entries.into_iter();
    while let Some(entry) = rest.next() {
        if place_of(bits, buckets, entry.0.leading()) == buckets - 1 {
            moved.push_reserved(entry);
        } else {
            kept.push_reserved(entry);
        }
    }
}

/// Returns the bucket of the keys with a word, of so many.
#[inline(always)]
pub fn place_of(bits: u32, buckets: usize, word: u64) -> usize
    requires { bits < 32 }
    ensures { result ≡ number bits buckets (spread word) }
{
    let spread = (word.wrapping_mul(0x9e37_79b9_7f4a_7c15) >> 32) as usize;
    let wide = spread & ((2 << bits) - 1);
    if wide < buckets {
        wide
    } else {
        spread & ((1 << bits) - 1)
    }
}
