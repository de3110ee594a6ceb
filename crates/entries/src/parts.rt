//! A map in buckets, which the leading word of a key chooses. Their number grows with the map.
ghost use Rattle.std.specs.Prelude.{◌≡◌, ◌<◌, ℕ, [], length, None, IsSome, vec_len, vec_capacity};
ghost use Rattle.std.specs.Prelude.{IfOk, OnErr, OnOk};
ghost use Rattle.std.specs.Option.{option_copied};
ghost use Rattle.std.specs.List.Sorted.{IsStrictlySortedBy};
ghost use Rattle.std.specs.Map.{lookup, keys_of, remove_entry};
ghost use Rattle.std.specs.BTreeMap.{insert_entry};
ghost use Rattle.std.specs.Ordering.{eq_by_cmp};
ghost use Rattle.entries.specs.Parts.{gathered, number, AreBuckets};

use crate::bucket::{Bucket, place_of};
use crate::leading::Leading;
use std::alloc::{AllocError, Global};
use std::collections::BTreeMap;
use std::marker::Model;

/// How many entries a bucket has at most. Of buckets with four entries on average, one in a
/// thousand has as many.
const FULL: usize = 12;

/// How many entries there are to a bucket before one more is made.
const LOAD: usize = 2;

/// The most bits that choose a bucket: one more than these are looked at, of a half word.
const BITS: u32 = 31;

/// A map in buckets by the leading word of a key. An entry whose bucket is full goes to an ordered
/// map. As the map grows, one bucket after another is split in two. A new map has no bucket yet.
#[derive(Drop)]
pub struct Parts<K: Leading + Drop, V: Copy> {
    alloc: Global,
    /// How many bits choose a bucket, if there is none for one bit more.
    bits: u32,
    buckets: Vec<Bucket<K, V>>,
    more: BTreeMap<K, V>,
    len: usize,
}

/// Contracts see the entries, in the order of the keys.
impl<K: Leading + Drop, V: Copy> Model for Parts<K, V> {
    ghost use Rattle.std.specs.Prelude.{List};
    ghost use Rattle.entries.specs.Parts.{gathered, IsParted};

    ghost Value = { List (K × V) };

    ghost view = { λ it. gathered K.cmp it.more.entries it.buckets.items };

    ghost invariant = { λ it. IsParted K.cmp K.leading_of it.bits it.buckets.items
        it.more.entries it.len };
}

impl<K: Leading + Drop, V: Copy> Parts<K, V> {
    /// Creates an empty map. Does not allocate.
    pub fn new(alloc: Global) -> Self
        ensures { result ≡ [] }
    {
        Parts {
            alloc,
            bits: 0,
            buckets: Vec::new(alloc),
            more: BTreeMap::new(alloc),
            len: 0,
        }
    }

    /// Returns the number of keys.
    pub fn len(&self) -> usize
        ensures len { result ≡ length self.now }
        ensures ordered { IsStrictlySortedBy K.cmp (keys_of self.now) }
    {
        self.len
    }

    /// Returns the value of `key`.
    pub fn get(&self, key: &K) -> Option<&V>
        ensures value { option_copied result ≡ lookup (eq_by_cmp K.cmp key.now) self.now }
    {
        let place = place_of(self.bits, self.buckets.len(), key.leading());
        match self.buckets.get(place) {
            Some(bucket) => match bucket.get(key) {
                Some(value) => Some(value),
                None => self.more.get(key),
            },
            None => self.more.get(key),
        }
    }

    /// Returns the value of `key`. Otherwise puts in this one.
    ///
    /// A key that is there needs no allocation. On an allocation failure nothing changes.
    pub fn find_or_insert(&mut self, key: K, value: V) -> Result<Option<V>, AllocError>
        ensures found { IfOk result (λ found. found ≡ lookup (eq_by_cmp K.cmp key) self.old) }
        ensures stays { IfOk result (λ found. IsSome found → self.new ≡ self.old) }
        ensures inserted { IfOk result (λ found. found ≡ None
            → self.new ≡ insert_entry K.cmp self.old key value) }
        ensures fails_for_new_keys { OnErr result (lookup (eq_by_cmp K.cmp key) self.old ≡ None) }
        ensures err { OnErr result (self.new ≡ self.old) }
    {
        if let Some(found) = self.get(&key) {
            return Ok(Some(*found));
        }
        // One key more could not be counted.
        if self.len == usize::MAX {
            return Err(AllocError);
        }
        grow(
            self.alloc,
            &mut self.bits,
            &mut self.buckets,
            &self.more,
            self.len,
        );
        insert(self.bits, &mut self.buckets, &mut self.more, key, value)?;
        self.len += 1;
        Ok(None)
    }

    /// Removes `key`, and returns its value. Does not allocate.
    pub fn remove(&mut self, key: &K) -> Option<V>
        ensures value { result ≡ lookup (eq_by_cmp K.cmp key.now) self.old }
        ensures removed { self.new ≡ remove_entry (eq_by_cmp K.cmp key.now) self.old }
    {
        match remove(self.bits, &mut self.buckets, &mut self.more, key) {
            Some(value) => {
                self.len -= 1;
                Some(value)
            }
            None => None,
        }
    }
}

/// Puts in an entry whose key is not there. On an allocation failure nothing changes.
fn insert<K: Leading + Drop, V: Copy>(
    bits: u32,
    buckets: &mut Vec<Bucket<K, V>>,
    more: &mut BTreeMap<K, V>,
    key: K,
    value: V,
) -> Result<(), AllocError>
    requires are { AreBuckets K.cmp K.leading_of bits buckets.old.items more.old.entries }
    requires new { lookup (eq_by_cmp K.cmp key)
        (gathered K.cmp more.old.entries buckets.old.items) ≡ None }
    ensures ok { OnOk result (gathered K.cmp more.new.entries buckets.new.items ≡ insert_entry
        K.cmp (gathered K.cmp more.old.entries buckets.old.items) key value) }
    ensures err { OnErr result (gathered K.cmp more.new.entries buckets.new.items
        ≡ gathered K.cmp more.old.entries buckets.old.items) }
    ensures are { AreBuckets K.cmp K.leading_of bits buckets.new.items more.new.entries }
{
    let place = place_of(bits, buckets.len(), key.leading());
    if place < buckets.len() && buckets[place].len() < FULL {
        return buckets[place].push(key, value);
    }
    more.insert(key, value)?;
    Ok(())
}

/// Removes a key, and returns its value.
fn remove<K: Leading + Drop, V: Copy>(
    bits: u32,
    buckets: &mut Vec<Bucket<K, V>>,
    more: &mut BTreeMap<K, V>,
    key: &K,
) -> Option<V>
    requires { AreBuckets K.cmp K.leading_of bits buckets.old.items more.old.entries }
    ensures value { result ≡ lookup (eq_by_cmp K.cmp key.now)
        (gathered K.cmp more.old.entries buckets.old.items) }
    ensures removed { gathered K.cmp more.new.entries buckets.new.items ≡ remove_entry
        (eq_by_cmp K.cmp key.now) (gathered K.cmp more.old.entries buckets.old.items) }
    ensures are { AreBuckets K.cmp K.leading_of bits buckets.new.items more.new.entries }
{
    let place = place_of(bits, buckets.len(), key.leading());
    if place >= buckets.len() {
        return more.remove(key);
    }
    match buckets[place].remove(key) {
        Some(value) => Some(value),
        None => more.remove(key),
    }
}

/// Makes one bucket more, if there are many entries to a bucket. Without memory nothing changes.
fn grow<K: Leading + Drop, V: Copy>(
    alloc: Global,
    bits: &mut u32,
    buckets: &mut Vec<Bucket<K, V>>,
    more: &BTreeMap<K, V>,
    len: usize,
)
    requires { AreBuckets K.cmp K.leading_of bits.old buckets.old.items more.now.entries }
    ensures same { gathered K.cmp more.now.entries buckets.new.items
        ≡ gathered K.cmp more.now.entries buckets.old.items }
    ensures are { AreBuckets K.cmp K.leading_of bits.new buckets.new.items more.now.entries }
{
    let count = buckets.len();
    if len / LOAD >= count && buckets.reserve(1).is_ok() {
        *bits = widened(*bits, count);
        split(alloc, *bits, buckets, more);
    }
}

/// Returns the bits for one bucket more.
fn widened(bits: u32, buckets: usize) -> u32
    requires { bits < 32 }
    ensures small { result < 32 }
    ensures same { (word : ℕ) → number result buckets word ≡ number bits buckets word }
{
    if bits < BITS && buckets == 2 << bits {
        bits + 1
    } else {
        bits
    }
}

/// Makes one bucket more, which gets entries of another. Without memory nothing changes.
fn split<K: Leading + Drop, V: Copy>(
    alloc: Global,
    bits: u32,
    buckets: &mut Vec<Bucket<K, V>>,
    more: &BTreeMap<K, V>,
)
    requires are { AreBuckets K.cmp K.leading_of bits buckets.old.items more.now.entries }
    requires room { vec_len buckets.old < vec_capacity buckets.old }
    ensures same { gathered K.cmp more.now.entries buckets.new.items
        ≡ gathered K.cmp more.now.entries buckets.old.items }
    ensures are { AreBuckets K.cmp K.leading_of bits buckets.new.items more.now.entries }
{
    let count = buckets.len();
    if count == 0 {
        buckets.push_reserved(Bucket::new(alloc));
        return;
    }
    let from = count & ((1 << bits) - 1);
    if from < count {
        if let Ok(bucket) = buckets[from].split(alloc, bits, count + 1) {
            buckets.push_reserved(bucket);
        }
    }
}
