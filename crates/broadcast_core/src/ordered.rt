//! Keys of peers, sets of keys, and recipients.
ghost use Rattle.std.specs.Prelude.{◌≡◌, ◌==◌, true, refl, Some, List, [], length, is_some, IfSome, IfOk, OnOk, IsSomeAnd};
ghost use Rattle.std.specs.Cmp.Lexicographic.{pointwise, lists_per, lists_equiv, slice_cmp, nat_list_cmp_total, texts_po, texts_ties};
ghost use Rattle.std.specs.Cmp.{on_po, on_total};
ghost use Rattle.std.specs.Cmp.Rules.{comparing};
ghost use Rattle.std.specs.List.{AllZip, find, list_any, slice_get};
ghost use Rattle.std.specs.List.Sorted.{IsStrictlySortedBy};
ghost use Rattle.std.specs.Option.{option_copied};
ghost use Rattle.std.specs.Ordering.{eq_by_cmp, nat_cmp};
ghost use Rattle.std.proofs.Common.{rules};
ghost use Rattle.broadcast_core.specs.Stored.{AreBelow};
ghost use Rattle.entries.specs.Leads.{first_word, equal_words};

use crate::bytes32::{compare, write_hex};
use crate::items::Items;
use entries::Leading;
use std::alloc::{AllocError, Global};
use std::cmp::Ordering;
use std::fmt;
use std::hash::Hash;
use std::marker::Model;

/// The key of a peer. Keys that compare equal are the same key.
pub trait PublicKey: Clone + Ord + Eq + Hash + Leading + Drop {
    /// A copy of a key equals it.
    ghost copies: { (key copy : Self) → Self.is_clone key copy
        → eq_by_cmp Self.cmp key copy ≡ true };
}

impl PublicKey for u64 {
    ghost copies = { Prim.search rules };
}

/// A key of 32 bytes, compared byte by byte. It is laid out as these bytes.
#[repr(C)]
#[derive(Clone, Copy, PartialEq, Eq, Hash)]
pub struct Key {
    /// The bytes of the key.
    pub bytes: [u8; 32],
}

impl PartialOrd for Key {
    ghost partial_cmp = { λ x y. Some (slice_cmp nat_cmp x.bytes y.bytes) };

    ghost laws = { on_po (λ key. key.bytes) texts_po };

    fn partial_cmp(&self, other: &Self) -> Option<Ordering> {
        Some(self.cmp(other))
    }
}

impl Ord for Key {
    ghost cmp = { λ x y. slice_cmp nat_cmp x.bytes y.bytes };

    ghost total = { on_total (λ key. key.bytes) nat_list_cmp_total };

    ghost matches_partial_cmp = { λ x y. refl };

    ghost matches_eq = { λ x y. texts_ties x.bytes y.bytes };

    #[inline]
    fn cmp(&self, other: &Self) -> Ordering {
        compare(&self.bytes, &other.bytes)
    }
}

impl Leading for Key {
    ghost leading_of = { λ key. first_word key.bytes };

    ghost shared = { λ x y equal. equal_words x.bytes y.bytes equal };

    #[inline(always)]
    fn leading(&self) -> u64 {
        u64::from_le_bytes([
            self.bytes[0],
            self.bytes[1],
            self.bytes[2],
            self.bytes[3],
            self.bytes[4],
            self.bytes[5],
            self.bytes[6],
            self.bytes[7],
        ])
    }
}

impl PublicKey for Key {
    ghost copies = { Prim.search (comparing, rules) };
}

/// The bytes in lower-case hexadecimal.
impl fmt::Debug for Key {
    fn fmt<W: fmt::Write>(&self, f: &mut fmt::Formatter<W>) -> fmt::Result {
        write_hex(&self.bytes, f)
    }
}

/// The peers that a message is for.
#[derive(Clone, Debug, PartialEq, Eq, Drop)]
pub enum Recipients<P> {
    /// Every peer.
    All,
    /// These peers.
    Some(Items<P>),
    /// One peer.
    One(P),
}

/// A sorted set of keys.
#[derive(Drop)]
#[derive_where(Debug; P)]
pub struct Set<P: PublicKey> {
    keys: Items<P>,
}

impl<P: PublicKey> Model for Set<P> {
    ghost use Rattle.std.specs.Prelude.{List};
    ghost use Rattle.std.specs.List.Sorted.{IsStrictlySortedBy};

    ghost Value = { List P };

    ghost view = { λ set. set.keys };

    ghost invariant = { λ set. IsStrictlySortedBy P.cmp set.keys };
}

impl<P: PublicKey> Set<P> {
    /// Creates an empty set. Does not allocate.
    pub fn default(alloc: Global) -> Self
        ensures { result ≡ [] }
    {
        Set {
            keys: Items::new(alloc),
        }
    }

    /// Creates the set of `keys`. Of several equal keys it keeps the first.
    ///
    /// An `Err` is an allocation failure of the sort. Keys that are sorted already, with no repeat,
    /// are not sorted again.
    pub fn from_iter_dedup(mut keys: Vec<P>) -> Result<Self, AllocError>
        ensures members { IfOk result (λ set. (q : P)
            → list_any (eq_by_cmp P.cmp q) set ≡ list_any (eq_by_cmp P.cmp q) keys.items) }
        ensures first_of_equals { IfOk result (λ set. (q : P)
            → find (eq_by_cmp P.cmp q) set ≡ find (eq_by_cmp P.cmp q) keys.items) }
        ensures sorted { IfOk result (IsStrictlySortedBy P.cmp) }
    {
        sort_dedup(&mut keys)?;
        Ok(Set {
            keys: Items::from_vec(keys),
        })
    }

    /// Returns the position of the key that equals `key`. Does not allocate.
    pub fn position(&self, key: &P) -> Option<usize>
        ensures place { IfSome result (λ i. IsSomeAnd (slice_get self.now i)
            (λ q. eq_by_cmp P.cmp key.now q ≡ true)) }
        ensures some { is_some result ≡ list_any (eq_by_cmp P.cmp key.now) self.now }
    {
        place_of(self.keys.as_slice(), key)
    }

    /// Returns the place of the first key that is not below `key`, and whether it equals `key`. It
    /// looks on from `from`, so that sorted keys are found in one walk.
    pub(crate) fn seek(&self, from: usize, key: &P) -> (usize, bool)
        ensures { result.1 ≡ list_any (eq_by_cmp P.cmp key.now) self.now }
    {
        seek(self.keys.as_slice(), from, key)
    }

    /// Returns the keys, sorted.
    pub fn as_slice(&self) -> &[P]
        ensures keys { result.now ≡ self.now }
        ensures sorted { IsStrictlySortedBy P.cmp self.now }
    {
        self.keys.as_slice()
    }

    /// Returns the number of keys.
    pub fn len(&self) -> usize
        ensures len { result ≡ length self.now }
        ensures sorted { IsStrictlySortedBy P.cmp self.now }
    {
        self.keys.len()
    }

    /// Returns whether the set has no keys.
    pub fn is_empty(&self) -> bool
        ensures { result ≡ (length self.now == 0) }
    {
        self.len() == 0
    }

    /// Returns the key at position `i`, or `None` past the end.
    pub fn get(&self, i: usize) -> Option<&P>
        ensures { option_copied result ≡ slice_get self.now i }
    {
        self.keys.as_slice().get(i)
    }
}

impl<P: PublicKey> Clone for Set<P> {
    ghost is_clone = { λ set copy. AllZip P.is_clone set copy };

    /// Returns the set of clones of the keys.
    fn clone(&self) -> Result<Self, AllocError> {
        Ok(Set {
            keys: self.keys.clone()?,
        })
    }
}

impl<P: PublicKey> PartialEq for Set<P> {
    ghost eq = { pointwise P.eq };

    ghost laws = { lists_per P.PartialEq.laws };

    /// Returns whether both sets have the same keys.
    fn eq(&self, other: &Self) -> bool {
        self.keys == other.keys
    }
}

impl<P: PublicKey> Eq for Set<P> {
    ghost laws = { lists_equiv P.Eq.laws };
}

/// Sorts the keys and drops repeats.
fn sort_dedup<K: Ord + Drop>(keys: &mut Vec<K>) -> Result<(), AllocError>
    ensures members { OnOk result ((q : K) → list_any (eq_by_cmp K.cmp q) keys.new.items
        ≡ list_any (eq_by_cmp K.cmp q) keys.old.items) }
    ensures first_of_equals { OnOk result ((q : K) → find (eq_by_cmp K.cmp q) keys.new.items
        ≡ find (eq_by_cmp K.cmp q) keys.old.items) }
    ensures sorted { OnOk result (IsStrictlySortedBy K.cmp keys.new.items) }
{
    if rises(keys) {
        return Ok(());
    }
    keys.sort()?;
    keys.dedup();
    Ok(())
}

/// Returns whether the keys are sorted, with no repeat.
fn rises<K: Ord>(keys: &[K]) -> bool
    ensures sorted { result ≡ true → IsStrictlySortedBy K.cmp keys.now }
{
    let mut i = 1;
    while i < keys.len() {
        if !keys[i - 1].cmp(&keys[i]).is_lt() {
            return false;
        }
        i += 1;
    }
    true
}

/// Returns the position of the key in sorted keys.
fn place_of<K: Ord>(keys: &[K], key: &K) -> Option<usize>
    requires { IsStrictlySortedBy K.cmp keys.now }
    ensures place { IfSome result (λ i. IsSomeAnd (slice_get keys.now i)
        (λ q. eq_by_cmp K.cmp key.now q ≡ true)) }
    ensures some { is_some result ≡ list_any (eq_by_cmp K.cmp key.now) keys.now }
{
    keys.binary_search(key).ok()
}

/// Returns the first place whose key is not below `key`, and whether that key equals it.
fn seek<K: Ord>(keys: &[K], from: usize, key: &K) -> (usize, bool)
    requires { IsStrictlySortedBy K.cmp keys.now }
    ensures { result.1 ≡ list_any (eq_by_cmp K.cmp key.now) keys.now }
{
    let mut at = start(keys, from, key);
    while at < keys.len() {
        match keys[at].cmp(key) {
            Ordering::Less => at += 1,
            Ordering::Equal => return (at, true),
            Ordering::Greater => return (at, false),
        }
    }
    (at, false)
}

/// Returns `from` if the keys before it are below `key`, and else 0.
fn start<K: Ord>(keys: &[K], from: usize, key: &K) -> usize
    requires { IsStrictlySortedBy K.cmp keys.now }
    ensures { AreBelow K.cmp keys.now key.now result }
{
    if from == 0 || from > keys.len() {
        return 0;
    }
    match keys[from - 1].cmp(key) {
        Ordering::Less => from,
        _ => 0,
    }
}
