//! The map, its look-ups and its changes.
ghost use Rattle.std.specs.Prelude.{◌≡◌, ◌+◌, ◌-◌, ◌<◌, ◌^◌, [], length, reverse, not, true, false, cond, is_some, None, Some, IsSome, IfSome, IfOk, IfErr, OnOk, OnErr};
ghost use Rattle.std.specs.Option.{option_map};
ghost use Rattle.std.specs.List.{filter, find};
ghost use Rattle.std.specs.FinMap.{IsAntisymmetric};
ghost use Rattle.std.specs.FinMap.Entries as entries;
ghost use Rattle.btree.specs.Order.{Each, IsAfter, find_last, without};
ghost use Rattle.btree.specs.Parts.{IsSure};
ghost use Rattle.steady_map.specs.Shown.{shown, hidden_keys, joined as joined_spec, pair_of, others, is_between, HaveAll};

use crate::walk::{Walk, WalkBack};
use btree::{Point, Trail, Tree};
use std::alloc::{AllocFailed, Global};
use std::marker::Model;

/// A map whose keys are in order.
#[derive(Drop)]
pub struct SteadyMap<K: Ord, V> {
    tree: Tree<K, Option<V>>,
    len: usize,
}

impl<K: Ord, V> Model for SteadyMap<K, V> {
    ghost use Rattle.std.specs.Prelude.{◌≡◌, length};
    ghost use Rattle.steady_map.specs.Shown.{Seen, seen_code, shown, hidden_keys};

    ghost Value = { Seen K V };

    ghost coded = { seen_code K.code V.code };

    ghost view = { λ m. record { pairs = shown m.tree.pairs; hidden = hidden_keys m.tree.pairs } };

    ghost invariant = { λ m. m.len ≡ length (shown m.tree.pairs) };
}

impl<K: Ord, V> SteadyMap<K, V> {
    /// A map without pairs. Takes no memory.
    pub fn new(alloc: Global) -> SteadyMap<K, V>
        ensures empty { result.pairs ≡ [] }
        ensures hidden { result.hidden ≡ [] }
    {
        SteadyMap {
            tree: Tree::new(alloc),
            len: 0,
        }
    }

    /// How many pairs there are. Its keys rise.
    pub fn len(&self) -> usize
        ensures len { result ≡ length self.now.pairs }
        ensures sorted { entries.is_sorted K.cmp self.now.pairs ≡ true }
    {
        let _count = self.tree.len();
        self.len
    }

    /// The value of a key, and how many nodes were visited.
    pub fn get(&self, key: &K) -> (Option<&V>, usize)
        ensures found { option_map (λ v. v.now) result.0 ≡ entries.find K.cmp key.now self.now.pairs }
    {
        let (value, trail) = self.look_up(key);
        (value, trail.visits())
    }

    /// The value of a key, and where its look-up went.
    pub fn look_up(&self, key: &K) -> (Option<&V>, Trail)
        ensures found { option_map (λ v. v.now) result.0 ≡ entries.find K.cmp key.now self.now.pairs }
    {
        let _count = self.tree.len();
        let (found, trail) = self.tree.look_up(key);
        (as_shown(found), trail)
    }

    /// Whether a key isn't there, told as the tree's `misses_beside` tells it. Where it answers `false` the key may be there or
    /// not.
    pub fn misses_beside(&self, key: &K, trail: &mut Trail) -> bool
        ensures missed { result ≡ true → entries.find K.cmp key.now self.now.pairs ≡ None }
    {
        let _count = self.tree.len();
        self.tree.misses_beside(key, trail)
    }

    /// The first pair whose key does not stand before a point, and how many nodes were visited.
    pub fn first_from<P: Point<K>>(&self, point: &P) -> (Option<(&K, &V)>, usize)
        ensures found { option_map (λ p. (p.0.now, p.1.now)) result.0 ≡ find (λ e. not (P.before point.now e.0)) self.now.pairs }
    {
        let (found, visits) = self.tree.first_from(point);
        let Some((key, held)) = found else {
            return (None, visits);
        };
        let pair = pair_shown(key, held);
        if pair.is_some() {
            return (pair, visits);
        }
        (self.from(point).next(), visits)
    }

    /// The last pair whose key stands before a point, and how many nodes were visited.
    pub fn last_before<P: Point<K>>(&self, point: &P) -> (Option<(&K, &V)>, usize)
        ensures found { option_map (λ p. (p.0.now, p.1.now)) result.0 ≡ find_last (λ e. P.before point.now e.0) self.now.pairs }
    {
        let (found, visits) = self.tree.last_before(point);
        let Some((key, held)) = found else {
            return (None, visits);
        };
        let pair = pair_shown(key, held);
        if pair.is_some() {
            return (pair, visits);
        }
        (self.back_from(point).next(), visits)
    }

    /// All pairs, and the hidden ones, where they stand side by side in memory. It takes no memory.
    pub fn as_row(&self) -> Option<&[(K, Option<V>)]>
        ensures row { IfSome result (λ row. shown row.now ≡ self.now.pairs) }
    {
        self.tree.as_row()
    }

    /// A walk over all pairs in order. It takes no memory.
    pub fn iter(&self) -> Walk<'_, K, V>
        ensures { result ≡ self.now.pairs }
    {
        let _count = self.tree.len();
        Walk::over(self.tree.iter())
    }

    /// A walk in order over the pairs that do not stand before a point. It takes no memory.
    pub fn from<P: Point<K>>(&self, point: &P) -> Walk<'_, K, V>
        ensures { result ≡ filter (λ e. not (P.before point.now e.0)) self.now.pairs }
    {
        let _count = self.tree.len();
        Walk::over(self.tree.from(point))
    }

    /// A walk over the pairs that stand before a point, the last one first. It takes no memory.
    pub fn back_from<P: Point<K>>(&self, point: &P) -> WalkBack<'_, K, V>
        ensures { result ≡ reverse (filter (λ e. P.before point.now e.0) self.now.pairs) }
    {
        WalkBack::over(self.tree.back_from(point))
    }
}

impl<K: Ord + Drop, V: Drop> SteadyMap<K, V> {
    /// Sets the value of a key that is there, and gives the one before. It takes no memory.
    ///
    /// Where the key isn't there nothing has changed, and the value comes back.
    pub fn replace(&mut self, key: &K, value: V) -> Result<V, V>
        ensures before { IfOk result (λ before. entries.find K.cmp key.now self.old.pairs ≡ Some before) }
        ensures put { IfOk result (λ _. self.new.pairs ≡ entries.put K.cmp key.now value self.old.pairs) }
        ensures hidden { self.new.hidden ≡ self.old.hidden }
        ensures handed_back { IfErr result (λ back. back ≡ value) }
        ensures missed { OnErr result (entries.find K.cmp key.now self.old.pairs ≡ None) }
        ensures kept { OnErr result (self.new ≡ self.old) }
    {
        let _count = self.tree.len();
        if self.look_up(key).0.is_none() {
            return Err(value);
        }
        match self.tree.replace(key, Some(value)) {
            Ok(Some(before)) => Ok(before),
            Ok(None) => unreachable!(),
            Err(_) => unreachable!(),
        }
    }

    /// Takes out the pair of a key, and gives its value, where the tree takes it out of its leaf alone: no pair after
    /// the key's stands before the point then. Takes no memory, and hides no key.
    ///
    /// Where it gives none all pairs are left, and the key may be there or not; one that was hidden may be gone.
    pub fn take_alone<P: Point<K>>(&mut self, key: &K, past: &P) -> Option<V>
        ensures value { IfSome result (λ value. entries.find K.cmp key.now self.old.pairs ≡ Some value) }
        ensures pairs { IsSome result → self.new.pairs ≡ without K.cmp key.now self.old.pairs }
        ensures alone { IsSome result → Each (λ e. IsAfter K.cmp key.now e → P.before past.now e.0 ≡ false) self.old.pairs }
        ensures missed { result ≡ None → self.new.pairs ≡ self.old.pairs }
        ensures others { others K.cmp key.now self.new.hidden ≡ others K.cmp key.now self.old.hidden }
    {
        let _count = self.tree.len();
        let taken = take_from_leaf(&mut self.tree, key, past);
        self.len -= count(&taken);
        taken
    }

    /// Takes out all pairs, and the hidden ones. It takes no memory.
    pub fn clear(&mut self)
        ensures empty { self.new.pairs ≡ [] }
        ensures hidden { self.new.hidden ≡ [] }
    {
        self.tree.clear();
        self.len = 0;
    }
}

impl<K: Ord + Clone, V: Drop> SteadyMap<K, V> {
    /// Sets the value of a key, and gives the one before. What the pairs are then is told of keys of which those that tie are
    /// one key: else a hidden key may stay in the place of one that ties with it.
    ///
    /// The key isn't hidden after it. Refused where there is no memory: then nothing has changed, and both come back.
    pub fn insert(
        &mut self,
        alloc: Global,
        key: K,
        value: V,
    ) -> Result<Option<V>, AllocFailed<(K, V)>>
        ensures before { IfOk result (λ before. before ≡ entries.find K.cmp key self.old.pairs) }
        ensures put { IfOk result (λ _. IsAntisymmetric K.cmp → self.new.pairs ≡ entries.put K.cmp key value self.old.pairs) }
        ensures hidden { OnOk result (self.new.hidden ≡ others K.cmp key self.old.hidden) }
        ensures handed_back { IfErr result (λ refused. refused.value ≡ (key, value)) }
        ensures refused { OnErr result (self.new ≡ self.old) }
    {
        self.insert_by(alloc, key, value, &Trail::new())
    }

    /// Sets the value of a key as `insert` does, by the trail of a look-up of this key. With any other trail it does the same
    /// and only takes longer.
    pub fn insert_by(
        &mut self,
        alloc: Global,
        key: K,
        value: V,
        trail: &Trail,
    ) -> Result<Option<V>, AllocFailed<(K, V)>>
        ensures before { IfOk result (λ before. before ≡ entries.find K.cmp key self.old.pairs) }
        ensures put { IfOk result (λ _. IsAntisymmetric K.cmp → self.new.pairs ≡ entries.put K.cmp key value self.old.pairs) }
        ensures hidden { OnOk result (self.new.hidden ≡ others K.cmp key self.old.hidden) }
        ensures handed_back { IfErr result (λ refused. refused.value ≡ (key, value)) }
        ensures refused { OnErr result (self.new ≡ self.old) }
    {
        let _count = self.tree.len();
        match self.tree.insert_by(alloc, key, Some(value), trail) {
            Ok(before) => {
                let before = joined(before);
                let _most = self.tree.len();
                self.len += 1 - count(&before);
                Ok(before)
            }
            Err(refused) => {
                let (key, value) = refused.value;
                match value {
                    Some(value) => Err(AllocFailed {
                        value: (key, value),
                    }),
                    None => unreachable!(),
                }
            }
        }
    }

    /// Takes out the pair of a key, also where it is hidden, and gives its value. It is never refused. No other key is hidden or
    /// shown by it, and where copies of all keys are sure it hides none.
    pub fn remove(&mut self, key: &K) -> Option<V>
        ensures value { result ≡ entries.find K.cmp key.now self.old.pairs }
        ensures pairs { self.new.pairs ≡ without K.cmp key.now self.old.pairs }
        ensures sure { HaveAll (IsSure K.cmp K.is_clone K.is_infallible) self.old → self.new.hidden ≡ others K.cmp key.now self.old.hidden }
        ensures others { others K.cmp key.now self.new.hidden ≡ others K.cmp key.now self.old.hidden }
    {
        let _count = self.tree.len();
        let value = take_or_hide(&mut self.tree, key);
        self.len -= count(&value);
        value
    }

    /// Takes out the pairs that do not stand before one point and stand before another, also the hidden ones, a leaf's at once. It
    /// takes no memory but for copies of keys, and is never refused. No other key is hidden or shown by it, and where copies of all
    /// keys are sure it hides none.
    pub fn remove_between<P: Point<K>, Q: Point<K>>(&mut self, from: &P, to: &Q)
        ensures pairs { self.new.pairs ≡ filter (λ e. not (is_between (P.before from.now) (Q.before to.now) e.0)) self.old.pairs }
        ensures sure { HaveAll (IsSure K.cmp K.is_clone K.is_infallible) self.old → self.new.hidden ≡ filter (λ k. not (is_between (P.before from.now) (Q.before to.now) k)) self.old.hidden }
        ensures others { filter (λ k. not (is_between (P.before from.now) (Q.before to.now) k)) self.new.hidden ≡ filter (λ k. not (is_between (P.before from.now) (Q.before to.now) k)) self.old.hidden }
    {
        let _count = self.tree.len();
        let gone = count_before(self.from(from), to);
        take_or_hide_between(&mut self.tree, from, to);
        self.len -= gone;
    }
}

// How many of the pairs that are left stand before a point.
fn count_before<K: Ord, V, Q: Point<K>>(walk: Walk<'_, K, V>, to: &Q) -> usize
    requires sorted { entries.is_sorted K.cmp walk ≡ true }
    requires few { length walk < 2 ^ 64 }
    ensures { result ≡ length (filter (λ e. Q.before to.now e.0) walk.entry) }
{
    let mut count = 0;
    for (key, _) in walk {
        if !to.is_after(key) {
            return count;
        }
        count += 1;
    }
    count
}

// Takes out the pairs that do not stand before one point and stand before another, a leaf's at once. Where that is refused
// memory, those that are left are hidden.
fn take_or_hide_between<K: Ord + Clone, V: Drop, P: Point<K>, Q: Point<K>>(
    tree: &mut Tree<K, Option<V>>,
    from: &P,
    to: &Q,
)
    ensures pairs { shown tree.new.pairs ≡ filter (λ e. not (is_between (P.before from.now) (Q.before to.now) e.0)) (shown tree.old.pairs) }
    ensures sure { Each (λ e. IsSure K.cmp K.is_clone K.is_infallible e.0) tree.old.pairs → tree.new.pairs ≡ filter (λ e. not (is_between (P.before from.now) (Q.before to.now) e.0)) tree.old.pairs }
    ensures others { filter (λ k. not (is_between (P.before from.now) (Q.before to.now) k)) (hidden_keys tree.new.pairs) ≡ filter (λ k. not (is_between (P.before from.now) (Q.before to.now) k)) (hidden_keys tree.old.pairs) }
{
    'run: loop {
        match tree.take_stretch(from, to) {
            Ok(count) => {
                if count == 0 {
                    return;
                }
            }
            Err(_) => {
                tree.empty_between(from, to);
                return;
            }
        }
    }
}

// Takes out the pair of a key where it is taken out of its leaf alone, and answers the value that was shown.
fn take_from_leaf<K: Ord + Drop, V: Drop, P: Point<K>>(
    tree: &mut Tree<K, Option<V>>,
    key: &K,
    past: &P,
) -> Option<V>
    requires sorted { entries.is_sorted K.cmp tree.old.pairs ≡ true }
    ensures value { IfSome result (λ value. entries.find K.cmp key.now (shown tree.old.pairs) ≡ Some value) }
    ensures pairs { IsSome result → shown tree.new.pairs ≡ without K.cmp key.now (shown tree.old.pairs) }
    ensures alone { IsSome result → Each (λ e. IsAfter K.cmp key.now e → P.before past.now e.0 ≡ false) (shown tree.old.pairs) }
    ensures missed { result ≡ None → shown tree.new.pairs ≡ shown tree.old.pairs }
    ensures others { others K.cmp key.now (hidden_keys tree.new.pairs) ≡ others K.cmp key.now (hidden_keys tree.old.pairs) }
{
    joined(tree.take_alone(key, past))
}

// Takes out the pair of a key, or hides it where that is refused memory.
fn take_or_hide<K: Ord + Clone, V: Drop>(tree: &mut Tree<K, Option<V>>, key: &K) -> Option<V>
    requires sorted { entries.is_sorted K.cmp tree.old.pairs ≡ true }
    ensures value { result ≡ entries.find K.cmp key.now (shown tree.old.pairs) }
    ensures pairs { shown tree.new.pairs ≡ without K.cmp key.now (shown tree.old.pairs) }
    ensures sure { Each (λ e. IsSure K.cmp K.is_clone K.is_infallible e.0) tree.old.pairs → tree.new.pairs ≡ without K.cmp key.now tree.old.pairs }
    ensures others { others K.cmp key.now (hidden_keys tree.new.pairs) ≡ others K.cmp key.now (hidden_keys tree.old.pairs) }
{
    match tree.remove(key) {
        Ok(value) => joined(value),
        Err(_) => match tree.replace(key, None) {
            Ok(value) => value,
            Err(_) => None,
        },
    }
}

// The value that is there, if there is one.
fn joined<V: Drop>(value: Option<Option<V>>) -> Option<V>
    ensures { result ≡ joined_spec value }
{
    match value {
        None => None,
        Some(value) => value,
    }
}

// The value that is found, if there is one.
fn as_shown<V>(found: Option<&Option<V>>) -> Option<&V>
    ensures { option_map (λ v. v.now) result ≡ joined_spec (option_map (λ v. v.now) found.entry) }
{
    match found {
        None => None,
        Some(held) => held.as_ref(),
    }
}

// The pair of a key and its value, if it has one.
fn pair_shown<'a, K, V>(key: &'a K, held: &'a Option<V>) -> Option<(&'a K, &'a V)>
    ensures { option_map (λ p. (p.0.now, p.1.now)) result ≡ pair_of key.now held.now }
{
    match held {
        None => None,
        Some(value) => Some((key, value)),
    }
}

// How many values there are.
fn count<V>(value: &Option<V>) -> usize
    ensures { result ≡ cond (is_some value.now) 1 0 }
{
    match value {
        None => 0,
        Some(_) => 1,
    }
}
