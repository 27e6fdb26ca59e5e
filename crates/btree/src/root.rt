//! The tree: its root, and how many pairs there are.
ghost use Rattle.std.specs.Prelude.{◌≡◌, ◌+◌, ◌*◌, ◌-◌, ◌^◌, ◌<◌, ◌≤◌, ◌==◌, [], length, map, reverse, not, true, false, cond, is_some, None, Some, IsSome, IfSome, IfOk, IfErr, OnOk, OnErr, IsOk};
ghost use Rattle.std.specs.Option.{option_map};
ghost use Rattle.std.specs.List.{filter, find};
ghost use Rattle.std.specs.FinMap.Entries as entries;
ghost use Rattle.btree.specs.Order.{Ascends, Each, IsAfter, find_last, without};
ghost use Rattle.btree.specs.Parts.{IsSure};
ghost use Rattle.btree.specs.Rows.{IsSize};
ghost use Rattle.btree.specs.Stretch.{IsStretch};
ghost use Rattle.btree.specs.Values.{emptied};

use crate::backward::WalkBack;
use crate::forward::Walk;
use crate::node::Node;
use crate::node::values::empty_node;
use crate::seek::Point;
use crate::trail::Trail;
use crate::vacant::Vacant;
use std::alloc::{AllocError, AllocFailed, Global};
use std::marker::Model;

/// A map whose keys are in order.
#[derive(Drop)]
pub struct Tree<K: Ord, V> {
    root: Node<K, V>,
    len: usize,
}

impl<K: Ord, V> Model for Tree<K, V> {
    ghost use Rattle.std.specs.Prelude.{◌≡◌, ◌<◌, ◌^◌, length};
    ghost use Rattle.btree.specs.Tree.{Content, content_code, content_of, IsRoot};

    ghost Value = { Content K V };

    ghost coded = { content_code K.code V.code };

    ghost view = { λ t. content_of t.root };

    ghost invariant = { λ t. IsRoot K.cmp t.root × (t.len ≡ length t.root.pairs) × (t.root.height < 16) };
}

impl<K: Ord, V> Tree<K, V> {
    /// A tree with no pairs. It takes no memory.
    pub fn new(alloc: Global) -> Tree<K, V>
        ensures empty { result.pairs ≡ [] }
        ensures depth { result.depth ≡ 1 }
    {
        Tree {
            root: Node::empty(alloc),
            len: 0,
        }
    }

    /// How many pairs there are.
    ///
    /// Its clauses say what holds of every tree: keys rise, each node but the root has 16 to 32 pairs or separators,
    /// and a tree of some depth has at least so many pairs.
    pub fn len(&self) -> usize
        ensures len { result ≡ length self.now.pairs }
        ensures ascends { Ascends K.cmp self.now.pairs }
        ensures sorted { entries.is_sorted K.cmp self.now.pairs ≡ true }
        ensures sizes { Each IsSize self.now.sizes }
        ensures wide { 1 < self.now.depth → 2 * 16 ^ (self.now.depth - 1) ≤ length self.now.pairs }
    {
        let _root = &self.root;
        self.len
    }

    /// Whether there are no pairs.
    pub fn is_empty(&self) -> bool
        ensures { result ≡ (length self.now.pairs == 0) }
    {
        self.len() == 0
    }

    /// The value of a key, and how many nodes were visited: one a level, down to the key, or to a leaf where it isn't there.
    pub fn get(&self, key: &K) -> (Option<&V>, usize)
        ensures found { option_map (λ v. v.now) result.0 ≡ entries.find K.cmp key.now self.now.pairs }
        ensures visited { (1 ≤ result.1) × (result.1 ≤ self.now.depth) }
        ensures missed { result.0 ≡ None → result.1 ≡ self.now.depth }
    {
        let (value, trail) = self.look_up(key);
        (value, trail.visits())
    }

    /// The value of a key, and where its look-up went.
    pub fn look_up(&self, key: &K) -> (Option<&V>, Trail)
        ensures found { option_map (λ v. v.now) result.0 ≡ entries.find K.cmp key.now self.now.pairs }
        ensures visited { (1 ≤ result.1.visits) × (result.1.visits ≤ self.now.depth) }
        ensures missed { result.0 ≡ None → result.1.visits ≡ self.now.depth }
    {
        let mut trail = Trail::new();
        let found = self.root.get(key, &mut trail);
        (found, trail)
    }

    /// Whether a key isn't there, told by the pair that a trail leads to and the one next to it, in two comparisons and one
    /// more: then the trail leads to where the key goes, as that of its look-up would. Where it answers `false` the key may be
    /// there or not.
    pub fn misses_beside(&self, key: &K, trail: &mut Trail) -> bool
        ensures missed { result ≡ true → entries.find K.cmp key.now self.now.pairs ≡ None }
    {
        self.root.misses_beside(key, trail)
    }

    /// The first pair whose key does not stand before a point, and how many nodes were visited: one a level, and one more on
    /// levels below the root where the leaf that the point leads to ends before it.
    pub fn first_from<P: Point<K>>(&self, point: &P) -> (Option<(&K, &V)>, usize)
        ensures found { option_map (λ p. (p.0.now, p.1.now)) result.0 ≡ find (λ e. not (P.before point.now e.0)) self.now.pairs }
        ensures visited { (self.now.depth ≤ result.1) × (result.1 + 1 ≤ 2 * self.now.depth) }
    {
        let mut visits = 0;
        let found = self.root.first_from(point, &mut visits);
        (found, visits)
    }

    /// The last pair whose key stands before a point, and how many nodes were visited: one a level, and one more on levels
    /// below the root where the leaf that the point leads to begins behind it.
    pub fn last_before<P: Point<K>>(&self, point: &P) -> (Option<(&K, &V)>, usize)
        ensures found { option_map (λ p. (p.0.now, p.1.now)) result.0 ≡ find_last (λ e. P.before point.now e.0) self.now.pairs }
        ensures visited { (self.now.depth ≤ result.1) × (result.1 + 1 ≤ 2 * self.now.depth) }
    {
        let mut visits = 0;
        let found = self.root.last_before(point, &mut visits);
        (found, visits)
    }
}

impl<K: Ord, V> Tree<K, V> {
    /// How many levels of nodes there are, 1 to 16. A tree whose root is a leaf has 1.
    pub fn depth(&self) -> usize
        ensures depth { result ≡ self.now.depth }
        ensures most { self.now.depth ≤ 16 }
    {
        self.root.height() + 1
    }

    /// All pairs in order, where they stand side by side in memory: in a tree of one level. Up to 32 pairs always do. It takes no memory.
    pub fn as_row(&self) -> Option<&[(K, V)]>
        ensures row { IfSome result (λ row. row.now ≡ self.now.pairs) }
        ensures deep { result ≡ None → 1 < self.now.depth }
        ensures many { result ≡ None → 32 < length self.now.pairs }
    {
        let (entries, _, kids) = self.root.rows();
        if kids.is_empty() { Some(entries) } else { None }
    }

    /// A walk over all pairs in order. It takes no memory.
    pub fn iter(&self) -> Walk<'_, K, V>
        ensures { result ≡ self.now.pairs }
    {
        Walk::over(&self.root)
    }

    /// A walk in order over the pairs that do not stand before a point. It takes no memory.
    pub fn from<P: Point<K>>(&self, point: &P) -> Walk<'_, K, V>
        ensures { result ≡ filter (λ e. not (P.before point.now e.0)) self.now.pairs }
    {
        Walk::from(&self.root, point)
    }

    /// A walk over the pairs that stand before a point, the last one first. It takes no memory.
    pub fn back_from<P: Point<K>>(&self, point: &P) -> WalkBack<'_, K, V>
        ensures { result ≡ reverse (filter (λ e. P.before point.now e.0) self.now.pairs) }
    {
        WalkBack::from(&self.root, point)
    }
}

impl<K: Ord + Drop, V: Drop> Tree<K, V> {
    /// Sets the value of a key that is there, and gives the one before. It takes no memory.
    ///
    /// Where the key isn't there nothing has changed, and the value comes back.
    pub fn replace(&mut self, key: &K, value: V) -> Result<V, V>
        ensures before { IfOk result (λ before. entries.find K.cmp key.now self.old.pairs ≡ Some before) }
        ensures put { IfOk result (λ _. self.new.pairs ≡ entries.put K.cmp key.now value self.old.pairs) }
        ensures depth { IfOk result (λ _. self.new.depth ≡ self.old.depth) }
        ensures handed_back { IfErr result (λ back. back ≡ value) }
        ensures missed { OnErr result (entries.find K.cmp key.now self.old.pairs ≡ None) }
        ensures kept { OnErr result (self.new ≡ self.old) }
    {
        self.root.replace(key, value)
    }

    /// Takes out the pair of a key, and gives its value, where nothing but its leaf changes: that keeps 16 others, and
    /// the next of them doesn't stand before a point. So no pair after the key's stands before that point. Takes no
    /// memory.
    ///
    /// Where it gives none nothing has changed, and the key may be there or not.
    pub fn take_alone<P: Point<K>>(&mut self, key: &K, past: &P) -> Option<V>
        ensures value { IfSome result (λ value. entries.find K.cmp key.now self.old.pairs ≡ Some value) }
        ensures pairs { IsSome result → self.new.pairs ≡ without K.cmp key.now self.old.pairs }
        ensures alone { IsSome result → Each (λ e. IsAfter K.cmp key.now e → P.before past.now e.0 ≡ false) self.old.pairs }
        ensures depth { (self.new.depth ≤ self.old.depth) × (self.old.depth ≤ self.new.depth + 1) }
        ensures missed { result ≡ None → self.new ≡ self.old }
    {
        match self.root.take_alone(key, past) {
            Some(value) => {
                self.root.fall();
                self.len -= 1;
                Some(value)
            }
            None => None,
        }
    }

    /// Takes out all pairs. It takes no memory, and keeps a row for the root.
    pub fn clear(&mut self)
        ensures empty { self.new.pairs ≡ [] }
        ensures depth { self.new.depth ≡ 1 }
    {
        self.root.clear();
        self.len = 0;
    }
}

impl<K: Ord + Clone, V: Drop> Tree<K, V> {
    /// Sets the value of a key, and gives the one before. A key that ties with a stored one leaves that one in its
    /// place.
    ///
    /// Refused where there is no memory, or no number for one pair more: then nothing has changed, and both come back.
    /// Memory is taken on the way down, before the first change, and only where a node on the way is full. That a node
    /// which it has filled gives pairs to its neighbour takes none.
    pub fn insert(
        &mut self,
        alloc: Global,
        key: K,
        value: V,
    ) -> Result<Option<V>, AllocFailed<(K, V)>>
        ensures before { IfOk result (λ before. before ≡ entries.find K.cmp key self.old.pairs) }
        ensures put { IfOk result (λ _. self.new.pairs ≡ entries.put K.cmp key value self.old.pairs) }
        ensures depth { IfOk result (λ _. (self.old.depth ≤ self.new.depth) × (self.new.depth ≤ self.old.depth + 1)) }
        ensures handed_back { IfErr result (λ refused. refused.value ≡ (key, value)) }
        ensures refused { OnErr result (self.new ≡ self.old) }
    {
        self.insert_splitting(alloc, key, value, &Trail::new())
    }

    // As `insert_by`, by way of each node on the way down, which is split or eased where that is due.
    #[inline(never)]
    fn insert_splitting(
        &mut self,
        alloc: Global,
        key: K,
        value: V,
        trail: &Trail,
    ) -> Result<Option<V>, AllocFailed<(K, V)>>
        ensures before { IfOk result (λ before. before ≡ entries.find K.cmp key self.old.pairs) }
        ensures put { IfOk result (λ _. self.new.pairs ≡ entries.put K.cmp key value self.old.pairs) }
        ensures depth { IfOk result (λ _. (self.old.depth ≤ self.new.depth) × (self.new.depth ≤ self.old.depth + 1)) }
        ensures handed_back { IfErr result (λ refused. refused.value ≡ (key, value)) }
        ensures refused { OnErr result (self.new ≡ self.old) }
    {
        if self.len == usize::MAX {
            return Err(AllocFailed {
                value: (key, value),
            });
        }
        let Ok((separators, kids)) = self.root.rows_above(alloc) else {
            return Err(AllocFailed {
                value: (key, value),
            });
        };
        let (before, beside) = self.root.insert(alloc, key, value, trail, 0)?;
        self.len += 1 - count(&before);
        if let Some(beside) = beside {
            self.root.rise(alloc, separators, kids, beside);
        }
        Ok(before)
    }

    /// Sets the value of a key as `insert` does, by the trail of a look-up of this key. Where that missed it, and its leaf has
    /// places left, two comparisons in all tell its place; else there are two in each node. With any other trail it does the
    /// same and only takes longer.
    pub fn insert_by(
        &mut self,
        alloc: Global,
        key: K,
        value: V,
        trail: &Trail,
    ) -> Result<Option<V>, AllocFailed<(K, V)>>
        ensures before { IfOk result (λ before. before ≡ entries.find K.cmp key self.old.pairs) }
        ensures put { IfOk result (λ _. self.new.pairs ≡ entries.put K.cmp key value self.old.pairs) }
        ensures depth { IfOk result (λ _. (self.old.depth ≤ self.new.depth) × (self.new.depth ≤ self.old.depth + 1)) }
        ensures handed_back { IfErr result (λ refused. refused.value ≡ (key, value)) }
        ensures refused { OnErr result (self.new ≡ self.old) }
    {
        if self.len == usize::MAX {
            return Err(AllocFailed {
                value: (key, value),
            });
        }
        match self.root.put_in_leaf(key, value, trail) {
            Ok(()) => {
                self.len += 1;
                Ok(None)
            }
            Err((key, value)) => self.insert_splitting(alloc, key, value, trail),
        }
    }

    /// Takes out the pair of a key, and gives its value.
    ///
    /// Memory is taken only where a leaf gets pairs from another: for a copy of a key, which parts the two from then on.
    /// Refused where there is none for it: then nothing has changed. Where copies of the keys are sure it is never refused.
    pub fn remove(&mut self, key: &K) -> Result<Option<V>, AllocError>
        ensures value { IfOk result (λ value. value ≡ entries.find K.cmp key.now self.old.pairs) }
        ensures pairs { OnOk result (self.new.pairs ≡ without K.cmp key.now self.old.pairs) }
        ensures depth { OnOk result ((self.new.depth ≤ self.old.depth) × (self.old.depth ≤ self.new.depth + 1)) }
        ensures refused { OnErr result (self.new ≡ self.old) }
        ensures sure { Each (λ e. IsSure K.cmp K.is_clone K.is_infallible e.0) self.old.pairs → IsOk result }
    {
        let value = self.root.remove(key)?;
        self.root.fall();
        self.len -= count(&value);
        Ok(value)
    }

    /// Takes out a stretch of the pairs that are not before one point and are before another: those of one leaf, up to 32. Tells
    /// how many: none only where there are none.
    ///
    /// Memory is taken only where a leaf gets pairs from another: for a copy of a key, which parts the two from then on.
    /// Refused where there is none for it: then nothing has changed. Where copies of the keys are sure it is never refused.
    pub fn take_stretch<P: Point<K>, Q: Point<K>>(
        &mut self,
        from: &P,
        to: &Q,
    ) -> Result<usize, AllocError>
        ensures stretch { IfOk result (λ count. IsStretch (P.before from.now) (Q.before to.now) self.old.pairs count self.new.pairs) }
        ensures depth { OnOk result ((self.new.depth ≤ self.old.depth) × (self.old.depth ≤ self.new.depth + 1)) }
        ensures refused { OnErr result (self.new ≡ self.old) }
        ensures sure { Each (λ e. IsSure K.cmp K.is_clone K.is_infallible e.0) self.old.pairs → IsOk result }
    {
        let count = self.root.take_stretch(from, to)?;
        self.root.fall();
        self.len -= count;
        Ok(count)
    }
}

impl<K: Ord + Drop, V: Vacant + Drop> Tree<K, V> {
    /// Takes the values of the pairs that are not before one point and are before another: the keys stay, and each has the value
    /// that stands for none. It takes no memory.
    pub fn empty_between<P: Point<K>, Q: Point<K>>(&mut self, from: &P, to: &Q)
        ensures pairs { self.new.pairs ≡ map (emptied V.none (P.before from.now) (Q.before to.now)) self.old.pairs }
        ensures depth { self.new.depth ≡ self.old.depth }
    {
        empty_node(&mut self.root, from, to);
    }
}

// How many values there are.
fn count<V>(value: &Option<V>) -> usize
    ensures { result ≡ cond (is_some value.now) 1 0 }
{
    match value {
        None => 0,
        Some(_) => 1,
    }
}
