//! A walk over pairs against their order, from leaf row to leaf row. It keeps what is left of each inner node on its way down,
//! and takes no memory.
ghost use Rattle.std.specs.Prelude.{◌≡◌, ◌+◌, ◌<◌, ◌≤◌, ◌++◌, length, reverse, []};
ghost use Rattle.std.specs.Iterator.{YieldsFirstBy, item_count};
ghost use Rattle.std.specs.List.{filter};
ghost use Rattle.btree.specs.Order.{Ascends};
ghost use Rattle.btree.specs.Walk.{left_back_of, IsPath};

use crate::forward::{Path, push_left};
use crate::node::Node;
use crate::search::{count_before, kid_at_point};
use crate::seek::Point;
use arrayvec::ArrayVec;
use std::marker::Model;

/// A walk over pairs, the last one first. It is seen as the list of pairs that are left, the next one first.
///
/// Each node is entered once, so a walk takes time in proportion to what it passes, beside the way down to its start.
#[derive(Drop)]
pub struct WalkBack<'a, K: Ord, V> {
    row: &'a [(K, V)],
    path: Path<'a, K, V>,
}

impl<'a, K: Ord, V> Model for WalkBack<'a, K, V> {
    ghost use Rattle.std.specs.Prelude.{List, ◌++◌, reverse};
    ghost use Rattle.std.specs.Coded.{coded_list, coded×};
    ghost use Rattle.btree.specs.Walk.{left_back_of, IsPath};

    ghost Value = { List (K × V) };

    ghost coded = { coded_list (coded× K.code V.code) };

    ghost view = { λ w. reverse w.row.now ++ left_back_of w.path.items };

    ghost invariant = { λ w. IsPath 0 w.path.items };
}

// Goes down to a node's last leaf. What is left of the nodes on the way goes on the others.
fn enter_back<'a, K: Ord, V>(path: &mut Path<'a, K, V>, node: &'a Node<K, V>) -> &'a [(K, V)]
    requires path { IsPath 0 path.old.items }
    requires room { length path.old.items + node.now.height < 16 }
    ensures left { reverse result.now ++ left_back_of path.new.items ≡ reverse node.now.pairs ++ left_back_of path.old.items }
    ensures path { IsPath 0 path.new.items }
    ensures some { 0 < length node.now.pairs → 0 < length result.now }
{
    let (entries, _, kids) = node.rows();
    match kids {
        [] => entries,
        [earlier @ .., last] => {
            push_left(path, earlier);
            enter_back(path, last)
        }
    }
}

// Goes down to the leaf where a node's pairs before a point end.
fn enter_before<'a, K: Ord, V, P: Point<K>>(
    path: &mut Path<'a, K, V>,
    node: &'a Node<K, V>,
    point: &P,
) -> &'a [(K, V)]
    requires sorted { Ascends K.cmp node.now.pairs }
    requires path { IsPath 0 path.old.items }
    requires room { length path.old.items + node.now.height < 16 }
    ensures left { reverse result.now ++ left_back_of path.new.items ≡ reverse (filter (λ e. P.before point.now e.0) node.now.pairs) ++ left_back_of path.old.items }
    ensures path { IsPath 0 path.new.items }
{
    let (entries, separators, kids) = node.rows();
    if kids.is_empty() {
        let at = count_before(entries, point);
        return &entries[..at];
    }
    let at = kid_at_point(separators, point);
    push_left(path, &kids[..at]);
    enter_before(path, &kids[at], point)
}

// Goes on to the leaf before. There are no pairs only where nothing is left.
fn leaf_before<'a, K: Ord, V>(path: &mut Path<'a, K, V>) -> &'a [(K, V)]
    requires path { IsPath 0 path.old.items }
    ensures left { left_back_of path.old.items ≡ reverse result.now ++ left_back_of path.new.items }
    ensures path { IsPath 0 path.new.items }
    ensures end { result.now ≡ [] → left_back_of path.old.items ≡ [] }
{
    let Some(top) = path.pop() else {
        return &[];
    };
    match top.kids {
        [] => &[],
        [earlier @ .., kid] => {
            push_left(path, earlier);
            enter_back(path, kid)
        }
    }
}

// What is left of a leaf, or the leaf before where that is nothing. There are no pairs only where nothing is left.
fn row_or_before<'a, K: Ord, V>(row: &'a [(K, V)], path: &mut Path<'a, K, V>) -> &'a [(K, V)]
    requires path { IsPath 0 path.old.items }
    ensures left { reverse row.now ++ left_back_of path.old.items ≡ reverse result.now ++ left_back_of path.new.items }
    ensures path { IsPath 0 path.new.items }
    ensures end { result.now ≡ [] → reverse row.now ++ left_back_of path.old.items ≡ [] }
{
    if row.is_empty() {
        return leaf_before(path);
    }
    row
}

impl<'a, K: Ord, V> WalkBack<'a, K, V> {
    /// A walk back over the pairs of a node, and all below it, that stand before a point.
    pub fn from<P: Point<K>>(root: &'a Node<K, V>, point: &P) -> WalkBack<'a, K, V>
        requires low { root.now.height < 16 }
        requires sorted { Ascends K.cmp root.now.pairs }
        ensures { result ≡ reverse (filter (λ e. P.before point.now e.0) root.now.pairs) }
    {
        let mut path = ArrayVec::new();
        let row = enter_before(&mut path, root, point);
        WalkBack { row, path }
    }
}

impl<'a, K: Ord, V> Iterator for WalkBack<'a, K, V> {
    type Item = (&'a K, &'a V);

    ghost next_gives = { YieldsFirstBy (λ e. (e.0.now, e.1.now)) (λ w. w) };

    ghost remaining = { item_count (λ w. w) };

    fn next(&mut self) -> Option<(&'a K, &'a V)> {
        match row_or_before(self.row, &mut self.path) {
            [] => None,
            [earlier @ .., entry] => {
                self.row = earlier;
                Some((&entry.0, &entry.1))
            }
        }
    }
}
