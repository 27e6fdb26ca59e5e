//! A walk over pairs in order, from leaf row to leaf row. It keeps what is left of each inner node on its way down, in the walk
//! itself, and takes no memory.
ghost use Rattle.std.specs.Prelude.{◌≡◌, ◌+◌, ◌<◌, ◌≤◌, ◌++◌, not, length, reverse, []};
ghost use Rattle.std.specs.Iterator.{YieldsFirstBy, item_count};
ghost use Rattle.std.specs.List.{filter};
ghost use Rattle.btree.specs.Order.{Ascends};
ghost use Rattle.btree.specs.Parts.{flat};
ghost use Rattle.btree.specs.Walk.{left_of, left_back_of, HaveRoomBelow, IsPath};

use crate::node::Node;
use crate::search::{count_before, kid_at_point};
use crate::seek::Point;
use arrayvec::ArrayVec;
use std::marker::Model;

/// What is left of an inner node: kids side by side.
#[derive(Drop)]
pub struct Left<'a, K: Ord, V> {
    pub kids: &'a [Node<K, V>],
}

impl<'a, K: Ord, V> Default for Left<'a, K, V> {
    fn default() -> Left<'a, K, V> {
        Left { kids: &[] }
    }
}

/// What is left of the inner nodes that a walk is in, the highest first. No tree is deeper than 16 levels.
pub type Path<'a, K, V> = ArrayVec<Left<'a, K, V>, 16>;

/// A walk over pairs in order. It is seen as the list of pairs that are left.
///
/// Each node is entered once, so a walk takes time in proportion to what it passes, beside the way down to its start.
#[derive(Drop)]
pub struct Walk<'a, K: Ord, V> {
    row: &'a [(K, V)],
    path: Path<'a, K, V>,
}

impl<'a, K: Ord, V> Model for Walk<'a, K, V> {
    ghost use Rattle.std.specs.Prelude.{List, ◌++◌};
    ghost use Rattle.std.specs.Coded.{coded_list, coded×};
    ghost use Rattle.btree.specs.Walk.{left_of, IsPath};

    ghost Value = { List (K × V) };

    ghost coded = { coded_list (coded× K.code V.code) };

    ghost view = { λ w. w.row.now ++ left_of w.path.items };

    ghost invariant = { λ w. IsPath 0 w.path.items };
}

/// Puts what is left of a node on the others.
pub fn push_left<'a, K: Ord, V>(path: &mut Path<'a, K, V>, kids: &'a [Node<K, V>])
    requires room { length path.old.items < 16 }
    requires path { IsPath 0 path.old.items }
    requires below { HaveRoomBelow (length path.old.items) kids.now }
    ensures items { left_of path.new.items ≡ flat kids.now ++ left_of path.old.items }
    ensures back { left_back_of path.new.items ≡ reverse (flat kids.now) ++ left_back_of path.old.items }
    ensures path { IsPath 0 path.new.items }
    ensures length { length path.new.items ≤ length path.old.items + 1 }
{
    if kids.is_empty() {
        return;
    }
    path.push(Left { kids });
}

// Goes down to a node's first leaf. What is left of the nodes on the way goes on the others.
fn enter<'a, K: Ord, V>(path: &mut Path<'a, K, V>, node: &'a Node<K, V>) -> &'a [(K, V)]
    requires path { IsPath 0 path.old.items }
    requires room { length path.old.items + node.now.height < 16 }
    ensures left { result.now ++ left_of path.new.items ≡ node.now.pairs ++ left_of path.old.items }
    ensures path { IsPath 0 path.new.items }
    ensures some { 0 < length node.now.pairs → 0 < length result.now }
{
    let (entries, _, kids) = node.rows();
    match kids {
        [] => entries,
        [first, later @ ..] => {
            push_left(path, later);
            enter(path, first)
        }
    }
}

// Goes down to the leaf where a node's pairs from a point on start.
fn enter_from<'a, K: Ord, V, P: Point<K>>(
    path: &mut Path<'a, K, V>,
    node: &'a Node<K, V>,
    point: &P,
) -> &'a [(K, V)]
    requires sorted { Ascends K.cmp node.now.pairs }
    requires path { IsPath 0 path.old.items }
    requires room { length path.old.items + node.now.height < 16 }
    ensures left { result.now ++ left_of path.new.items ≡ filter (λ e. not (P.before point.now e.0)) node.now.pairs ++ left_of path.old.items }
    ensures path { IsPath 0 path.new.items }
{
    let (entries, separators, kids) = node.rows();
    if kids.is_empty() {
        let at = count_before(entries, point);
        return &entries[at..];
    }
    let at = kid_at_point(separators, point);
    push_left(path, &kids[at + 1..]);
    enter_from(path, &kids[at], point)
}

// Goes on to the next leaf. There are no pairs only where nothing is left.
fn next_leaf<'a, K: Ord, V>(path: &mut Path<'a, K, V>) -> &'a [(K, V)]
    requires path { IsPath 0 path.old.items }
    ensures left { left_of path.old.items ≡ result.now ++ left_of path.new.items }
    ensures path { IsPath 0 path.new.items }
    ensures end { result.now ≡ [] → left_of path.old.items ≡ [] }
{
    let Some(top) = path.pop() else {
        return &[];
    };
    match top.kids {
        [] => &[],
        [kid, later @ ..] => {
            push_left(path, later);
            enter(path, kid)
        }
    }
}

// What is left of a leaf, or the next leaf where that is nothing. There are no pairs only where nothing is left.
fn row_or_next<'a, K: Ord, V>(row: &'a [(K, V)], path: &mut Path<'a, K, V>) -> &'a [(K, V)]
    requires path { IsPath 0 path.old.items }
    ensures left { row.now ++ left_of path.old.items ≡ result.now ++ left_of path.new.items }
    ensures path { IsPath 0 path.new.items }
    ensures end { result.now ≡ [] → row.now ++ left_of path.old.items ≡ [] }
{
    if row.is_empty() {
        return next_leaf(path);
    }
    row
}

impl<'a, K: Ord, V> Walk<'a, K, V> {
    /// A walk over a node and all below it.
    pub fn over(root: &'a Node<K, V>) -> Walk<'a, K, V>
        requires { root.now.height < 16 }
        ensures { result ≡ root.now.pairs }
    {
        let mut path = ArrayVec::new();
        let row = enter(&mut path, root);
        Walk { row, path }
    }

    /// Takes the next pairs that stand side by side in memory: of a leaf all that is left of it. There are none only where
    /// nothing is left.
    pub fn next_row(&mut self) -> &'a [(K, V)]
        ensures row { self.old ≡ result.now ++ self.new }
        ensures end { result.now ≡ [] → self.old ≡ [] }
    {
        let row = row_or_next(self.row, &mut self.path);
        self.row = &[];
        row
    }
}

impl<'a, K: Ord, V> Walk<'a, K, V> {
    /// A walk over the pairs of a node, and all below it, that do not stand before a point.
    pub fn from<P: Point<K>>(root: &'a Node<K, V>, point: &P) -> Walk<'a, K, V>
        requires low { root.now.height < 16 }
        requires sorted { Ascends K.cmp root.now.pairs }
        ensures { result ≡ filter (λ e. not (P.before point.now e.0)) root.now.pairs }
    {
        let mut path = ArrayVec::new();
        let row = enter_from(&mut path, root, point);
        Walk { row, path }
    }
}

impl<'a, K: Ord, V> Iterator for Walk<'a, K, V> {
    type Item = (&'a K, &'a V);

    ghost next_gives = { YieldsFirstBy (λ e. (e.0.now, e.1.now)) (λ w. w) };

    ghost remaining = { item_count (λ w. w) };

    fn next(&mut self) -> Option<(&'a K, &'a V)> {
        match row_or_next(self.row, &mut self.path) {
            [] => None,
            [entry, later @ ..] => {
                self.row = later;
                Some((&entry.0, &entry.1))
            }
        }
    }
}
