//! Values that leave a tree of which the keys stay.
ghost use Rattle.std.specs.Prelude.{◌≡◌, ◌^◌, ◌<◌, suc, cond, map, true, false, IfSome};
ghost use Rattle.std.specs.List.{slice_get};
ghost use Rattle.btree.specs.Order.{Ascends, Each};
ghost use Rattle.btree.specs.Rows.{height_of};
ghost use Rattle.btree.specs.Values.{emptied, without_values};

use super::Node;
use crate::seek::Point;
use crate::vacant::Vacant;

// Whether a key is not before one point and is before another.
fn is_between<K: Ord, P: Point<K>, Q: Point<K>>(key: &K, from: &P, to: &Q) -> bool
    ensures { result ≡ cond (P.before from.now key.now) false (Q.before to.now key.now) }
{
    if from.is_after(key) {
        return false;
    }
    to.is_after(key)
}

// Takes the value of a pair away, if its key is not before one point and is before another.
fn empty_pair<K: Ord, V: Vacant + Drop, P: Point<K>, Q: Point<K>>(
    pair: &mut (K, V),
    from: &P,
    to: &Q,
)
    ensures { pair.new ≡ emptied V.none (P.before from.now) (Q.before to.now) pair.old }
{
    if is_between(&pair.0, from, to) {
        pair.1 = V::vacant();
    }
}

// Takes the values of such pairs of a row.
fn empty_row<K: Ord, V: Vacant + Drop, P: Point<K>, Q: Point<K>>(
    row: &mut [(K, V)],
    from: &P,
    to: &Q,
)
    ensures { row.new ≡ map (emptied V.none (P.before from.now) (Q.before to.now)) row.old }
{
    for pair in row.iter_mut() {
        empty_pair(pair, from, to);
    }
}

// Takes the values of such pairs of each of these nodes.
#[cycle(values)]
fn empty_kids<K: Ord + Drop, V: Vacant + Drop, P: Point<K>, Q: Point<K>>(
    kids: &mut [Node<K, V>],
    from: &P,
    to: &Q,
)
    requires sorted { Each (λ kid. Ascends K.cmp kid.pairs) kids.old }
    requires level { Each (λ kid. suc kid.height ≡ height_of kids.old) kids.old }
    requires low { height_of kids.old < 2 ^ 63 }
    ensures { kids.new ≡ map (without_values V.none (P.before from.now) (Q.before to.now)) kids.old }
{
    for kid in kids.iter_mut() {
        empty_node(kid, from, to);
    }
}

impl<K: Ord, V> Node<K, V> {
    // Whether the first pair does not stand before a point.
    fn begins_after<P: Point<K>>(&self, point: &P) -> bool
        requires low { self.now.height < 2 ^ 63 }
        ensures first { result ≡ true → IfSome (slice_get self.now.pairs 0) (λ e. P.before point.now e.0 ≡ false) }
    {
        let mut visits = 0;
        match self.first(&mut visits) {
            None => false,
            Some((key, _)) => !point.is_after(key),
        }
    }
}

/// Takes the values of the pairs of a node that are not before one point and are before another. The keys stay.
#[cycle(values)]
pub fn empty_node<K: Ord + Drop, V: Vacant + Drop, P: Point<K>, Q: Point<K>>(
    node: &mut Node<K, V>,
    from: &P,
    to: &Q,
)
    requires sorted { Ascends K.cmp node.old.pairs }
    requires low { node.old.height < 2 ^ 63 }
    ensures { node.new ≡ without_values V.none (P.before from.now) (Q.before to.now) node.old }
{
    if node.ends_before(from) {
        return;
    }
    if node.begins_after(to) {
        return;
    }
    empty_row(&mut node.entries, from, to);
    empty_kids(&mut node.kids, from, to);
}
