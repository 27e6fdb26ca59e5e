//! A full kid eased: a kid beside it, where that has places, takes a run of its pairs or separators.
ghost use Rattle.std.specs.Prelude.{◌≡◌, ◌<◌, ◌≤◌, length, nat_lt};
ghost use Rattle.btree.specs.Order.{Ascends};
ghost use Rattle.btree.specs.Parts.{flat};
ghost use Rattle.btree.specs.Rows.{height_of, beside_count, IsInner, HaveRoom};

use crate::mend::{rejoin_inner, rejoin_leaves};
use crate::node::Node;
use crate::share::Share;

// Whether a node has places enough to take pairs from a full one. With fewer the same pairs would be moved too often.
fn has_places<K: Ord, V>(node: &Node<K, V>) -> bool
    ensures { result ≡ nat_lt node.now.count 29 }
{
    node.count() < 29
}

// Joins a kid and the one before it anew, or the first two. Leaves stay as they are where there is no memory for the separator.
fn rejoin<K: Ord + Clone, V: Drop>(
    separators: &mut Vec<K>,
    kids: &mut Vec<Node<K, V>>,
    at: usize,
    share: Share,
)
    requires in_range { at < length kids.old.items }
    requires some { 0 < length separators.old.items }
    requires full { 33 ≤ beside_count at kids.old.items }
    requires sorted { Ascends K.cmp (flat kids.old.items) }
    requires node { IsInner K.cmp separators.old.items kids.old.items }
    requires room { HaveRoom separators.old kids.old }
    ensures pairs { flat kids.new.items ≡ flat kids.old.items }
    ensures node { IsInner K.cmp separators.new.items kids.new.items }
    ensures height { height_of kids.new.items ≡ height_of kids.old.items }
    ensures kept { length separators.new.items ≡ length separators.old.items }
    ensures room { HaveRoom separators.new kids.new }
{
    if !kids[at].is_leaf() {
        rejoin_inner(separators, kids, at, share);
        return;
    }
    match rejoin_leaves(separators, kids, at, share) {
        Ok(()) => {}
        Err(_) => {}
    }
}

/// Eases a node of which one kid may be full: the kid before it or the one after it gets half of what it has more; the kid
/// before the last all that it can hold, and so the one after the first.
///
/// For keys that come in order fill the last node or the first: they leave nodes of 32 pairs behind them, where halves of split
/// nodes would have 16, and a node is eased once for each 32 such insertions.
pub fn ease<K: Ord + Clone, V: Drop>(separators: &mut Vec<K>, kids: &mut Vec<Node<K, V>>, at: usize)
    requires in_range { at < length kids.old.items }
    requires sorted { Ascends K.cmp (flat kids.old.items) }
    requires node { IsInner K.cmp separators.old.items kids.old.items }
    requires room { HaveRoom separators.old kids.old }
    ensures pairs { flat kids.new.items ≡ flat kids.old.items }
    ensures node { IsInner K.cmp separators.new.items kids.new.items }
    ensures height { height_of kids.new.items ≡ height_of kids.old.items }
    ensures kept { length separators.new.items ≡ length separators.old.items }
    ensures room { HaveRoom separators.new kids.new }
{
    if kids[at].count() < 32 {
        return;
    }
    if at > 0 && has_places(&kids[at - 1]) {
        let share = if at + 1 == kids.len() {
            Share::MostFirst
        } else {
            Share::Half
        };
        rejoin(separators, kids, at, share);
    } else if at + 1 < kids.len() && has_places(&kids[at + 1]) {
        let share = if at == 0 {
            Share::MostSecond
        } else {
            Share::Half
        };
        rejoin(separators, kids, at + 1, share);
    }
}
