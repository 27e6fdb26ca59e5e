//! An inner node whose leaf loses a stretch of its pairs at once.
ghost use Rattle.std.specs.Prelude.{◌≡◌, ◌+◌, ◌-◌, ◌^◌, ◌<◌, ◌≤◌, ◌++◌, suc, length, take, true, false, slice_index_or, slice_set, IfOk, OnOk, OnErr, IsOk, IfSome};
ghost use Rattle.btree.specs.Branch.{Branch};
ghost use Rattle.btree.specs.Order.{Ascends, Each, last_of};
ghost use Rattle.btree.specs.Parts.{IsSure, flat};
ghost use Rattle.btree.specs.Rows.{height_of, IsInner, HaveRoom};
ghost use Rattle.btree.specs.Stretch.{ArePlaces, IsMended, IsStretch, lessened};

use crate::node::Node;
use crate::node::places::Places;
use crate::search::kid_at_point;
use crate::seek::Point;
use crate::split::put_beside;
use std::alloc::AllocError;

/// The place of the kid with the first pair that does not stand before a point; where there is none, that of the last kid.
pub fn kid_from<K: Ord, V, P: Point<K>>(separators: &[K], kids: &[Node<K, V>], from: &P) -> usize
    requires node { IsInner K.cmp separators.now kids.now }
    requires sorted { Ascends K.cmp (flat kids.now) }
    requires low { height_of kids.now < 2 ^ 63 }
    ensures in_range { result < length kids.now }
    ensures ahead { Each (λ e. P.before from.now e.0 ≡ true) (flat (take result kids.now)) }
    ensures reaches { result + 1 < length kids.now → (d : Branch K V) → IfSome (last_of (slice_index_or kids.now result d).pairs) (λ e. P.before from.now e.0 ≡ false) }
{
    let at = kid_at_point(separators, from);
    if at < separators.len() && kids[at].ends_before(from) {
        at + 1
    } else {
        at
    }
}

// Joins two leaves side by side anew, without the pairs between some places, which are taken out.
//
// Refused where they stay two and there is no memory for the new separator: then nothing has changed.
fn rejoin_lessened<K: Ord + Clone, V: Drop>(
    separators: &mut Vec<K>,
    kids: &mut Vec<Node<K, V>>,
    left: usize,
    lower: Places,
    upper: Places,
) -> Result<(), AllocError>
    requires in_range { left < length separators.old.items }
    requires leaves { height_of kids.old.items ≡ 1 }
    requires node { IsInner K.cmp separators.old.items kids.old.items }
    requires sorted { Ascends K.cmp (flat kids.old.items) }
    requires lower_places { (d : Branch K V) → ArePlaces (slice_index_or kids.old.items left d) lower.first lower.end }
    requires upper_places { (d : Branch K V) → ArePlaces (slice_index_or kids.old.items (suc left) d) upper.first upper.end }
    requires enough { (d : Branch K V) → (e : Branch K V) → 16 ≤ length ((lessened (slice_index_or kids.old.items left d) lower.first lower.end).pairs ++ (lessened (slice_index_or kids.old.items (suc left) e) upper.first upper.end).pairs) }
    requires room { HaveRoom separators.old kids.old }
    ensures pairs { OnOk result ((d : Branch K V) → (e : Branch K V) → flat kids.new.items ≡ flat (slice_set (slice_set kids.old.items left (lessened (slice_index_or kids.old.items left d) lower.first lower.end)) (suc left) (lessened (slice_index_or kids.old.items (suc left) e) upper.first upper.end))) }
    ensures mended { OnOk result (IsMended K.cmp separators.old.items kids.old.items separators.new.items kids.new.items) }
    ensures room { OnOk result (HaveRoom separators.new kids.new) }
    ensures refused { OnErr result ((separators.new ≡ separators.old) × (kids.new ≡ kids.old)) }
    ensures sure { Each (λ e. IsSure K.cmp K.is_clone K.is_infallible e.0) (flat kids.old.items) → IsOk result }
{
    let parting = kids[left].parting_kept(&kids[left + 1], lower, upper)?;
    drop(separators.remove(left));
    let right = kids.remove(left + 1);
    let beside = kids[left].rejoin_lessened(right, lower, upper, parting);
    put_beside(separators, kids, left, beside);
    Ok(())
}

// Takes the pairs between two places out of a leaf that may be left with too few: then it gets some from a leaf beside it, or
// the two become one.
fn take_places<K: Ord + Clone, V: Drop>(
    separators: &mut Vec<K>,
    kids: &mut Vec<Node<K, V>>,
    at: usize,
    places: Places,
) -> Result<(), AllocError>
    requires in_range { at < length kids.old.items }
    requires some { 0 < length separators.old.items }
    requires leaves { height_of kids.old.items ≡ 1 }
    requires node { IsInner K.cmp separators.old.items kids.old.items }
    requires sorted { Ascends K.cmp (flat kids.old.items) }
    requires places { (d : Branch K V) → ArePlaces (slice_index_or kids.old.items at d) places.first places.end }
    requires room { HaveRoom separators.old kids.old }
    ensures pairs { OnOk result ((d : Branch K V) → flat kids.new.items ≡ flat (slice_set kids.old.items at (lessened (slice_index_or kids.old.items at d) places.first places.end))) }
    ensures mended { OnOk result (IsMended K.cmp separators.old.items kids.old.items separators.new.items kids.new.items) }
    ensures room { OnOk result (HaveRoom separators.new kids.new) }
    ensures refused { OnErr result ((separators.new ≡ separators.old) × (kids.new ≡ kids.old)) }
    ensures sure { Each (λ e. IsSure K.cmp K.is_clone K.is_infallible e.0) (flat kids.old.items) → IsOk result }
{
    if kids[at].count() >= 16 + (places.end - places.first) {
        kids[at].take_places(places);
        return Ok(());
    }
    let none = Places { first: 0, end: 0 };
    if at == 0 {
        return rejoin_lessened(separators, kids, 0, places, none);
    }
    rejoin_lessened(separators, kids, at - 1, none, places)
}

/// Takes the pairs that are not before one point and are before another out of the leaf that has the first of them, and tells
/// how many.
///
/// Refused where two leaves have to be parted anew and there is no memory for the separator: then nothing has changed.
pub fn take_below<K: Ord + Clone, V: Drop, P: Point<K>, Q: Point<K>>(
    separators: &mut Vec<K>,
    kids: &mut Vec<Node<K, V>>,
    at: usize,
    from: &P,
    to: &Q,
) -> Result<usize, AllocError>
    requires in_range { at < length kids.old.items }
    requires some { 0 < length separators.old.items }
    requires leaves { height_of kids.old.items ≡ 1 }
    requires node { IsInner K.cmp separators.old.items kids.old.items }
    requires sorted { Ascends K.cmp (flat kids.old.items) }
    requires ahead { Each (λ e. P.before from.now e.0 ≡ true) (flat (take at kids.old.items)) }
    requires reaches { at + 1 < length kids.old.items → (d : Branch K V) → IfSome (last_of (slice_index_or kids.old.items at d).pairs) (λ e. P.before from.now e.0 ≡ false) }
    requires room { HaveRoom separators.old kids.old }
    ensures stretch { IfOk result (λ count. IsStretch (P.before from.now) (Q.before to.now) (flat kids.old.items) count (flat kids.new.items)) }
    ensures mended { OnOk result (IsMended K.cmp separators.old.items kids.old.items separators.new.items kids.new.items) }
    ensures room { OnOk result (HaveRoom separators.new kids.new) }
    ensures refused { OnErr result ((separators.new ≡ separators.old) × (kids.new ≡ kids.old)) }
    ensures sure { Each (λ e. IsSure K.cmp K.is_clone K.is_infallible e.0) (flat kids.old.items) → IsOk result }
{
    let places = kids[at].places(from, to);
    take_places(separators, kids, at, places)?;
    Ok(places.end - places.first)
}
