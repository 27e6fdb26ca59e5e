//! A pair put between the pairs next to its place: two comparisons decide whether it goes there.
ghost use Rattle.std.specs.Prelude.{◌≡◌, ◌<◌, ◌≤◌, true, false, length, take, drop, vec_capacity, IfSome, IsSome, None};
ghost use Rattle.std.specs.declared.cmp.Ordering.TheVariants.{Less, Greater};
ghost use Rattle.std.specs.Option.{option_map, option_or};
ghost use Rattle.std.specs.List.{slice_get};
ghost use Rattle.std.specs.FinMap.Entries.{find};
ghost use Rattle.btree.specs.Order.{Ascends, Each, last_of};
ghost use Rattle.btree.specs.Gap.{IsPutIn, IsAbove, IsBelow};
ghost use Rattle.btree.specs.Parts.{IsWithin};

use crate::row::insert_reserved;
use std::cmp::Ordering;

/// The separator next before a kid, which is `low` before the first.
pub fn separator_before<'a, K>(separators: &'a [K], at: usize, low: Option<&'a K>) -> Option<&'a K>
    requires { at ≤ length separators.now }
    ensures { option_map (λ k. k.now) result ≡ option_or (last_of (take at separators.now)) (option_map (λ k. k.now) low.entry) }
{
    if at == 0 {
        return low;
    }
    Some(&separators[at - 1])
}

/// The separator next after a kid, which is `high` after the last.
pub fn separator_after<'a, K>(separators: &'a [K], at: usize, high: Option<&'a K>) -> Option<&'a K>
    requires { at ≤ length separators.now }
    ensures { option_map (λ k. k.now) result ≡ option_or (slice_get separators.now at) (option_map (λ k. k.now) high.entry) }
{
    if at == separators.len() {
        return high;
    }
    Some(&separators[at])
}

// Whether a key stands after that of a pair.
fn is_after<K: Ord, V>(key: &K, pair: &(K, V)) -> bool
    ensures { result ≡ true → K.cmp key.now pair.now.0 ≡ Greater }
{
    key.cmp(&pair.0) == Ordering::Greater
}

// Whether a key stands after the pair before a place of a leaf's row; at its beginning, not before the separator `low`.
fn is_above<K: Ord, V>(row: &[(K, V)], at: usize, key: &K, low: Option<&K>) -> bool
    requires in_range { at ≤ length row.now }
    ensures above { result ≡ true → IsAbove K.cmp key.now (option_map (λ k. k.now) low.entry) (take at row.now) }
{
    if at > 0 {
        return is_after(key, &row[at - 1]);
    }
    match low {
        None => true,
        Some(low) => key.cmp(low) != Ordering::Less,
    }
}

// Whether a key stands before the pair at a place of a leaf's row; at its end, before the separator `high`.
fn is_below<K: Ord, V>(row: &[(K, V)], at: usize, key: &K, high: Option<&K>) -> bool
    requires in_range { at ≤ length row.now }
    ensures below { result ≡ true → IsBelow K.cmp key.now (option_map (λ k. k.now) high.entry) (drop at row.now) }
{
    if at < row.len() {
        return key.cmp(&row[at].0) == Ordering::Less;
    }
    match high {
        None => true,
        Some(high) => key.cmp(high) == Ordering::Less,
    }
}

// Whether a key goes to a place of a leaf's row; `low` and `high` are the separators next to the leaf.
fn goes_to<K: Ord, V>(row: &[(K, V)], at: usize, key: &K, low: Option<&K>, high: Option<&K>) -> bool
    requires in_range { at ≤ length row.now }
    ensures above { result ≡ true → IsAbove K.cmp key.now (option_map (λ k. k.now) low.entry) (take at row.now) }
    ensures below { result ≡ true → IsBelow K.cmp key.now (option_map (λ k. k.now) high.entry) (drop at row.now) }
{
    is_above(row, at, key, low) && is_below(row, at, key, high)
}

/// Where in a leaf's row a key goes that isn't there, told by the pair at a place and the one next to it; `low` and `high` are
/// the separators next to the leaf. No answer where these two don't tell.
pub fn gap_beside<K: Ord, V>(
    row: &[(K, V)],
    at: usize,
    key: &K,
    low: Option<&K>,
    high: Option<&K>,
) -> Option<usize>
    requires sorted { Ascends K.cmp row.now }
    requires inside { Each (λ e. IsWithin K.cmp (option_map (λ k. k.now) low) (option_map (λ k. k.now) high) e.0) row.now }
    ensures missed { IsSome result → find K.cmp key.now row.now ≡ None }
    ensures within { IsSome result → IsWithin K.cmp (option_map (λ k. k.now) low.entry) (option_map (λ k. k.now) high.entry) key.now }
{
    if at >= row.len() {
        return None;
    }
    let gap = match key.cmp(&row[at].0) {
        Ordering::Less => at,
        Ordering::Equal => return None,
        Ordering::Greater => at + 1,
    };
    if goes_to(row, gap, key, low, high) {
        Some(gap)
    } else {
        None
    }
}

// Whether a leaf can take a pair without memory, and without being full then.
fn has_place<K, V>(row: &Vec<(K, V)>) -> bool
    ensures room { result ≡ true → length row.now.items < vec_capacity row.now }
    ensures fits { result ≡ true → length row.now.items ≤ 30 }
    ensures long { result ≡ true → 13 < length row.now.items → 33 ≤ vec_capacity row.now }
{
    let len = row.len();
    let capacity = row.capacity();
    len < capacity && len <= 30 && (len <= 13 || capacity >= 33)
}

/// Inserts a pair at a place of a leaf's row that has places left, if its key goes there; `low` and `high` are the separators
/// next to the leaf. Answers whether it did: then the pair is taken, else it stays where it was.
pub fn insert_between<K: Ord + Drop, V: Drop>(
    row: &mut Vec<(K, V)>,
    at: usize,
    pair: &mut Option<(K, V)>,
    low: Option<&K>,
    high: Option<&K>,
) -> bool
    requires in_range { at ≤ length row.old.items }
    requires sorted { Ascends K.cmp row.old.items }
    requires inside { Each (λ e. IsWithin K.cmp (option_map (λ k. k.now) low) (option_map (λ k. k.now) high) e.0) row.old.items }
    ensures some { result ≡ true → IsSome pair.old }
    ensures put { result ≡ true → IfSome pair.old (λ p. IsPutIn K.cmp p.0 p.1 row.old.items row.new.items) }
    ensures within { result ≡ true → IfSome pair.old (λ p. IsWithin K.cmp (option_map (λ k. k.now) low.entry) (option_map (λ k. k.now) high.entry) p.0) }
    ensures least { length row.old.items ≤ length row.new.items }
    ensures most { length row.old.items ≤ 32 → length row.new.items ≤ 32 }
    ensures room { (14 < length row.old.items → 33 ≤ vec_capacity row.old) → 14 < length row.new.items → 33 ≤ vec_capacity row.new }
    ensures handed_back { result ≡ false → pair.new ≡ pair.old }
    ensures kept { result ≡ false → row.new ≡ row.old }
{
    if !has_place(row) {
        return false;
    }
    let Some((key, _)) = pair else {
        return false;
    };
    if !goes_to(row, at, key, low, high) {
        return false;
    }
    match pair.take() {
        None => unreachable!(),
        Some(pair) => insert_reserved(row, at, pair),
    }
    true
}
