//! Searches in a leaf's pairs, and between an inner node's separators.
ghost use Rattle.std.specs.Prelude.{◌-◌, ◌≡◌, ◌<◌, ◌≤◌, length, take, drop, true, false, IfOk, IfErr, slice_index_or};
ghost use Rattle.std.specs.declared.cmp.Ordering.TheVariants.{Less, Equal};
ghost use Rattle.std.specs.Option.{option_map};
ghost use Rattle.std.specs.List.{slice_get};
ghost use Rattle.btree.specs.Order.{Ascends, Each, IsBefore, IsAfter, last_of};
ghost use Rattle.btree.specs.Parts.{IsFrom, Rises};

use crate::seek::Point;
use std::cmp::Ordering;

/// Where a key is, or where it would go.
pub fn place<K: Ord, V>(row: &[(K, V)], key: &K) -> Result<usize, usize>
    requires { Ascends K.cmp row.now }
    ensures found { IfOk result (λ i. (i < length row.now) × ((d : K × V) → K.cmp key.now (slice_index_or row.now i d).0 ≡ Equal)) }
    ensures gap { IfErr result (λ i. (i ≤ length row.now) × Each (IsBefore K.cmp key.now) (take i row.now) × Each (IsAfter K.cmp key.now) (drop i row.now)) }
{
    let mut low = 0;
    let mut high = row.len();
    while low < high {
        let middle = low + (high - low) / 2;
        match key.cmp(&row[middle].0) {
            Ordering::Less => high = middle,
            Ordering::Equal => return Ok(middle),
            Ordering::Greater => low = middle + 1,
        }
    }
    Err(low)
}

// Where a search compares next: before and then after the place that is near, as long as that may be it, else in the middle.
fn probe(low: usize, high: usize, near: usize) -> usize
    requires { low < high }
    ensures low { low ≤ result }
    ensures high { result < high }
{
    if low < near && near <= high {
        near - 1
    } else if low == near {
        near
    } else {
        low + (high - low) / 2
    }
}

/// Where a key is, or where it would go. Where it would go to the place that is near, two comparisons tell so.
pub fn place_near<K: Ord, V>(row: &[(K, V)], key: &K, near: usize) -> Result<usize, usize>
    requires { Ascends K.cmp row.now }
    ensures found { IfOk result (λ i. (i < length row.now) × ((d : K × V) → K.cmp key.now (slice_index_or row.now i d).0 ≡ Equal)) }
    ensures gap { IfErr result (λ i. (i ≤ length row.now) × Each (IsBefore K.cmp key.now) (take i row.now) × Each (IsAfter K.cmp key.now) (drop i row.now)) }
{
    if near > row.len() {
        return place(row, key);
    }
    let mut low = 0;
    let mut high = row.len();
    while low < high {
        let at = probe(low, high, near);
        match key.cmp(&row[at].0) {
            Ordering::Less => high = at,
            Ordering::Equal => return Ok(at),
            Ordering::Greater => low = at + 1,
        }
    }
    Err(low)
}

/// The place of the kid that a key belongs to: how many separators the key doesn't stand before.
pub fn kid_of<K: Ord>(separators: &[K], key: &K) -> usize
    requires { Rises K.cmp separators.now }
    ensures in_range { result ≤ length separators.now }
    ensures from { Each (λ (s : K). IsFrom K.cmp s key.now) (take result separators.now) }
    ensures under { Each (λ (s : K). K.cmp key.now s ≡ Less) (drop result separators.now) }
{
    let mut low = 0;
    let mut high = separators.len();
    while low < high {
        let middle = low + (high - low) / 2;
        match key.cmp(&separators[middle]) {
            Ordering::Less => high = middle,
            Ordering::Equal => low = middle + 1,
            Ordering::Greater => low = middle + 1,
        }
    }
    low
}

/// The place of the kid that a key belongs to. Where that is the place that is near, two comparisons tell so.
pub fn kid_near<K: Ord>(separators: &[K], key: &K, near: usize) -> usize
    requires { Rises K.cmp separators.now }
    ensures in_range { result ≤ length separators.now }
    ensures from { Each (λ (s : K). IsFrom K.cmp s key.now) (take result separators.now) }
    ensures under { Each (λ (s : K). K.cmp key.now s ≡ Less) (drop result separators.now) }
{
    if near > separators.len() {
        return kid_of(separators, key);
    }
    let mut low = 0;
    let mut high = separators.len();
    while low < high {
        let at = probe(low, high, near);
        match key.cmp(&separators[at]) {
            Ordering::Less => high = at,
            Ordering::Equal => low = at + 1,
            Ordering::Greater => low = at + 1,
        }
    }
    low
}

/// How many separators stand before a point.
pub fn kid_at_point<K: Ord, P: Point<K>>(separators: &[K], point: &P) -> usize
    requires { Rises K.cmp separators.now }
    ensures in_range { result ≤ length separators.now }
    ensures before { Each (λ (s : K). P.before point.now s ≡ true) (take result separators.now) }
    ensures after { Each (λ (s : K). P.before point.now s ≡ false) (drop result separators.now) }
{
    let mut low = 0;
    let mut high = separators.len();
    while low < high {
        let middle = low + (high - low) / 2;
        if point.is_after(&separators[middle]) {
            low = middle + 1;
        } else {
            high = middle;
        }
    }
    low
}

/// How many keys stand before a point.
pub fn count_before<K: Ord, V, P: Point<K>>(row: &[(K, V)], point: &P) -> usize
    requires { Ascends K.cmp row.now }
    ensures in_range { result ≤ length row.now }
    ensures before { Each (λ (e : K × V). P.before point.now e.0 ≡ true) (take result row.now) }
    ensures after { Each (λ (e : K × V). P.before point.now e.0 ≡ false) (drop result row.now) }
{
    let mut low = 0;
    let mut high = row.len();
    while low < high {
        let middle = low + (high - low) / 2;
        if point.is_after(&row[middle].0) {
            low = middle + 1;
        } else {
            high = middle;
        }
    }
    low
}

/// The entry at a place.
pub fn entry_at<K, V>(row: &[(K, V)], at: usize) -> Option<(&K, &V)>
    ensures { option_map (λ p. (p.0.now, p.1.now)) result ≡ slice_get row.now at }
{
    if at < row.len() {
        let entry = &row[at];
        Some((&entry.0, &entry.1))
    } else {
        None
    }
}

/// The entry before a place.
pub fn entry_before<K, V>(row: &[(K, V)], at: usize) -> Option<(&K, &V)>
    requires { at ≤ length row.now }
    ensures { option_map (λ p. (p.0.now, p.1.now)) result ≡ last_of (take at row.now) }
{
    if at == 0 {
        None
    } else {
        let entry = &row[at - 1];
        Some((&entry.0, &entry.1))
    }
}
