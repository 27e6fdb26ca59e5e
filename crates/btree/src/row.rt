//! Edits of rows that have room.
ghost use Rattle.std.specs.Prelude.{◌≡◌, ◌+◌, ◌-◌, ◌<◌, ◌≤◌, ◌++◌, length, vec_capacity, OnOk, slice_index_or, slice_set, [], List};
ghost use Rattle.std.specs.List.{insert, remove_range};

use std::alloc::AllocError;
use std::mem;

/// Inserts an element where there is room.
pub fn insert_reserved<T: Drop>(row: &mut Vec<T>, at: usize, element: T)
    requires in_range { at ≤ length row.old.items }
    requires room { length row.old.items < vec_capacity row.old }
    ensures items { row.new.items ≡ insert row.old.items at element }
    ensures length { length row.new.items ≡ length row.old.items + 1 }
    ensures capacity { vec_capacity row.new ≡ vec_capacity row.old }
{
    match row.insert(at, element) {
        Ok(()) => {}
        Err(_) => unreachable!(),
    }
}

// How many places a row gets that is to have one element more than so many.
fn places_above(count: usize) -> usize
    requires { count ≤ 32 }
    ensures more { count < result }
    ensures all { 14 ≤ count → result ≡ 33 }
{
    match count {
        0..=3 => 4,
        4..=7 => 8,
        8..=13 => 14,
        _ => 33,
    }
}

/// Makes room for one element more: 4, 8, 14 or 33 places in all.
pub fn make_room<T>(row: &mut Vec<T>) -> Result<(), AllocError>
    requires { length row.old.items ≤ 32 }
    ensures items { row.new.items ≡ row.old.items }
    ensures one { OnOk result (length row.old.items < vec_capacity row.new) }
    ensures all { OnOk result (14 ≤ length row.old.items → 33 ≤ vec_capacity row.new) }
    ensures capacity { vec_capacity row.old ≤ vec_capacity row.new }
{
    let len = row.len();
    row.reserve_exact(places_above(len) - len)
}

/// Moves the elements from a place on to an empty row.
pub fn move_from<T>(row: &mut Vec<T>, at: usize, upper: Vec<T>) -> Vec<T>
    requires empty { upper.items ≡ [] }
    requires room { length row.old.items ≤ at + vec_capacity upper }
    ensures joined { row.new.items ++ result.items ≡ row.old.items }
    ensures lower { length row.new.items ≤ at }
    ensures upper { length result.items ≡ length row.old.items - at }
    ensures capacity { vec_capacity row.new ≡ vec_capacity row.old }
    ensures upper_capacity { vec_capacity result ≡ vec_capacity upper }
{
    let mut upper = upper;
    while row.len() > at {
        let element = row.take_last();
        upper.push_reserved(element);
    }
    upper.reverse();
    upper
}

/// Sets the value of the pair at a place, and gives the one before.
pub fn replace_value<K, V>(row: &mut Vec<(K, V)>, at: usize, value: V) -> V
    requires { at < length row.old.items }
    ensures old { (d : K × V) → result ≡ (slice_index_or row.old.items at d).1 }
    ensures new { (d : K × V) → row.new.items ≡ slice_set row.old.items at ((slice_index_or row.old.items at d).0, value) }
    ensures capacity { vec_capacity row.new ≡ vec_capacity row.old }
{
    let entry = &mut row[at];
    mem::replace(&mut entry.1, value)
}

/// Moves the first elements of a row after another that has room, all but so many.
pub fn move_first<T>(from: &mut Vec<T>, to: &mut Vec<T>, left: usize)
    requires some { left ≤ length from.old.items }
    requires room { length to.old.items + length from.old.items ≤ left + vec_capacity to.old }
    ensures items { to.new.items ++ from.new.items ≡ to.old.items ++ from.old.items }
    ensures left { length from.new.items ≡ left }
    ensures capacity { (vec_capacity to.new ≡ vec_capacity to.old) × (vec_capacity from.new ≡ vec_capacity from.old) }
{
    from.reverse();
    while from.len() > left {
        let element = from.take_last();
        to.push_reserved(element);
    }
    from.reverse();
}

/// Moves the last elements of a row before another that has room, all but so many.
pub fn move_last<T>(from: &mut Vec<T>, to: &mut Vec<T>, left: usize)
    requires some { left ≤ length from.old.items }
    requires room { length to.old.items + length from.old.items ≤ left + vec_capacity to.old }
    ensures items { from.new.items ++ to.new.items ≡ from.old.items ++ to.old.items }
    ensures left { length from.new.items ≡ left }
    ensures capacity { (vec_capacity to.new ≡ vec_capacity to.old) × (vec_capacity from.new ≡ vec_capacity from.old) }
{
    to.reverse();
    while from.len() > left {
        let element = from.take_last();
        to.push_reserved(element);
    }
    to.reverse();
}

/// Cuts two rows anew: the first gets so many elements of both, and the second the others.
pub fn cut_anew<T>(lower: &mut Vec<T>, upper: &mut Vec<T>, at: usize)
    requires in_range { at ≤ length lower.old.items + length upper.old.items }
    requires lower_room { at ≤ vec_capacity lower.old }
    requires upper_room { length lower.old.items + length upper.old.items ≤ at + vec_capacity upper.old }
    ensures items { lower.new.items ++ upper.new.items ≡ lower.old.items ++ upper.old.items }
    ensures length { length lower.new.items ≡ at }
    ensures capacity { (vec_capacity lower.new ≡ vec_capacity lower.old) × (vec_capacity upper.new ≡ vec_capacity upper.old) }
{
    let len = lower.len();
    if len < at {
        let left = upper.len() - (at - len);
        move_first(upper, lower, left);
    } else {
        move_last(lower, upper, at);
    }
}

/// Takes out the elements between two places.
pub fn remove_between<T: Drop>(row: &mut Vec<T>, first: usize, end: usize)
    requires order { first ≤ end }
    requires in_range { end ≤ length row.old.items }
    ensures rest { row.new.items ≡ remove_range row.old.items first end }
    ensures capacity { vec_capacity row.new ≡ vec_capacity row.old }
{
    drop(row.drain(first..end));
}

/// The element at a place of a row without those between two places.
pub fn kept_at<T>(row: &[T], first: usize, end: usize, at: usize) -> &T
    requires order { first ≤ end }
    requires in_range { end ≤ length row.now }
    requires there { at + (end - first) < length row.now }
    ensures { (d : T) → result.now ≡ slice_index_or (remove_range row.now first end) at d }
{
    if at < first {
        &row[at]
    } else {
        &row[at + (end - first)]
    }
}
