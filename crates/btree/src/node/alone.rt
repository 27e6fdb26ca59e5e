//! The pair of a key taken out of its leaf alone, where the pair after it tells what follows.
ghost use Rattle.std.specs.Prelude.{◌≡◌, ◌+◌, ◌<◌, ◌≤◌, true, false, None, IfSome, length, min, vec_capacity, slice_index_or};
ghost use Rattle.btree.specs.Order.{Ascends};
ghost use Rattle.btree.specs.Rows.{IsKid};
ghost use Rattle.btree.specs.Alone.{IsTakenAlone};

use super::Node;
use crate::search::{kid_of, place};
use crate::seek::Point;

// Whether another pair stands after a place of a row, and not before a point.
fn ends_there<K: Ord, V, P: Point<K>>(row: &[(K, V)], at: usize, past: &P) -> bool
    requires { at < length row.now }
    ensures some { result ≡ true → at + 1 < length row.now }
    ensures past { result ≡ true → (d : K × V) → P.before past.now (slice_index_or row.now (at + 1) d).0 ≡ false }
{
    if at + 1 >= row.len() {
        return false;
    }
    !past.is_after(&row[at + 1].0)
}

// Takes the pair of a key out of a row.
fn take_from_row<K: Ord + Drop, V: Drop, P: Point<K>>(
    row: &mut Vec<(K, V)>,
    key: &K,
    past: &P,
) -> Option<V>
    requires sorted { Ascends K.cmp row.old.items }
    ensures taken { IfSome result (λ value. IsTakenAlone K.cmp (P.before past.now) key.now value row.old.items row.new.items) }
    ensures size { IfSome result (λ _. (16 ≤ length row.new.items) × (length row.new.items + 1 ≡ length row.old.items)) }
    ensures kept { result ≡ None → row.new.items ≡ row.old.items }
    ensures capacity { vec_capacity row.new ≡ vec_capacity row.old }
{
    if row.len() <= 16 {
        return None;
    }
    match place(row, key) {
        Ok(at) => {
            if ends_there(row, at, past) {
                let (_key, value) = row.remove(at);
                Some(value)
            } else {
                None
            }
        }
        Err(_) => None,
    }
}

impl<K: Ord + Drop, V: Drop> Node<K, V> {
    /// Takes out the pair of a key, and gives its value, where its leaf keeps 16 others, and the next of them doesn't
    /// stand before a point. Else nothing has changed.
    pub fn take_alone<P: Point<K>>(&mut self, key: &K, past: &P) -> Option<V>
        requires sorted { Ascends K.cmp self.old.pairs }
        requires most { self.old.count ≤ 32 }
        ensures taken { IfSome result (λ value. IsTakenAlone K.cmp (P.before past.now) key.now value self.old.pairs self.new.pairs) }
        ensures size { IsKid (min 16 self.old.count) self.old.height self.new }
        ensures kept { result ≡ None → self.new ≡ self.old }
    {
        if self.kids.is_empty() {
            return take_from_row(&mut self.entries, key, past);
        }
        let at = kid_of(&self.separators, key);
        self.kids[at].take_alone(key, past)
    }
}
