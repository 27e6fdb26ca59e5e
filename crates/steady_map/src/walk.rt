//! Walks over the pairs that are shown. The hidden ones are passed over.
ghost use Rattle.std.specs.Prelude.{◌≡◌, ◌≢◌, ◌++◌, true, false, []};
ghost use Rattle.std.specs.Iterator.{YieldsFirstBy, item_count};
ghost use Rattle.std.specs.FinMap.Entries.{is_sorted};
ghost use Rattle.steady_map.specs.Shown.{shown};

use std::marker::Model;

/// A walk over pairs in order. It is seen as the list of pairs that are left.
#[derive(Drop)]
pub struct Walk<'a, K: Ord, V> {
    walk: btree::Walk<'a, K, Option<V>>,
}

impl<'a, K: Ord, V> Model for Walk<'a, K, V> {
    ghost use Rattle.std.specs.Prelude.{◌≡◌, true, List};
    ghost use Rattle.std.specs.Coded.{coded_list, coded×};
    ghost use Rattle.std.specs.FinMap.Entries.{is_sorted};
    ghost use Rattle.steady_map.specs.Shown.{shown};

    ghost Value = { List (K × V) };

    ghost coded = { coded_list (coded× K.code V.code) };

    ghost view = { λ w. shown w.walk };

    ghost invariant = { λ w. is_sorted K.cmp w.walk ≡ true };
}

impl<'a, K: Ord, V> Walk<'a, K, V> {
    // A walk over the shown of these.
    pub(crate) fn over(walk: btree::Walk<'a, K, Option<V>>) -> Walk<'a, K, V>
        requires { is_sorted K.cmp walk ≡ true }
        ensures { result ≡ shown walk.entry }
    {
        Walk { walk }
    }

    /// Takes the next pairs that stand side by side in memory, and the hidden ones between them: of a leaf all that is left of
    /// it. The keys rise, those of the hidden ones too. A row that shows none is passed over, so there are none only where
    /// nothing is left.
    pub fn next_row(&mut self) -> &'a [(K, Option<V>)]
        ensures row { self.old ≡ shown result.now ++ self.new }
        ensures sorted { is_sorted K.cmp result.now ≡ true }
        ensures shows { shown result.now ≡ [] → result.now ≡ [] }
        ensures end { result.now ≡ [] → self.old ≡ [] }
    {
        'rows: loop {
            let row = self.walk.next_row();
            if !hides_all(row) {
                return row;
            }
        }
    }
}

// Whether a row has pairs, and hides them all.
fn hides_all<K, V>(row: &[(K, Option<V>)]) -> bool
    ensures hidden { result ≡ true → shown row.now ≡ [] }
    ensures some { result ≡ true → row.now ≢ [] }
    ensures shows { result ≡ false → shown row.now ≡ [] → row.now ≡ [] }
{
    if row.is_empty() {
        return false;
    }
    'pairs: for (_, held) in row {
        if held.is_some() {
            return false;
        }
    }
    true
}

impl<'a, K: Ord, V> Iterator for Walk<'a, K, V> {
    type Item = (&'a K, &'a V);

    ghost next_gives = { YieldsFirstBy (λ e. (e.0.now, e.1.now)) (λ w. w) };

    ghost remaining = { item_count (λ w. w) };

    fn next(&mut self) -> Option<(&'a K, &'a V)> {
        'pairs: loop {
            match self.walk.next() {
                None => return None,
                Some((key, Some(value))) => return Some((key, value)),
                Some((_, None)) => {}
            }
        }
    }
}

/// A walk over pairs, the last one first. It is seen as the list of pairs that are left, the next one first.
#[derive(Drop)]
pub struct WalkBack<'a, K: Ord, V> {
    walk: btree::WalkBack<'a, K, Option<V>>,
}

impl<'a, K: Ord, V> Model for WalkBack<'a, K, V> {
    ghost use Rattle.std.specs.Prelude.{List};
    ghost use Rattle.std.specs.Coded.{coded_list, coded×};
    ghost use Rattle.steady_map.specs.Shown.{shown};

    ghost Value = { List (K × V) };

    ghost coded = { coded_list (coded× K.code V.code) };

    ghost view = { λ w. shown w.walk };
}

impl<'a, K: Ord, V> WalkBack<'a, K, V> {
    // A walk over the shown of these.
    pub(crate) fn over(walk: btree::WalkBack<'a, K, Option<V>>) -> WalkBack<'a, K, V>
        ensures { result ≡ shown walk.entry }
    {
        WalkBack { walk }
    }
}

impl<'a, K: Ord, V> Iterator for WalkBack<'a, K, V> {
    type Item = (&'a K, &'a V);

    ghost next_gives = { YieldsFirstBy (λ e. (e.0.now, e.1.now)) (λ w. w) };

    ghost remaining = { item_count (λ w. w) };

    fn next(&mut self) -> Option<(&'a K, &'a V)> {
        'pairs: loop {
            match self.walk.next() {
                None => return None,
                Some((key, Some(value))) => return Some((key, value)),
                Some((_, None)) => {}
            }
        }
    }
}
