//! The map, its look-ups and its changes.
ghost use Rattle.std.specs.Prelude.{◌≡◌, ◌<◌, not, true, false, None, Some, IfSome, IfOk, IfErr, OnErr};
ghost use Rattle.std.specs.Option.{option_copied, option_map};
ghost use Rattle.std.specs.FinMap as finmap;
ghost use Rattle.globals.specs.Entries.{nearest_entry};
ghost use Rattle.globals.specs.Cuts.{stands_before};
ghost use Rattle.key_map.specs.Members.{members_from};
ghost use Rattle.steady_map.specs.Shown.{shown};

use crate::point::CutPoint;
use globals::Cut;
use key_codec::Key;
use std::alloc::{AllocError, Global};
use std::marker::Model;
use steady_map::{SteadyMap, Walk};

/// Values by keys, in the order of the references.
#[derive(Drop)]
pub struct KeyMap<X> {
    pub(crate) tree: SteadyMap<Key, X>,
}

impl<X> Model for KeyMap<X> {
    ghost use Rattle.std.specs.Prelude.{IsTrue};
    ghost use Rattle.std.specs.FinMap.{FinMap, code, from_sorted, is_sorted};
    ghost use Rattle.collation.specs.Order.{ref_cmp};
    ghost use Rattle.collation.specs.Database.{reference_code};

    ghost Value = { FinMap ref_cmp X };

    ghost coded = { code reference_code X.code };

    ghost view = { λ m. from_sorted m.tree.pairs };

    ghost invariant = { λ m. IsTrue (is_sorted ref_cmp m.tree.pairs) };
}

impl<X> KeyMap<X> {
    /// A map without keys. Takes no memory.
    pub fn new(alloc: Global) -> KeyMap<X>
        ensures { result ≡ finmap.empty }
    {
        KeyMap {
            tree: SteadyMap::new(alloc),
        }
    }

    /// The value of a key, where it has one.
    pub fn get(&self, key: &Key) -> Option<&X>
        ensures { option_copied result ≡ finmap.get self.now key.now }
    {
        self.tree.get(key).0
    }

    /// The first key that doesn't stand before the cut, with its value.
    pub fn first_from(&self, cut: Cut<'_>) -> Option<(&Key, &X)>
        ensures { option_map (λ e. (e.0.now, e.1.now)) result ≡ nearest_entry true (λ x. not (stands_before cut.entry x)) self.now }
    {
        self.tree.first_from(&CutPoint { cut }).0
    }

    /// The last key that stands before the cut, with its value.
    pub fn last_before(&self, cut: Cut<'_>) -> Option<(&Key, &X)>
        ensures { option_map (λ e. (e.0.now, e.1.now)) result ≡ nearest_entry false (stands_before cut.entry) self.now }
    {
        self.tree.last_before(&CutPoint { cut }).0
    }

    /// The keys with their values in order, where they stand side by side in memory: few mostly do. A key without a
    /// value is hidden.
    pub fn as_row(&self) -> Option<&[(Key, Option<X>)]>
        ensures row { IfSome result (λ row. shown row.now ≡ finmap.entries self.now) }
    {
        self.tree.as_row()
    }

    /// The keys with their values, in order.
    pub fn iter(&self) -> Walk<'_, Key, X>
        ensures { result ≡ finmap.entries self.now }
    {
        self.tree.iter()
    }

    /// The keys that don't stand before the cut with their values, in order.
    pub fn walk_from(&self, cut: Cut<'_>) -> Walk<'_, Key, X>
        ensures { result ≡ members_from cut.entry self.now }
    {
        self.tree.from(&CutPoint { cut })
    }
}

impl<X: Drop> KeyMap<X> {
    /// Sets the value of a key, and gives the one before.
    ///
    /// Refused where there is no memory: then nothing has changed.
    pub fn insert(&mut self, alloc: Global, key: Key, value: X) -> Result<Option<X>, AllocError>
        ensures before { IfOk result (λ before. before ≡ finmap.get self.old key) }
        ensures map { IfOk result (λ _. self.new ≡ finmap.insert self.old key value) }
        ensures refused { OnErr result (self.new ≡ self.old) }
    {
        let (_, trail) = self.tree.look_up(&key);
        let before = self.tree.insert_by(alloc, key, value, &trail)?;
        Ok(before)
    }

    /// Sets the value of a key that is there, and gives the one before. Takes no memory. Where the key isn't there
    /// nothing has changed, and the value comes back.
    pub fn replace(&mut self, key: &Key, value: X) -> Result<X, X>
        ensures before { IfOk result (λ before. finmap.get self.old key.now ≡ Some before) }
        ensures map { IfOk result (λ _. self.new ≡ finmap.insert self.old key.now value) }
        ensures handed_back { IfErr result (λ back. back ≡ value) }
        ensures missed { OnErr result (finmap.get self.old key.now ≡ None) }
        ensures kept { OnErr result (self.new ≡ self.old) }
    {
        self.tree.replace(key, value)
    }

    /// Takes out a key, and gives its value. It is never refused.
    pub fn remove(&mut self, key: &Key) -> Option<X>
        ensures value { result ≡ finmap.get self.old key.now }
        ensures map { self.new ≡ finmap.remove self.old key.now }
    {
        self.tree.remove(key)
    }

    /// Takes out all keys. Takes no memory.
    pub fn clear(&mut self)
        ensures { self.new ≡ finmap.empty }
    {
        self.tree.clear();
    }
}
