//! Values by lock name.
ghost use Rattle.std.specs.Prelude.{◌≡◌, length, not, filter, None, Some, IfOk, IfErr, IfNone, IfSome, OnOk, OnErr};
ghost use Rattle.std.specs.Option.{option_copied, option_map};
ghost use Rattle.std.specs.List.{find};
ghost use Rattle.std.specs.Ordering.{is_lt};
ghost use Rattle.std.specs.FinMap as finmap;
ghost use Rattle.lock_name.specs.Locks.{resource_cmp};
ghost use Rattle.lock_trie.specs.Names.{HasNoneAbove, HaveSameAbove};

use crate::names::{Beginning, Whole};
use btree::Trail;
use lock_name::LockName;
use std::alloc::{AllocError, Global};
use std::marker::Model;
use steady_map::{SteadyMap, Walk};

/// Values by lock name, in the order of names.
#[derive(Drop)]
pub struct NameMap<X> {
    tree: SteadyMap<LockName, X>,
}

impl<X> Model for NameMap<X> {
    ghost use Rattle.std.specs.Prelude.{IsTrue};
    ghost use Rattle.std.specs.FinMap.{FinMap, code, from_sorted, is_sorted};
    ghost use Rattle.lock_name.specs.Locks.{resource_cmp};
    ghost use Rattle.lock_trie.specs.Names.{resource_code};

    ghost Value = { FinMap resource_cmp X };

    ghost coded = { code resource_code X.code };

    ghost view = { λ m. from_sorted m.tree.pairs };

    ghost invariant = { λ m. IsTrue (is_sorted resource_cmp m.tree.pairs) };
}

impl<X> NameMap<X> {
    /// A map without names. Takes no memory.
    pub fn new(alloc: Global) -> NameMap<X>
        ensures { result ≡ finmap.empty }
    {
        NameMap {
            tree: SteadyMap::new(alloc),
        }
    }

    /// How many names there are.
    pub fn len(&self) -> usize
        ensures { result ≡ length (finmap.entries self.now) }
    {
        self.tree.len()
    }

    /// The value of a name, where it has one, and where its look-up went.
    pub fn look_up(&self, name: &LockName) -> (Option<&X>, Trail)
        ensures { option_copied result.0 ≡ finmap.get self.now name.now }
    {
        self.tree.look_up(name)
    }

    /// The value of a name, where it has one.
    pub fn get(&self, name: &LockName) -> Option<&X>
        ensures { option_copied result ≡ finmap.get self.now name.now }
    {
        self.tree.get(name).0
    }

    /// The value of a beginning, where it is a name that has one.
    pub(crate) fn at_beginning(&self, beginning: &Beginning<'_>) -> Option<&X>
        ensures { option_copied result ≡ finmap.get self.now beginning.now }
    {
        match self.tree.first_from(beginning).0 {
            Some((key, value)) => {
                if beginning.compare(key).is_eq() {
                    Some(value)
                } else {
                    None
                }
            }
            None => None,
        }
    }

    /// The last name that stands before this one. Each name of the map that is a shorter beginning of this one is one of it
    /// too, since what lies between a name and its beginning begins so. Where there is none no name is such a beginning.
    pub(crate) fn last_before(&self, name: &LockName) -> Option<&LockName>
        ensures some { IfSome result (λ before. HaveSameAbove self.now name.now before.now) }
        ensures none { IfNone result (HasNoneAbove self.now name.now) }
    {
        match self.tree.last_before(&Whole { name }).0 {
            Some((before, _)) => Some(before),
            None => None,
        }
    }

    /// The first name that doesn't stand before this one, and its value.
    pub fn first_from(&self, name: &LockName) -> Option<(&LockName, &X)>
        ensures { option_map (λ e. (e.0.now, e.1.now)) result ≡ find (λ e. not (is_lt (resource_cmp e.0 name.now))) (finmap.entries self.now) }
    {
        self.tree.first_from(&Whole { name }).0
    }

    /// The names that don't stand before this one with their values, in order.
    pub fn walk_from(&self, name: &LockName) -> Walk<'_, LockName, X>
        ensures { result ≡ filter (λ e. not (is_lt (resource_cmp e.0 name.now))) (finmap.entries self.now) }
    {
        self.tree.from(&Whole { name })
    }

    /// The names with their values, in order.
    pub fn iter(&self) -> Walk<'_, LockName, X>
        ensures { result ≡ finmap.entries self.now }
    {
        self.tree.iter()
    }
}

impl<X: Drop> NameMap<X> {
    /// Sets the value of a name by the trail of its look-up.
    ///
    /// Refused where there is no memory: then nothing has changed.
    pub fn insert_by(
        &mut self,
        alloc: Global,
        name: LockName,
        value: X,
        trail: &Trail,
    ) -> Result<(), AllocError>
        ensures map { IfOk result (λ _. self.new ≡ finmap.insert self.old name value) }
        ensures refused { OnErr result (self.new ≡ self.old) }
    {
        let before = self.tree.insert_by(alloc, name, value, trail)?;
        drop(before);
        Ok(())
    }

    /// Sets the value of a name that is there, and gives the one before. Takes no memory. Where the name isn't there nothing
    /// has changed, and the value comes back.
    pub fn replace(&mut self, name: &LockName, value: X) -> Result<X, X>
        ensures before { IfOk result (λ before. finmap.get self.old name.now ≡ Some before) }
        ensures map { IfOk result (λ _. self.new ≡ finmap.insert self.old name.now value) }
        ensures handed_back { IfErr result (λ back. back ≡ value) }
        ensures missed { OnErr result (finmap.get self.old name.now ≡ None) }
        ensures kept { OnErr result (self.new ≡ self.old) }
    {
        self.tree.replace(name, value)
    }

    /// Takes out a name, and gives its value. Takes no memory.
    pub fn remove(&mut self, name: &LockName) -> Option<X>
        ensures value { result ≡ finmap.get self.old name.now }
        ensures map { self.new ≡ finmap.remove self.old name.now }
    {
        self.tree.remove(name)
    }
}

impl<X: Copy + Drop> NameMap<X> {
    // Sets the value of a name. The trail tells where the name before it went, and then where this one did.
    fn push(
        &mut self,
        alloc: Global,
        name: &LockName,
        value: X,
        trail: &mut Trail,
    ) -> Result<(), AllocError>
        ensures { OnOk result (self.new ≡ finmap.insert self.old name.now value) }
    {
        let key = name.clone()?;
        if !self.tree.misses_beside(name, trail) {
            *trail = self.look_up(name).1;
        }
        self.insert_by(alloc, key, value, trail)
    }

    /// A copy, made in the order of names: a few comparisons tell where the next one goes. Refused where there is no memory.
    pub fn copy(&self, alloc: Global) -> Result<NameMap<X>, AllocError>
        ensures { IfOk result (λ copy. copy ≡ self.now) }
    {
        let mut copy = NameMap::new(alloc);
        let mut trail = Trail::new();
        for (name, value) in self.iter() {
            copy.push(alloc, name, *value, &mut trail)?;
        }
        Ok(copy)
    }
}
