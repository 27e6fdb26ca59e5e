//! The keys that a collector visits next.
ghost use Rattle.std.specs.Prelude.{◌≡◌, ◌++◌, ◌-◌, ◌^◌, ◌<◌, ℕ, List, [], ◌∷◌, map, filter, take, length, true, None, OnOk, IfOk};
ghost use Rattle.std.specs.Option.{option_copied};
ghost use Rattle.std.specs.FinMap as finmap;
ghost use Rattle.std.specs.FinMap.{is_sorted};
ghost use Rattle.collation.specs.Reference.{Reference};
ghost use Rattle.collation.specs.Order.{ref_cmp};
ghost use Rattle.globals.specs.Cuts.{stands_before as stands_before_spec};
ghost use Rattle.version_chain.specs.Chains.{IsOpen};
ghost use Rattle.version_store.specs.Versions.{next_in_turn, keys_of, AreNextVisits};
ghost use Rattle.version_store.specs.Tied.{AreOpen, HasSeen};

use crate::store::KeyedStore;
use collation::Text;
use globals::{Cut, stands_before};
use key_codec::Key;
use key_map::CutPoint;
use std::alloc::{AllocError, Global};
use steady_map::Walk;
use version_chain::{ChainId, Chains};

// Puts copies of the keys that are left behind the others, until there are so many.
fn copy_keys(
    walk: Walk<'_, Key, ChainId>,
    limit: usize,
    keys: &mut Vec<Key>,
) -> Result<(), AllocError>
    ensures { OnOk result (keys.new.items ≡ keys.old.items ++ take (limit - length keys.old.items) (keys_of walk.entry)) }
{
    for (key, _) in walk {
        if keys.len() >= limit {
            return Ok(());
        }
        keys.push(key.clone()?)?;
    }
    Ok(())
}

// As `copy_keys`, of the keys that stand before a cut.
fn copy_keys_before(
    walk: Walk<'_, Key, ChainId>,
    high: Cut<'_>,
    limit: usize,
    keys: &mut Vec<Key>,
) -> Result<(), AllocError>
    requires { is_sorted ref_cmp walk ≡ true }
    ensures { OnOk result (keys.new.items ≡ keys.old.items ++ take (limit - length keys.old.items) (filter (stands_before_spec high.entry) (keys_of walk.entry))) }
{
    for (key, _) in walk {
        if keys.len() >= limit {
            return Ok(());
        }
        if !stands_before(high, key) {
            return Ok(());
        }
        keys.push(key.clone()?)?;
    }
    Ok(())
}

/// What a collector visits next.
#[derive(Drop)]
pub struct Visits {
    /// Copies of the keys that it visits, in order, but for those that have one version, which is a value.
    pub keys: Vec<Key>,
    /// How many it visits in all.
    pub visited: usize,
    /// A copy of the last of all.
    pub last: Option<Key>,
}

// What was visited so far.
#[derive(Drop)]
struct Seen<'k> {
    keys: Vec<Key>,
    visited: usize,
    last: Option<&'k Key>,
}

impl<'k> Seen<'k> {
    // One key more.
    #[inline(always)]
    fn add(&mut self, chains: &Chains<Text>, key: &'k Key, id: ChainId) -> Result<(), AllocError>
        requires open { IsOpen chains.now id }
        requires room { self.old.visited < 2 ^ 64 - 1 }
        ensures { OnOk result ((ps : List (Reference × ℕ)) → HasSeen chains.now ps self.old.keys.items self.old.visited (option_copied self.old.last) → HasSeen chains.now (ps ++ (key.now, id) ∷ []) self.new.keys.items self.new.visited (option_copied self.new.last)) }
    {
        self.visited += 1;
        self.last = Some(key);
        if !chains.is_alone(id) {
            self.keys.push(key.clone()?)?;
        }
        Ok(())
    }

    // The keys that are left, until there are so many.
    fn add_all(
        &mut self,
        chains: &Chains<Text>,
        walk: Walk<'k, Key, ChainId>,
        limit: usize,
    ) -> Result<(), AllocError>
        requires { AreOpen chains.now walk }
        ensures { OnOk result ((ps : List (Reference × ℕ)) → HasSeen chains.now ps self.old.keys.items self.old.visited (option_copied self.old.last) → HasSeen chains.now (ps ++ take (limit - length ps) walk.entry) self.new.keys.items self.new.visited (option_copied self.new.last)) }
    {
        for (key, id) in walk {
            if self.visited >= limit {
                return Ok(());
            }
            self.add(chains, key, *id)?;
        }
        Ok(())
    }

    // As `add_all`, of the keys that stand before a cut.
    fn add_before(
        &mut self,
        chains: &Chains<Text>,
        walk: Walk<'k, Key, ChainId>,
        high: Cut<'_>,
        limit: usize,
    ) -> Result<(), AllocError>
        requires open { AreOpen chains.now walk }
        requires sorted { is_sorted ref_cmp walk ≡ true }
        ensures { OnOk result ((ps : List (Reference × ℕ)) → HasSeen chains.now ps self.old.keys.items self.old.visited (option_copied self.old.last) → HasSeen chains.now (ps ++ take (limit - length ps) (filter (λ p. stands_before_spec high.entry p.0) walk.entry)) self.new.keys.items self.new.visited (option_copied self.new.last)) }
    {
        for (key, id) in walk {
            if self.visited >= limit {
                return Ok(());
            }
            if !stands_before(high, key) {
                return Ok(());
            }
            self.add(chains, key, *id)?;
        }
        Ok(())
    }
}

// A copy of a key, where there is one.
fn copy_of(key: Option<&Key>) -> Result<Option<Key>, AllocError>
    ensures { IfOk result (λ copy. copy ≡ option_copied key.entry) }
{
    match key {
        Some(key) => Ok(Some(key.clone()?)),
        None => Ok(None),
    }
}

impl KeyedStore {
    // Visits the keys that are next in turn.
    fn see_next<'k>(&'k self, limit: usize, seen: &mut Seen<'k>) -> Result<(), AllocError>
        requires keys { length seen.old.keys.items ≡ 0 }
        requires visited { seen.old.visited ≡ 0 }
        requires last { option_copied seen.old.last ≡ None }
        ensures { OnOk result (AreNextVisits limit self.now seen.new.keys.items seen.new.visited (option_copied seen.new.last)) }
    {
        match &self.mark {
            None => seen.add_all(&self.chains, self.tree.iter(), limit),
            Some(mark) => {
                let cut = Cut::After(mark);
                seen.add_all(&self.chains, self.tree.from(&CutPoint { cut }), limit)?;
                seen.add_before(&self.chains, self.tree.iter(), cut, limit)
            }
        }
    }

    /// What a collector visits next: the keys after the mark, and then, from the first on, the others; at most so many.
    /// The copies are the caller's, so that each can be cut and dropped. A key that has one version, which is a value,
    /// is counted, and not copied: nothing of it goes. Takes memory for the list, and for each key of over 38 bytes.
    ///
    /// Refusals: `AllocError`.
    pub fn next_visits(&self, alloc: Global, limit: usize) -> Result<Visits, AllocError>
        ensures { IfOk result (λ visits. AreNextVisits limit self.now visits.keys.items visits.visited visits.last) }
    {
        let mut seen = Seen {
            keys: Vec::new(alloc),
            visited: 0,
            last: None,
        };
        self.see_next(limit, &mut seen)?;
        let last = copy_of(seen.last)?;
        let Seen {
            keys,
            visited,
            last: _,
        } = seen;
        Ok(Visits {
            keys,
            visited,
            last,
        })
    }

    // Puts copies of the keys that are next in turn after the others.
    fn copy_next(&self, limit: usize, keys: &mut Vec<Key>) -> Result<(), AllocError>
        requires { length keys.old.items ≡ 0 }
        ensures { OnOk result (keys.new.items ≡ next_in_turn limit self.now) }
    {
        match &self.mark {
            None => copy_keys(self.tree.iter(), limit, keys),
            Some(mark) => {
                let high = Cut::After(mark);
                copy_keys(self.tree.from(&CutPoint { cut: high }), limit, keys)?;
                copy_keys_before(self.tree.iter(), high, limit, keys)
            }
        }
    }

    /// Copies of the keys that a collector visits next: those after the mark, and then, from the first on, the others;
    /// at most so many. They are the caller's, so that each can be cut and dropped. Takes memory for the list, and for
    /// each key of over 38 bytes.
    ///
    /// Refusals: `AllocError`.
    pub fn next_keys(&self, alloc: Global, limit: usize) -> Result<Vec<Key>, AllocError>
        ensures { IfOk result (λ keys. keys.items ≡ next_in_turn limit self.now) }
    {
        let mut keys = Vec::with_capacity(alloc, limit.min(self.placed_count()))?;
        match self.copy_next(limit, &mut keys) {
            Ok(()) => Ok(keys),
            Err(error) => {
                drop(keys);
                Err(error)
            }
        }
    }

    /// How many references are placed.
    pub fn placed_count(&self) -> usize
        ensures { result ≡ finmap.len self.now.versions }
    {
        self.tree.len()
    }
}
