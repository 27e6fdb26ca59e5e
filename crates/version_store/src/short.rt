//! A store of old keys, until its chains are put under new ones.
ghost use Rattle.std.specs.Prelude.{◌≡◌, ℕ, ◌+◌, ◌<◌, ◌≤◌, ◌++◌, ◌∷◌, [], max, length, true, None, OnOk, OnErr, IfOk, MatchResult, vec_len};
ghost use Rattle.std.specs.FinMap as finmap;
ghost use Rattle.std.specs.FinMap.Entries as entries;
ghost use Rattle.collation.specs.Order.{ref_cmp};
ghost use Rattle.collation.specs.Changes.{AreOnce};
ghost use Rattle.version_chain.specs.Versions.{IsAbove};
ghost use Rattle.version_store.specs.Versions.{content_at, versions_of, placed, with_version, written, changed, ArePlaced, AreBelow};

use crate::store::KeyedStore;
use btree::Trail;
use collation::Text;
use key_codec::{Key, ShortKey};
use std::alloc::{AllocError, Global};
use std::marker::Model;
use steady_map::SteadyMap;
use version_chain::{ChainId, Chains};

/// Versions of a database, in a tree from old keys to ids and chains by id. It is seen as a store of new keys is.
#[derive(Drop)]
pub(crate) struct ShortStore {
    tree: SteadyMap<ShortKey, ChainId>,
    chains: Chains<Text>,
    present: u64,
    cut: u64,
}

impl Model for ShortStore {
    ghost use Rattle.std.specs.Prelude.{◌≤◌, None};
    ghost use Rattle.version_store.specs.Versions.{Stored, stored_code};
    ghost use Rattle.version_store.specs.Tied.{versions_in, IsTied};

    ghost Value = { Stored };

    ghost coded = { stored_code };

    ghost view = { λ s. record { versions = versions_in s.chains s.tree.pairs; present = s.present; cut = s.cut; spare = s.chains.spare; mark = None } };

    ghost invariant = { λ s. IsTied s.tree.pairs s.chains s.present × (s.cut ≤ s.present) };
}

// Puts an id under the new key of a reference.
fn put_under_new(
    alloc: Global,
    tree: &mut SteadyMap<Key, ChainId>,
    key: &ShortKey,
    id: ChainId,
) -> Result<(), AllocError>
    ensures { OnOk result (tree.new.pairs ≡ entries.put ref_cmp key.now id tree.old.pairs) }
{
    let key = key.to_key(alloc)?;
    match tree.insert(alloc, key, id) {
        Ok(_) => Ok(()),
        Err(back) => {
            drop(back);
            Err(AllocError)
        }
    }
}

// The same ids under new keys.
fn under_new(
    alloc: Global,
    old: &SteadyMap<ShortKey, ChainId>,
) -> Result<SteadyMap<Key, ChainId>, AllocError>
    requires { entries.is_sorted ref_cmp old.now.pairs ≡ true }
    ensures { IfOk result (λ tree. tree.pairs ≡ old.now.pairs) }
{
    let mut tree = SteadyMap::new(alloc);
    for (key, id) in old.iter() {
        put_under_new(alloc, &mut tree, key, *id)?;
    }
    Ok(tree)
}

impl ShortStore {
    /// A store without references, at stamp 0. Takes no memory.
    pub(crate) fn new(alloc: Global) -> ShortStore
        ensures { result ≡ record { versions = finmap.empty; present = 0; cut = 0; spare = 0; mark = None } }
    {
        ShortStore {
            tree: SteadyMap::new(alloc),
            chains: Chains::new(alloc),
            present: 0,
            cut: 0,
        }
    }

    pub(crate) fn now(&self) -> u64
        ensures { result ≡ self.now.present }
    {
        self.present
    }

    pub(crate) fn cut(&self) -> u64
        ensures { result ≡ self.now.cut }
    {
        self.cut
    }

    pub(crate) fn spare(&self) -> usize
        ensures { result ≡ self.now.spare }
    {
        self.chains.spare()
    }

    pub(crate) fn is_placed(&self, key: &ShortKey) -> bool
        ensures { result ≡ finmap.contains_key self.now.versions key.now }
    {
        self.look_up(key).0
    }

    /// The same chains under new keys. Takes memory for a whole tree.
    ///
    /// Refused where there is no memory: then the store comes back as it was.
    pub(crate) fn rekeyed(self, alloc: Global) -> Result<KeyedStore, ShortStore>
        ensures { MatchResult result (λ store. store ≡ self) (λ back. back ≡ self) }
    {
        match under_new(alloc, &self.tree) {
            Ok(tree) => {
                let ShortStore {
                    tree: old,
                    chains,
                    present,
                    cut,
                } = self;
                drop(old);
                Ok(KeyedStore::of(tree, chains, present, cut))
            }
            Err(_) => Err(self),
        }
    }

    // Whether the reference has a chain, and where the look-up went.
    fn look_up(&self, key: &ShortKey) -> (bool, Trail)
        ensures { result.0 ≡ finmap.contains_key self.now.versions key.now }
    {
        let (id, trail) = self.tree.look_up(key);
        (id.is_some(), trail)
    }

    // Gives a reference without a chain an empty one, by the trail of its look-up.
    fn place_new(&mut self, alloc: Global, key: ShortKey, trail: &Trail) -> Result<(), AllocError>
        requires { finmap.get self.old.versions key ≡ None }
        ensures ok { OnOk result (self.new ≡ record self.old { versions = finmap.insert self.old.versions key [] }) }
        ensures err { OnErr result (self.new ≡ self.old) }
    {
        match self.chains.open() {
            Ok(id) => match self.tree.insert_by(alloc, key, id, trail) {
                Ok(_) => Ok(()),
                Err(back) => {
                    drop(back);
                    self.chains.close(id);
                    Err(AllocError)
                }
            },
            Err(error) => {
                drop(key);
                Err(error)
            }
        }
    }

    /// Gives a reference an empty chain, if it has none.
    pub(crate) fn place(&mut self, alloc: Global, key: &ShortKey) -> Result<(), AllocError>
        ensures ok { OnOk result (self.new ≡ record self.old { versions = placed key.now self.old.versions }) }
        ensures err { OnErr result (self.new ≡ self.old) }
    {
        let (is_placed, trail) = self.look_up(key);
        if is_placed {
            return Ok(());
        }
        let copy = key.clone()?;
        self.place_new(alloc, copy, &trail)
    }

    /// Reserves cells, so that there are at least `cells`, and keeps those there are.
    pub(crate) fn reserve(&mut self, cells: usize) -> Result<(), AllocError>
        ensures kept { self.new ≡ record self.old { spare = self.new.spare } }
        ensures spare { self.old.spare ≤ self.new.spare }
        ensures room { OnOk result (cells ≤ self.new.spare) }
        ensures most { self.new.spare ≤ max self.old.spare (cells + 63) }
    {
        self.chains.reserve(cells)
    }

    // Adds the newest version of a reference.
    fn push_one(&mut self, stamp: u64, key: &ShortKey, value: Option<Text>)
        requires placed { finmap.contains_key self.old.versions key.now ≡ true }
        requires newest { IsAbove stamp (versions_of self.old.versions key.now) }
        requires first { 0 < stamp }
        requires stamp { stamp ≤ self.old.present }
        requires reserved { 0 < self.old.spare }
        ensures versions { self.new.versions ≡ with_version stamp (key.now, value) self.old.versions }
        ensures present { self.new.present ≡ self.old.present }
        ensures cut { self.new.cut ≡ self.old.cut }
        ensures mark { self.new.mark ≡ self.old.mark }
        ensures spare { self.old.spare ≤ self.new.spare + 1 }
    {
        match self.tree.get(key).0 {
            Some(id) => self.chains.push_reserved(*id, stamp, value),
            None => unreachable!(),
        }
    }

    // Adds a version for each change.
    fn push_all(&mut self, stamp: u64, changes: Vec<(ShortKey, Option<Text>)>)
        requires placed { ArePlaced self.old.versions changes.items }
        requires apart { AreOnce changes.items }
        requires newest { AreBelow stamp self.old.versions changes.items }
        requires first { 0 < stamp }
        requires stamp { stamp ≤ self.old.present }
        requires reserved { vec_len changes ≤ self.old.spare }
        ensures versions { self.new.versions ≡ written stamp changes.items self.old.versions }
        ensures present { self.new.present ≡ self.old.present }
        ensures cut { self.new.cut ≡ self.old.cut }
        ensures mark { self.new.mark ≡ self.old.mark }
        ensures spare { self.old.spare ≤ self.new.spare + vec_len changes }
    {
        for (key, value) in changes {
            self.push_one(stamp, &key, value);
            drop(key);
        }
    }

    /// Does the changes, as `write_reserved` of a store of new keys does. Takes no memory.
    pub(crate) fn write_reserved(&mut self, stamp: u64, changes: Vec<(ShortKey, Option<Text>)>)
        requires stamp { self.old.present < stamp }
        requires placed { ArePlaced self.old.versions changes.items }
        requires apart { AreOnce changes.items }
        requires reserved { vec_len changes ≤ self.old.spare }
        ensures content { content_at self.new.versions stamp ≡ changed changes.items (content_at self.old.versions self.old.present) }
        ensures before { (s : ℕ) → s < stamp → content_at self.new.versions s ≡ content_at self.old.versions s }
        ensures versions { self.new.versions ≡ written stamp changes.items self.old.versions }
        ensures present { self.new.present ≡ stamp }
        ensures cut { self.new.cut ≡ self.old.cut }
        ensures mark { self.new.mark ≡ self.old.mark }
        ensures spare { self.old.spare ≤ self.new.spare + vec_len changes }
    {
        self.present = stamp;
        self.push_all(stamp, changes);
    }
}
