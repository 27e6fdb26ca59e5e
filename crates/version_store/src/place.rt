//! Room for changes: chains for references, and cells for versions.
ghost use Rattle.std.specs.Prelude.{◌≡◌, ℕ, ◌+◌, ◌≤◌, max, [], None, IsSome, OnOk, OnErr, length, true, false, map, drop};
ghost use Rattle.std.specs.Ordering.{eq_by_cmp};
ghost use Rattle.std.specs.FinMap as finmap;
ghost use Rattle.collation.specs.Reference.{Reference};
ghost use Rattle.version_store.specs.Versions.{Versions, content_at, versions_of, placed, all_placed, is_bare, AddsNoneBare};
ghost use Rattle.std.specs.FinMap.{find};
ghost use Rattle.collation.specs.Order.{ref_cmp};
ghost use Rattle.version_store.specs.Tied.{AreKeysOf};

use crate::store::KeyedStore;
use btree::Trail;
use collation::Text;
use globals::Cut;
use key_codec::Key;
use key_map::CutPoint;
use std::alloc::{AllocError, Global};
use std::cmp::Ordering;
use steady_map::Walk;
use version_chain::ChainId;

// With fewer changes a walk beside them doesn't pay.
const FEW: usize = 8;

// How many of the changes, from the first on, are of just the references that a walk passes.
fn count_along(walk: Walk<'_, Key, ChainId>, changes: &[(Key, Option<Text>)]) -> usize
    ensures few { result ≤ length changes.now }
    ensures placed { (m : Versions) → AreKeysOf m walk.entry → all_placed (map (λ c. c.0) (drop result changes.now)) m ≡ all_placed (map (λ c. c.0) changes.now) m }
{
    let mut walk = walk;
    let mut count = 0;
    for (key, _) in changes {
        let Some((placed, _)) = walk.next() else {
            return count;
        };
        match key.cmp(placed) {
            Ordering::Equal => count += 1,
            _ => return count,
        }
    }
    count
}

impl KeyedStore {
    // Gives a reference without a chain an empty one, by the trail of its look-up.
    fn place_new(&mut self, alloc: Global, key: Key, trail: &Trail) -> Result<(), AllocError>
        requires { finmap.get self.old.versions key ≡ None }
        ensures ok { OnOk result (self.new ≡ record self.old { versions = finmap.insert self.old.versions key [] }) }
        ensures err { OnErr result (self.new ≡ self.old) }
    {
        match self.chains.open() {
            Ok(id) => match self.tree.insert_by(alloc, key, id, trail) {
                Ok(_) => Ok(()),
                Err(back) => {
                    drop(back);
                    self.chains.close(id);
                    Err(AllocError)
                }
            },
            Err(error) => {
                drop(key);
                Err(error)
            }
        }
    }

    // Where a reference goes that has no chain, told by the place of the last new one. Where it answers `None` it may
    // have one.
    pub(crate) fn place_beside(&mut self, key: &Key) -> Option<Trail>
        ensures missed { IsSome result → finmap.get self.old.versions key.now ≡ None }
        ensures same { self.new ≡ self.old }
    {
        let mut trail = self.near.trail()?;
        if self.tree.misses_beside(key, &mut trail) {
            self.near.told(trail);
            return Some(trail);
        }
        self.near.was_in_vain();
        None
    }

    // Where a reference goes that has no chain; `None` where it has one.
    fn missed(&mut self, key: &Key) -> Option<Trail>
        ensures missed { IsSome result → finmap.get self.old.versions key.now ≡ None }
        ensures found { result ≡ None → finmap.contains_key self.old.versions key.now ≡ true }
        ensures same { self.new ≡ self.old }
    {
        if let Some(trail) = self.place_beside(key) {
            return Some(trail);
        }
        let (is_placed, trail) = self.look_up(key);
        if is_placed {
            return None;
        }
        self.near.note(&trail);
        Some(trail)
    }

    // Gives a reference an empty chain, if it has none.
    fn place(&mut self, alloc: Global, key: &Key) -> Result<(), AllocError>
        ensures ok { OnOk result (self.new ≡ record self.old { versions = placed key.now self.old.versions }) }
        ensures err { OnErr result (self.new ≡ self.old) }
        ensures others { (x : Reference) → eq_by_cmp ref_cmp x key.now ≡ false → finmap.get self.new.versions x ≡ finmap.get self.old.versions x }
        ensures rows { (r : Reference) → versions_of self.new.versions r ≡ versions_of self.old.versions r }
        ensures content { (s : ℕ) → content_at self.new.versions s ≡ content_at self.old.versions s }
    {
        let Some(trail) = self.missed(key) else {
            return Ok(());
        };
        let copy = key.clone()?;
        self.place_new(alloc, copy, &trail)
    }

    // Gives the reference of each change an empty chain, if it has none.
    fn place_each(
        &mut self,
        alloc: Global,
        changes: &[(Key, Option<Text>)],
    ) -> Result<(), AllocError>
        ensures placed { OnOk result (self.new.versions ≡ all_placed (map (λ c. c.0) changes.now) self.old.versions) }
        ensures others { (x : Reference) → find ref_cmp x changes.now ≡ None → finmap.get self.new.versions x ≡ finmap.get self.old.versions x }
        ensures rows { (r : Reference) → versions_of self.new.versions r ≡ versions_of self.old.versions r }
        ensures content { (s : ℕ) → content_at self.new.versions s ≡ content_at self.old.versions s }
        ensures present { self.new.present ≡ self.old.present }
        ensures cut { self.new.cut ≡ self.old.cut }
        ensures mark { self.new.mark ≡ self.old.mark }
        ensures spare { self.new.spare ≡ self.old.spare }
    {
        for (key, _) in changes {
            self.place(alloc, key)?;
        }
        Ok(())
    }

    // How many of the changes, from the first on, are known to be of placed references, by one look-up and a walk from
    // there. A KILL's are all.
    fn count_placed(&self, changes: &[(Key, Option<Text>)]) -> usize
        ensures few { result ≤ length changes.now }
        ensures placed { all_placed (map (λ c. c.0) (drop result changes.now)) self.now.versions ≡ all_placed (map (λ c. c.0) changes.now) self.now.versions }
    {
        if changes.len() < FEW {
            return 0;
        }
        let cut = Cut::Before(&changes[0].0);
        count_along(self.tree.from(&CutPoint { cut }), changes)
    }

    /// Reserves cells, so that there are at least `cells`, and keeps those there are.
    pub(crate) fn reserve(&mut self, cells: usize) -> Result<(), AllocError>
        ensures kept { self.new ≡ record self.old { spare = self.new.spare } }
        ensures spare { self.old.spare ≤ self.new.spare }
        ensures room { OnOk result (cells ≤ self.new.spare) }
        ensures most { self.new.spare ≤ max self.old.spare (cells + 63) }
    {
        self.chains.reserve(cells)
    }

    /// Gives the reference of each change a chain, if it has none, and reserves a cell for each change. A chain without
    /// versions is in no content.
    ///
    /// Refusals: `AllocError`. After it none is placed that wasn't, cells may be reserved, and no content and no
    /// version has changed.
    pub fn place_keys(
        &mut self,
        alloc: Global,
        changes: &[(Key, Option<Text>)],
    ) -> Result<(), AllocError>
        ensures placed { OnOk result (self.new.versions ≡ all_placed (map (λ c. c.0) changes.now) self.old.versions) }
        ensures reserved { OnOk result (length changes.now ≤ self.new.spare) }
        ensures bare { OnErr result (AddsNoneBare self.old.versions self.new.versions) }
        ensures rows { (r : Reference) → versions_of self.new.versions r ≡ versions_of self.old.versions r }
        ensures content { (s : ℕ) → content_at self.new.versions s ≡ content_at self.old.versions s }
        ensures present { self.new.present ≡ self.old.present }
        ensures cut { self.new.cut ≡ self.old.cut }
        ensures mark { self.new.mark ≡ self.old.mark }
        ensures spare { self.old.spare ≤ self.new.spare }
        ensures most { self.new.spare ≤ max self.old.spare (length changes.now + 63) }
    {
        let placed = self.count_placed(changes);
        if self.place_each(alloc, &changes[placed..]).is_err() {
            self.unplace(changes);
            return Err(AllocError);
        }
        if self.reserve(changes.len()).is_err() {
            self.unplace(changes);
            return Err(AllocError);
        }
        Ok(())
    }

    // Takes the changes' references out that have no versions. Takes no memory.
    fn unplace(&mut self, changes: &[(Key, Option<Text>)])
        ensures bare { (x : Reference) → is_bare (finmap.get self.new.versions x) ≡ true → (is_bare (finmap.get self.old.versions x) ≡ true) × (find ref_cmp x changes.now ≡ None) }
        ensures rows { (r : Reference) → versions_of self.new.versions r ≡ versions_of self.old.versions r }
        ensures content { (s : ℕ) → content_at self.new.versions s ≡ content_at self.old.versions s }
        ensures present { self.new.present ≡ self.old.present }
        ensures cut { self.new.cut ≡ self.old.cut }
        ensures mark { self.new.mark ≡ self.old.mark }
        ensures spare { self.new.spare ≡ self.old.spare }
    {
        for (key, _) in changes {
            self.drop_key(key);
        }
    }
}
