//! One reference set at a new stamp, and placed on the way.
ghost use Rattle.std.specs.Prelude.{◌≡◌, ⊤, ℕ, ◌+◌, ◌<◌, ◌≤◌, [], ◌∷◌, None, Some, max, OnOk, OnErr, MatchOption};
ghost use Rattle.std.specs.FinMap as finmap;
ghost use Rattle.collation.specs.Order.{ref_cmp};
ghost use Rattle.collation.specs.Reference.{Reference};
ghost use Rattle.version_store.specs.Versions.{IsSetAt, KeepsCells, cells_under, content_at, versions_of, row_cut};

use crate::store::KeyedStore;
use btree::Trail;
use collation::Text;
use key_codec::Key;
use std::alloc::{AllocError, Global};
use std::mem;

impl KeyedStore {
    // Sets a reference that is placed to the value, which is taken out, and cuts it; else tells where the look-up went.
    fn set_placed(
        &mut self,
        alloc: Global,
        stamp: u64,
        cut: u64,
        key: &Key,
        value: &mut Text,
    ) -> Option<Trail>
        requires stamp { self.old.present < stamp }
        requires cut { cut ≤ stamp }
        requires raised { self.old.cut ≤ cut }
        requires reserved { 0 < self.old.spare }
        ensures set { MatchOption result (IsSetAt stamp cut (key.now, Some value.old) self.old self.new)
            (λ _. (value.new ≡ value.old) × (finmap.get self.old.versions key.now ≡ None) × (self.new ≡ self.old)) }
        ensures taken { MatchOption result (value.new ≡ []) (λ _. ⊤) }
        ensures spare { self.old.spare ≤ self.new.spare + 1 }
        ensures cells { KeepsCells key.now self.old self.new }
    {
        let (found, trail) = self.tree.look_up(key);
        match found {
            Some(id) => {
                let id = *id;
                self.present = stamp;
                self.cut = cut;
                self.recent.note(key, stamp, cut);
                let value = mem::replace(value, Text::new(alloc));
                self.chains.push_and_cut(id, stamp, Some(value), cut);
                None
            }
            None => Some(trail),
        }
    }

    // Places a reference that isn't, by the trail of its look-up, and sets it.
    #[inline(always)]
    fn set_new(
        &mut self,
        alloc: Global,
        stamp: u64,
        cut: u64,
        key: Key,
        value: Text,
        trail: &Trail,
    ) -> Result<(), AllocError>
        requires stamp { self.old.present < stamp }
        requires cut { cut ≤ stamp }
        requires raised { self.old.cut ≤ cut }
        requires none { finmap.get self.old.versions key ≡ None }
        ensures ok { OnOk result (IsSetAt stamp cut (key, Some value) self.old self.new) }
        ensures spare { self.old.spare ≤ self.new.spare + 1 }
        ensures cells { OnOk result (KeepsCells key self.old self.new) }
        ensures err { OnErr result (self.new ≡ self.old) }
    {
        let id = match self.chains.open() {
            Ok(id) => id,
            Err(error) => {
                drop(key);
                drop(value);
                return Err(error);
            }
        };
        self.recent.note(&key, stamp, cut);
        match self.tree.insert_by(alloc, key, id, trail) {
            Ok(_) => {
                self.present = stamp;
                self.cut = cut;
                self.chains.push_and_cut(id, stamp, Some(value), cut);
                Ok(())
            }
            Err(back) => {
                drop(back);
                drop(value);
                self.chains.close(id);
                Err(AllocError)
            }
        }
    }

    // Places a copy of a reference that isn't, and sets it to the value, which is taken out.
    #[inline(always)]
    fn set_copy(
        &mut self,
        alloc: Global,
        stamp: u64,
        cut: u64,
        key: &Key,
        value: &mut Text,
        trail: &Trail,
    ) -> Result<(), AllocError>
        requires stamp { self.old.present < stamp }
        requires cut { cut ≤ stamp }
        requires raised { self.old.cut ≤ cut }
        requires none { finmap.get self.old.versions key.now ≡ None }
        ensures ok { OnOk result (IsSetAt stamp cut (key.now, Some value.old) self.old self.new) }
        ensures taken { OnOk result (value.new ≡ []) }
        ensures spare { self.old.spare ≤ self.new.spare + 1 }
        ensures cells { OnOk result (KeepsCells key.now self.old self.new) }
        ensures err { OnErr result (self.new ≡ self.old) }
    {
        let copy = key.clone()?;
        let value = mem::replace(value, Text::new(alloc));
        self.set_new(alloc, stamp, cut, copy, value, trail)
    }

    // Sets a reference, which is placed where it isn't, and cuts it.
    fn place_and_set(
        &mut self,
        alloc: Global,
        stamp: u64,
        cut: u64,
        key: &Key,
        value: &mut Text,
    ) -> Result<(), AllocError>
        requires stamp { self.old.present < stamp }
        requires cut { cut ≤ stamp }
        requires raised { self.old.cut ≤ cut }
        ensures ok { OnOk result (IsSetAt stamp cut (key.now, Some value.old) self.old self.new) }
        ensures taken { OnOk result (value.new ≡ []) }
        ensures err { OnErr result (self.new ≡ record self.old { spare = self.new.spare }) }
        ensures spare { self.old.spare ≤ self.new.spare + 1 }
        ensures most { self.new.spare + cells_under self.new.versions key.now ≤ max self.old.spare 64 + cells_under self.old.versions key.now }
    {
        self.reserve(1)?;
        if let Some(trail) = self.place_beside(key) {
            return self.set_copy(alloc, stamp, cut, key, value, &trail);
        }
        match self.set_placed(alloc, stamp, cut, key, value) {
            None => Ok(()),
            Some(trail) => {
                self.near.note(&trail);
                self.set_copy(alloc, stamp, cut, key, value, &trail)
            }
        }
    }

    /// Sets one reference at a stamp, which is now from here on, and raises the cut to the horizon, where it is below:
    /// as `write_and_cut` of this one change, but the reference need not be placed. One look-up, or none where it goes
    /// beside the last new reference; where it isn't placed a copy of the key then goes in by the trail of either. The
    /// value is taken out of where it lies.
    ///
    /// Refusals: `AllocError`. After it a cell may be reserved, and the value may be gone; nothing else has changed. Cells
    /// are reserved only where none is, and then a page of 64.
    pub fn set_and_cut(
        &mut self,
        alloc: Global,
        stamp: u64,
        horizon: u64,
        key: &Key,
        value: &mut Text,
    ) -> Result<(), AllocError>
        requires stamp { self.old.present < stamp }
        requires horizon { horizon ≤ stamp }
        ensures content { OnOk result (content_at self.new.versions stamp ≡ finmap.insert (content_at self.old.versions self.old.present) key.now value.old) }
        ensures before { OnOk result ((s : ℕ) → self.new.cut ≤ s → s < stamp → content_at self.new.versions s ≡ content_at self.old.versions s) }
        ensures rows { OnOk result ((r : Reference) → versions_of self.new.versions r ≡ row_cut stamp self.new.cut (finmap.find ref_cmp r ((key.now, Some value.old) ∷ [])) (versions_of self.old.versions r)) }
        ensures set { OnOk result (IsSetAt stamp (max self.old.cut horizon) (key.now, Some value.old) self.old self.new) }
        ensures taken { OnOk result (value.new ≡ []) }
        ensures err { OnErr result (self.new ≡ record self.old { spare = self.new.spare }) }
        ensures spare { self.old.spare ≤ self.new.spare + 1 }
        ensures most { self.new.spare + cells_under self.new.versions key.now ≤ max self.old.spare 64 + cells_under self.old.versions key.now }
    {
        let cut = self.cut.max(horizon);
        self.place_and_set(alloc, stamp, cut, key, value)
    }

    /// Makes this stamp now. No reference changes there; the cut is raised to the horizon, where it is below. Takes no
    /// memory.
    pub fn pass(&mut self, stamp: u64, horizon: u64)
        requires stamp { self.old.present < stamp }
        requires horizon { horizon ≤ stamp }
        ensures { self.new ≡ record self.old { present = stamp; cut = max self.old.cut horizon } }
    {
        self.cut = self.cut.max(horizon);
        self.present = stamp;
    }
}
