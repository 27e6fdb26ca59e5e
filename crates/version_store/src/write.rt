//! Changes: one version for each, at one stamp.
ghost use Rattle.std.specs.Prelude.{◌≡◌, ℕ, ◌+◌, ◌-◌, ◌<◌, ◌≤◌, max, vec_len, true};
ghost use Rattle.std.specs.FinMap as finmap;
ghost use Rattle.collation.specs.Order.{ref_cmp};
ghost use Rattle.collation.specs.Reference.{Reference};
ghost use Rattle.collation.specs.Changes.{AreOnce};
ghost use Rattle.version_chain.specs.Versions.{IsAbove};
ghost use Rattle.version_store.specs.Versions.{KeepsCells, AllKeepCells, content_at, versions_of, row_after, with_version, written, written_and_cut, changed, row_cut, tidied, ArePlaced, AreBelow};

use crate::store::KeyedStore;
use collation::Text;
use key_codec::Key;

impl KeyedStore {
    // Adds the newest version of a reference.
    fn push_one(&mut self, stamp: u64, key: &Key, value: Option<Text>)
        requires placed { finmap.contains_key self.old.versions key.now ≡ true }
        requires newest { IsAbove stamp (versions_of self.old.versions key.now) }
        requires first { 0 < stamp }
        requires stamp { stamp ≤ self.old.present }
        requires reserved { 0 < self.old.spare }
        ensures versions { self.new.versions ≡ with_version stamp (key.now, value) self.old.versions }
        ensures present { self.new.present ≡ self.old.present }
        ensures cut { self.new.cut ≡ self.old.cut }
        ensures mark { self.new.mark ≡ self.old.mark }
        ensures spare { self.old.spare ≤ self.new.spare + 1 }
        ensures cells { KeepsCells key.now self.old self.new }
    {
        match self.tree.get(key).0 {
            Some(id) => {
                let (id, cut) = (*id, self.cut);
                self.recent.note(key, stamp, cut);
                self.chains.push_reserved(id, stamp, value);
            }
            None => unreachable!(),
        }
    }

    // Adds a version for each change.
    fn push_all(&mut self, stamp: u64, changes: Vec<(Key, Option<Text>)>)
        requires placed { ArePlaced self.old.versions changes.items }
        requires apart { AreOnce changes.items }
        requires newest { AreBelow stamp self.old.versions changes.items }
        requires first { 0 < stamp }
        requires stamp { stamp ≤ self.old.present }
        requires reserved { vec_len changes ≤ self.old.spare }
        ensures versions { self.new.versions ≡ written stamp changes.items self.old.versions }
        ensures present { self.new.present ≡ self.old.present }
        ensures cut { self.new.cut ≡ self.old.cut }
        ensures mark { self.new.mark ≡ self.old.mark }
        ensures spare { self.old.spare ≤ self.new.spare + vec_len changes }
        ensures cells { AllKeepCells changes.items self.old self.new }
    {
        for (key, value) in changes {
            self.push_one(stamp, &key, value);
            drop(key);
        }
    }

    /// Does the changes: one version for each, at one stamp, which is now from here on. The content at the stamp is
    /// that at the old now with the changes done; at each stamp before it is as it was. With no changes only now moves.
    /// Takes no memory.
    pub fn write_reserved(&mut self, stamp: u64, changes: Vec<(Key, Option<Text>)>)
        requires stamp { self.old.present < stamp }
        requires placed { ArePlaced self.old.versions changes.items }
        requires apart { AreOnce changes.items }
        requires reserved { vec_len changes ≤ self.old.spare }
        ensures content { content_at self.new.versions stamp ≡ changed changes.items (content_at self.old.versions self.old.present) }
        ensures before { (s : ℕ) → s < stamp → content_at self.new.versions s ≡ content_at self.old.versions s }
        ensures rows { (r : Reference) → versions_of self.new.versions r ≡ row_after stamp (finmap.find ref_cmp r changes.items) (versions_of self.old.versions r) }
        ensures versions { self.new.versions ≡ written stamp changes.items self.old.versions }
        ensures present { self.new.present ≡ stamp }
        ensures cut { self.new.cut ≡ self.old.cut }
        ensures mark { self.new.mark ≡ self.old.mark }
        ensures spare { self.old.spare ≤ self.new.spare + vec_len changes }
        ensures cells { AllKeepCells changes.items self.old self.new }
    {
        self.present = stamp;
        self.push_all(stamp, changes);
    }

    // Adds the newest version of a reference, drops what nobody at or after the horizon sees of it, and the reference
    // where nothing is left.
    fn push_and_cut(&mut self, stamp: u64, horizon: u64, key: &Key, value: Option<Text>)
        requires placed { finmap.contains_key self.old.versions key.now ≡ true }
        requires newest { IsAbove stamp (versions_of self.old.versions key.now) }
        requires first { 0 < stamp }
        requires stamp { stamp ≤ self.old.present }
        requires reserved { 0 < self.old.spare }
        ensures versions { self.new.versions ≡ tidied horizon key.now (with_version stamp (key.now, value) self.old.versions) }
        ensures present { self.new.present ≡ self.old.present }
        ensures cut { self.new.cut ≡ self.old.cut }
        ensures mark { self.new.mark ≡ self.old.mark }
        ensures spare { self.old.spare ≤ self.new.spare + 1 }
        ensures cells { KeepsCells key.now self.old self.new }
    {
        match self.tree.get(key).0 {
            Some(id) => {
                let id = *id;
                self.recent.note(key, stamp, self.cut);
                self.chains.push_and_cut(id, stamp, value, horizon);
                match self.chains.newest(id) {
                    Some(_) => {}
                    None => {
                        drop(self.tree.remove(key));
                        self.chains.close(id);
                    }
                }
            }
            None => unreachable!(),
        }
    }

    // Takes out a reference with all its versions.
    fn take_out(&mut self, key: &Key)
        requires placed { finmap.contains_key self.old.versions key.now ≡ true }
        ensures versions { self.new.versions ≡ finmap.remove self.old.versions key.now }
        ensures present { self.new.present ≡ self.old.present }
        ensures cut { self.new.cut ≡ self.old.cut }
        ensures mark { self.new.mark ≡ self.old.mark }
        ensures spare { self.old.spare ≤ self.new.spare }
        ensures cells { KeepsCells key.now self.old self.new }
    {
        match self.tree.remove(key) {
            Some(id) => self.chains.close(id),
            None => unreachable!(),
        }
    }

    // Writes one change as `push_and_cut` does. An absence that nobody asks for takes out its reference at once.
    fn write_one(&mut self, stamp: u64, horizon: u64, key: &Key, value: Option<Text>)
        requires placed { finmap.contains_key self.old.versions key.now ≡ true }
        requires newest { IsAbove stamp (versions_of self.old.versions key.now) }
        requires first { 0 < stamp }
        requires stamp { stamp ≤ self.old.present }
        requires reserved { 0 < self.old.spare }
        ensures versions { self.new.versions ≡ tidied horizon key.now (with_version stamp (key.now, value) self.old.versions) }
        ensures present { self.new.present ≡ self.old.present }
        ensures cut { self.new.cut ≡ self.old.cut }
        ensures mark { self.new.mark ≡ self.old.mark }
        ensures spare { self.old.spare ≤ self.new.spare + 1 }
        ensures cells { KeepsCells key.now self.old self.new }
    {
        match value {
            Some(text) => self.push_and_cut(stamp, horizon, key, Some(text)),
            None => {
                if stamp <= horizon {
                    self.take_out(key);
                } else {
                    self.absences = self.absences.wrapping_add(1);
                    self.push_and_cut(stamp, horizon, key, None);
                }
            }
        }
    }

    // Writes each change, and cuts its reference.
    fn push_and_cut_all(&mut self, stamp: u64, horizon: u64, changes: Vec<(Key, Option<Text>)>)
        requires placed { ArePlaced self.old.versions changes.items }
        requires apart { AreOnce changes.items }
        requires newest { AreBelow stamp self.old.versions changes.items }
        requires first { 0 < stamp }
        requires stamp { stamp ≤ self.old.present }
        requires reserved { vec_len changes ≤ self.old.spare }
        ensures versions { self.new.versions ≡ written_and_cut stamp horizon changes.items self.old.versions }
        ensures present { self.new.present ≡ self.old.present }
        ensures cut { self.new.cut ≡ self.old.cut }
        ensures mark { self.new.mark ≡ self.old.mark }
        ensures spare { self.old.spare ≤ self.new.spare + vec_len changes }
        ensures cells { AllKeepCells changes.items self.old self.new }
    {
        for (key, value) in changes {
            self.write_one(stamp, horizon, &key, value);
            drop(key);
        }
    }

    /// Does the changes as `write_reserved` does, raises the cut to the horizon, where it is below, and drops of the
    /// references that are changed what nobody at or after the cut sees, and each that has no version left. The content
    /// at each stamp from the cut on is as without that. One look-up for each change. Takes no memory.
    pub fn write_and_cut(&mut self, stamp: u64, horizon: u64, changes: Vec<(Key, Option<Text>)>)
        requires stamp { self.old.present < stamp }
        requires horizon { horizon ≤ stamp }
        requires placed { ArePlaced self.old.versions changes.items }
        requires apart { AreOnce changes.items }
        requires reserved { vec_len changes ≤ self.old.spare }
        ensures content { content_at self.new.versions stamp ≡ changed changes.items (content_at self.old.versions self.old.present) }
        ensures before { (s : ℕ) → self.new.cut ≤ s → s < stamp → content_at self.new.versions s ≡ content_at self.old.versions s }
        ensures rows { (r : Reference) → versions_of self.new.versions r ≡ row_cut stamp self.new.cut (finmap.find ref_cmp r changes.items) (versions_of self.old.versions r) }
        ensures versions { self.new.versions ≡ written_and_cut stamp self.new.cut changes.items self.old.versions }
        ensures present { self.new.present ≡ stamp }
        ensures cut { self.new.cut ≡ max self.old.cut horizon }
        ensures mark { self.new.mark ≡ self.old.mark }
        ensures spare { self.old.spare ≤ self.new.spare + vec_len changes }
        ensures cells { AllKeepCells changes.items self.old self.new }
    {
        let cut = self.cut.max(horizon);
        self.present = stamp;
        self.cut = cut;
        self.push_and_cut_all(stamp, cut, changes);
    }
}
