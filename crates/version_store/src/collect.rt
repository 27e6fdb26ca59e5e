//! What a collector calls: the cut, the keys in order, and what nobody at or after the cut sees.
ghost use Rattle.std.specs.Prelude.{◌≡◌, ℕ, ◌+◌, ◌<◌, ◌≤◌, Some, OnOk, OnErr, IfErr, true, not, max, cond, length};
ghost use Rattle.std.specs.Option.{option_copied, option_map};
ghost use Rattle.std.specs.FinMap as finmap;
ghost use Rattle.refusal.specs.declared.Refusal.{Refusal};
ghost use Rattle.globals.specs.Entries.{nearest_entry};
ghost use Rattle.globals.specs.Cuts.{stands_before};
ghost use Rattle.version_chain.specs.Cut.{left_after};
ghost use Rattle.version_store.specs.Versions.{KeepsCells, content_at, versions_of, is_behind, is_bare, tidied};

use crate::store::KeyedStore;
use globals::Cut;
use key_codec::Key;
use key_map::CutPoint;
use refusal::Refusal;

impl KeyedStore {
    /// Raises the cut to the horizon, where it is below. Content below the cut may go.
    ///
    /// Refusals: `Ahead` where the horizon is after now. After it nothing has changed.
    pub fn raise_cut(&mut self, horizon: u64) -> Result<(), Refusal>
        ensures ok { OnOk result (self.new ≡ record self.old { cut = max self.old.cut horizon }) }
        ensures kept { OnOk result (horizon ≤ self.old.present) }
        ensures err { OnErr result (self.new ≡ self.old) }
        ensures cause { IfErr result (λ refusal. (refusal ≡ Refusal.Ahead) × (self.old.present < horizon)) }
    {
        if horizon > self.present {
            return Err(Refusal::Ahead);
        }
        self.cut = self.cut.max(horizon);
        Ok(())
    }

    // The first placed reference that doesn't stand before the cut.
    fn key_from(&self, cut: Cut<'_>) -> Option<&Key>
        ensures { option_copied result ≡ option_map (λ e. e.0) (nearest_entry true (λ x. not (stands_before cut.entry x)) self.now.versions) }
    {
        match self.tree.first_from(&CutPoint { cut }).0 {
            Some((key, _)) => Some(key),
            None => None,
        }
    }

    /// The first placed reference after this one, or of all where none is given; also where it has no versions.
    pub fn key_after(&self, key: Option<&Key>) -> Option<&Key>
        ensures { option_copied result ≡ option_map (λ e. e.0) (nearest_entry true (is_behind (option_copied key.entry)) self.now.versions) }
    {
        match key {
            Some(key) => self.key_from(Cut::After(key)),
            None => self.key_from(Cut::Start),
        }
    }

    /// Drops the versions of a placed reference that nobody at or after the horizon sees, and counts them. Takes no
    /// memory.
    pub fn cut_key(&mut self, key: &Key, horizon: u64) -> usize
        requires placed { finmap.contains_key self.old.versions key.now ≡ true }
        requires horizon { horizon ≤ self.old.cut }
        ensures versions { self.new.versions ≡ finmap.insert self.old.versions key.now (left_after horizon (versions_of self.old.versions key.now)) }
        ensures count { result + length (left_after horizon (versions_of self.old.versions key.now)) ≡ length (versions_of self.old.versions key.now) }
        ensures content { (s : ℕ) → horizon ≤ s → content_at self.new.versions s ≡ content_at self.old.versions s }
        ensures present { self.new.present ≡ self.old.present }
        ensures cut { self.new.cut ≡ self.old.cut }
        ensures mark { self.new.mark ≡ self.old.mark }
        ensures spare { self.old.spare ≤ self.new.spare }
        ensures cells { KeepsCells key.now self.old self.new }
    {
        match self.tree.get(key).0 {
            Some(id) => self.chains.cut(*id, horizon),
            None => unreachable!(),
        }
    }

    /// Takes out a reference that has no versions, and tells whether it did. No content changes. Takes no memory.
    pub fn drop_key(&mut self, key: &Key) -> bool
        ensures bare { result ≡ is_bare (finmap.get self.old.versions key.now) }
        ensures stored { self.new ≡ record self.old { versions = cond result (finmap.remove self.old.versions key.now) self.old.versions } }
        ensures content { (s : ℕ) → content_at self.new.versions s ≡ content_at self.old.versions s }
    {
        match self.tree.get(key).0 {
            Some(id) => {
                let id = *id;
                match self.chains.newest(id) {
                    Some(_) => false,
                    None => {
                        drop(self.tree.remove(key));
                        self.chains.close(id);
                        true
                    }
                }
            }
            None => false,
        }
    }

    /// Drops the versions of a placed reference that nobody at or after the horizon sees, and the reference where
    /// nothing is left: `cut_key` and `drop_key` in one look-up. Tells how many versions went, and whether the
    /// reference did. Takes no memory.
    pub fn cut_and_drop(&mut self, key: &Key, horizon: u64) -> (usize, bool)
        requires placed { finmap.contains_key self.old.versions key.now ≡ true }
        requires horizon { horizon ≤ self.old.cut }
        ensures versions { self.new.versions ≡ tidied horizon key.now self.old.versions }
        ensures count { result.0 + length (left_after horizon (versions_of self.old.versions key.now)) ≡ length (versions_of self.old.versions key.now) }
        ensures bare { result.1 ≡ is_bare (Some (left_after horizon (versions_of self.old.versions key.now))) }
        ensures content { (s : ℕ) → horizon ≤ s → content_at self.new.versions s ≡ content_at self.old.versions s }
        ensures present { self.new.present ≡ self.old.present }
        ensures cut { self.new.cut ≡ self.old.cut }
        ensures mark { self.new.mark ≡ self.old.mark }
        ensures spare { self.old.spare ≤ self.new.spare }
        ensures cells { KeepsCells key.now self.old self.new }
    {
        match self.tree.get(key).0 {
            Some(id) => {
                let chain = *id;
                let count = self.chains.cut(chain, horizon);
                match self.chains.newest(chain) {
                    Some(_) => (count, false),
                    None => {
                        drop(self.tree.remove(key));
                        self.chains.close(chain);
                        (count, true)
                    }
                }
            }
            None => unreachable!(),
        }
    }

    /// Takes over the key that a collector visited last. Takes no memory.
    pub fn mark(&mut self, key: Key)
        ensures { self.new ≡ record self.old { mark = Some key } }
    {
        self.mark = Some(key);
    }

    /// The key that was marked last, or none.
    pub fn marked(&self) -> Option<&Key>
        ensures { option_copied result ≡ self.now.mark }
    {
        self.mark.as_ref()
    }
}
