//! A store whose keys may be old ones.
ghost use Rattle.std.specs.Prelude.{◌≡◌, ℕ, ◌+◌, ◌<◌, ◌≤◌, max, true, false, not, None, is_some, ◌⊎◌, OnOk, OnErr, IfOk, IfErr, IfSome, MatchResult, vec_len};
ghost use Rattle.std.specs.FinMap as finmap;
ghost use Rattle.globals.specs.declared.cut.Cut.{Cut};
ghost use Rattle.collation.specs.Changes.{AreOnce};
ghost use Rattle.refusal.specs.declared.Refusal.{Refusal};
ghost use Rattle.version_store.specs.Versions.{content_at, newest_between, placed, written, changed, ArePlaced};

use crate::short::ShortStore;
use crate::snapshot::Snapshot;
use crate::store::KeyedStore;
use collation::Text;
use key_codec::ShortKey;
use refusal::Refusal;
use std::alloc::{AllocError, Global};
use std::marker::Model;
use std::mem;

// The store, by the form of its keys.
#[derive(Drop)]
enum Kept {
    Keyed(KeyedStore),
    Short(ShortStore),
}

/// Versions of a database under keys of the form in use, or under old keys until `rekey` puts the same chains under
/// new ones.
///
/// Contracts see which of both (`HeldStore` of `specs/Held.antt`), and what a `KeyedStore` shows.
#[derive(Drop)]
pub struct Store {
    kept: Kept,
}

impl Model for Store {
    ghost use Rattle.version_store.specs.Held.{HeldStore, held_code, held_in};

    ghost Value = { HeldStore };

    ghost coded = { held_code };

    ghost view = { λ s. held_in s.kept };
}

impl Store {
    /// A store of keys of the form in use, without references, at stamp 0. Takes no memory.
    pub fn new(alloc: Global) -> Store
        ensures { result ≡ record { is_short = false; stored = record { versions = finmap.empty; present = 0; cut = 0; spare = 0; mark = None } } }
    {
        Store {
            kept: Kept::Keyed(KeyedStore::new(alloc)),
        }
    }

    /// A store of old keys, without references, at stamp 0. Takes no memory.
    pub fn new_short(alloc: Global) -> Store
        ensures { result ≡ record { is_short = true; stored = record { versions = finmap.empty; present = 0; cut = 0; spare = 0; mark = None } } }
    {
        Store {
            kept: Kept::Short(ShortStore::new(alloc)),
        }
    }

    /// A store whose keys are of the form in use, as it is.
    pub fn of(store: KeyedStore) -> Store
        ensures { result ≡ record { is_short = false; stored = store } }
    {
        Store {
            kept: Kept::Keyed(store),
        }
    }

    /// Whether its keys are old ones.
    pub fn is_short(&self) -> bool
        ensures { result ≡ self.now.is_short }
    {
        match &self.kept {
            Kept::Keyed(_) => false,
            Kept::Short(_) => true,
        }
    }

    /// The newest stamp.
    pub fn now(&self) -> u64
        ensures { result ≡ self.now.stored.present }
    {
        match &self.kept {
            Kept::Keyed(store) => store.now(),
            Kept::Short(store) => store.now(),
        }
    }

    /// The oldest stamp at which content is kept.
    pub fn cut(&self) -> u64
        ensures { result ≡ self.now.stored.cut }
    {
        match &self.kept {
            Kept::Keyed(store) => store.cut(),
            Kept::Short(store) => store.cut(),
        }
    }

    /// For how many versions cells are reserved.
    pub fn spare(&self) -> usize
        ensures { result ≡ self.now.stored.spare }
    {
        match &self.kept {
            Kept::Keyed(store) => store.spare(),
            Kept::Short(store) => store.spare(),
        }
    }

    /// Whether a reference has a chain in a store of old keys.
    pub fn is_placed_short(&self, key: &ShortKey) -> bool
        requires { self.now.is_short ≡ true }
        ensures { result ≡ finmap.contains_key self.now.stored.versions key.now }
    {
        match &self.kept {
            Kept::Short(store) => store.is_placed(key),
            Kept::Keyed(_) => unreachable!(),
        }
    }

    /// The content at a stamp, as `KeyedStore::view_at` shows it. Takes no memory.
    ///
    /// Refusals: `Gone` where it is below the cut, `Ahead` where it is after now.
    pub fn view_at(&self, stamp: u64) -> Result<Snapshot<'_>, Refusal>
        requires { self.now.is_short ≡ false }
        ensures view { IfOk result (λ view. view ≡ content_at self.now.stored.versions stamp) }
        ensures kept { OnOk result ((self.now.stored.cut ≤ stamp) × (stamp ≤ self.now.stored.present)) }
        ensures refused { IfErr result (λ refusal. ((refusal ≡ Refusal.Gone) × (stamp < self.now.stored.cut)) ⊎ ((refusal ≡ Refusal.Ahead) × (self.now.stored.present < stamp))) }
    {
        match &self.kept {
            Kept::Keyed(store) => store.view_at(stamp),
            Kept::Short(_) => unreachable!(),
        }
    }

    /// The store itself, where its keys are of the form in use.
    pub fn keyed(&self) -> Option<&KeyedStore>
        ensures some { IfSome result (λ store. store.now ≡ self.now.stored) }
        ensures form { is_some result ≡ not self.now.is_short }
    {
        match &self.kept {
            Kept::Keyed(store) => Some(store),
            Kept::Short(_) => None,
        }
    }

    /// The store itself, where its keys are of the form in use; else this one comes back.
    pub fn into_keyed(self) -> Result<KeyedStore, Store>
        ensures ok { MatchResult result (λ store. (store ≡ self.stored) × (self.is_short ≡ false)) (λ back. (back ≡ self) × (self.is_short ≡ true)) }
    {
        match self.kept {
            Kept::Keyed(store) => Ok(store),
            Kept::Short(store) => Err(Store {
                kept: Kept::Short(store),
            }),
        }
    }

    /// Puts the same chains under keys of the form in use. What it shows stays: each version of each reference, so the
    /// content at each stamp and the newest stamp in each range too. A store of such keys is left as it is.
    ///
    /// Refusals: `OutOfMemory`, of a store of old keys alone. After it nothing has changed.
    pub fn rekey(&mut self, alloc: Global) -> Result<(), Refusal>
        ensures ok { OnOk result (self.new ≡ record { is_short = false; stored = self.old.stored }) }
        ensures content { (s : ℕ) → content_at self.new.stored.versions s ≡ content_at self.old.stored.versions s }
        ensures newest { (low high : Cut) → newest_between low high self.new.stored.versions ≡ newest_between low high self.old.stored.versions }
        ensures err { OnErr result (self.new ≡ self.old) }
        ensures refused { IfErr result (λ refusal. (refusal ≡ Refusal.OutOfMemory) × (self.old.is_short ≡ true)) }
    {
        match mem::replace(&mut self.kept, Kept::Keyed(KeyedStore::new(alloc))) {
            Kept::Keyed(store) => {
                self.kept = Kept::Keyed(store);
                Ok(())
            }
            Kept::Short(store) => match store.rekeyed(alloc) {
                Ok(store) => {
                    self.kept = Kept::Keyed(store);
                    Ok(())
                }
                Err(store) => {
                    self.kept = Kept::Short(store);
                    Err(Refusal::OutOfMemory)
                }
            },
        }
    }

    /// Gives a reference an empty chain in a store of old keys, if it has none.
    ///
    /// Refusals: `AllocError`. After it nothing has changed.
    pub fn place_short(&mut self, alloc: Global, key: &ShortKey) -> Result<(), AllocError>
        requires { self.old.is_short ≡ true }
        ensures ok { OnOk result (self.new ≡ record { is_short = true; stored = record self.old.stored { versions = placed key.now self.old.stored.versions } }) }
        ensures err { OnErr result (self.new ≡ self.old) }
    {
        match &mut self.kept {
            Kept::Short(store) => store.place(alloc, key),
            Kept::Keyed(_) => unreachable!(),
        }
    }

    /// Reserves cells in a store of old keys, so that there are at least `cells`, and keeps those there are.
    ///
    /// Refusals: `AllocError`.
    pub fn reserve_short(&mut self, cells: usize) -> Result<(), AllocError>
        requires { self.old.is_short ≡ true }
        ensures kept { self.new ≡ record { is_short = true; stored = record self.old.stored { spare = self.new.stored.spare } } }
        ensures spare { self.old.stored.spare ≤ self.new.stored.spare }
        ensures room { OnOk result (cells ≤ self.new.stored.spare) }
        ensures most { self.new.stored.spare ≤ max self.old.stored.spare (cells + 63) }
    {
        match &mut self.kept {
            Kept::Short(store) => store.reserve(cells),
            Kept::Keyed(_) => unreachable!(),
        }
    }

    /// Does the changes in a store of old keys, as `KeyedStore::write_reserved` does. Takes no memory.
    pub fn write_short(&mut self, stamp: u64, changes: Vec<(ShortKey, Option<Text>)>)
        requires short { self.old.is_short ≡ true }
        requires stamp { self.old.stored.present < stamp }
        requires placed { ArePlaced self.old.stored.versions changes.items }
        requires apart { AreOnce changes.items }
        requires reserved { vec_len changes ≤ self.old.stored.spare }
        ensures content { content_at self.new.stored.versions stamp ≡ changed changes.items (content_at self.old.stored.versions self.old.stored.present) }
        ensures before { (s : ℕ) → s < stamp → content_at self.new.stored.versions s ≡ content_at self.old.stored.versions s }
        ensures versions { self.new.stored.versions ≡ written stamp changes.items self.old.stored.versions }
        ensures present { self.new.stored.present ≡ stamp }
        ensures cut { self.new.stored.cut ≡ self.old.stored.cut }
        ensures spare { self.old.stored.spare ≤ self.new.stored.spare + vec_len changes }
        ensures short { self.new.is_short ≡ true }
    {
        match &mut self.kept {
            Kept::Short(store) => store.write_reserved(stamp, changes),
            Kept::Keyed(_) => unreachable!(),
        }
    }
}
