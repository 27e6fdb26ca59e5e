//! The store: what it holds, its stamps, and its content at a stamp.
ghost use Rattle.std.specs.Prelude.{◌≡◌, ℕ, ◌-◌, ◌^◌, ◌<◌, ◌≤◌, suc, min, false, Some, None, IfOk, IfErr, OnOk, ◌⊎◌};
ghost use Rattle.std.specs.Option.{option_copied};
ghost use Rattle.std.specs.FinMap as finmap;
ghost use Rattle.refusal.specs.declared.Refusal.{Refusal};
ghost use Rattle.collation.specs.Reference.{Reference};
ghost use Rattle.version_chain.specs.Versions.{IsAbove, IsFalling};
ghost use Rattle.version_store.specs.Versions.{content_at, content_now, versions_of, count_in, version_count};
ghost use Rattle.version_store.specs.Tied.{versions_in, rows, AreOpen, IsTied};

use crate::near::Near;
use crate::recent::Recent;
use crate::snapshot::Snapshot;
use btree::Trail;
use collation::Text;
use key_codec::Key;
use refusal::Refusal;
use std::alloc::Global;
use std::marker::Model;
use steady_map::{SteadyMap, Walk};
use version_chain::{ChainId, Chains};

/// Versions of a database, in a tree from keys to ids and chains by id.
#[derive(Drop)]
pub struct KeyedStore {
    pub(crate) tree: SteadyMap<Key, ChainId>,
    pub(crate) chains: Chains<Text>,
    pub(crate) present: u64,
    pub(crate) cut: u64,
    pub(crate) mark: Option<Key>,
    pub(crate) near: Near,
    pub(crate) recent: Recent,
    pub(crate) absences: u64,
}

impl Model for KeyedStore {
    ghost use Rattle.std.specs.Prelude.{◌≤◌};
    ghost use Rattle.version_store.specs.Versions.{Stored, stored_code};
    ghost use Rattle.version_store.specs.Noted.{AreNoted};
    ghost use Rattle.version_store.specs.Tied.{versions_in, IsTied};

    ghost Value = { Stored };

    ghost coded = { stored_code };

    ghost view = { λ s. record { versions = versions_in s.chains s.tree.pairs; present = s.present; cut = s.cut; spare = s.chains.spare; mark = s.mark } };

    ghost invariant = { λ s. IsTied s.tree.pairs s.chains s.present × (s.cut ≤ s.present) × AreNoted s.cut s.recent.stamps (versions_in s.chains s.tree.pairs) };
}

// How many versions the references of a walk have.
fn count_versions(walk: Walk<'_, Key, ChainId>, chains: &Chains<Text>) -> u64
    requires { AreOpen chains.now walk }
    ensures { result ≡ min (count_in (rows chains.now walk.entry)) (2 ^ 64 - 1) }
{
    let mut count: u64 = 0;
    for (_, id) in walk {
        count = count.saturating_add(chains.count(*id));
    }
    count
}

impl KeyedStore {
    /// A store without references, at stamp 0. Takes no memory.
    pub fn new(alloc: Global) -> KeyedStore
        ensures { result ≡ record { versions = finmap.empty; present = 0; cut = 0; spare = 0; mark = None } }
    {
        KeyedStore::of(SteadyMap::new(alloc), Chains::new(alloc), 0, 0)
    }

    // A store of a tree and its chains, with the newest stamp and the oldest one at which content is kept.
    pub(crate) fn of(
        tree: SteadyMap<Key, ChainId>,
        chains: Chains<Text>,
        present: u64,
        cut: u64,
    ) -> KeyedStore
        requires tied { IsTied tree.pairs chains present }
        requires kept { cut ≤ present }
        ensures { result ≡ record { versions = versions_in chains tree.pairs; present = present; cut = cut; spare = chains.spare; mark = None } }
    {
        KeyedStore {
            tree,
            chains,
            present,
            cut,
            mark: None,
            near: Near::new(),
            recent: Recent::new(present),
            absences: 0,
        }
    }

    /// The newest stamp. No version is after it, and the stamps of each reference's versions fall; where it is 0 there
    /// is no version.
    pub fn now(&self) -> u64
        ensures present { result ≡ self.now.present }
        ensures settled { (r : Reference) → IsAbove (suc self.now.present) (versions_of self.now.versions r) }
        ensures falls { (r : Reference) → IsFalling (versions_of self.now.versions r) }
        ensures nothing { self.now.present ≡ 0 → content_at self.now.versions 0 ≡ finmap.empty }
        ensures cut { self.now.cut ≤ self.now.present }
    {
        self.present
    }

    /// The oldest stamp at which content is kept.
    pub fn cut(&self) -> u64
        ensures { result ≡ self.now.cut }
    {
        self.cut
    }

    /// A stamp that no version is after: where it isn't after `s`, no reference has a version after `s`. It may be later
    /// than that of every version that is left. Takes no memory.
    pub fn latest(&self) -> u64
        ensures { (r : Reference) → IsAbove (suc result) (versions_of self.now.versions r) }
    {
        self.chains.latest()
    }

    /// How many versions there are, up to 2^64 - 1. Goes through all of them; takes no memory.
    pub fn versions(&self) -> u64
        ensures { result ≡ min (version_count self.now.versions) (2 ^ 64 - 1) }
    {
        count_versions(self.tree.iter(), &self.chains)
    }

    /// Whether a reference may have a version after a stamp: where it has none, that is mostly told, and never where the
    /// stamp is before the cut. Takes no look-up and no memory.
    pub fn is_recent(&self, key: &Key, stamp: u64) -> bool
        ensures { result ≡ false → IsAbove (suc stamp) (versions_of self.now.versions key.now) }
    {
        stamp < self.cut || self.recent.is_after(key, stamp)
    }

    /// For how many versions cells are reserved.
    pub fn spare(&self) -> usize
        ensures { result ≡ self.now.spare }
    {
        self.chains.spare()
    }

    /// How many absences were written so far that somebody might ask for. With `older` it tells how much a collector would
    /// find: no contract rests on either.
    pub fn absences(&self) -> u64 {
        self.absences
    }

    /// How many versions lie below newer ones.
    pub fn older(&self) -> usize {
        self.chains.older()
    }

    /// Whether the reference has a chain.
    pub fn is_placed(&self, key: &Key) -> bool
        ensures { result ≡ finmap.contains_key self.now.versions key.now }
    {
        self.look_up(key).0
    }

    // Whether the reference has a chain, and where the look-up went.
    pub(crate) fn look_up(&self, key: &Key) -> (bool, Trail)
        ensures { result.0 ≡ finmap.contains_key self.now.versions key.now }
    {
        let (id, trail) = self.tree.look_up(key);
        (id.is_some(), trail)
    }

    /// What the versions are read from: the tree of the placed references, and the chains under its ids.
    pub fn tree_and_chains(&self) -> (&SteadyMap<Key, ChainId>, &Chains<Text>)
        ensures { self.now.versions ≡ versions_in result.1.now result.0.now.pairs }
    {
        (&self.tree, &self.chains)
    }

    // Its value at a stamp.
    pub(crate) fn get_at(&self, key: &Key, stamp: u64) -> Option<&Text>
        ensures { option_copied result ≡ finmap.get (content_at self.now.versions stamp) key.now }
    {
        match self.tree.get(key).0 {
            Some(id) => self.chains.at(*id, stamp),
            None => None,
        }
    }

    /// The content at a stamp. Takes no memory.
    ///
    /// Refusals: `Gone` where it is below the cut, `Ahead` where it is after now.
    pub fn view_at(&self, stamp: u64) -> Result<Snapshot<'_>, Refusal>
        ensures view { IfOk result (λ view. view ≡ content_at self.now.versions stamp) }
        ensures kept { OnOk result ((self.now.cut ≤ stamp) × (stamp ≤ self.now.present)) }
        ensures refused { IfErr result (λ refusal. ((refusal ≡ Refusal.Gone) × (stamp < self.now.cut)) ⊎ ((refusal ≡ Refusal.Ahead) × (self.now.present < stamp))) }
    {
        if stamp < self.cut {
            Err(Refusal::Gone)
        } else if stamp > self.present {
            Err(Refusal::Ahead)
        } else {
            Ok(Snapshot { store: self, stamp })
        }
    }

    /// The content at the newest stamp. Takes no memory.
    pub fn view_now(&self) -> Snapshot<'_>
        ensures { result ≡ content_now self.now }
    {
        Snapshot {
            store: self,
            stamp: self.present,
        }
    }
}
