//! The newest version of a range of references.
ghost use Rattle.std.specs.Prelude.{◌≡◌, true};
ghost use Rattle.std.specs.FinMap.{is_sorted};
ghost use Rattle.collation.specs.Order.{ref_cmp};
ghost use Rattle.version_chain.specs.Versions.{newest_of};
ghost use Rattle.steady_map.specs.Shown.{shown};
ghost use Rattle.version_store.specs.Versions.{newest_among, newest_between, versions_of, IsNewestIn, later as later_spec};
ghost use Rattle.version_store.specs.Tied.{rows, newest_below, AreOpen};

use crate::store::KeyedStore;
use collation::Text;
use globals::{Cut, stands_before};
use key_codec::Key;
use key_map::CutPoint;
use steady_map::Walk;
use version_chain::{ChainId, Chains};

// The newer of two stamps, where there are any.
fn later(a: Option<u64>, b: Option<u64>) -> Option<u64>
    ensures { result ≡ later_spec a b }
{
    match (a, b) {
        (None, b) => b,
        (a, None) => a,
        (Some(a), Some(b)) => Some(a.max(b)),
    }
}

// The newest stamp of the references of a row that are shown.
fn newest_of_row(row: &[(Key, Option<ChainId>)], chains: &Chains<Text>) -> Option<u64>
    requires { AreOpen chains.now (shown row.now) }
    ensures { result ≡ newest_among (rows chains.now (shown row.now)) }
{
    let mut newest = None;
    for (_, held) in row {
        if let Some(id) = held {
            newest = later(newest, chains.newest(*id));
        }
    }
    newest
}

// The newest stamp of the references of a row that are shown and stand before a cut.
fn newest_of_front(
    row: &[(Key, Option<ChainId>)],
    high: Cut<'_>,
    chains: &Chains<Text>,
) -> Option<u64>
    requires opened { AreOpen chains.now (shown row.now) }
    requires sorted { is_sorted ref_cmp row.now ≡ true }
    ensures { result ≡ newest_below high.entry chains.now (shown row.now) }
{
    let mut newest = None;
    for (key, held) in row {
        if !stands_before(high, key) {
            return newest;
        }
        if let Some(id) = held {
            newest = later(newest, chains.newest(*id));
        }
    }
    newest
}

// The newest stamp of the references that are left and stand before a cut, one by one.
fn newest_left(walk: Walk<'_, Key, ChainId>, high: Cut<'_>, chains: &Chains<Text>) -> Option<u64>
    requires opened { AreOpen chains.now walk }
    requires sorted { is_sorted ref_cmp walk ≡ true }
    ensures { result ≡ newest_below high.entry chains.now walk.entry }
{
    let mut newest = None;
    for (key, id) in walk {
        if !stands_before(high, key) {
            return newest;
        }
        newest = later(newest, chains.newest(*id));
    }
    newest
}

// The newest stamp of the references that are left and stand before a cut. A row whose last key stands before it is
// passed with that one comparison.
fn newest_before(walk: Walk<'_, Key, ChainId>, high: Cut<'_>, chains: &Chains<Text>) -> Option<u64>
    requires opened { AreOpen chains.now walk }
    requires sorted { is_sorted ref_cmp walk ≡ true }
    ensures { result ≡ newest_below high.entry chains.now walk.entry }
{
    let mut walk = walk;
    let mut newest = None;
    loop {
        let row = walk.next_row();
        let Some((last, _)) = row.last() else {
            return newest;
        };
        if !stands_before(high, last) {
            newest = later(newest, newest_of_front(row, high, chains));
            return later(newest, newest_left(walk, high, chains));
        }
        newest = later(newest, newest_of_row(row, chains));
    }
}

impl KeyedStore {
    /// The newest stamp of a reference's versions; none where it has none. An absence counts. Takes no memory.
    pub fn newest_of(&self, key: &Key) -> Option<u64>
        ensures { result ≡ newest_of (versions_of self.now.versions key.now) }
    {
        match self.tree.get(key).0 {
            Some(id) => self.chains.newest(*id),
            None => None,
        }
    }

    /// The newest stamp of any version of a reference that doesn't stand before `low` and stands before `high`; none
    /// where no such reference has a version. Absences count. Takes no memory. Who asks for one reference asks
    /// `newest_of`, without a walk.
    #[inline(never)]
    pub fn newest_in(&self, low: Cut<'_>, high: Cut<'_>) -> Option<u64>
        ensures stamp { result ≡ newest_between low.entry high.entry self.now.versions }
        ensures newest { IsNewestIn low.entry high.entry self.now.versions result }
    {
        let walk = self.tree.from(&CutPoint { cut: low });
        newest_before(walk, high, &self.chains)
    }
}
