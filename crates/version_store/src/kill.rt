//! A node killed with all that is under it, where nobody asks for older content.
ghost use Rattle.std.specs.Prelude.{◌≡◌, ◌+◌, ◌<◌, ◌≤◌, ℕ, [], not, cond};
ghost use Rattle.std.specs.List.{filter};
ghost use Rattle.std.specs.FinMap as finmap;
ghost use Rattle.collation.specs.Database.{is_under};
ghost use Rattle.collation.specs.Reference.{Reference};
ghost use Rattle.version_store.specs.Killed.{with_one as with_one_spec, Tells};
ghost use Rattle.version_store.specs.Versions.{content_at, versions_of, cells_in};
ghost use Rattle.version_store.specs.Tied.{versions_in, rows, IsTied};

use crate::store::KeyedStore;
use collation::Text;
use globals::Cut;
use key_codec::Key;
use key_map::CutPoint;
use steady_map::SteadyMap;
use version_chain::{ChainId, Chains};

// What is placed at and under a reference.
#[derive(Clone, Copy)]
enum Placed {
    // Neither it nor anything under it.
    Nothing,
    // It alone.
    Itself,
    // At least one under it.
    More,
}

// What is placed where there is one more, which is the reference itself or isn't.
fn with_one(placed: Placed, is_itself: bool) -> Placed
    ensures { result ≡ with_one_spec placed is_itself }
{
    match (placed, is_itself) {
        (Placed::Nothing, true) => Placed::Itself,
        _ => Placed::More,
    }
}

// Closes the chains of the references at and under this one, and tells what was placed there.
fn close_under(tree: &SteadyMap<Key, ChainId>, chains: &mut Chains<Text>, root: &Key) -> Placed
    requires { (now : ℕ) × IsTied tree.now.pairs chains.old now }
    ensures tied { (now : ℕ) → IsTied tree.now.pairs chains.old now → IsTied (filter (λ e. not (is_under root.now e.0)) tree.now.pairs) chains.new now }
    ensures versions { versions_in chains.new (filter (λ e. not (is_under root.now e.0)) tree.now.pairs) ≡ finmap.retain_keys (versions_in chains.old tree.now.pairs) (λ x. not (is_under root.now x)) }
    ensures told { Tells result root.now tree.now.pairs (filter (λ e. not (is_under root.now e.0)) tree.now.pairs) }
    ensures spare { chains.old.spare ≤ chains.new.spare }
    ensures cells { chains.new.spare + cells_in (rows chains.new (filter (λ e. not (is_under root.now e.0)) tree.now.pairs)) ≡ chains.old.spare + cells_in (rows chains.old tree.now.pairs) }
{
    let cut = Cut::Before(root);
    let mut placed = Placed::Nothing;
    for (key, id) in tree.from(&CutPoint { cut }) {
        if !key.is_under(root) {
            return placed;
        }
        chains.close(*id);
        placed = with_one(placed, key == root);
    }
    placed
}

// Takes out the references at and under this one. One alone goes by one way down the tree.
fn take_under(tree: &mut SteadyMap<Key, ChainId>, root: &Key, placed: Placed)
    requires { Tells placed root.now tree.old.pairs (filter (λ e. not (is_under root.now e.0)) tree.old.pairs) }
    ensures { tree.new.pairs ≡ filter (λ e. not (is_under root.now e.0)) tree.old.pairs }
{
    match placed {
        Placed::Nothing => {}
        Placed::Itself => drop(tree.remove(root)),
        Placed::More => {
            let from = CutPoint {
                cut: Cut::Before(root),
            };
            let to = CutPoint {
                cut: Cut::Past(root),
            };
            tree.remove_between(&from, &to);
        }
    }
}

// Takes out the references at and under this one, and closes their chains. One alone is mostly taken out of its leaf at
// once.
fn close_and_take(tree: &mut SteadyMap<Key, ChainId>, chains: &mut Chains<Text>, root: &Key)
    requires { (now : ℕ) × IsTied tree.old.pairs chains.old now }
    ensures pairs { tree.new.pairs ≡ filter (λ e. not (is_under root.now e.0)) tree.old.pairs }
    ensures tied { (now : ℕ) → IsTied tree.old.pairs chains.old now → IsTied tree.new.pairs chains.new now }
    ensures versions { versions_in chains.new tree.new.pairs ≡ finmap.retain_keys (versions_in chains.old tree.old.pairs) (λ x. not (is_under root.now x)) }
    ensures spare { chains.old.spare ≤ chains.new.spare }
    ensures cells { chains.new.spare + cells_in (rows chains.new tree.new.pairs) ≡ chains.old.spare + cells_in (rows chains.old tree.old.pairs) }
{
    let cut = Cut::Past(root);
    match tree.take_alone(root, &CutPoint { cut }) {
        Some(id) => chains.close(id),
        None => {
            let placed = close_under(tree, chains, root);
            take_under(tree, root, placed);
        }
    }
}

impl KeyedStore {
    /// Takes out all placed references at and under this one, with all their versions, and reserves their cells. The
    /// stamp is now from here on, and the oldest one at which content is kept: as if an absence were written at each of
    /// them and nobody asked for older content. No list of them is made. It takes no memory but for copies of keys, and
    /// is never refused.
    pub fn kill(&mut self, stamp: u64, root: &Key)
        requires { self.old.present < stamp }
        ensures content { content_at self.new.versions stamp ≡ finmap.retain_keys (content_at self.old.versions self.old.present) (λ x. not (is_under root.now x)) }
        ensures rows { (r : Reference) → versions_of self.new.versions r ≡ cond (is_under root.now r) [] (versions_of self.old.versions r) }
        ensures versions { self.new.versions ≡ finmap.retain_keys self.old.versions (λ x. not (is_under root.now x)) }
        ensures present { self.new.present ≡ stamp }
        ensures cut { self.new.cut ≡ stamp }
        ensures mark { self.new.mark ≡ self.old.mark }
        ensures spare { self.old.spare ≤ self.new.spare }
        ensures cells { self.new.spare + cells_in (finmap.entries self.new.versions) ≡ self.old.spare + cells_in (finmap.entries self.old.versions) }
    {
        close_and_take(&mut self.tree, &mut self.chains, root);
        self.present = stamp;
        self.cut = stamp;
    }
}
