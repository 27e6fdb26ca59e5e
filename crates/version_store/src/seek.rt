//! The members next to a cut in the content at a stamp, by walks over the tree, and no further than to an end.
ghost use Rattle.std.specs.Prelude.{◌≡◌, ◌≤◌, ◌<◌, ◌++◌, true, [], filter, length};
ghost use Rattle.std.specs.Option.{option_map};
ghost use Rattle.std.specs.FinMap.{is_sorted};
ghost use Rattle.collation.specs.Order.{ref_cmp};
ghost use Rattle.globals.specs.Cuts.{down_to, entries_from, first_from_cut, last_before_cut, front_down_to, stands_within as stands_within_spec, up_to, IsRun};
ghost use Rattle.steady_map.specs.Shown.{shown};
ghost use Rattle.version_chain.specs.Versions.{at_of};
ghost use Rattle.version_chain.specs.Chains.{versions_at, IsOpen};
ghost use Rattle.version_store.specs.Versions.{content_at, seen_at, first_of, with_value};
ghost use Rattle.version_store.specs.Tied.{rows, reaches, seen_to, AreOpen, IsFilled};

use crate::store::KeyedStore;
use collation::Text;
use globals::{Cut, Run, stands_under, stands_within};
use key_codec::Key;
use key_map::CutPoint;
use steady_map::{Walk, WalkBack};
use version_chain::{ChainId, Chains};

// Puts a reference behind the others, if its chain has a value at the stamp, with the value.
fn push_valued<'v>(
    key: &'v Key,
    id: ChainId,
    chains: &'v Chains<Text>,
    stamp: u64,
    run: &mut Run<'v>,
)
    requires room { length run.old < 32 }
    requires opened { IsOpen chains.now id }
    ensures { run.new ≡ run.old ++ with_value key.now (at_of stamp (versions_at chains.now id)) [] }
{
    match chains.at(id, stamp) {
        Some(text) => run.push(key, text),
        None => {}
    }
}

// The end, where it may lie within a row: then keys have to be compared with it. Where the row's last key stands before
// it no other needs to be.
fn end_within<'c>(row: &[(Key, Option<ChainId>)], end: Option<Cut<'c>>) -> Option<Cut<'c>>
    requires { is_sorted ref_cmp row.now ≡ true }
    ensures same { filter (λ p. stands_within_spec result p.0) (shown row.now) ≡ filter (λ p. stands_within_spec end.entry p.0) (shown row.now) }
    ensures reached { reaches result (shown row.now) ≡ true → reaches end.entry (shown row.now) ≡ true }
{
    let Some((last, _)) = row.last() else {
        return end;
    };
    if stands_within(end, last) { None } else { end }
}

// Puts what is seen of a row before the end behind the others, until the run has so many. Answers whether a reference
// beyond the end was met.
fn gather_row<'v>(
    row: &'v [(Key, Option<ChainId>)],
    end: Option<Cut<'_>>,
    chains: &'v Chains<Text>,
    stamp: u64,
    most: usize,
    run: &mut Run<'v>,
) -> bool
    requires room { length run.old < most }
    requires few { most ≤ 32 }
    requires opened { AreOpen chains.now (shown row.now) }
    requires rises { is_sorted ref_cmp (shown row.now) ≡ true }
    ensures filled { IsFilled most run.new (run.old ++ seen_to end.entry stamp chains.now (shown row.now)) }
    ensures met { result ≡ true → reaches end.entry (shown row.now) ≡ true }
{
    for (key, held) in row {
        if let Some(id) = held {
            if !stands_within(end, key) {
                return true;
            }
            push_valued(key, *id, chains, stamp, run);
            if run.len() == most {
                return false;
            }
        }
    }
    false
}

// The first of the references that are left before the end whose chains have a value at the stamp, with the values; at
// most so many. Of the rows only that in which the end may lie is compared with it key by key, and one reference behind
// it is visited at most.
fn gather_valued<'v>(
    walk: Walk<'v, Key, ChainId>,
    end: Option<Cut<'_>>,
    chains: &'v Chains<Text>,
    stamp: u64,
    most: usize,
) -> Run<'v>
    requires some { 1 ≤ most }
    requires few { most ≤ 32 }
    requires opened { AreOpen chains.now walk }
    requires rises { is_sorted ref_cmp walk ≡ true }
    ensures { IsRun most result (seen_to end.entry stamp chains.now walk.entry) }
{
    let mut walk = walk;
    let mut run = Run::new();
    'rows: loop {
        let row = walk.next_row();
        if row.is_empty() {
            return run;
        }
        let end_here = end_within(row, end);
        if gather_row(row, end_here, chains, stamp, most, &mut run) {
            return run;
        }
        if run.len() == most {
            return run;
        }
    }
}

// The first of the references that are left before the end whose chain has a value at the stamp, with the value.
fn first_valued<'v>(
    walk: Walk<'v, Key, ChainId>,
    end: Option<Cut<'_>>,
    chains: &'v Chains<Text>,
    stamp: u64,
) -> Option<(&'v Key, &'v Text)>
    requires opened { AreOpen chains.now walk }
    requires rises { is_sorted ref_cmp walk ≡ true }
    ensures { option_map (λ e. (e.0.now, e.1.now)) result ≡ first_of (seen_to end.entry stamp chains.now walk.entry) }
{
    gather_valued(walk, end, chains, stamp, 1).node(0)
}

// The last of the references that are left and don't stand before the floor whose chain has a value at the stamp, with
// the value.
fn last_valued<'v>(
    walk: WalkBack<'v, Key, ChainId>,
    floor: Option<Cut<'_>>,
    chains: &'v Chains<Text>,
    stamp: u64,
) -> Option<(&'v Key, &'v Text)>
    requires { AreOpen chains.now walk }
    ensures { option_map (λ e. (e.0.now, e.1.now)) result ≡ first_of (seen_at stamp (rows chains.now (front_down_to floor.entry walk.entry))) }
{
    for (key, id) in walk {
        if stands_under(floor, key) {
            return None;
        }
        if let Some(text) = chains.at(*id, stamp) {
            return Some((key, text));
        }
    }
    None
}

impl KeyedStore {
    // The first reference that has a value at the stamp, doesn't stand before the cut and stands before the end, with the
    // value. Mostly that is the first of all, which is found without a walk.
    pub(crate) fn next_at(
        &self,
        cut: Cut<'_>,
        end: Option<Cut<'_>>,
        stamp: u64,
    ) -> Option<(&Key, &Text)>
        ensures { option_map (λ e. (e.0.now, e.1.now)) result ≡ first_from_cut cut.entry (up_to end.entry (content_at self.now.versions stamp)) }
    {
        let point = CutPoint { cut };
        match self.tree.first_from(&point).0 {
            None => None,
            Some((key, id)) => {
                if !stands_within(end, key) {
                    return None;
                }
                match self.chains.at(*id, stamp) {
                    Some(text) => Some((key, text)),
                    None => self.walk_next_at(cut, end, stamp),
                }
            }
        }
    }

    // As `next_at`, by a walk from the cut on. It stands apart since a walk's half kilobyte is cleared where a function
    // begins.
    #[inline(never)]
    fn walk_next_at(&self, cut: Cut<'_>, end: Option<Cut<'_>>, stamp: u64) -> Option<(&Key, &Text)>
        ensures { option_map (λ e. (e.0.now, e.1.now)) result ≡ first_from_cut cut.entry (up_to end.entry (content_at self.now.versions stamp)) }
    {
        first_valued(self.tree.from(&CutPoint { cut }), end, &self.chains, stamp)
    }

    // The last reference that has a value at the stamp, stands before the cut and doesn't stand before the floor, with
    // the value; found as in `next_at`.
    pub(crate) fn prev_at(
        &self,
        cut: Cut<'_>,
        floor: Option<Cut<'_>>,
        stamp: u64,
    ) -> Option<(&Key, &Text)>
        ensures { option_map (λ e. (e.0.now, e.1.now)) result ≡ last_before_cut cut.entry (down_to floor.entry (content_at self.now.versions stamp)) }
    {
        let point = CutPoint { cut };
        match self.tree.last_before(&point).0 {
            None => None,
            Some((key, id)) => {
                if stands_under(floor, key) {
                    return None;
                }
                match self.chains.at(*id, stamp) {
                    Some(text) => Some((key, text)),
                    None => self.walk_prev_at(cut, floor, stamp),
                }
            }
        }
    }

    // As `prev_at`, by a walk back from the cut on.
    #[inline(never)]
    fn walk_prev_at(
        &self,
        cut: Cut<'_>,
        floor: Option<Cut<'_>>,
        stamp: u64,
    ) -> Option<(&Key, &Text)>
        ensures { option_map (λ e. (e.0.now, e.1.now)) result ≡ last_before_cut cut.entry (down_to floor.entry (content_at self.now.versions stamp)) }
    {
        last_valued(
            self.tree.back_from(&CutPoint { cut }),
            floor,
            &self.chains,
            stamp,
        )
    }

    // The first references that have a value at the stamp, don't stand before the cut and stand before the end, with the
    // values; at most so many.
    pub(crate) fn gather_at(
        &self,
        cut: Cut<'_>,
        end: Option<Cut<'_>>,
        stamp: u64,
        most: usize,
    ) -> Run<'_>
        requires some { 1 ≤ most }
        requires few { most ≤ 32 }
        ensures { IsRun most result (entries_from cut.entry (up_to end.entry (content_at self.now.versions stamp))) }
    {
        let walk = self.tree.from(&CutPoint { cut });
        gather_valued(walk, end, &self.chains, stamp, most)
    }
}
