//! A visit of one key, a turn over some, and a pass over all.
ghost use Rattle.std.specs.Prelude.{◌≡◌, ℕ, ◌+◌, ◌<◌, ◌≤◌, ◌⊎◌, max, min, cond, length, true, Some, IfOk, IfErr, OnOk, OnErr};
ghost use Rattle.std.specs.FinMap as finmap;
ghost use Rattle.refusal.specs.declared.Refusal.{Refusal};
ghost use Rattle.collation.specs.Reference.{Reference};
ghost use Rattle.version_chain.specs.Cut.{left_after};
ghost use Rattle.version_store.specs.Versions.{Row, content_at, versions_of, next_in_turn, is_bare, tidied, AreNextVisits};
ghost use Rattle.collector.specs.Turn.{row_left, kept, last_or, after_horizon, is_one_value, IsProgress, AreAllPlaced, AreDistinct};

use key_codec::Key;
use refusal::Refusal;
use std::alloc::Global;
use version_store::{KeyedStore, Visits};

/// What a turn did.
#[derive(Clone, Copy, Debug, PartialEq, Eq)]
pub struct Progress {
    /// How many keys were visited.
    pub visited: usize,
    /// How many of their versions were dropped; 2^64 - 1 also stands for more.
    pub dropped: usize,
    /// How many of them had no version left, and were taken out.
    pub removed: usize,
    /// How many of them have no version left and stayed all the same: 0, since a key is taken out or hidden.
    pub left: usize,
}

// Drops what nobody at or after the horizon sees of a key, and takes it out where nothing is left. Answers how many
// versions went, and whether the key did.
fn visit(store: &mut KeyedStore, horizon: u64, key: Key) -> (usize, bool)
    requires placed { finmap.contains_key store.old.versions key ≡ true }
    requires horizon { horizon ≤ store.old.cut }
    ensures versions { store.new.versions ≡ tidied horizon key store.old.versions }
    ensures dropped { result.0 + length (left_after horizon (versions_of store.old.versions key)) ≡ length (versions_of store.old.versions key) }
    ensures removed { result.1 ≡ is_bare (Some (left_after horizon (versions_of store.old.versions key))) }
    ensures placed { finmap.len store.new.versions + cond result.1 1 0 ≡ finmap.len store.old.versions }
    ensures present { store.new.present ≡ store.old.present }
    ensures cut { store.new.cut ≡ store.old.cut }
    ensures mark { store.new.mark ≡ store.old.mark }
    ensures spare { store.old.spare ≤ store.new.spare }
{
    store.cut_and_drop(&key, horizon)
}

// Visits these keys.
fn visit_each(store: &mut KeyedStore, horizon: u64, keys: Vec<Key>) -> Progress
    requires placed { AreAllPlaced store.old.versions keys.items }
    requires distinct { AreDistinct keys.items }
    requires horizon { horizon ≤ store.old.cut }
    ensures rows { (r : Reference) → finmap.get store.new.versions r ≡ row_left horizon keys.items store.old.versions r }
    ensures progress { IsProgress horizon keys.items store.old.versions result }
    ensures placed { finmap.len store.new.versions + result.removed ≡ finmap.len store.old.versions }
    ensures present { store.new.present ≡ store.old.present }
    ensures cut { store.new.cut ≡ store.old.cut }
    ensures mark { store.new.mark ≡ store.old.mark }
    ensures spare { store.old.spare ≤ store.new.spare }
{
    let visited = keys.len();
    let mut dropped: usize = 0;
    let mut removed: usize = 0;
    for key in keys {
        let (count, is_removed) = visit(store, horizon, key);
        dropped = dropped.saturating_add(count);
        if is_removed {
            removed += 1;
        }
    }
    Progress {
        visited,
        dropped,
        removed,
        left: 0,
    }
}

// Visits what is next in turn, and marks the last. A key that has one version, which is a value, is only counted: a cut
// leaves it as it is.
fn visit_all(store: &mut KeyedStore, horizon: u64, limit: usize, visits: Visits) -> Progress
    requires next { AreNextVisits limit store.old visits.keys.items visits.visited visits.last }
    requires horizon { horizon ≤ store.old.cut }
    ensures rows { (r : Reference) → finmap.get store.new.versions r ≡ row_left horizon (next_in_turn limit store.old) store.old.versions r }
    ensures progress { IsProgress horizon (next_in_turn limit store.old) store.old.versions result }
    ensures placed { finmap.len store.new.versions + result.removed ≡ finmap.len store.old.versions }
    ensures present { store.new.present ≡ store.old.present }
    ensures cut { store.new.cut ≡ store.old.cut }
    ensures mark { store.new.mark ≡ last_or store.old.mark (next_in_turn limit store.old) }
    ensures spare { store.old.spare ≤ store.new.spare }
{
    let Visits {
        keys,
        visited,
        last,
    } = visits;
    let progress = visit_each(store, horizon, keys);
    match last {
        Some(last) => store.mark(last),
        None => {}
    }
    Progress {
        visited,
        ..progress
    }
}

/// Visits the next keys in turn, at most so many: of each, all that nobody at or after the horizon sees is dropped, and
/// it is taken out where nothing is left. The cut is raised to the horizon, where it is below, and the mark is the key
/// visited last.
///
/// What stays: now; the content at each stamp from the new cut on; each version after the horizon; the rows of keys
/// that aren't visited.
///
/// Refusals: `Ahead` where the horizon is after now; `OutOfMemory` where there is no memory for copies of the keys to
/// be visited. After either nothing has changed.
pub fn turn(
    alloc: Global,
    store: &mut KeyedStore,
    horizon: u64,
    limit: usize,
) -> Result<Progress, Refusal>
    ensures content { (s : ℕ) → store.new.cut ≤ s → content_at store.new.versions s ≡ content_at store.old.versions s }
    ensures late { (r : Reference) → after_horizon horizon (versions_of store.new.versions r) ≡ after_horizon horizon (versions_of store.old.versions r) }
    ensures present { store.new.present ≡ store.old.present }
    ensures spare { store.old.spare ≤ store.new.spare }
    ensures cut { OnOk result (store.new.cut ≡ max store.old.cut horizon) }
    ensures rows { OnOk result ((r : Reference) → finmap.get store.new.versions r ≡ row_left horizon (next_in_turn limit store.old) store.old.versions r) }
    ensures all { OnOk result (finmap.len store.old.versions ≤ limit → (r : Reference) → finmap.get store.new.versions r ≡ kept (left_after horizon (versions_of store.old.versions r))) }
    ensures settled { OnOk result (finmap.len store.old.versions ≤ limit → horizon ≡ store.old.present → (r : Reference) (vs : Row) → finmap.get store.new.versions r ≡ Some vs → is_one_value vs ≡ true) }
    ensures mark { OnOk result (store.new.mark ≡ last_or store.old.mark (next_in_turn limit store.old)) }
    ensures progress { IfOk result (λ progress. IsProgress horizon (next_in_turn limit store.old) store.old.versions progress) }
    ensures visited { IfOk result (λ progress. progress.visited ≡ min limit (finmap.len store.old.versions)) }
    ensures placed { IfOk result (λ progress. finmap.len store.new.versions + progress.removed ≡ finmap.len store.old.versions) }
    ensures within { OnOk result (horizon ≤ store.old.present) }
    ensures refused { IfErr result (λ refusal. ((refusal ≡ Refusal.Ahead) × (store.old.present < horizon)) ⊎ ((refusal ≡ Refusal.OutOfMemory) × (horizon ≤ store.old.present))) }
    ensures kept { OnErr result (store.new ≡ store.old) }
{
    if horizon > store.now() {
        return Err(Refusal::Ahead);
    }
    let Ok(visits) = store.next_visits(alloc, limit) else {
        return Err(Refusal::OutOfMemory);
    };
    match store.raise_cut(horizon) {
        Ok(()) => Ok(visit_all(store, horizon, limit, visits)),
        Err(refusal) => {
            drop(visits);
            Err(refusal)
        }
    }
}

/// Visits each key once: a turn over all of them. Where the horizon is now, each row that is left holds one version, a
/// value.
///
/// What stays, and the refusals, are those of `turn`.
pub fn pass(alloc: Global, store: &mut KeyedStore, horizon: u64) -> Result<Progress, Refusal>
    ensures content { (s : ℕ) → store.new.cut ≤ s → content_at store.new.versions s ≡ content_at store.old.versions s }
    ensures late { (r : Reference) → after_horizon horizon (versions_of store.new.versions r) ≡ after_horizon horizon (versions_of store.old.versions r) }
    ensures present { store.new.present ≡ store.old.present }
    ensures spare { store.old.spare ≤ store.new.spare }
    ensures cut { OnOk result (store.new.cut ≡ max store.old.cut horizon) }
    ensures rows { OnOk result ((r : Reference) → finmap.get store.new.versions r ≡ kept (left_after horizon (versions_of store.old.versions r))) }
    ensures settled { OnOk result (horizon ≡ store.old.present → (r : Reference) (vs : Row) → finmap.get store.new.versions r ≡ Some vs → is_one_value vs ≡ true) }
    ensures mark { OnOk result (store.new.mark ≡ last_or store.old.mark (next_in_turn (finmap.len store.old.versions) store.old)) }
    ensures progress { IfOk result (λ progress. IsProgress horizon (next_in_turn (finmap.len store.old.versions) store.old) store.old.versions progress) }
    ensures visited { IfOk result (λ progress. progress.visited ≡ finmap.len store.old.versions) }
    ensures placed { IfOk result (λ progress. finmap.len store.new.versions + progress.removed ≡ finmap.len store.old.versions) }
    ensures within { OnOk result (horizon ≤ store.old.present) }
    ensures refused { IfErr result (λ refusal. ((refusal ≡ Refusal.Ahead) × (store.old.present < horizon)) ⊎ ((refusal ≡ Refusal.OutOfMemory) × (horizon ≤ store.old.present))) }
    ensures kept { OnErr result (store.new ≡ store.old) }
{
    let limit = store.placed_count();
    turn(alloc, store, horizon, limit)
}
