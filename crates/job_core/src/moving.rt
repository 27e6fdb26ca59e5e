//! The content at a stamp copied, and the journal's base moved on to one.
ghost use Rattle.std.specs.Prelude.{◌≡◌, ◌≤◌, true, take, length, IfOk, OnOk, OnErr, IfErr};
ghost use Rattle.std.specs.FinMap as finmap;
ghost use Rattle.std.specs.FinMap.{is_sorted};
ghost use Rattle.refusal.specs.declared.Refusal.{Refusal};
ghost use Rattle.collation.specs.Changes.{changed};
ghost use Rattle.collation.specs.Order.{ref_cmp};
ghost use Rattle.journal.specs.History.{initial, after};
ghost use Rattle.version_store.specs.Versions.{content_at};
ghost use Rattle.validate_commit.specs.Agreement.{Agreement};

use crate::nodes::copied_nodes;
use crate::noted::changes_to;
use collation::Text;
use journal::Journal;
use key_codec::Key;
use lock_table::LockTable;
use refusal::Refusal;
use std::alloc::{AllocError, Global};
use version_store::KeyedStore;

/// A copy of the content at a stamp, in room for all references that the store has.
pub(crate) fn nodes_at(
    alloc: Global,
    store: &KeyedStore,
    stamp: u64,
) -> Result<Vec<(Key, Text)>, AllocError>
    requires kept { store.now.cut ≤ stamp }
    requires begun { stamp ≤ store.now.present }
    ensures { IfOk result (λ nodes. nodes.items ≡ finmap.entries (content_at store.now.versions stamp)) }
{
    let room = store.placed_count();
    match store.view_at(stamp) {
        Ok(view) => copied_nodes(alloc, &view, room),
        Err(_) => unreachable!(),
    }
}

// What leads from the journal's base to the content at a stamp.
fn changes_at(
    alloc: Global,
    store: &KeyedStore,
    journal: &Journal,
    number: u64,
) -> Result<Vec<(Key, Option<Text>)>, AllocError>
    requires agreed { Agreement store.now journal.now.units }
    requires kept { store.now.cut ≤ number }
    requires from { journal.now.base ≤ number }
    requires to { number ≤ length journal.now.units }
    ensures rising { IfOk result (λ changes. is_sorted ref_cmp changes.items ≡ true) }
    ensures changes { IfOk result (λ changes. changed changes.items (after (take journal.now.base journal.now.units) initial).map ≡ (after (take number journal.now.units) initial).map) }
{
    match store.view_at(number) {
        Ok(end) => changes_to(alloc, journal, &end, number),
        Err(_) => unreachable!(),
    }
}

// Moves the base behind all units, which leave what the store has now and these locks. Reads no unit back.
fn move_behind_all(
    alloc: Global,
    store: &KeyedStore,
    journal: &mut Journal,
    locks: &LockTable,
) -> Result<(), Refusal>
    requires agreed { Agreement store.now journal.old.units }
    requires locks { locks.now ≡ (after journal.old.units initial).locks }
    ensures units { journal.new.units ≡ journal.old.units }
    ensures ends { journal.new.ends ≡ journal.old.ends }
    ensures base { OnOk result (journal.new.base ≡ length journal.old.units) }
    ensures refused { OnErr result (journal.new.base ≡ journal.old.base) }
    ensures cause { IfErr result (λ refusal. refusal ≡ Refusal.OutOfMemory) }
{
    let locks = locks.copy()?;
    match nodes_at(alloc, store, store.now()) {
        Ok(nodes) => journal.checkpoint_all(nodes, locks),
        Err(_) => Err(Refusal::OutOfMemory),
    }
}

// Moves the base to this number: what leads there is read from the units between.
fn move_between(
    alloc: Global,
    store: &KeyedStore,
    journal: &mut Journal,
    number: u64,
) -> Result<(), Refusal>
    requires agreed { Agreement store.now journal.old.units }
    requires kept { store.now.cut ≤ number }
    requires from { journal.old.base ≤ number }
    requires to { number ≤ length journal.old.units }
    ensures units { journal.new.units ≡ journal.old.units }
    ensures ends { journal.new.ends ≡ journal.old.ends }
    ensures base { OnOk result (journal.new.base ≡ number) }
    ensures refused { OnErr result (journal.new.base ≡ journal.old.base) }
    ensures cause { IfErr result (λ refusal. refusal ≡ Refusal.OutOfMemory) }
{
    match changes_at(alloc, store, journal, number) {
        Ok(changes) => journal.checkpoint(number, changes),
        Err(_) => Err(Refusal::OutOfMemory),
    }
}

/// How many nodes are copied in the time in which a unit is read back.
const NODES_FOR_A_UNIT: u64 = 8;

/// Whether to copy so many nodes is quicker than to read so many units back.
pub(crate) fn is_copied_sooner(nodes: usize, units: u64) -> bool {
    nodes as u64 <= units.saturating_mul(NODES_FOR_A_UNIT)
}

/// Moves the base to this number. Where that is the newest unit's, and fewer nodes are there than units would be read
/// back, the nodes are copied.
pub(crate) fn move_base(
    alloc: Global,
    store: &KeyedStore,
    journal: &mut Journal,
    locks: &LockTable,
    number: u64,
) -> Result<u64, Refusal>
    requires agreed { Agreement store.now journal.old.units }
    requires locks { locks.now ≡ (after journal.old.units initial).locks }
    requires kept { store.now.cut ≤ number }
    requires from { journal.old.base ≤ number }
    requires to { number ≤ length journal.old.units }
    ensures units { journal.new.units ≡ journal.old.units }
    ensures number { IfOk result (λ n. n ≡ number) }
    ensures base { OnOk result (journal.new.base ≡ number) }
    ensures refused { OnErr result (journal.new.base ≡ journal.old.base) }
    ensures ends { journal.new.ends ≡ journal.old.ends }
    ensures cause { IfErr result (λ refusal. refusal ≡ Refusal.OutOfMemory) }
{
    let units = number - journal.base().number();
    if number == journal.len() && is_copied_sooner(store.placed_count(), units) {
        move_behind_all(alloc, store, journal, locks)?;
    } else {
        move_between(alloc, store, journal, number)?;
    }
    Ok(number)
}
