//! What leads from a base to the content at a later stamp: gathered from the units between, which name it.
ghost use Rattle.std.specs.Prelude.{◌≡◌, ◌≤◌, ◌<◌, ◌-◌, ◌∷◌, ◌++◌, [], not, true, filter, take, drop, length, IfOk, OnOk};
ghost use Rattle.std.specs.Ordering.{is_lt};
ghost use Rattle.std.specs.FinMap as finmap;
ghost use Rattle.std.specs.FinMap.{is_sorted};
ghost use Rattle.collation.specs.Reference.{Reference};
ghost use Rattle.collation.specs.Order.{ref_cmp};
ghost use Rattle.collation.specs.Answers.{subtree_of};
ghost use Rattle.collation.specs.Changes.{changed};
ghost use Rattle.collation.specs.Database.{Database};
ghost use Rattle.command.specs.Data.{data_after};
ghost use Rattle.journal.specs.Based.{map_in};
ghost use Rattle.journal.specs.History.{State, initial, after, after_unit, all_after};
ghost use Rattle.job_core.specs.Noted.{noted_all, StaysBetween, HasPassed, end_values};

use collation::Text;
use command::DataCommand;
use globals::{OrderedView, subtree};
use journal::{Base, Exchange, Journal, Unit, Units};
use key_codec::Key;
use key_map::KeyMap;
use std::alloc::{AllocError, Global};

// Notes a reference.
fn note(alloc: Global, noted: &mut KeyMap<()>, key: &Key) -> Result<(), AllocError>
    ensures { OnOk result (noted.new ≡ finmap.insert noted.old key.now tt) }
{
    let key = key.clone()?;
    noted.insert(alloc, key, ())?;
    Ok(())
}

// How many of the nodes stand before the reference: they are in order.
fn count_before(nodes: &[(Key, Text)], root: &Key) -> usize
    requires { is_sorted ref_cmp nodes.now ≡ true }
    ensures within { result ≤ length nodes.now }
    ensures left { drop result nodes.now ≡ filter (λ e. not (is_lt (ref_cmp e.0 root.now))) nodes.now }
{
    nodes.partition_point(
        |node: &(Key, Text)| -> bool
            ensures { result ≡ is_lt (ref_cmp node.now.0 root.entry.now) }
        { node.0 < *root },
    )
}

// The nodes of the base that don't stand before the reference.
fn nodes_from<'b>(base: &'b Base, root: &Key) -> &'b [(Key, Text)]
    ensures { result.now ≡ filter (λ e. not (is_lt (ref_cmp e.0 root.now))) (finmap.entries (map_in base.now)) }
{
    let nodes = base.nodes();
    let start = count_before(nodes, root);
    &nodes[start..]
}

// Notes what the base has at and under a reference.
fn note_based(
    alloc: Global,
    noted: &mut KeyMap<()>,
    base: &Base,
    root: &Key,
) -> Result<(), AllocError>
    ensures { OnOk result (noted.new ≡ noted_all (subtree_of root.now (map_in base.now)) noted.old) }
{
    for (key, _) in nodes_from(base, root) {
        if !key.is_under(root) {
            break;
        }
        note(alloc, noted, key)?;
    }
    Ok(())
}

// Notes what the end has at and under a reference.
fn note_ended<V: OrderedView>(
    alloc: Global,
    noted: &mut KeyMap<()>,
    end: &V,
    root: &Key,
) -> Result<(), AllocError>
    ensures { OnOk result (noted.new ≡ noted_all (subtree_of root.now (V.content end.now)) noted.old) }
{
    for (key, _) in subtree(end, root) {
        note(alloc, noted, key)?;
    }
    Ok(())
}

// Notes what either has there.
fn note_both<V: OrderedView>(
    alloc: Global,
    noted: &mut KeyMap<()>,
    base: &Base,
    end: &V,
    root: &Key,
) -> Result<(), AllocError>
    ensures { OnOk result (noted.new ≡ noted_all (subtree_of root.now (V.content end.now)) (noted_all (subtree_of root.now (map_in base.now)) noted.old)) }
{
    note_based(alloc, noted, base, root)?;
    note_ended(alloc, noted, end, root)
}

// Notes what a command may change. What a kill takes away had a value in the base, or is noted since it got one.
fn note_command<V: OrderedView>(
    alloc: Global,
    noted: &mut KeyMap<()>,
    base: &Base,
    end: &V,
    command: &DataCommand,
) -> Result<(), AllocError>
    ensures { OnOk result ((m : Database) → StaysBetween noted.old noted.new (map_in base.now) (V.content end.now) m (data_after command.now m)) }
{
    match command {
        DataCommand::Set(key, _) => note(alloc, noted, key),
        DataCommand::Increment(key, _) => note(alloc, noted, key),
        DataCommand::Kill(root, _) => note_based(alloc, noted, base, root),
        DataCommand::Merge(target, _) => note_both(alloc, noted, base, end, target),
        DataCommand::Look(_) => Ok(()),
    }
}

// Notes what a transaction's commands may change.
fn note_each<V: OrderedView>(
    alloc: Global,
    noted: &mut KeyMap<()>,
    base: &Base,
    end: &V,
    exchanges: &[Exchange],
) -> Result<(), AllocError>
    ensures { OnOk result ((m : Database) → StaysBetween noted.old noted.new (map_in base.now) (V.content end.now) m (all_after exchanges.now m)) }
{
    for exchange in exchanges {
        note_command(alloc, noted, base, end, &exchange.command)?;
    }
    Ok(())
}

// Notes what a unit may change.
fn note_unit<V: OrderedView>(
    alloc: Global,
    noted: &mut KeyMap<()>,
    base: &Base,
    end: &V,
    unit: &Unit,
) -> Result<(), AllocError>
    ensures { OnOk result ((s : State) → StaysBetween noted.old noted.new (map_in base.now) (V.content end.now) s.map (after_unit unit.now s).map) }
{
    match unit {
        Unit::Lone(_, command, _) => note_command(alloc, noted, base, end, command),
        Unit::Whole(_, exchanges) => note_each(alloc, noted, base, end, exchanges.as_slice()),
        Unit::Lock(_, _, _, _) => Ok(()),
        Unit::Back(_) => Ok(()),
        Unit::End(_) => Ok(()),
    }
}

// Notes what the next unit may change, read back.
fn note_next<V: OrderedView>(
    alloc: Global,
    noted: &mut KeyMap<()>,
    base: &Base,
    end: &V,
    units: &mut Units<'_>,
) -> Result<(), AllocError>
    requires { 0 < length units.old }
    ensures { OnOk result (HasPassed noted.old noted.new (map_in base.now) (V.content end.now) units.old units.new) }
{
    match units.next() {
        Some(Ok(unit)) => {
            let passed = note_unit(alloc, noted, base, end, &unit);
            drop(unit);
            passed
        }
        Some(Err(refused)) => Err(refused),
        None => unreachable!(),
    }
}

// Notes what so many units may change.
fn note_units<V: OrderedView>(
    alloc: Global,
    noted: &mut KeyMap<()>,
    base: &Base,
    end: &V,
    units: &mut Units<'_>,
    count: u64,
) -> Result<(), AllocError>
    requires { count ≤ length units.old }
    ensures { OnOk result ((s : State) → StaysBetween noted.old noted.new (map_in base.now) (V.content end.now) s.map (after (take count units.old) s).map) }
{
    for _ in 0..count {
        note_next(alloc, noted, base, end, units)?;
    }
    Ok(())
}

// One more: a reference with its value in the end, or with none.
fn push_end_value<V: OrderedView>(
    changes: &mut Vec<(Key, Option<Text>)>,
    end: &V,
    key: &Key,
) -> Result<(), AllocError>
    ensures { OnOk result (changes.new.items ≡ changes.old.items ++ (key.now, finmap.get (V.content end.now) key.now) ∷ []) }
{
    let value = match end.get(key) {
        Some(value) => Some(value.clone()?),
        None => None,
    };
    changes.push((key.clone()?, value))?;
    Ok(())
}

// Each noted reference with its value in the end, or with none.
fn list_end_values<V: OrderedView>(
    alloc: Global,
    noted: &KeyMap<()>,
    end: &V,
) -> Result<Vec<(Key, Option<Text>)>, AllocError>
    ensures { IfOk result (λ changes. changes.items ≡ end_values noted.now (V.content end.now)) }
{
    let mut changes = Vec::new(alloc);
    for (key, _) in noted.iter() {
        push_end_value(&mut changes, end, key)?;
    }
    Ok(changes)
}

/// The changes from the journal's base to the end, which is what the units up to this number leave: references in their
/// order. Costs what these units name, and what they kill.
pub(crate) fn changes_to<V: OrderedView>(
    alloc: Global,
    journal: &Journal,
    end: &V,
    number: u64,
) -> Result<Vec<(Key, Option<Text>)>, AllocError>
    requires from { journal.now.base ≤ number }
    requires to { number ≤ length journal.now.units }
    requires end { V.content end.now ≡ (after (take number journal.now.units) initial).map }
    ensures rising { IfOk result (λ changes. is_sorted ref_cmp changes.items ≡ true) }
    ensures changes { IfOk result (λ changes. changed changes.items (after (take journal.now.base journal.now.units) initial).map ≡ (after (take number journal.now.units) initial).map) }
{
    let base = journal.base();
    let mut noted = KeyMap::new(alloc);
    let mut units = journal.units();
    note_units(
        alloc,
        &mut noted,
        base,
        end,
        &mut units,
        number - base.number(),
    )?;
    list_end_values(alloc, &noted, end)
}
