//! The changes that the writes make to what a view contains.
ghost use Rattle.std.specs.Prelude.{◌≡◌, [], ◌∷◌, ◌++◌, Some, None, OnOk, IfOk};
ghost use Rattle.std.specs.FinMap as finmap;
ghost use Rattle.globals.specs.Cuts.{taken_of};
ghost use Rattle.steady_map.specs.Shown.{shown};
ghost use Rattle.workspace.specs.Changes.{set_changes, removed, removed_by};

use collation::Text;
use command::Extent;
use globals::{OrderedView, taken};
use key_codec::Key;
use key_map::KeyMap;
use std::alloc::{AllocError, Global};

// Each of these values, to be set, but for hidden keys.
fn push_row(
    changes: &mut Vec<(Key, Option<Text>)>,
    row: &[(Key, Option<Text>)],
) -> Result<(), AllocError>
    ensures { OnOk result (changes.new.items ≡ changes.old.items ++ set_changes (shown row.now)) }
{
    for (key, value) in row {
        if let Some(value) = value {
            push_set(changes, key, value)?;
        }
    }
    Ok(())
}

#[inline(never)]
fn push_walked(
    changes: &mut Vec<(Key, Option<Text>)>,
    written: &KeyMap<Text>,
) -> Result<(), AllocError>
    ensures { OnOk result (changes.new.items ≡ changes.old.items ++ set_changes (finmap.entries written.now)) }
{
    for (key, value) in written.iter() {
        push_set(changes, key, value)?;
    }
    Ok(())
}

// Each of the written values, to be set. Few of them stand in one row: a walk, of half a kilobyte, isn't begun for
// these.
fn push_written(
    changes: &mut Vec<(Key, Option<Text>)>,
    written: &KeyMap<Text>,
) -> Result<(), AllocError>
    ensures { OnOk result (changes.new.items ≡ changes.old.items ++ set_changes (finmap.entries written.now)) }
{
    match written.as_row() {
        Some(row) => push_row(changes, row),
        None => push_walked(changes, written),
    }
}

fn push_set(
    changes: &mut Vec<(Key, Option<Text>)>,
    key: &Key,
    value: &Text,
) -> Result<(), AllocError>
    ensures { OnOk result (changes.new.items ≡ changes.old.items ++ (key.now, Some value.now) ∷ []) }
{
    let key = key.clone()?;
    let value = value.clone()?;
    changes.push((key, Some(value)))?;
    Ok(())
}

fn push_gone(changes: &mut Vec<(Key, Option<Text>)>, key: &Key) -> Result<(), AllocError>
    ensures { OnOk result (changes.new.items ≡ changes.old.items ++ (key.now, None) ∷ []) }
{
    let key = key.clone()?;
    changes.push((key, None))?;
    Ok(())
}

// What a kill takes, and isn't written.
fn push_removed<V: OrderedView>(
    changes: &mut Vec<(Key, Option<Text>)>,
    written: &KeyMap<Text>,
    view: &V,
    root: &Key,
    extent: Extent,
) -> Result<(), AllocError>
    ensures { OnOk result (changes.new.items ≡ changes.old.items ++ removed written.now (taken_of extent root.now (V.content view.now))) }
{
    for (key, _) in taken(view, root, extent) {
        if written.get(key).is_none() {
            push_gone(changes, key)?;
        }
    }
    Ok(())
}

#[inline(never)]
fn push_each_removed<V: OrderedView>(
    changes: &mut Vec<(Key, Option<Text>)>,
    written: &KeyMap<Text>,
    view: &V,
    killed: &KeyMap<Extent>,
) -> Result<(), AllocError>
    ensures { OnOk result (changes.new.items ≡ changes.old.items ++ removed_by written.now (V.content view.now) (finmap.entries killed.now)) }
{
    for (root, extent) in killed.iter() {
        push_removed(changes, written, view, root, *extent)?;
    }
    Ok(())
}

// Killed reference by killed reference; mostly there is none.
fn push_all_removed<V: OrderedView>(
    changes: &mut Vec<(Key, Option<Text>)>,
    written: &KeyMap<Text>,
    view: &V,
    killed: &KeyMap<Extent>,
) -> Result<(), AllocError>
    ensures { OnOk result (changes.new.items ≡ changes.old.items ++ removed_by written.now (V.content view.now) (finmap.entries killed.now)) }
{
    match killed.as_row() {
        Some([]) => Ok(()),
        _ => push_each_removed(changes, written, view, killed),
    }
}

// All of them: the written values, and then what is removed, killed reference by killed reference.
pub(crate) fn list_changes<V: OrderedView>(
    alloc: Global,
    written: &KeyMap<Text>,
    killed: &KeyMap<Extent>,
    view: &V,
) -> Result<Vec<(Key, Option<Text>)>, AllocError>
    ensures { IfOk result (λ changes. changes.items ≡ set_changes (finmap.entries written.now) ++ removed_by written.now (V.content view.now) (finmap.entries killed.now)) }
{
    let mut changes = Vec::new(alloc);
    push_written(&mut changes, written)?;
    push_all_removed(&mut changes, written, view, killed)?;
    Ok(changes)
}
