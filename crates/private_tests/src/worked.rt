//! A worked transaction: what its overlay shows, and what it changes.
use crate::keys::{is_key, key_of, put, shows, text};
use collation::Text;
use command::Extent;
use globals::OrderedView;
use key_codec::Key;
use key_map::KeyMap;
use overlay_view::Overlay;
use refusal::Refusal;
use std::alloc::Global;
use std::test::*;
use workspace::Workspace;

fn set(alloc: Global, workspace: &mut Workspace, spelled: &[u8]) -> Result<(), Refusal> {
    let key = key_of(alloc, spelled)?;
    set_key(alloc, workspace, key)
}

fn set_key(alloc: Global, workspace: &mut Workspace, key: Key) -> Result<(), Refusal> {
    match text(alloc, b'w') {
        Ok(value) => {
            workspace.set(alloc, key, value)?;
            Ok(())
        }
        Err(refusal) => {
            drop(key);
            Err(refusal)
        }
    }
}

fn kill(alloc: Global, workspace: &mut Workspace, spelled: &[u8]) -> Result<(), Refusal> {
    let key = key_of(alloc, spelled)?;
    workspace.kill(alloc, key, Extent::All)?;
    Ok(())
}

fn copy(alloc: Global, workspace: &mut Workspace, spelled: &[u8]) -> Result<(), Refusal> {
    let key = key_of(alloc, spelled)?;
    copy_key(alloc, workspace, key)
}

fn copy_key(alloc: Global, workspace: &mut Workspace, key: Key) -> Result<(), Refusal> {
    match text(alloc, b'c') {
        Ok(value) => {
            let mut copies = Vec::new(alloc);
            copies.push((key, value))?;
            workspace.set_all(alloc, copies)?;
            Ok(())
        }
        Err(refusal) => {
            drop(key);
            Err(refusal)
        }
    }
}

// ^A, ^A(1,3), ^B.
fn below(alloc: Global, view: &mut KeyMap<Text>) -> Result<(), Refusal> {
    put(alloc, view, b"A", b'b')?;
    put(alloc, view, b"A13", b'b')?;
    put(alloc, view, b"B", b'b')
}

// SET ^A(1), KILL ^A, SET ^A(1,2).
fn written(alloc: Global, workspace: &mut Workspace) -> Result<(), Refusal> {
    set(alloc, workspace, b"A1")?;
    kill(alloc, workspace, b"A")?;
    set(alloc, workspace, b"A12")
}

fn has_value<V: OrderedView>(alloc: Global, view: &V, spelled: &[u8]) -> Result<bool, Refusal> {
    let key = key_of(alloc, spelled)?;
    let has = view.get(&key).is_some();
    drop(key);
    Ok(has)
}

fn decides(alloc: Global, workspace: &Workspace, spelled: &[u8]) -> Result<bool, Refusal> {
    let key = key_of(alloc, spelled)?;
    let decided = workspace.decides(&key) && workspace.killed_over(&key).is_some();
    drop(key);
    Ok(decided)
}

// The one change at a place: `+A12` where it is set, `-A` where it is removed.
fn is_change(
    alloc: Global,
    changes: &[(Key, Option<Text>)],
    index: usize,
    wanted: &[u8],
) -> Result<bool, Refusal> {
    let [sign, spelled @ ..] = wanted else {
        return Ok(false);
    };
    match changes.get(index) {
        Some((key, value)) => {
            let is_sign = value.is_some() == (*sign == b'+');
            Ok(is_sign && is_key(alloc, key, spelled)?)
        }
        None => Ok(false),
    }
}

fn are_changes(alloc: Global, changes: &[(Key, Option<Text>)]) -> Result<bool, Refusal> {
    let first = is_change(alloc, changes, 0, b"+A12")?;
    let second = is_change(alloc, changes, 1, b"-A")?;
    let third = is_change(alloc, changes, 2, b"-A13")?;
    Ok(first && second && third && changes.len() == 3)
}

fn changes_are_right<V: OrderedView>(
    alloc: Global,
    workspace: &Workspace,
    view: &V,
) -> Result<bool, Refusal> {
    let changes = workspace.changes_over(alloc, view)?;
    let right = are_changes(alloc, changes.as_slice());
    drop(changes);
    right
}

// What the overlay shows, and what the workspace decides.
fn overlay_is_right(
    alloc: Global,
    workspace: &Workspace,
    view: &KeyMap<Text>,
) -> Result<bool, Refusal> {
    let overlay = Overlay::new(workspace, view);
    let shown = shows(alloc, &overlay, &[b"A12", b"B"])?;
    let set = has_value(alloc, &overlay, b"A12")?;
    let killed = has_value(alloc, &overlay, b"A13")?;
    let decided = decides(alloc, workspace, b"A13")?;
    let free = decides(alloc, workspace, b"B")?;
    Ok(shown && set && !killed && decided && !free)
}

// A copy, and then no writes at all.
fn copy_and_clear(
    alloc: Global,
    workspace: &mut Workspace,
    view: &KeyMap<Text>,
) -> Result<bool, Refusal> {
    copy(alloc, workspace, b"A11")?;
    let copied = shows(
        alloc,
        &Overlay::new(workspace, view),
        &[b"A11", b"A12", b"B"],
    )?;
    workspace.clear();
    let cleared = shows(alloc, &Overlay::new(workspace, view), &[b"A", b"A13", b"B"])?;
    Ok(copied && cleared)
}

// Whether the overlay, the changes, and what is left after a copy and a `clear` are right.
type Rights = (bool, bool, bool);

fn rights_of(
    alloc: Global,
    workspace: &mut Workspace,
    view: &KeyMap<Text>,
) -> Result<Rights, Refusal> {
    written(alloc, workspace)?;
    let overlay = overlay_is_right(alloc, workspace, view)?;
    let changes = changes_are_right(alloc, workspace, view)?;
    let cleared = copy_and_clear(alloc, workspace, view)?;
    Ok((overlay, changes, cleared))
}

fn rights_over(alloc: Global, view: &mut KeyMap<Text>) -> Result<Rights, Refusal> {
    below(alloc, view)?;
    let mut workspace = Workspace::new(alloc);
    let rights = rights_of(alloc, &mut workspace, view);
    drop(workspace);
    rights
}

fn rights(alloc: Global) -> Result<Rights, Refusal> {
    let mut view = KeyMap::new(alloc);
    let rights = rights_over(alloc, &mut view);
    drop(view);
    rights
}

#[test]
fn value_set_after_a_kill_stands_alone(rt: HostRuntime) -> Result<(), Fail> {
    let (overlay, changes, cleared) = rights(rt.alloc())?;
    assert!(rt; overlay);
    assert!(rt; changes);
    assert!(rt; cleared);
    Ok(())
}
