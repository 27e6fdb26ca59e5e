//! Stretches of killed nodes: once one is noted a look-up passes over it at once.
ghost use Rattle.std.specs.Prelude.{◌≡◌, false, IfSome};
ghost use Rattle.stretches.specs.Empty.{AreEmpty};

use crate::counting::{Counting, kill, thousand};
use crate::keys::{key_of, put};
use collation::{Direction, Text};
use command::{Answer, DataCommand, Extent, Look};
use globals::{Cut, OrderedView};
use key_codec::{Key, Place};
use key_map::KeyMap;
use overlay_view::Overlay;
use refusal::Refusal;
use std::alloc::Global;
use std::test::*;
use stretches::{InTheWay, Left, Skipping, Stretches, scout, scout_kill, scout_merge};
use workspace::Workspace;

// What is killed lies in the way.
#[derive(Drop)]
struct Killed<'w> {
    own: &'w Workspace,
}

impl<'w> InTheWay for Killed<'w> {
    fn first_from(&self, cut: Cut<'_>) -> Option<&Key> {
        match self.own.killed().first_from(cut) {
            Some((root, _)) => Some(root),
            None => None,
        }
    }

    fn last_before(&self, cut: Cut<'_>) -> Option<&Key> {
        match self.own.killed().last_before(cut) {
            Some((root, _)) => Some(root),
            None => None,
        }
    }
}

// Notes the stretch over which a command passes, and tells whether there is one.
fn is_scouted<V: OrderedView>(
    alloc: Global,
    view: &V,
    own: &Workspace,
    stretches: &mut Stretches,
    look: &Look,
) -> bool
    requires { AreEmpty stretches.old (V.content view.now) }
    ensures { AreEmpty stretches.new (V.content view.now) }
{
    let stretch = scout(alloc, view, &Killed { own }, stretches, look);
    stretches.follow(Left::All, &stretch);
    stretch.is_some()
}

// Whether a $ORDER through the stretches is answered this text.
fn is_found<V: OrderedView>(
    alloc: Global,
    view: &V,
    stretches: &Stretches,
    look: &Look,
    expected: &[u8],
) -> bool
    requires { AreEmpty stretches.now (V.content view.now) }
{
    let skipping = Skipping::new(view, stretches);
    match globals::look(alloc, &skipping, look) {
        Ok(answer) => is_text(answer, expected),
        Err(_) => false,
    }
}

fn is_text(answer: Answer, expected: &[u8]) -> bool {
    match answer {
        Answer::Value(found) => found.as_slice() == expected,
        _ => false,
    }
}

// How many look-ups of the map a $ORDER, of nodes or names, makes that is answered this text, before its stretch is
// noted and after; none where it isn't answered so.
fn counts_of(
    alloc: Global,
    own: &Workspace,
    map: &KeyMap<Text>,
    look: &Look,
    expected: &[u8],
) -> Option<(u64, u64)> {
    let counting = Counting::new(map);
    let overlay = Overlay::new(own, &counting);
    let mut stretches = Stretches::new(alloc);
    let found = is_found(alloc, &overlay, &stretches, look, expected);
    let before = counting.taken();
    let scouted = is_scouted(alloc, &overlay, own, &mut stretches, look);
    let _scout = counting.taken();
    let again = is_found(alloc, &overlay, &stretches, look, expected);
    let after = counting.taken();
    if found && scouted && again {
        Some((before, after))
    } else {
        None
    }
}

fn counts_toward(
    alloc: Global,
    own: &Workspace,
    map: &KeyMap<Text>,
    direction: Direction,
    expected: &[u8],
) -> Result<Option<(u64, u64)>, Refusal> {
    let place = Place::new(key_of(alloc, b"A")?, true);
    let look = Look::Order(place, direction);
    let counts = counts_of(alloc, own, map, &look, expected);
    drop(look);
    Ok(counts)
}

fn kill_ends(alloc: Global, own: &mut Workspace) -> Result<(), Refusal> {
    let ends: [&[u8]; 7] = [b"A0", b"A1", b"A2", b"A3", b"A4", b"A8", b"A9"];
    for spelled in ends {
        kill(alloc, own, spelled)?;
    }
    Ok(())
}

type EndCounts = (Option<(u64, u64)>, Option<(u64, u64)>);

// The counts of $ORDERs from both ends of the thousand, of which ^A(0) to ^A(4), ^A(8) and ^A(9) are killed.
fn end_counts(
    alloc: Global,
    own: &mut Workspace,
    map: &KeyMap<Text>,
) -> Result<EndCounts, Refusal> {
    kill_ends(alloc, own)?;
    let forward = counts_toward(alloc, own, map, Direction::Forward, b"5")?;
    let backward = counts_toward(alloc, own, map, Direction::Backward, b"7")?;
    Ok((forward, backward))
}

fn end_counts_of_thousand(alloc: Global) -> Result<EndCounts, Refusal> {
    let map = thousand(alloc)?;
    let mut own = Workspace::new(alloc);
    let counts = end_counts(alloc, &mut own, &map);
    drop(own);
    drop(map);
    counts
}

#[test]
fn a_noted_stretch_is_passed_over_by_one_look_up(rt: HostRuntime) -> Result<(), Fail> {
    let (forward, backward) = end_counts_of_thousand(rt.alloc())?;
    assert!(rt; forward == Some((6, 1)));
    assert!(rt; backward == Some((3, 1)));
    Ok(())
}

fn kill_ten(alloc: Global, own: &mut Workspace) -> Result<(), Refusal> {
    let all: [&[u8]; 10] = [
        b"A0", b"A1", b"A2", b"A3", b"A4", b"A5", b"A6", b"A7", b"A8", b"A9",
    ];
    for spelled in all {
        kill(alloc, own, spelled)?;
    }
    Ok(())
}

// The counts of $ORDERs from both ends of the thousand, of which all are killed.
fn counts_of_none(
    alloc: Global,
    own: &mut Workspace,
    map: &KeyMap<Text>,
) -> Result<EndCounts, Refusal> {
    kill_ten(alloc, own)?;
    let forward = counts_toward(alloc, own, map, Direction::Forward, b"")?;
    let backward = counts_toward(alloc, own, map, Direction::Backward, b"")?;
    Ok((forward, backward))
}

fn counts_of_killed_thousand(alloc: Global) -> Result<EndCounts, Refusal> {
    let map = thousand(alloc)?;
    let mut own = Workspace::new(alloc);
    let counts = counts_of_none(alloc, &mut own, &map);
    drop(own);
    drop(map);
    counts
}

#[test]
fn a_level_that_is_empty_is_passed_over_by_one_look_up(rt: HostRuntime) -> Result<(), Fail> {
    let (forward, backward) = counts_of_killed_thousand(rt.alloc())?;
    assert!(rt; forward == Some((11, 1)));
    assert!(rt; backward == Some((11, 1)));
    Ok(())
}

// How many look-ups of the map a $ORDER makes that finds nothing, once its stretch is noted and these are left out of it.
fn count_without(
    alloc: Global,
    own: &Workspace,
    map: &KeyMap<Text>,
    members: &KeyMap<Text>,
    look: &Look,
) -> Option<u64> {
    let counting = Counting::new(map);
    let overlay = Overlay::new(own, &counting);
    let mut stretches = Stretches::new(alloc);
    let scouted = is_scouted(alloc, &overlay, own, &mut stretches, look);
    stretches.leave_out(members);
    let _scout = counting.taken();
    let found = is_found(alloc, &overlay, &stretches, look, b"");
    let count = counting.taken();
    if found && scouted { Some(count) } else { None }
}

fn count_without_toward(
    alloc: Global,
    own: &Workspace,
    map: &KeyMap<Text>,
    members: &KeyMap<Text>,
    direction: Direction,
) -> Result<Option<u64>, Refusal> {
    let place = Place::new(key_of(alloc, b"A")?, true);
    let look = Look::Order(place, direction);
    let count = count_without(alloc, own, map, members, &look);
    drop(look);
    Ok(count)
}

type BothCounts = (Option<u64>, Option<u64>);

// The counts of $ORDERs from both ends of the thousand, of which all are killed.
fn counts_without(
    alloc: Global,
    own: &mut Workspace,
    map: &KeyMap<Text>,
    members: &KeyMap<Text>,
) -> Result<BothCounts, Refusal> {
    kill_ten(alloc, own)?;
    let forward = count_without_toward(alloc, own, map, members, Direction::Forward)?;
    let backward = count_without_toward(alloc, own, map, members, Direction::Backward)?;
    Ok((forward, backward))
}

fn counts_without_those(alloc: Global, members: &KeyMap<Text>) -> Result<BothCounts, Refusal> {
    let map = thousand(alloc)?;
    let mut own = Workspace::new(alloc);
    let counts = counts_without(alloc, &mut own, &map, members);
    drop(own);
    drop(map);
    counts
}

fn counts_without_one(alloc: Global) -> Result<BothCounts, Refusal> {
    let mut members = KeyMap::new(alloc);
    let counts = match put(alloc, &mut members, b"A5", b'5') {
        Ok(()) => counts_without_those(alloc, &members),
        Err(refusal) => Err(refusal),
    };
    drop(members);
    counts
}

// What lies before ^A(5), and behind it, is still passed over at once.
#[test]
fn a_member_left_out_parts_a_stretch(rt: HostRuntime) -> Result<(), Fail> {
    let (forward, backward) = counts_without_one(rt.alloc())?;
    assert!(rt; forward == Some(2));
    assert!(rt; backward == Some(2));
    Ok(())
}

fn name_counts_toward(
    alloc: Global,
    own: &Workspace,
    map: &KeyMap<Text>,
    direction: Direction,
) -> Option<(u64, u64)> {
    let look = Look::Name(None, direction);
    let counts = counts_of(alloc, own, map, &look, b"");
    drop(look);
    counts
}

// The counts of $ORDERs of names from both ends, where all of the thousand are killed.
fn name_counts(
    alloc: Global,
    own: &mut Workspace,
    map: &KeyMap<Text>,
) -> Result<EndCounts, Refusal> {
    kill_ten(alloc, own)?;
    let forward = name_counts_toward(alloc, own, map, Direction::Forward);
    let backward = name_counts_toward(alloc, own, map, Direction::Backward);
    Ok((forward, backward))
}

fn name_counts_of_killed_thousand(alloc: Global) -> Result<EndCounts, Refusal> {
    let map = thousand(alloc)?;
    let mut own = Workspace::new(alloc);
    let counts = name_counts(alloc, &mut own, &map);
    drop(own);
    drop(map);
    counts
}

#[test]
fn names_of_which_none_is_left_are_passed_over_by_one_look_up(rt: HostRuntime) -> Result<(), Fail> {
    let (forward, backward) = name_counts_of_killed_thousand(rt.alloc())?;
    assert!(rt; forward == Some((11, 1)));
    assert!(rt; backward == Some((11, 1)));
    Ok(())
}

// Whether a MERGE has a stretch to note, where nothing is noted yet.
fn merge_has_one<V: OrderedView>(
    alloc: Global,
    view: &V,
    own: &Workspace,
    target: &Key,
    source: &Key,
) -> bool {
    let stretches = Stretches::new(alloc);
    let stretch = scout_merge(view, &Killed { own }, &stretches, target, source, 0);
    stretch.is_some()
}

fn merge_has(
    alloc: Global,
    own: &Workspace,
    map: &KeyMap<Text>,
    target: &[u8],
    source: &[u8],
) -> Result<bool, Refusal> {
    let source = key_of(alloc, source)?;
    let found = match key_of(alloc, target) {
        Ok(target) => {
            let has = merge_has_one(alloc, &Overlay::new(own, map), own, &target, &source);
            drop(target);
            Ok(has)
        }
        Err(refusal) => Err(refusal),
    };
    drop(source);
    found
}

// Whether a KILL has a stretch to note, where nothing is noted yet.
fn kill_has(alloc: Global, own: &Workspace, root: &[u8]) -> Result<bool, Refusal> {
    let root = key_of(alloc, root)?;
    let stretch = scout_kill(&Killed { own }, &Stretches::new(alloc), &root, Extent::All);
    drop(root);
    Ok(stretch.is_some())
}

type Scouted = ((bool, bool, bool), (bool, bool));

// Of MERGEs and KILLs, where ^A(0) to ^A(9) are killed.
fn scouted(alloc: Global, own: &mut Workspace, map: &KeyMap<Text>) -> Result<Scouted, Refusal> {
    kill_ten(alloc, own)?;
    let many = merge_has(alloc, own, map, b"B", b"A")?;
    let entered = merge_has(alloc, own, map, b"A5", b"A")?;
    let few = merge_has(alloc, own, map, b"B", b"A5")?;
    let kills = (kill_has(alloc, own, b"A")?, kill_has(alloc, own, b"A5")?);
    Ok(((many, entered, few), kills))
}

fn scouted_of_thousand(alloc: Global) -> Result<Scouted, Refusal> {
    let map = thousand(alloc)?;
    let mut own = Workspace::new(alloc);
    let found = scouted(alloc, &mut own, &map);
    drop(own);
    drop(map);
    found
}

// Eight killed roots make one worth while, and the target of a MERGE may get nodes there.
#[test]
fn merge_and_kill_note_where_much_was_killed(rt: HostRuntime) -> Result<(), Fail> {
    let (merges, kills) = scouted_of_thousand(rt.alloc())?;
    assert!(rt; merges.0);
    assert!(rt; !merges.1);
    assert!(rt; !merges.2);
    assert!(rt; kills.0);
    assert!(rt; !kills.1);
    Ok(())
}
