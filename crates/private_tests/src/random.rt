//! Random lists of SET and KILL in a transaction, against the same done on a plain map.
use crate::keys::{key_of, put};
use collation::Text;
use command::Extent;
use globals::{Cut, OrderedView, walk_from};
use key_codec::Key;
use key_map::KeyMap;
use overlay_view::Overlay;
use refusal::Refusal;
use std::alloc::Global;
use std::test::*;
use workspace::Workspace;

// A try by the interpreter has time for 20.
const LISTS: u64 = 2000;

fn following(seed: u64) -> u64 {
    seed.wrapping_mul(6364136223846793005)
        .wrapping_add(1442695040888963407)
}

// A reference of one or two names, up to two subscripts, of three digits.
fn spelling(seed: u64) -> [u8; 3] {
    let letter = if seed >> 60 < 8 { b'A' } else { b'B' };
    let first = b'1' + ((seed >> 50) % 3) as u8;
    let second = b'1' + ((seed >> 40) % 3) as u8;
    [letter, first, second]
}

fn depth(seed: u64) -> usize {
    1 + ((seed >> 30) % 3) as usize
}

fn key_at(alloc: Global, seed: u64) -> Result<Key, Refusal> {
    let spelled = spelling(seed);
    match spelled.get(..depth(seed)) {
        Some(front) => key_of(alloc, front),
        None => Err(Refusal::BadName),
    }
}

fn value_at(alloc: Global, seed: u64) -> Result<Text, Refusal> {
    let text = Text::from_slice(alloc, &[((seed >> 20) % 100) as u8])?;
    Ok(text)
}

fn set_plain(alloc: Global, plain: &mut KeyMap<Text>, seed: u64) -> Result<(), Refusal> {
    let spelled = spelling(seed);
    match spelled.get(..depth(seed)) {
        Some(front) => put(alloc, plain, front, ((seed >> 20) % 100) as u8),
        None => Err(Refusal::BadName),
    }
}

fn kill_plain(alloc: Global, plain: &mut KeyMap<Text>, seed: u64) -> Result<(), Refusal> {
    let key = key_at(alloc, seed)?;
    plain.remove_under(&key);
    Ok(())
}

fn set_own(alloc: Global, own: &mut Workspace, seed: u64) -> Result<(), Refusal> {
    let key = key_at(alloc, seed)?;
    match value_at(alloc, seed) {
        Ok(value) => {
            own.set(alloc, key, value)?;
            Ok(())
        }
        Err(refusal) => {
            drop(key);
            Err(refusal)
        }
    }
}

fn kill_own(alloc: Global, own: &mut Workspace, seed: u64) -> Result<(), Refusal> {
    let key = key_at(alloc, seed)?;
    own.kill(alloc, key, Extent::All)?;
    Ok(())
}

// One command in three kills.
fn act(
    alloc: Global,
    own: &mut Workspace,
    plain: &mut KeyMap<Text>,
    seed: u64,
) -> Result<(), Refusal> {
    if (seed >> 55) % 3 == 0 {
        kill_own(alloc, own, seed)?;
        kill_plain(alloc, plain, seed)
    } else {
        set_own(alloc, own, seed)?;
        set_plain(alloc, plain, seed)
    }
}

// Whether the other view has each member of this one, with its value.
fn is_within<V: OrderedView, W: OrderedView>(view: &V, other: &W) -> bool {
    for (key, value) in walk_from(view, Cut::Start) {
        match other.get(key) {
            Some(text) => {
                if text != value {
                    return false;
                }
            }
            None => return false,
        }
    }
    true
}

// One step backward from each member of the other view.
fn same_backward<V: OrderedView, W: OrderedView>(view: &V, other: &W) -> bool {
    for (key, _) in walk_from(other, Cut::Start) {
        if view.prev(Cut::Before(key), None) != other.prev(Cut::Before(key), None) {
            return false;
        }
    }
    true
}

fn are_same(own: &Workspace, start: &KeyMap<Text>, plain: &KeyMap<Text>) -> bool {
    let overlay = Overlay::new(own, start);
    is_within(&overlay, plain) && is_within(plain, &overlay) && same_backward(&overlay, plain)
}

// Ten values, in both maps, and the seed after them.
fn fill(
    alloc: Global,
    start: &mut KeyMap<Text>,
    plain: &mut KeyMap<Text>,
    seed: u64,
) -> Result<u64, Refusal> {
    let mut seed = seed;
    for _ in 0..10 {
        seed = following(seed);
        set_plain(alloc, start, seed)?;
        set_plain(alloc, plain, seed)?;
    }
    Ok(seed)
}

// Eight commands.
fn holds_on(
    alloc: Global,
    own: &mut Workspace,
    start: &KeyMap<Text>,
    plain: &mut KeyMap<Text>,
    seed: u64,
) -> Result<bool, Refusal> {
    let mut seed = seed;
    for _ in 0..8 {
        seed = following(seed);
        act(alloc, own, plain, seed)?;
        if !are_same(own, start, plain) {
            return Ok(false);
        }
    }
    Ok(true)
}

fn holds_over(
    alloc: Global,
    start: &mut KeyMap<Text>,
    plain: &mut KeyMap<Text>,
    seed: u64,
) -> Result<bool, Refusal> {
    let seed = fill(alloc, start, plain, seed)?;
    let mut own = Workspace::new(alloc);
    let holds = holds_on(alloc, &mut own, start, plain, seed);
    drop(own);
    holds
}

fn holds_beside(alloc: Global, start: &mut KeyMap<Text>, seed: u64) -> Result<bool, Refusal> {
    let mut plain = KeyMap::new(alloc);
    let holds = holds_over(alloc, start, &mut plain, seed);
    drop(plain);
    holds
}

fn holds_from(alloc: Global, seed: u64) -> Result<bool, Refusal> {
    let mut start = KeyMap::new(alloc);
    let holds = holds_beside(alloc, &mut start, seed);
    drop(start);
    holds
}

#[test]
fn overlays_show_what_a_plain_map_would(rt: HostRuntime) -> Result<(), Fail> {
    for seed in 0..LISTS {
        assert!(rt; holds_from(rt.alloc(), seed)?);
    }
    Ok(())
}
