//! Chains against plain vectors of versions, and chains of a million versions: that no call's stack grows with a chain.
use std::alloc::{AllocError, Global};
use std::test::*;
use version_chain::{ChainId, Chains};

// A chain, and what should stand in it, oldest version first.
#[derive(Drop)]
struct Seat {
    id: ChainId,
    versions: Vec<(u64, Option<u64>)>,
}

// A number that looks random, from one before it.
fn drawn(x: u64) -> u64 {
    let x = x ^ (x << 13);
    let x = x ^ (x >> 7);
    x ^ (x << 17)
}

fn plain_at(versions: &Vec<(u64, Option<u64>)>, stamp: u64) -> Option<u64> {
    let mut seen = None;
    for (since, value) in versions {
        if *since <= stamp {
            seen = *value;
        }
    }
    seen
}

// How many of the oldest versions a cut drops.
fn plain_dropped(versions: &Vec<(u64, Option<u64>)>, horizon: u64) -> usize {
    let mut dropped = 0usize;
    for (at, (stamp, value)) in versions.iter().enumerate() {
        if *stamp <= horizon {
            dropped = if value.is_some() { at } else { at + 1 };
        }
    }
    dropped
}

fn open(
    chains: &mut Chains<u64>,
    seats: &mut Vec<Seat>,
    alloc: Global,
) -> Result<bool, AllocError> {
    if seats.len() >= 8 {
        return Ok(true);
    }
    seats.reserve(1)?;
    let id = chains.open()?;
    let is_open = chains.is_open(id);
    seats.push(Seat {
        id,
        versions: Vec::new(alloc),
    })?;
    Ok(is_open)
}

fn close(chains: &mut Chains<u64>, seats: &mut Vec<Seat>) -> bool {
    match seats.pop() {
        Some(seat) => {
            if !chains.is_open(seat.id) {
                return false;
            }
            chains.close(seat.id);
            !chains.is_open(seat.id)
        }
        None => true,
    }
}

fn push(
    chains: &mut Chains<u64>,
    seat: &mut Seat,
    stamp: u64,
    value: Option<u64>,
) -> Result<bool, AllocError> {
    chains.reserve(1)?;
    seat.versions.reserve(1)?;
    if !chains.is_open(seat.id) || chains.spare() == 0 {
        return Ok(false);
    }
    if let Some(newest) = chains.newest(seat.id) {
        if newest >= stamp {
            return Ok(false);
        }
    }
    chains.push_reserved(seat.id, stamp, value);
    seat.versions.push((stamp, value))?;
    Ok(true)
}

fn drop_oldest(seat: &mut Seat, count: usize) {
    for _ in 0..count {
        if seat.versions.len() > 0 {
            seat.versions.remove(0);
        }
    }
}

fn push_and_cut(
    chains: &mut Chains<u64>,
    seat: &mut Seat,
    stamp: u64,
    value: Option<u64>,
    horizon: u64,
) -> Result<bool, AllocError> {
    chains.reserve(1)?;
    seat.versions.reserve(1)?;
    if !chains.is_open(seat.id) || chains.spare() == 0 {
        return Ok(false);
    }
    if let Some(newest) = chains.newest(seat.id) {
        if newest >= stamp {
            return Ok(false);
        }
    }
    chains.push_and_cut(seat.id, stamp, value, horizon);
    seat.versions.push((stamp, value))?;
    let dropped = plain_dropped(&seat.versions, horizon);
    drop_oldest(seat, dropped);
    Ok(true)
}

fn cut(chains: &mut Chains<u64>, seat: &mut Seat, horizon: u64) -> bool {
    if !chains.is_open(seat.id) {
        return false;
    }
    let dropped = plain_dropped(&seat.versions, horizon);
    let is_same = chains.cut(seat.id, horizon) == dropped;
    drop_oldest(seat, dropped);
    is_same
}

fn reads_alike(chains: &Chains<u64>, seat: &Seat, stamp: u64) -> bool {
    if !chains.is_open(seat.id) {
        return false;
    }
    let newest = match seat.versions.last() {
        Some((stamp, _)) => Some(*stamp),
        None => None,
    };
    chains.at(seat.id, stamp).copied() == plain_at(&seat.versions, stamp)
        && chains.newest(seat.id) == newest
}

// One act, which the number draws. Whether chains and plain vectors agree.
fn act(
    chains: &mut Chains<u64>,
    seats: &mut Vec<Seat>,
    alloc: Global,
    stamp: u64,
    draw: u64,
) -> Result<bool, AllocError> {
    let kind = draw % 64;
    let past = (draw >> 8) % 64;
    let which = (draw >> 16) % 8;
    if kind < 4 {
        return open(chains, seats, alloc);
    }
    if kind < 6 {
        return Ok(close(chains, seats));
    }
    match seats.get_mut(which as usize) {
        Some(seat) => {
            if kind < 12 {
                return Ok(cut(chains, seat, stamp.saturating_sub(past)));
            }
            if kind < 32 {
                return Ok(reads_alike(chains, seat, stamp.saturating_sub(past)));
            }
            let value = if draw % 3 == 0 { None } else { Some(draw) };
            if kind < 48 {
                return push(chains, seat, stamp, value);
            }
            // The same horizon for a while, so that older versions are known to stay.
            let horizon = (stamp - stamp % 64).saturating_sub(past % 2);
            push_and_cut(chains, seat, stamp, value, horizon)
        }
        None => Ok(true),
    }
}

// How many of the acts found chains and plain vectors alike, and whether all cells were back after the last close.
fn alike(chains: &mut Chains<u64>, alloc: Global, acts: u64) -> Result<(u64, bool), AllocError> {
    let mut seats = Vec::new(alloc);
    let mut draw = 88_172_645_463_325_252u64;
    let mut count = 0u64;
    for stamp in 0..acts {
        draw = drawn(draw);
        if act(chains, &mut seats, alloc, stamp, draw)? {
            count = count.saturating_add(1);
        }
    }
    for _ in 0..8 {
        close(chains, &mut seats);
    }
    Ok((count, chains.spare() > 0 && chains.spare() % 64 == 0))
}

fn alike_in_new_chains(alloc: Global, acts: u64) -> Result<(u64, bool), AllocError> {
    let mut chains = Chains::new(alloc);
    let told = alike(&mut chains, alloc, acts);
    drop(chains);
    told
}

#[test]
fn ten_thousand_random_acts_agree_with_plain_vectors(rt: HostRuntime) {
    assert!(rt; alike_in_new_chains(rt.alloc(), 10_000) == Ok((10_000, true)));
}

// Opens a chain of versions 9 "x", 7 absent, 4 "y", 2 "x". The first takes no cell.
fn worked(chains: &mut Chains<&'static str>) -> Result<ChainId, AllocError> {
    chains.reserve(3)?;
    let id = chains.open()?;
    if chains.spare() >= 3 {
        chains.push_reserved(id, 2, Some("x"));
        chains.push_reserved(id, 4, Some("y"));
        chains.push_reserved(id, 7, None);
        chains.push_reserved(id, 9, Some("x"));
    }
    Ok(id)
}

// What is seen at 1, 3, 5, 8 and 9.
fn seen(chains: &Chains<&'static str>, id: ChainId) -> [Option<&'static str>; 5] {
    if chains.is_open(id) {
        [1, 3, 5, 8, 9].map(|stamp| chains.at(id, stamp).copied())
    } else {
        [None; 5]
    }
}

fn cut_at(chains: &mut Chains<&'static str>, id: ChainId, horizon: u64) -> usize {
    if chains.is_open(id) {
        chains.cut(id, horizon)
    } else {
        0
    }
}

// What is seen before a cut at 6, between it and one at 8, and after both; and how many versions each drops.
#[derive(Drop)]
struct Cuts {
    before: [Option<&'static str>; 5],
    at_6: usize,
    between: [Option<&'static str>; 5],
    at_8: usize,
    after: [Option<&'static str>; 5],
}

fn cut_twice(chains: &mut Chains<&'static str>) -> Result<Cuts, AllocError> {
    let id = worked(chains)?;
    let before = seen(chains, id);
    let at_6 = cut_at(chains, id, 6);
    let between = seen(chains, id);
    let at_8 = cut_at(chains, id, 8);
    let after = seen(chains, id);
    Ok(Cuts {
        before,
        at_6,
        between,
        at_8,
        after,
    })
}

fn worked_cuts(alloc: Global) -> Result<Cuts, AllocError> {
    let mut chains = Chains::new(alloc);
    let cuts = cut_twice(&mut chains);
    drop(chains);
    cuts
}

// A cut at 6 leaves 9, 7, 4, and one at 8 leaves 9.
#[test]
fn cut_of_worked_chain_leaves_what_its_horizon_needs(rt: HostRuntime) -> Result<(), Fail> {
    let cuts = worked_cuts(rt.alloc())?;
    assert_eq!(rt; cuts.before, [None, Some("x"), Some("y"), None, Some("x")]);
    assert_eq!(rt; cuts.at_6, 1);
    assert_eq!(rt; cuts.between, [None, None, Some("y"), None, Some("x")]);
    assert_eq!(rt; cuts.at_8, 2);
    assert_eq!(rt; cuts.after, [None, None, None, None, Some("x")]);
    Ok(())
}

// Opens a chain with that many versions.
fn long(chains: &mut Chains<u64>, length: u64) -> Result<ChainId, AllocError> {
    let id = chains.open()?;
    for stamp in 0..length {
        chains.reserve(1)?;
        add(chains, id, stamp);
    }
    Ok(id)
}

fn add(chains: &mut Chains<u64>, id: ChainId, stamp: u64) {
    if chains.is_open(id) && chains.spare() > 0 {
        match chains.newest(id) {
            None => chains.push_reserved(id, stamp, Some(stamp)),
            Some(newest) => {
                if newest < stamp {
                    chains.push_reserved(id, stamp, Some(stamp));
                }
            }
        }
    }
}

// Cuts one chain in the middle, reads its oldest value that is left, and closes the other.
fn cut_and_close(
    chains: &mut Chains<u64>,
    first: ChainId,
    second: ChainId,
) -> (usize, Option<u64>) {
    if !chains.is_open(first) {
        return (0, None);
    }
    let dropped = chains.cut(first, 499_999);
    let seen = chains.at(first, 499_999).copied();
    if chains.is_open(second) {
        chains.close(second);
    }
    (dropped, seen)
}

fn three_long_ones(chains: &mut Chains<u64>) -> Result<(usize, Option<u64>), AllocError> {
    let first = long(chains, 1_000_000)?;
    let second = long(chains, 1_000_000)?;
    long(chains, 1_000_000)?;
    Ok(cut_and_close(chains, first, second))
}

fn long_ones_in_new_chains(alloc: Global) -> Result<(usize, Option<u64>), AllocError> {
    let mut chains = Chains::new(alloc);
    let told = three_long_ones(&mut chains);
    drop(chains);
    told
}

#[test]
fn chain_of_a_million_versions_is_cut_read_closed_and_dropped(rt: HostRuntime) {
    assert!(rt; long_ones_in_new_chains(rt.alloc()) == Ok((499_999, Some(499_999))));
}
