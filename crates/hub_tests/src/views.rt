//! Views and looks of a hub: the database of a moment, without a trace in the journal.
use crate::tries::{TURNS, begin, fill, is_done, key_of, number_of, opened, roll_back, transfers};
use collation::Text;
use globals::OrderedView;
use hub::{Hub, HubSession, HubShare};
use key_codec::Key;
use std::alloc::{AllocError, Global};
use std::sync::{Arc, Wait};
use std::test::*;
use std::thread;
use std::thread::Threads;

// How many views one thread begins beside those that write.
const VIEWS: u64 = 100;

// The keys of the accounts.
fn accounts(alloc: Global) -> Option<Vec<Key>> {
    let mut keys = Vec::with_capacity(alloc, 4).ok()?;
    for account in [
        "1 $GET(^A(1))",
        "1 $GET(^A(2))",
        "1 $GET(^A(3))",
        "1 $GET(^A(4))",
    ] {
        keys.push(key_of(alloc, account)?).ok()?;
    }
    Some(keys)
}

// The number that a value is, 0 where there is none.
pub(crate) fn number_at(found: Option<&Text>) -> u64 {
    match found {
        Some(value) => number_of(value.as_slice()),
        None => 0,
    }
}

// What these accounts have together at a moment.
fn sum_of(share: &HubShare, keys: &[Key]) -> u64 {
    let view = share.content();
    let mut sum = 0u64;
    for key in keys {
        sum = sum.wrapping_add(number_at(view.get(key)));
    }
    sum
}

// The moment of the open transaction's start.
fn started<R: Wait>(rt: &R, session: &mut HubSession) -> Option<HubShare> {
    let _ = rt;
    for _ in 0..TURNS {
        if session.tlevel() == 0 {
            return None;
        }
        if let Ok(share) = session.at_start() {
            return Some(share);
        }
        thread::yield_now();
    }
    None
}

// The present moment.
fn present<R: Wait>(rt: &R, session: &mut HubSession) -> Option<HubShare> {
    let _ = rt;
    for _ in 0..TURNS {
        if let Ok(share) = session.present() {
            return Some(share);
        }
        thread::yield_now();
    }
    None
}

// What these accounts have together in the view that is open.
fn viewed<R: Wait>(rt: &R, session: &mut HubSession, keys: &[Key]) -> Option<u64> {
    let share = started(rt, session)?;
    Some(sum_of(&share, keys))
}

// The same now.
fn now_there<R: Wait>(rt: &R, session: &mut HubSession, keys: &[Key]) -> Option<u64> {
    let share = present(rt, session)?;
    Some(sum_of(&share, keys))
}

// Views, each looked at three times while others write: whether each look finds the same sum.
fn views<R: Wait>(rt: &R, session: &mut HubSession, keys: &[Key]) -> Option<u64> {
    let mut right = 0u64;
    for _ in 0..VIEWS {
        if !begin(session) {
            return None;
        }
        let first = viewed(rt, session, keys)?;
        thread::yield_now();
        let second = viewed(rt, session, keys)?;
        right = right.wrapping_add((first == 4000 && second == 4000) as u64);
        if !roll_back(rt, session) {
            return None;
        }
    }
    Some(right)
}

// A job that looks: how many of its views were right.
fn viewer<R: Wait>(rt: &R, alloc: Global, hub: &Arc<Hub, Global>) -> Option<u64> {
    let keys = accounts(alloc)?;
    let mut session = opened(rt, alloc, hub, 5)?;
    views(rt, &mut session, keys.as_slice())
}

// A job that transfers.
fn writer<R: Wait>(rt: &R, alloc: Global, hub: &Arc<Hub, Global>, number: u64) -> Option<u64> {
    let mut session = opened(rt, alloc, hub, number)?;
    let next = number % 4 + 1;
    let from = format!(in alloc; "1 $INCREMENT(^A({number}),-1)").ok()?;
    let to = format!(in alloc; "1 $INCREMENT(^A({next}),1)").ok()?;
    transfers(rt, alloc, &mut session, from.as_str(), to.as_str())
}

// The thread of this number: the first looks, the others write.
fn one_of<R: Wait>(rt: &R, alloc: Global, hub: &Arc<Hub, Global>, number: u64) -> Option<u64> {
    if number == 0 {
        viewer(rt, alloc, hub)
    } else {
        writer(rt, alloc, hub, number)
    }
}

// Four threads. How many views were right; none where a call failed.
fn four_look<R: Threads + Wait + Sync>(
    rt: &R,
    alloc: Global,
    hub: &Arc<Hub, Global>,
) -> Option<u64> {
    let made = thread::map_indices(rt, alloc, 4, &|i| one_of(rt, alloc, hub, i as u64)).ok()?;
    let mut is_first = true;
    let mut right = 0u64;
    for one in made {
        let count = one?;
        if is_first {
            right = count;
        }
        is_first = false;
    }
    Some(right)
}

// The same, from a thousand in each account on.
fn looked_beside<R: Threads + Wait + Sync>(rt: &R, alloc: Global) -> Option<u64> {
    let hub = Hub::new(alloc).ok()?;
    let mut session = opened(rt, alloc, &hub, 9)?;
    if !fill(rt, alloc, &mut session) {
        return None;
    }
    four_look(rt, alloc, &hub)
}

#[test]
fn a_view_does_not_move_beside_writers(rt: HostRuntime) -> Result<(), Fail> {
    assert_eq!(rt; looked_beside(&rt, rt.alloc()), Some(100));
    Ok(())
}

// How many units there are.
fn units<R: Wait>(rt: &R, session: &mut HubSession) -> Option<u64> {
    let _ = rt;
    for _ in 0..TURNS {
        if let Ok(count) = session.units() {
            return Some(count);
        }
        thread::yield_now();
    }
    None
}

// A view that is open: what it shows of a node that another sets and that is tidied up then, before and after, and what
// the node has now.
fn unmoved<R: Wait>(
    rt: &R,
    alloc: Global,
    hub: &Hub,
    viewer: &mut HubSession,
    writer: &mut HubSession,
    keys: &[Key],
) -> Option<[u64; 3]> {
    let before = viewed(rt, viewer, keys)?;
    if !is_done(rt, alloc, writer, "1 SET ^A(1)=7") {
        return None;
    }
    let progress = hub.collect(100).ok()?.ok()?;
    let base = hub.checkpoint().ok()?.ok()?;
    if progress.visited == 0 || base != 4 {
        return None;
    }
    Some([
        before,
        viewed(rt, viewer, keys)?,
        now_there(rt, viewer, keys)?,
    ])
}

// The same, and how many units were written meanwhile, and what the next view shows.
fn view_by_view<R: Wait>(rt: &R, alloc: Global) -> Option<([u64; 3], u64, u64)> {
    let keys = accounts(alloc)?;
    let hub = Hub::new(alloc).ok()?;
    let mut viewer = opened(rt, alloc, &hub, 1)?;
    let mut writer = opened(rt, alloc, &hub, 2)?;
    if !fill(rt, alloc, &mut writer) || !begin(&mut viewer) {
        return None;
    }
    let told = unmoved(rt, alloc, &hub, &mut viewer, &mut writer, keys.as_slice())?;
    let count = units(rt, &mut viewer)?;
    if !roll_back(rt, &mut viewer) || !begin(&mut viewer) {
        return None;
    }
    Some((told, count, viewed(rt, &mut viewer, keys.as_slice())?))
}

#[test]
fn a_view_stays_whatever_is_set_collected_or_checkpointed(rt: HostRuntime) -> Result<(), Fail> {
    let told = view_by_view(&rt, rt.alloc());
    assert_eq!(rt; told, Some(([4000, 4000, 3007], 5, 3007)));
    Ok(())
}

// A share of the hub's own shows what is there now.
fn shared_sum<R: Wait>(rt: &R, alloc: Global) -> Option<u64> {
    let keys = accounts(alloc)?;
    let hub = Hub::new(alloc).ok()?;
    let mut session = opened(rt, alloc, &hub, 1)?;
    if !fill(rt, alloc, &mut session) {
        return None;
    }
    let share = hub.share()?;
    Some(sum_of(&share, keys.as_slice()))
}

#[test]
fn a_share_shows_what_is_there(rt: HostRuntime) -> Result<(), Fail> {
    assert_eq!(rt; shared_sum(&rt, rt.alloc()), Some(4000));
    Ok(())
}
