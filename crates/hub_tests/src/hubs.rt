//! Sessions of a hub. No call of theirs waits: each is tried again here, in bounded turns.
use crate::tries::{
    TURNS, begin, commit, end, fill, is_done, key_of, line, number_in, opened, roll_back, transfers,
};
use command::DataCommand;
use hub::{Busy, Hub, HubSession};
use key_codec::Key;
use session_acts::data_of;
use shared_engine::{Ended, InnerPass};
use std::alloc::{AllocError, Global};
use std::sync::{Arc, Wait};
use std::test::*;
use std::thread;
use std::thread::Threads;

// A job's transfers, and its end: how many were done, and its pass.
fn teller<R: Wait>(
    rt: &R,
    alloc: Global,
    hub: &Arc<Hub, Global>,
    number: u64,
) -> Option<(u64, InnerPass)> {
    let mut session = opened(rt, alloc, hub, number)?;
    let next = number % 4 + 1;
    let from = format!(in alloc; "1 $INCREMENT(^A({number}),-1)").ok()?;
    let to = format!(in alloc; "1 $INCREMENT(^A({next}),1)").ok()?;
    let done = transfers(rt, alloc, &mut session, from.as_str(), to.as_str())?;
    let pass = end(rt, session)?;
    Some((done, pass))
}

// Four threads transfer. How many transfers were done; none where a call failed, or a pass hasn't a receipt for each.
fn four_transfer<R: Threads + Wait + Sync>(
    rt: &R,
    alloc: Global,
    hub: &Arc<Hub, Global>,
) -> Option<u64> {
    let made = thread::map_indices(rt, alloc, 4, &|i| teller(rt, alloc, hub, i as u64 + 1)).ok()?;
    let mut done = 0u64;
    for one in made {
        let (count, pass) = one?;
        if pass.numbers().len() as u64 != count {
            return None;
        }
        done = done.wrapping_add(count);
    }
    Some(done)
}

// What all accounts have together.
fn sum<R: Wait>(rt: &R, alloc: Global, session: &mut HubSession) -> Option<u64> {
    let mut all = 0u64;
    for account in [
        "1 $GET(^A(1))",
        "1 $GET(^A(2))",
        "1 $GET(^A(3))",
        "1 $GET(^A(4))",
    ] {
        all = all.wrapping_add(number_in(line(rt, alloc, session, account)?));
    }
    Some(all)
}

// Whether at least one transfer was done, and what all accounts have together at the end.
fn bank<R: Threads + Wait + Sync>(rt: &R, alloc: Global) -> Option<(bool, u64)> {
    let hub = Hub::new(alloc).ok()?;
    let mut session = opened(rt, alloc, &hub, 9)?;
    if !fill(rt, alloc, &mut session) {
        return None;
    }
    let done = four_transfer(rt, alloc, &hub)?;
    let all = sum(rt, alloc, &mut session)?;
    Some((done > 0, all))
}

#[test]
fn four_threads_transfer_and_the_sum_stays(rt: HostRuntime) -> Result<(), Fail> {
    assert_eq!(rt; bank(&rt, rt.alloc()), Some((true, 4000)));
    Ok(())
}

// Whether a SET outside a transaction comes back.
fn comes_back(alloc: Global, session: &mut HubSession) -> Option<bool> {
    let command = data_of(alloc, "1 SET ^A(1)=5")?;
    if session.tlevel() != 0 {
        drop(command);
        return None;
    }
    Some(session.lone(command).is_err())
}

// Whether a TCOMMIT is busy.
fn is_busy(session: &mut HubSession) -> Option<bool> {
    if session.tlevel() != 1 {
        return None;
    }
    Some(session.tcommit() == Err(Busy))
}

// While somebody shares what all share: whether a SET comes back, a transaction begins and reads, and its TCOMMIT is
// busy.
fn beside<R: Wait>(
    rt: &R,
    alloc: Global,
    hub: &Arc<Hub, Global>,
    session: &mut HubSession,
) -> Option<[bool; 4]> {
    let share = hub.share()?;
    let back = comes_back(alloc, session)?;
    let is_begun = begin(session);
    let is_read = is_done(rt, alloc, session, "1 $INCREMENT(^A(1),1)");
    let busy = is_busy(session)?;
    drop(share);
    Some([back, is_begun, is_read, busy])
}

// The same, and how the TCOMMIT ends once nobody shares, and what is read then.
fn beside_and_after<R: Wait>(rt: &R, alloc: Global) -> Option<([bool; 4], bool, u64)> {
    let hub = Hub::new(alloc).ok()?;
    let mut session = opened(rt, alloc, &hub, 1)?;
    let beside = beside(rt, alloc, &hub, &mut session)?;
    let is_committed = commit(rt, &mut session)? == Ended::Committed;
    let read = number_in(line(rt, alloc, &mut session, "1 $GET(^A(1))")?);
    Some((beside, is_committed, read))
}

#[test]
fn who_would_write_is_busy_while_another_shares(rt: HostRuntime) -> Result<(), Fail> {
    let told = beside_and_after(&rt, rt.alloc());
    assert_eq!(rt; told, Some(([true, true, true, true], true, 1)));
    Ok(())
}

// SET and KILL in a transaction, by keys of a line's command.
fn writes(alloc: Global, session: &mut HubSession) -> Option<bool> {
    let set = data_of(alloc, "1 SET ^A(1)=5")?;
    let kill = data_of(alloc, "1 KILL ^A(2)")?;
    if session.tlevel() == 0 {
        drop(set);
        drop(kill);
        return None;
    }
    let is_set = match set {
        DataCommand::Set(key, value) => session.set(key, value).is_ok(),
        other => {
            drop(other);
            false
        }
    };
    let is_killed = match kill {
        DataCommand::Kill(key, extent) => session.kill(key, extent).is_ok(),
        other => {
            drop(other);
            false
        }
    };
    Some(is_set && is_killed)
}

// Two levels, and back: the levels that are told.
fn levels(session: &mut HubSession) -> [u64; 3] {
    let mut told = [0, 0, 0];
    if session.tlevel() == 1 {
        told[0] = session.tstart_inner().unwrap_or(0);
    }
    told[1] = session.tlevel();
    if session.tlevel() == 2 {
        told[2] = session.tcommit_inner();
    }
    told
}

// A transaction that is given up, which took no LOCK: how deep it was, and is then.
fn given_up(session: &mut HubSession) -> [u64; 2] {
    let is_begun = begin(session);
    let deep = session.tlevel();
    if is_begun && deep == 1 && !session.took_lock() {
        session.rollback_free();
    }
    [deep, session.tlevel()]
}

// Each call of a session without a fault: its levels, what its TCOMMIT wrote, what was given up, its receipts.
fn works<R: Wait>(
    rt: &R,
    alloc: Global,
    session: &mut HubSession,
) -> Option<([u64; 3], [u64; 2], usize)> {
    let is_begun = begin(session);
    let levels = levels(session);
    let is_written = writes(alloc, session)?;
    if !is_begun || !is_written || commit(rt, session)? != Ended::Committed {
        return None;
    }
    let given_up = given_up(session);
    if !begin(session) || !roll_back(rt, session) || session.trestarts() != 0 {
        return None;
    }
    Some((levels, given_up, session.numbers().len()))
}

// The same, with its job's number, and those of its pass and how many units there are at its end.
fn each_call<R: Wait>(rt: &R, alloc: Global) -> Option<([u64; 3], [u64; 2], usize, [u64; 3])> {
    let hub = Hub::new(alloc).ok()?;
    let mut session = opened(rt, alloc, &hub, 3)?;
    let job = session.job().number() as u64;
    let (levels, given_up, receipts) = works(rt, alloc, &mut session)?;
    let pass = end(rt, session)?;
    Some((
        levels,
        given_up,
        receipts,
        [job, pass.job().number() as u64, pass.end()],
    ))
}

#[test]
fn each_call_of_a_session_does_its_part(rt: HostRuntime) -> Result<(), Fail> {
    let told = each_call(&rt, rt.alloc());
    assert_eq!(rt; told, Some(([2, 2, 1], [1, 0], 1, [3, 3, 2])));
    Ok(())
}

// Whether the transaction's own writes decide what a node has, or none where memory is refused.
fn is_own(session: &HubSession, key: &Key) -> Option<bool> {
    match session.own_get(key, &None) {
        Ok(Some(answer)) => {
            drop(answer);
            Some(true)
        }
        Ok(None) => Some(false),
        Err(_) => None,
    }
}

// TRESTART: how often the transaction has begun anew.
fn restart<R: Wait>(rt: &R, session: &mut HubSession) -> Option<u64> {
    let _ = rt;
    for _ in 0..TURNS {
        if session.tlevel() == 0 {
            return None;
        }
        if let Ok(done) = session.trestart() {
            return done.ok();
        }
        thread::yield_now();
    }
    None
}

// A node that a transaction has set is its own until the transaction begins anew.
fn own_until_anew<R: Wait>(
    rt: &R,
    alloc: Global,
    session: &mut HubSession,
    key: &Key,
) -> Option<([bool; 2], [u64; 3])> {
    if !begin(session) || !writes(alloc, session)? {
        return None;
    }
    let before = is_own(session, key)?;
    let restarts = restart(rt, session)?;
    let after = is_own(session, key)?;
    Some((
        [before, after],
        [restarts, session.trestarts(), session.tlevel()],
    ))
}

// The same, of a session of a hub of its own.
fn anew<R: Wait>(rt: &R, alloc: Global) -> Option<([bool; 2], [u64; 3])> {
    let key = key_of(alloc, "1 $GET(^A(1))")?;
    let hub = Hub::new(alloc).ok()?;
    let mut session = opened(rt, alloc, &hub, 1)?;
    own_until_anew(rt, alloc, &mut session, &key)
}

#[test]
fn a_transaction_begins_anew(rt: HostRuntime) -> Result<(), Fail> {
    assert_eq!(rt; anew(&rt, rt.alloc()), Some(([true, false], [1, 1, 1])));
    Ok(())
}
