//! Calls of a session, each tried as often as needed, in bounded turns.
use collation::Job;
use command::{Answer, DataCommand, Look};
use hub::{Hub, HubSession};
use key_codec::Key;
use refusal::Refusal;
use session_acts::data_of;
use shared_engine::{Ended, InnerPass};
use std::alloc::Global;
use std::sync::{Arc, Wait};
use std::thread;

// How often a call is tried.
pub(crate) const TURNS: u64 = 1_000_000;

// How many transfers each thread makes.
const TRANSFERS: u64 = 200;

// One try to begin a session: none where others are at it.
fn tried(alloc: Global, hub: &Arc<Hub, Global>, job: Job) -> Option<Result<HubSession, Refusal>> {
    Hub::open(hub, alloc, job).ok()
}

// A session of the job of this number, or none.
pub(crate) fn opened<R: Wait>(
    rt: &R,
    alloc: Global,
    hub: &Arc<Hub, Global>,
    number: u64,
) -> Option<HubSession> {
    let _ = rt;
    let job = Job::new(number).ok()?;
    for _ in 0..TURNS {
        if let Some(done) = tried(alloc, hub, job) {
            return done.ok();
        }
        thread::yield_now();
    }
    None
}

// The number that these digits are.
pub(crate) fn number_of(digits: &[u8]) -> u64 {
    let mut number = 0u64;
    for byte in digits {
        number = number
            .wrapping_mul(10)
            .wrapping_add((*byte).wrapping_sub(b'0') as u64);
    }
    number
}

// The number that is answered, or 0.
pub(crate) fn number_in(answer: Answer) -> u64 {
    let number = match &answer {
        Answer::Value(text) => number_of(text.as_slice()),
        _ => 0,
    };
    drop(answer);
    number
}

// The key of a line's $GET.
pub(crate) fn key_of(alloc: Global, text: &str) -> Option<Key> {
    match data_of(alloc, text)? {
        DataCommand::Look(Look::Get(key, None)) => Some(key),
        other => {
            drop(other);
            None
        }
    }
}

// What a data command is answered, outside a transaction or in one, once it has been tried as often as needed.
fn answered<R: Wait>(rt: &R, session: &mut HubSession, command: DataCommand) -> Option<Answer> {
    let _ = rt;
    let mut command = command;
    for _ in 0..TURNS {
        let done = if session.tlevel() == 0 {
            session.lone(command)
        } else {
            session.read(command)
        };
        match done {
            Ok(done) => return done.ok(),
            Err(back) => command = back,
        }
        thread::yield_now();
    }
    drop(command);
    None
}

// What the data command of a line is answered.
pub(crate) fn line<R: Wait>(
    rt: &R,
    alloc: Global,
    session: &mut HubSession,
    text: &str,
) -> Option<Answer> {
    let command = data_of(alloc, text)?;
    answered(rt, session, command)
}

// Whether it is done.
pub(crate) fn is_done<R: Wait>(
    rt: &R,
    alloc: Global,
    session: &mut HubSession,
    text: &str,
) -> bool {
    line(rt, alloc, session, text).is_some()
}

// TCOMMIT: how it ended, or none where it is refused.
pub(crate) fn commit<R: Wait>(rt: &R, session: &mut HubSession) -> Option<Ended> {
    let _ = rt;
    for _ in 0..TURNS {
        if session.tlevel() != 1 {
            return None;
        }
        if let Ok(done) = session.tcommit() {
            return done.ok();
        }
        thread::yield_now();
    }
    None
}

// TROLLBACK.
pub(crate) fn roll_back<R: Wait>(rt: &R, session: &mut HubSession) -> bool {
    let _ = rt;
    for _ in 0..TURNS {
        if session.tlevel() == 0 {
            return false;
        }
        if let Ok(done) = session.trollback() {
            return done.is_ok();
        }
        thread::yield_now();
    }
    false
}

// TSTART.
pub(crate) fn begin(session: &mut HubSession) -> bool {
    for _ in 0..TURNS {
        if session.tlevel() != 0 {
            return false;
        }
        if session.tstart().is_ok() {
            return true;
        }
    }
    false
}

// The pass of a session that ends.
pub(crate) fn end<R: Wait>(rt: &R, session: HubSession) -> Option<InnerPass> {
    let _ = rt;
    let mut session = session;
    for _ in 0..TURNS {
        match session.halt() {
            Ok(done) => return done.ok(),
            Err(back) => session = back,
        }
        thread::yield_now();
    }
    drop(session);
    None
}

// One transfer between two accounts in an open transaction: whether it was done.
fn moves<R: Wait>(
    rt: &R,
    alloc: Global,
    session: &mut HubSession,
    from: &str,
    to: &str,
) -> Option<bool> {
    if !is_done(rt, alloc, session, from) || !is_done(rt, alloc, session, to) {
        return None;
    }
    match commit(rt, session)? {
        Ended::Committed => Some(true),
        Ended::Restarted(_) => {
            if roll_back(rt, session) {
                Some(false)
            } else {
                None
            }
        }
    }
}

// Transfers from one account to another. How many were done, or none where a call failed.
pub(crate) fn transfers<R: Wait>(
    rt: &R,
    alloc: Global,
    session: &mut HubSession,
    from: &str,
    to: &str,
) -> Option<u64> {
    let mut done = 0u64;
    for _ in 0..TRANSFERS {
        if !begin(session) {
            return None;
        }
        done = done.wrapping_add(moves(rt, alloc, session, from, to)? as u64);
    }
    Some(done)
}

// The accounts begin with a thousand each.
pub(crate) fn fill<R: Wait>(rt: &R, alloc: Global, session: &mut HubSession) -> bool {
    is_done(rt, alloc, session, "1 SET ^A(1)=1000")
        && is_done(rt, alloc, session, "1 SET ^A(2)=1000")
        && is_done(rt, alloc, session, "1 SET ^A(3)=1000")
        && is_done(rt, alloc, session, "1 SET ^A(4)=1000")
}
