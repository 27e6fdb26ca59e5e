//! A hold over several reads: who would write is busy meanwhile, and the session that holds reads on in its own moment.
use crate::tries::{TURNS, begin, fill, is_done, key_of, line, number_in, opened, roll_back};
use crate::views::number_at;
use globals::OrderedView;
use hub::{Hub, HubSession};
use key_codec::Key;
use session_acts::data_of;
use std::alloc::Global;
use std::sync::Wait;
use std::test::*;
use std::thread;

// Whether the session holds, once those who write are through.
fn held<R: Wait>(rt: &R, session: &mut HubSession) -> bool {
    let _ = rt;
    for _ in 0..TURNS {
        if session.hold().is_ok() {
            return true;
        }
        thread::yield_now();
    }
    false
}

// What the first account has by a command.
fn read<R: Wait>(rt: &R, alloc: Global, session: &mut HubSession) -> Option<u64> {
    Some(number_in(line(rt, alloc, session, "1 $GET(^A(1))")?))
}

// Whether a SET comes back.
fn is_kept_out(alloc: Global, session: &mut HubSession) -> Option<bool> {
    let command = data_of(alloc, "1 SET ^A(1)=6")?;
    if session.tlevel() != 0 {
        drop(command);
        return None;
    }
    Some(session.lone(command).is_err())
}

// What the first account has now and had at the transaction's start, by looks under a hold; 0 where there is none.
fn looks(session: &HubSession, key: &Key) -> [u64; 2] {
    let now = match session.held_present() {
        Some(view) => number_at(view.get(key)),
        None => 0,
    };
    if session.tlevel() == 0 {
        return [now, 0];
    }
    match session.held_start() {
        Some(view) => [now, number_at(view.get(key))],
        None => [now, 0],
    }
}

// A reader holds and reads; whether a writer is kept out meanwhile, and writes after the release; what the reader reads
// then.
fn beside<R: Wait>(
    rt: &R,
    alloc: Global,
    reader: &mut HubSession,
    writer: &mut HubSession,
) -> Option<([bool; 3], [u64; 2])> {
    let is_held = begin(reader) && held(rt, reader);
    let first = read(rt, alloc, reader)?;
    let is_out = is_kept_out(alloc, writer)?;
    reader.release();
    let is_set = is_done(rt, alloc, writer, "1 SET ^A(1)=7");
    let second = read(rt, alloc, reader)?;
    Some(([is_held, is_out, is_set], [first, second]))
}

// Looks without a hold, under one, and behind the end of the transaction, with which the hold ended.
fn looked<R: Wait>(rt: &R, session: &mut HubSession, key: &Key) -> Option<[[u64; 2]; 3]> {
    let before = looks(session, key);
    if !held(rt, session) {
        return None;
    }
    let under = looks(session, key);
    if !roll_back(rt, session) {
        return None;
    }
    Some([before, under, looks(session, key)])
}

// Both, of two sessions of a hub.
fn held_and_looked<R: Wait>(
    rt: &R,
    alloc: Global,
) -> Option<(([bool; 3], [u64; 2]), [[u64; 2]; 3])> {
    let key = key_of(alloc, "1 $GET(^A(1))")?;
    let hub = Hub::new(alloc).ok()?;
    let mut reader = opened(rt, alloc, &hub, 1)?;
    let mut writer = opened(rt, alloc, &hub, 2)?;
    if !fill(rt, alloc, &mut writer) {
        return None;
    }
    let told = beside(rt, alloc, &mut reader, &mut writer)?;
    Some((told, looked(rt, &mut reader, &key)?))
}

#[test]
fn who_holds_reads_on_and_keeps_writers_out(rt: HostRuntime) -> Result<(), Fail> {
    let told = held_and_looked(&rt, rt.alloc());
    assert_eq!(rt;
        told,
        Some((
            ([true, true, true], [1000, 1000]),
            [[0, 0], [7, 1000], [0, 0]]
        ))
    );
    Ok(())
}
