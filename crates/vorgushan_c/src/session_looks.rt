//! What C calls to look at the database of a moment, without a command of a session. Each of them is declared in
//! `include/vorgushan_threads.h`, with its meaning for a C programmer.
ghost use Rattle.std.specs.Prelude.{◌≡◌, ⊤};
ghost use Rattle.collation.specs.Answers.{data_of};
ghost use Rattle.embedded.specs.Looks.{IsLook as IsValueLook};
ghost use Rattle.session_calls.specs.Looks.{IsHold, IsRelease, IsLook, IsOrderLook, IsQueryLook, IsWalk};
ghost use Rattle.vorgushan_c.specs.Keys as keys;
ghost use Rattle.vorgushan_c.specs.Keys.{IsMoved};
ghost use Rattle.vorgushan_c.specs.Sessions.{IsSeatCalled, IsSeatKeyCalled};

use crate::key_handle::VgKey;
use crate::seat_handle::VgSession;
use crate::sessions::number_of;
use crate::typed::direction_of;
use embedded::Outcome;
use session_calls::{hold, look, look_data, look_order, look_query, release, walk};
use std::alloc::Global;

/// Holds the database for a session's next reads: commands that read in a transaction, and looks.
///
/// Outcomes: as of `session_calls::hold`; `NoEngine`.
#[unsafe(no_mangle)]
pub extern "C" fn vorgushan_s_hold(alloc: Global, session: &mut VgSession) -> u32
    ensures { IsSeatCalled session.old.inside session.new.inside result ⊤ (λ before after answered. IsHold before after answered) }
{
    let Some(mut there) = session.take(alloc) else {
        return Outcome::NoEngine.number();
    };
    let answered = hold(&mut there);
    session.put(there);
    number_of(answered)
}

/// Ends a hold, where a session has one. Never busy.
///
/// Outcomes: as of `session_calls::release`; `NoEngine`.
#[unsafe(no_mangle)]
pub extern "C" fn vorgushan_s_release(alloc: Global, session: &mut VgSession) -> u32
    ensures { IsSeatCalled session.old.inside session.new.inside result ⊤ (λ before after answered. IsRelease before after answered) }
{
    let Some(mut there) = session.take(alloc) else {
        return Outcome::NoEngine.number();
    };
    let outcome = release(&mut there);
    session.put(there);
    outcome.number()
}

/// Copies the value that a key's reference has now, or where `at_start` isn't 0 had when the session's transaction began,
/// and tells how long it is.
///
/// Outcomes: as of `session_calls::look`; `NoEngine`, `NoKey`.
#[unsafe(no_mangle)]
pub extern "C" fn vorgushan_s_look(
    alloc: Global,
    session: &mut VgSession,
    at_start: u32,
    key: &mut VgKey,
    value: &mut [u8],
    wanted: &mut usize,
) -> u32
    ensures called { IsSeatKeyCalled session.old.inside session.new.inside key.old.inside result ((value.new ≡ value.old) × (wanted.new ≡ wanted.old)) (λ reference before after answered.
        IsLook (keys.is_not_0 at_start) (λ m outcome. IsValueLook m reference outcome value.old value.new wanted.new) ((value.new ≡ value.old) × (wanted.new ≡ 0)) before after answered) }
    ensures key { key.new.inside ≡ key.old.inside }
{
    let Some(mut there) = session.take(alloc) else {
        return Outcome::NoEngine.number();
    };
    let Some(at) = key.take(alloc) else {
        session.put(there);
        return Outcome::NoKey.number();
    };
    let answered = look(&mut there, at_start != 0, &at, value, wanted);
    key.put(at);
    session.put(there);
    number_of(answered)
}

/// Tells 1 where a key's reference has a value now, or had when the transaction began, and 10 more where a descendant has
/// one.
///
/// Outcomes: as of `session_calls::look_data`; `NoEngine`, `NoKey`.
#[unsafe(no_mangle)]
pub extern "C" fn vorgushan_s_look_data(
    alloc: Global,
    session: &mut VgSession,
    at_start: u32,
    key: &mut VgKey,
    number: &mut u64,
) -> u32
    ensures called { IsSeatKeyCalled session.old.inside session.new.inside key.old.inside result (number.new ≡ number.old) (λ reference before after answered.
        IsLook (keys.is_not_0 at_start) (λ m outcome. (number.new ≡ data_of reference m) × (outcome ≡ Outcome.Done)) (number.new ≡ 0) before after answered) }
    ensures key { key.new.inside ≡ key.old.inside }
{
    let Some(mut there) = session.take(alloc) else {
        return Outcome::NoEngine.number();
    };
    let Some(at) = key.take(alloc) else {
        session.put(there);
        return Outcome::NoKey.number();
    };
    let answered = look_data(&mut there, at_start != 0, &at, number);
    key.put(at);
    session.put(there);
    number_of(answered)
}

/// Copies the bytes of the subscript one level below a key that comes next to `start` now, or when the transaction began.
/// Backward where `backward` isn't 0.
///
/// Outcomes: as of `session_calls::look_order`; `NoEngine`, `NoKey`.
#[unsafe(no_mangle)]
pub extern "C" fn vorgushan_s_look_order(
    alloc: Global,
    session: &mut VgSession,
    at_start: u32,
    key: &mut VgKey,
    start: &[u8],
    backward: u32,
    subscript: &mut [u8],
    wanted: &mut usize,
) -> u32
    ensures called { IsSeatKeyCalled session.old.inside session.new.inside key.old.inside result ((subscript.new ≡ subscript.old) × (wanted.new ≡ wanted.old)) (λ reference before after answered.
        IsOrderLook (keys.is_not_0 at_start) reference start.now (keys.direction_of backward) subscript.old subscript.new wanted.new before after answered) }
    ensures key { key.new.inside ≡ key.old.inside }
{
    let Some(mut there) = session.take(alloc) else {
        return Outcome::NoEngine.number();
    };
    let Some(at) = key.take(alloc) else {
        session.put(there);
        return Outcome::NoKey.number();
    };
    let direction = direction_of(backward);
    let answered = look_order(
        &mut there,
        alloc,
        at_start != 0,
        &at,
        start,
        direction,
        subscript,
        wanted,
    );
    key.put(at);
    session.put(there);
    number_of(answered)
}

/// Moves a key to the nearest node with a value in the same name, now or when the transaction began, as
/// `vorgushan_s_query`.
///
/// Outcomes: as of `session_calls::look_query`; `NoEngine`, `NoKey`.
#[unsafe(no_mangle)]
pub extern "C" fn vorgushan_s_look_query(
    alloc: Global,
    session: &mut VgSession,
    at_start: u32,
    key: &mut VgKey,
    is_open: u32,
    backward: u32,
) -> u32
    ensures { IsSeatKeyCalled session.old.inside session.new.inside key.old.inside result (key.new.inside ≡ key.old.inside) (λ reference before after answered.
        IsMoved key.new.inside (λ found. IsQueryLook (keys.is_not_0 at_start) reference (keys.is_not_0 is_open) (keys.direction_of backward) found before after answered)) }
{
    let Some(mut there) = session.take(alloc) else {
        return Outcome::NoEngine.number();
    };
    let Some(mut at) = key.take(alloc) else {
        session.put(there);
        return Outcome::NoKey.number();
    };
    let direction = direction_of(backward);
    let answered = look_query(&mut there, at_start != 0, &mut at, is_open != 0, direction);
    key.put(at);
    session.put(there);
    number_of(answered)
}

/// Copies the next nodes of a walk over the database of now, or of when the transaction began, as `vorgushan_walk` does.
///
/// Outcomes: as of `session_calls::walk`; `NoEngine`.
#[unsafe(no_mangle)]
pub extern "C" fn vorgushan_s_walk(
    alloc: Global,
    session: &mut VgSession,
    at_start: u32,
    root: &mut VgKey,
    place: &mut VgKey,
    nodes: &mut [u8],
    wanted: &mut usize,
) -> u32
    ensures called { IsSeatCalled session.old.inside session.new.inside result ((nodes.new ≡ nodes.old) × (wanted.new ≡ wanted.old) × (place.new.inside ≡ place.old.inside)) (λ before after answered.
        IsWalk (keys.is_not_0 at_start) root.old.inside place.old.inside place.new.inside before after answered nodes.old nodes.new wanted.new) }
    ensures root { root.new.inside ≡ root.old.inside }
{
    let Some(mut there) = session.take(alloc) else {
        return Outcome::NoEngine.number();
    };
    let within = root.take(alloc);
    let mut behind = place.take(alloc);
    let answered = walk(
        &mut there,
        alloc,
        at_start != 0,
        &within,
        &mut behind,
        nodes,
        wanted,
    );
    root.put_back(within);
    place.put_back(behind);
    session.put(there);
    number_of(answered)
}
