//! What C calls on sessions of many threads. Each of them is declared in `include/vorgushan_threads.h`, with its meaning
//! for a C programmer.
ghost use Rattle.std.specs.Prelude.{◌≡◌, ◌⊎◌, ⊤, None, IfErr, IfOk};
ghost use Rattle.session_calls.specs.Calls.{IsCall, IsNoCause};
ghost use Rattle.session_calls.specs.Endings.{IsCheckpointed, IsCollected};
ghost use Rattle.typed_calls.specs.Typed.{last_number, last_outcome};
ghost use Rattle.vorgushan_c.specs.Sessions as spec;
ghost use Rattle.vorgushan_c.specs.Sessions.{IsBegunAt, IsHaltCall, IsHubEnd, IsHubMade, IsNotBegun, IsOpenCall, IsSeatCalled, IsSeatPut, told_number};

use crate::seat_handle::VgSession;
use command::Command;
use embedded::Outcome;
use hub::Busy;
use lock_name::LockCommand;
use refusal::Refusal;
use session_calls::{Seat, checkpoint, collect, halt, run_numbered};
use std::alloc::Global;

/// The number of a call that others kept from being done. Nothing has changed, and it may be made again.
pub const BUSY: u32 = 43;

// The number that C gets.
pub(crate) fn number_of(answered: Result<Outcome, Busy>) -> u32
    ensures { result ≡ told_number answered }
{
    match answered {
        Ok(outcome) => outcome.number(),
        Err(Busy) => BUSY,
    }
}

/// Makes a database of many threads where none is, without a session.
///
/// `EngineThere` where one is; `OutOfMemory`: then none is there.
#[unsafe(no_mangle)]
pub extern "C" fn vorgushan_hub_new(alloc: Global, hub: &mut VgSession) -> u32
    ensures { IsHubMade hub.old.inside hub.new.inside result }
{
    if let Some(there) = hub.take(alloc) {
        hub.put(there);
        return Outcome::EngineThere.number();
    }
    match Seat::new(alloc) {
        Ok(seat) => put_made(alloc, hub, seat),
        Err(_) => Outcome::Refused(Refusal::OutOfMemory).number(),
    }
}

// Puts what was made where none is.
fn put_made(alloc: Global, session: &mut VgSession, seat: Seat) -> u32
    requires { session.old.inside ≡ None }
    ensures { IsSeatPut seat session.new.inside result }
{
    match Box::new(alloc, seat) {
        Ok(made) => {
            session.put(made);
            Outcome::Done.number()
        }
        Err(_) => Outcome::Refused(Refusal::OutOfMemory).number(),
    }
}

/// Ends a database without a session of its own: none is there. Its memory is given back once its sessions are over too.
///
/// `NoEngine` where none was; `EngineThere` for a session, which `vorgushan_s_halt` ends.
#[unsafe(no_mangle)]
pub extern "C" fn vorgushan_hub_end(alloc: Global, hub: &mut VgSession) -> u32
    ensures { IsHubEnd hub.old.inside hub.new.inside result }
{
    let Some(there) = hub.take(alloc) else {
        return Outcome::NoEngine.number();
    };
    if there.session.is_some() {
        hub.put(there);
        return Outcome::EngineThere.number();
    }
    drop(there);
    Outcome::Done.number()
}

// A seat of the same database in a box, without a session.
fn seat_beside(alloc: Global, hub: &Seat) -> Result<Box<Seat>, Refusal>
    ensures made { IfOk result (λ made. (made.value.hub.value ≡ hub.now.hub.value) × (made.value.session ≡ None)) }
    ensures refused { IfErr result (λ refusal. refusal ≡ Refusal.OutOfMemory) }
{
    let seat = hub.beside()?;
    match Box::new(alloc, seat) {
        Ok(made) => Ok(made),
        Err(_) => Err(Refusal::OutOfMemory),
    }
}

// Begins a session in a seat, and puts that where none is; where it is refused or others are at it, the seat is dropped.
fn put_begun(alloc: Global, session: &mut VgSession, mut seat: Box<Seat>, job: u64) -> u32
    requires none { session.old.inside ≡ None }
    requires empty { seat.value.session ≡ None }
    ensures { IsBegunAt job seat.value session.new.inside result ⊎ IsNotBegun job session.new.inside result }
{
    match seat.begin(alloc, job) {
        Ok(Ok(())) => {
            session.put(seat);
            Outcome::Done.number()
        }
        Ok(Err(refusal)) => Outcome::Refused(refusal).number(),
        Err(Busy) => BUSY,
    }
}

/// Begins a session of a job that has none where none is, in the database of another, or of none yet.
///
/// `EngineThere` where one is; `NoEngine` where the database isn't there; `BadJob` where the job has a session, or isn't
/// 1 to 4,096; `OutOfMemory`; `Busy`: then none is there.
#[unsafe(no_mangle)]
pub extern "C" fn vorgushan_open(
    alloc: Global,
    hub: &mut VgSession,
    session: &mut VgSession,
    job: u64,
) -> u32
    ensures opened { IsOpenCall job hub.old.inside session.old.inside session.new.inside result }
    ensures hub { hub.new.inside ≡ hub.old.inside }
{
    if let Some(there) = session.take(alloc) {
        session.put(there);
        return Outcome::EngineThere.number();
    }
    let Some(there) = hub.take(alloc) else {
        return Outcome::NoEngine.number();
    };
    let made = seat_beside(alloc, &there);
    hub.put(there);
    match made {
        Ok(seat) => put_begun(alloc, session, seat, job),
        Err(refusal) => Outcome::Refused(refusal).number(),
    }
}

/// HALT: ends a session; its transaction is dropped, and its names are released. Then none is there, and its memory is
/// given back, with that of the database where it was the last one.
///
/// Outcomes: as of `session_calls::halt`, and then it is there still.
#[unsafe(no_mangle)]
pub extern "C" fn vorgushan_s_halt(alloc: Global, session: &mut VgSession) -> u32
    ensures { IsHaltCall session.old.inside session.new.inside result }
{
    let Some(mut there) = session.take(alloc) else {
        return Outcome::NoEngine.number();
    };
    match halt(&mut there) {
        Ok(Ok(pass)) => {
            drop(pass);
            drop(there);
            Outcome::Done.number()
        }
        Ok(Err(outcome)) => {
            session.put(there);
            outcome.number()
        }
        Err(Busy) => {
            session.put(there);
            BUSY
        }
    }
}

/// TSTART, TCOMMIT, TROLLBACK, TRESTART, $TLEVEL, $TRESTART, LOCK without names (0 to 6, and any other is as 6), of a
/// session. Tells the reply's number: a level, how often the transaction was restarted, or 0.
///
/// Outcomes: as of `session_calls::run`; `NoEngine`, `Busy`, and nothing has changed.
#[unsafe(no_mangle)]
pub extern "C" fn vorgushan_s_act(
    alloc: Global,
    session: &mut VgSession,
    act: u32,
    number: &mut u64,
) -> u32
    ensures { IsSeatCalled session.old.inside session.new.inside result (number.new ≡ number.old) (λ before after answered.
        IsCall IsNoCause (spec.act_of act) (λ last outcome. (outcome ≡ last_outcome last) × (number.new ≡ last_number last)) (number.new ≡ 0) before after answered) }
{
    let Some(mut there) = session.take(alloc) else {
        return Outcome::NoEngine.number();
    };
    let answered = run_numbered(&mut there, act_of(act), number);
    session.put(there);
    number_of(answered)
}

// The command of this number.
fn act_of(act: u32) -> Command
    ensures { result ≡ spec.act_of act }
{
    match act {
        0 => Command::Start,
        1 => Command::Commit,
        2 => Command::Rollback,
        3 => Command::Restart,
        4 => Command::Level,
        5 => Command::Restarts,
        _ => Command::Lock(LockCommand::Release),
    }
}

/// Lets the collector look at so many nodes, from where it stopped. No reply depends on it.
///
/// Outcomes: as of `session_calls::collect`; `NoEngine`.
#[unsafe(no_mangle)]
pub extern "C" fn vorgushan_s_collect(alloc: Global, session: &mut VgSession, limit: usize) -> u32
    ensures { IsSeatCalled session.old.inside session.new.inside result ⊤ (λ before after answered. (after ≡ before) × IfOk answered (IsCollected limit)) }
{
    let Some(mut there) = session.take(alloc) else {
        return Outcome::NoEngine.number();
    };
    let answered = collect(&mut there, limit);
    session.put(there);
    number_of(answered)
}

/// Lets the journal drop its units up to the least start of an open transaction, or all where none is open.
///
/// Outcomes: as of `session_calls::checkpoint`; `NoEngine`.
#[unsafe(no_mangle)]
pub extern "C" fn vorgushan_s_checkpoint(alloc: Global, session: &mut VgSession) -> u32
    ensures { IsSeatCalled session.old.inside session.new.inside result ⊤ (λ before after answered. (after ≡ before) × IfOk answered IsCheckpointed) }
{
    let Some(mut there) = session.take(alloc) else {
        return Outcome::NoEngine.number();
    };
    let answered = checkpoint(&mut there);
    session.put(there);
    number_of(answered)
}
