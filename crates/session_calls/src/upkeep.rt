//! What keeps memory small, and what is in its way.
ghost use Rattle.std.specs.Prelude.{◌≡◌, Ok, IfOk, OnErr, OnOk};
ghost use Rattle.session_calls.specs.Endings.{IsCheckpointed, IsCollected, turn_outcome as turn_outcome_spec};
ghost use Rattle.session_calls.specs.Looks.{HasHeld, IsHold, IsRelease};

use crate::seat::Seat;
use embedded::Outcome;
use hub::{Busy, HubSession};

// A session holds what all share.
fn holds(session: &mut HubSession) -> Result<(), Busy>
    ensures table { session.new.table ≡ session.old.table }
    ensures held { OnOk result (HasHeld session.old.held session.new.held) }
    ensures busy { OnErr result (session.new ≡ session.old) }
{
    match session.hold() {
        Ok(()) => Ok(()),
        Err(Busy) => Err(Busy),
    }
}

/// Holds what all share for the session's next reads: commands that read in a transaction, and looks. They are quick then
/// and never busy, others read meanwhile, and who would write is busy. So it is held for a few of them, and never while
/// its owner waits for something. One that is held already stays so. The last reply stays.
///
/// It ends by `release`, and by each other call on the session but SET and KILL in a transaction, TSTART and TCOMMIT
/// within one, $TLEVEL and $TRESTART.
///
/// Outcomes: `Done`; `NoEngine` where the seat has no session. `Busy` while others write.
pub fn hold(seat: &mut Seat) -> Result<Outcome, Busy>
    ensures { IsHold seat.old seat.new result }
{
    let Some(session) = &mut seat.session else {
        return Ok(Outcome::NoEngine);
    };
    match holds(session) {
        Ok(()) => Ok(Outcome::Done),
        Err(Busy) => Err(Busy),
    }
}

/// Ends a hold, where the session has one. Never busy.
///
/// Outcomes: `Done`; `NoEngine` where the seat has no session.
pub fn release(seat: &mut Seat) -> Outcome
    ensures { IsRelease seat.old seat.new (Ok result) }
{
    match &mut seat.session {
        Some(session) => {
            session.release();
            Outcome::Done
        }
        None => Outcome::NoEngine,
    }
}

// What a turn of the collector is told as, by how many nodes it looked at.
fn turn_outcome(looked: usize) -> Outcome
    ensures { result ≡ turn_outcome_spec looked }
{
    match looked {
        0 => Outcome::AtEnd,
        _ => Outcome::Done,
    }
}

/// Lets the collector look at so many nodes, from where it stopped. No reply depends on it.
///
/// Outcomes: `Done`; `AtEnd` where it looked at none, as it does where the limit is 0; `OutOfMemory`. `Busy` while others
/// are at what all share.
pub fn collect(seat: &mut Seat, limit: usize) -> Result<Outcome, Busy>
    ensures done { IfOk result (IsCollected limit) }
    ensures same { seat.new ≡ seat.old }
{
    let _ = release(seat);
    match seat.hub.collect(limit) {
        Ok(Ok(progress)) => Ok(turn_outcome(progress.visited)),
        Ok(Err(refusal)) => Ok(Outcome::Refused(refusal)),
        Err(Busy) => Err(Busy),
    }
}

/// Lets the journal drop its units up to the least start of an open transaction, or all where none is open. No reply
/// depends on it.
///
/// Outcomes: `Done`; `OutOfMemory`. `Busy` while others are at what all share.
pub fn checkpoint(seat: &mut Seat) -> Result<Outcome, Busy>
    ensures done { IfOk result IsCheckpointed }
    ensures same { seat.new ≡ seat.old }
{
    let _ = release(seat);
    match seat.hub.checkpoint() {
        Ok(Ok(_base)) => Ok(Outcome::Done),
        Ok(Err(refusal)) => Ok(Outcome::Refused(refusal)),
        Err(Busy) => Err(Busy),
    }
}
