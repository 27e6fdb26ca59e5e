//! LOCK, tried once more.
ghost use Rattle.std.specs.Prelude.{◌≡◌, IfOk, OnErr};
ghost use Rattle.session_calls.specs.Calls.{HasTriedAgain, IsAgain};

use crate::seat::Seat;
use embedded::Outcome;
use hub::{Busy, HubSession};
use lock_name::LockCommand;

// The same of the session that a seat has.
fn again(session: &mut HubSession, command: &LockCommand, had: &mut u64) -> Result<Outcome, Busy>
    ensures table { session.new.table ≡ session.old.table }
    ensures tried { IfOk result (λ outcome. HasTriedAgain command.now had.new outcome session.old.held session.new.held) }
    ensures busy { OnErr result ((session.new ≡ session.old) × (had.new ≡ 0)) }
{
    *had = 0;
    match session.lock_again(command) {
        Ok(Ok(true)) => {
            *had = 1;
            Ok(Outcome::Done)
        }
        Ok(Ok(false)) => Ok(Outcome::Done),
        Ok(Err(refusal)) => Ok(Outcome::Refused(refusal)),
        Err(Busy) => Err(Busy),
    }
}

/// Tries a LOCK once more that was tried in vain, and tells 1 where its names are had now. Where they aren't nothing is
/// done. The last reply stays.
///
/// Outcomes: as of `run`.
pub fn lock_again(seat: &mut Seat, command: LockCommand, had: &mut u64) -> Result<Outcome, Busy>
    ensures { IsAgain command had.new seat.old seat.new result }
{
    let Some(session) = &mut seat.session else {
        *had = 0;
        drop(command);
        return Ok(Outcome::NoEngine);
    };
    let tried = again(session, &command, had);
    drop(command);
    match tried {
        Ok(outcome) => Ok(outcome),
        Err(Busy) => Err(Busy),
    }
}
