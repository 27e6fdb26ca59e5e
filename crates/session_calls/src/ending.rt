//! HALT.
ghost use Rattle.session_calls.specs.Endings.{IsHalt};

use crate::seat::Seat;
use embedded::Outcome;
use hub::Busy;
use shared_engine::InnerPass;

/// HALT: the session is over, its locks are released and its transaction is gone; its job may have another. The seat has
/// none then. Gives the session's pass, whose last unit is that end.
///
/// Outcomes where it isn't over: `StampsUsedUp` where the journal is full, and then the session goes on; `NoEngine` where
/// there is none. `Busy` where others are at what all share. The last reply stays.
pub fn halt(seat: &mut Seat) -> Result<Result<InnerPass, Outcome>, Busy>
    ensures { IsHalt seat.old seat.new result }
{
    let Some(session) = seat.session.take() else {
        return Ok(Err(Outcome::NoEngine));
    };
    match session.halt() {
        Ok(Ok(pass)) => Ok(Ok(pass)),
        Ok(Err((back, refusal))) => {
            seat.session = Some(back);
            Ok(Err(Outcome::Refused(refusal)))
        }
        Err(back) => {
            seat.session = Some(back);
            Err(Busy)
        }
    }
}
