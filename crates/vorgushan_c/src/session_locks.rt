//! What C calls for the names of a session of many threads. Each of them is declared in `include/vorgushan_threads.h`,
//! with its meaning for a C programmer.
ghost use Rattle.std.specs.Prelude.{◌≡◌};
ghost use Rattle.vorgushan_c.specs.Keys as keys_of;
ghost use Rattle.vorgushan_c.specs.SessionLocks.{IsSeatLocked, IsTry};
ghost use Rattle.vorgushan_c.specs.Sessions.{IsSeatCalled};
ghost use Rattle.vorgushan_c.specs.Several.{asked_keys, form_of as form_by, held_in};

use crate::seat_handle::VgSession;
use crate::sessions::number_of;
use crate::several::{VgWholeKey, form_of, names_of};
use command::Command;
use embedded::Outcome;
use hub::Busy;
use lock_name::LockName;
use refusal::Refusal;
use session_calls::{Seat, lock_again, run_numbered};
use std::alloc::Global;
use typed_calls::{LockForm, lock_names_command};

// Tries a LOCK of names, for the first time or once more.
fn tried(
    seat: &mut Seat,
    form: LockForm,
    is_again: bool,
    names: Vec<LockName>,
    had: &mut u64,
) -> Result<Outcome, Busy>
    ensures { IsTry form is_again names.items had.new seat.old seat.new result }
{
    let command = lock_names_command(form, names);
    if !is_again {
        return run_numbered(seat, command, had);
    }
    match command {
        Command::Lock(names) => lock_again(seat, names, had),
        _ => unreachable!(),
    }
}

// The same of the names of keys, where there are some and all of them are there.
fn tried_there(
    seat: &mut Seat,
    alloc: Global,
    form: LockForm,
    is_again: bool,
    keys: &mut [VgWholeKey],
    had: &mut u64,
) -> Result<Outcome, Busy>
    ensures keys { held_in keys.new ≡ held_in keys.old }
    ensures tried { IsSeatLocked form is_again (asked_keys (held_in keys.old)) had.new seat.old seat.new result }
{
    *had = 0;
    match names_of(alloc, keys) {
        Ok(Some(names)) => tried(seat, form, is_again, names, had),
        Ok(None) => Ok(Outcome::NoKey),
        Err(refusal) => Ok(Outcome::Refused(refusal)),
    }
}

/// Tries a LOCK of the names of keys, with their carets, at once: tells 1 where all of them were had, and 0 where another
/// job is in the way of one, and then none was. The form is 0 for LOCK, 1 for LOCK with +, and any other for LOCK with -.
/// Where `again` is 0 it is the first try, else one more after that was in vain, which does nothing where it is in vain
/// too.
///
/// Outcomes: as of `session_calls::run_numbered` and `session_calls::lock_again`; `NoEngine`, `NoKey` where no key is
/// given or one isn't there, and nothing has changed.
#[unsafe(no_mangle)]
pub extern "C" fn vorgushan_s_lock(
    alloc: Global,
    session: &mut VgSession,
    form: u32,
    again: u32,
    keys: &mut [VgWholeKey],
    had: &mut u64,
) -> u32
    ensures called { IsSeatCalled session.old.inside session.new.inside result (had.new ≡ had.old) (λ before after answered.
        IsSeatLocked (form_by form) (keys_of.is_not_0 again) (asked_keys (held_in keys.old)) had.new before after answered) }
    ensures keys { held_in keys.new ≡ held_in keys.old }
{
    let Some(mut there) = session.take(alloc) else {
        return Outcome::NoEngine.number();
    };
    let form = form_of(form);
    let answered = tried_there(&mut there, alloc, form, again != 0, keys, had);
    session.put(there);
    number_of(answered)
}
