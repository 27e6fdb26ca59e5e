//! What C keeps of a session.
ghost use Rattle.std.specs.Prelude.{◌≡◌, Option, Some, None};
ghost use Rattle.std.specs.Option.{MatchOption};
ghost use Rattle.std.specs.Coded.{coded_option};
ghost use Rattle.session_calls.specs.declared.seat.Seat.{Seat};
ghost use Rattle.session_calls.specs.contracts.seat.Seat.{the_row};

use crate::loose::Loose;
use session_calls::Seat;
use std::alloc::Global;
use std::marker::Model;
use std::mem;
use std::ptr::null_mut;

/// A session in memory of C's, which sets it to zero before the first call: then there is none. One pointer large.
#[repr(C)]
#[derive(Drop)]
pub struct VgSession {
    at: *mut u8,
    alloc: Global,
    pub ghost inside: { Option Seat } by { coded_option the_row.coded },
}

impl Model for VgSession {
    ghost use Rattle.session_calls.specs.contracts.seat.Seat.{the_row};
    ghost use Rattle.vorgushan_c.specs.Held.{held};

    ghost also_owns = { λ s. held the_row s.alloc s.at s.inside };
}

// C may move it to another thread, one call at a time.
unsafe impl Send for VgSession {}

impl VgSession {
    fn none(alloc: Global) -> VgSession
        ensures { result.inside ≡ None }
    {
        VgSession {
            at: null_mut(),
            alloc,
        }
    }

    fn of(loose: Loose<Seat, Global>) -> VgSession
        ensures { result.inside ≡ Some loose.value }
    {
        let Loose { at, alloc } = loose;
        VgSession {
            at: at as *mut u8,
            alloc,
        }
    }

    fn into_loose(self) -> Option<Loose<Seat, Global>>
        ensures { MatchOption result (self.inside ≡ None) (λ loose. self.inside ≡ Some loose.value) }
    {
        let VgSession { at, alloc } = self;
        if at.is_null() {
            None
        } else {
            Some(Loose {
                at: at as *mut Seat,
                alloc,
            })
        }
    }

    // Takes the session out, where one is there.
    pub(crate) fn take(&mut self, alloc: Global) -> Option<Box<Seat>>
        ensures taken { MatchOption result (self.old.inside ≡ None) (λ b. self.old.inside ≡ Some b.value) }
        ensures left { self.new.inside ≡ None }
    {
        match mem::replace(self, VgSession::none(alloc)).into_loose() {
            Some(loose) => Some(loose.into_box()),
            None => None,
        }
    }

    // Puts a session where none is.
    pub(crate) fn put(&mut self, seat: Box<Seat>)
        requires { self.old.inside ≡ None }
        ensures { self.new.inside ≡ Some seat.value }
    {
        *self = VgSession::of(Loose::of(seat));
    }
}
