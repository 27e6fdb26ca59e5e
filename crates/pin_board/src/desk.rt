//! The desk: at rest on its perch, and in the hands of one caller.
ghost use Rattle.std.specs.Prelude.{◌≡◌, [], IfSome};
ghost use Rattle.pin_board.specs.Tally.{tallied};
ghost use Rattle.pin_board.specs.Named.{tally_at};

use crate::board::Tally;
use crate::view::SeatView;
use crate::words::Place;
use atomic_table::Perch;
use journal::Receipt;
use std::hint::spin_loop;
use std::marker::Model;
use std::sync::Wait;
use std::thread;

/// The one seat that knows the journal and the greatest horizon, at rest. It lies under a lock, and readers that share
/// the lock may lift it in turn. What it is seen as doesn't say whether somebody has it.
#[derive(Drop)]
pub struct Desk {
    pub(crate) perch: Perch<Receipt, SeatView>,
    pub(crate) dealt: usize,
}

impl Model for Desk {
    ghost use Rattle.std.specs.Prelude.{◌≡◌, ◌+◌, ◌*◌, ◌≤◌};
    ghost use Rattle.pin_board.specs.Named.{DeskAt, desk_at};
    ghost use Rattle.pin_board.specs.Views.{desk_only, desk_in};

    ghost Value = { DeskAt };

    ghost view = { λ d. desk_at d.perch.table_id (desk_in d.perch.view) };

    ghost invariant = { λ d. (d.perch.view ≡ desk_only (desk_in d.perch.view)) × (d.dealt ≡ (desk_in d.perch.view).dealt) × (d.dealt ≤ (desk_in d.perch.view).seats) × ((desk_in d.perch.view).seats * 8 + 8 ≡ d.perch.table_id.words) };
}

/// The desk while one caller has it. A value of this type can't be dropped: who has one owes a `Desk::set_down`, a
/// `Desk::give_back` or an `into_tally` at each exit. Were it not given back, nobody could write or read any more.
pub struct Lifted {
    pub(crate) seat: Option<Place>,
    pub(crate) dealt: usize,
}

impl Model for Lifted {
    ghost use Rattle.std.specs.Prelude.{◌≡◌, ◌+◌, ◌*◌, ◌≤◌};
    ghost use Rattle.pin_board.specs.Named.{DeskAt, desk_at, no_desk, seen_by, IsThere};
    ghost use Rattle.pin_board.specs.Views.{IsDesk, desk_in};

    ghost Value = { DeskAt };

    ghost view = { λ d. seen_by no_desk (λ s. desk_at s.table_id (desk_in s.me.0)) d.seat };

    ghost invariant = { λ d. IsThere (λ s. IsDesk s.me × (d.dealt ≡ (desk_in s.me.0).dealt) × (d.dealt ≤ (desk_in s.me.0).seats) × ((desk_in s.me.0).seats * 8 + 8 ≡ s.table_id.words)) d.seat };
}

// How often a call that doesn't wait looks at the perch.
const TRIES: u32 = 256;

// The seat rests on a perch of its own.
pub(crate) fn perched(seat: Place) -> Perch<Receipt, SeatView>
    requires { seat.me ≡ (seat.me.0, []) }
    ensures { (result.table_id ≡ seat.table_id) × (result.view ≡ seat.me.0) }
{
    let perch = Perch::new(&seat, 0);
    let _ = perch.give(seat, 0, 2);
    perch
}

// Takes the seat that rests on the perch, and waits while a reader has it.
pub(crate) fn lift<R: Wait>(rt: &R, perch: &Perch<Receipt, SeatView>) -> Place
    ensures { (result.table_id ≡ perch.now.table_id) × (result.me ≡ (perch.now.view, [])) }
{
    for _ in rt.forever() {
        // Readers that share the lock take and give back the same seat, whose view none of them changes.
        if let (_, Some(seat)) = perch.take(1) {
            return seat;
        }
        thread::yield_now();
    }
    unreachable!()
}

// The same, unless readers have it at each of so many looks.
pub(crate) fn try_lift(perch: &Perch<Receipt, SeatView>) -> Option<Place>
    ensures { IfSome result (λ s. (s.table_id ≡ perch.now.table_id) × (s.me ≡ (perch.now.view, []))) }
{
    for _ in 0..TRIES {
        if let (_, Some(seat)) = perch.take(1) {
            return Some(seat);
        }
        spin_loop();
    }
    None
}

impl Desk {
    /// Lifts the desk, and waits while a reader has it.
    pub fn lift<R: Wait>(&self, rt: &R) -> Lifted
        ensures { result ≡ self.now }
    {
        let seat = Some(lift(rt, &self.perch));
        let dealt = self.dealt;
        Lifted { seat, dealt }
    }

    /// Lifts the desk, unless readers have it at each of 256 looks. It never waits.
    pub fn try_lift(&self) -> Option<Lifted>
        ensures { IfSome result (λ d. d ≡ self.now) }
    {
        match try_lift(&self.perch) {
            Some(seat) => Some(Lifted {
                seat: Some(seat),
                dealt: self.dealt,
            }),
            None => None,
        }
    }

    /// Sets a desk down, whatever it has learned. Takes no memory.
    pub fn set_down(&mut self, desk: Lifted)
        ensures { self.new ≡ desk }
    {
        let Lifted { seat, dealt } = desk;
        let Some(seat) = seat else { unreachable!() };
        self.perch = perched(seat);
        self.dealt = dealt;
    }

    /// Gives a desk back that has learned nothing, for the next reader. Takes no memory.
    pub fn give_back(&self, desk: Lifted)
        requires { desk ≡ self.now }
    {
        let Lifted { seat, dealt: _ } = desk;
        let Some(seat) = seat else { unreachable!() };
        let _ = self.perch.give(seat, 1, 2);
    }
}

impl Lifted {
    /// The desk once no more units are written.
    pub fn into_tally(self) -> Tally
        ensures { result ≡ tally_at self.table (tallied self.knows.log self.knows.given 0 [] []) }
    {
        let Lifted { seat, dealt: _ } = self;
        let Some(seat) = seat else { unreachable!() };
        Tally { seat }
    }
}
