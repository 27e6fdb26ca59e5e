//! The seats of jobs that have no session.
ghost use Rattle.std.specs.Prelude.{◌≡◌, ◌≢◌, ◌⊎◌, ◌<◌, ◌≤◌, ◌+◌, ◌-◌, [], true, false, length, IsOk, IfOk, IfErr, IfNone, IfSome, OnOk, OnErr};
ghost use Rattle.refusal.specs.declared.Refusal.{Refusal};
ghost use Rattle.pin_board.specs.Views.{dealing};
ghost use Rattle.shared_engine.specs.Engines.{AreInPlace, has_session, SessionIs, SameSessions, sessions_in};

use collation::Job;
use pin_board::{Board, FreeSeat, Lifted, Pin};
use refusal::Refusal;
use std::alloc::{AllocError, Global};
use std::marker::Model;

/// The seats of the jobs up to the greatest that ever had a session, each at its job's place. One that is lent to a
/// session isn't there. Whose board they are of, who holds them knows (`IsLocked`).
#[derive(Drop)]
pub(crate) struct Seats {
    places: Vec<Option<FreeSeat>>,
}

impl Model for Seats {
    ghost use Rattle.std.specs.Prelude.{List, Option};
    ghost use Rattle.pin_board.specs.Named.{FreeAt};
    ghost use Rattle.shared_engine.specs.Codes.{seats_code};

    ghost Value = { List (Option FreeAt) };

    ghost coded = { seats_code };

    ghost view = { λ s. s.places.items };
}

impl Seats {
    /// No job ever had a session. Takes no memory.
    pub(crate) fn new(alloc: Global) -> Seats
        ensures { result ≡ [] }
    {
        Seats {
            places: Vec::new(alloc),
        }
    }

    // Deals seats until there is one at this place.
    //
    // `AllocError` where memory is refused; the seats dealt before stay.
    fn reach(&mut self, board: &Board, desk: &mut Lifted, place: usize) -> Result<(), AllocError>
        requires own { (desk.old.table ≡ board.now.table) × AreInPlace board.now.table self.old }
        requires dealt { length self.old ≡ desk.old.knows.dealt }
        requires seats { (place < 4096) × (desk.old.knows.seats ≡ 4096) }
        ensures own { (desk.new.table ≡ desk.old.table) × AreInPlace board.now.table self.new }
        ensures dealt { (length self.new ≡ desk.new.knows.dealt) × (desk.new.knows ≡ dealing desk.old.knows desk.new.knows.dealt) }
        ensures same { SameSessions self.old self.new }
        ensures as_many { sessions_in self.new ≡ sessions_in self.old }
        ensures reached { OnOk result (place < length self.new) }
        ensures known { place < length self.old → IsOk result }
    {
        'deal: while self.places.len() <= place {
            self.places.reserve(1)?;
            let pin = board.deal(desk);
            self.places.push_reserved(Some(pin.set_down()));
        }
        Ok(())
    }

    // Takes out the job's seat. A job that has none gets one dealt, and so do those before it.
    //
    // Refusals, after which the same jobs have sessions: `BadJob` where the job has one; `OutOfMemory`.
    fn take_out(&mut self, board: &Board, desk: &mut Lifted, job: Job) -> Result<FreeSeat, Refusal>
        requires own { (desk.old.table ≡ board.now.table) × AreInPlace board.now.table self.old }
        requires dealt { (length self.old ≡ desk.old.knows.dealt) × (desk.old.knows.seats ≡ 4096) }
        ensures own { (desk.new.table ≡ desk.old.table) × AreInPlace board.now.table self.new }
        ensures table { IfOk result (λ seat. seat.table ≡ board.now.table) }
        ensures place { IfOk result (λ seat. seat.place + 1 ≡ job) }
        ensures lent { OnOk result (SessionIs true job self.old self.new) }
        ensures free { OnOk result (has_session self.old job ≡ false) }
        ensures dealt { (length self.new ≡ desk.new.knows.dealt) × (desk.new.knows ≡ dealing desk.old.knows desk.new.knows.dealt) }
        ensures refused { OnErr result (SameSessions self.old self.new) }
        ensures one_more { OnOk result (sessions_in self.new ≡ sessions_in self.old + 1) }
        ensures as_many { OnErr result (sessions_in self.new ≡ sessions_in self.old) }
        ensures cause { IfErr result (λ refusal. ((refusal ≡ Refusal.BadJob) × (has_session self.old job ≡ true)) ⊎ ((refusal ≡ Refusal.OutOfMemory) × (has_session self.old job ≡ false))) }
    {
        let place = job.number() as usize - 1;
        self.reach(board, desk, place)?;
        let Some(seat) = self.places[place].take() else {
            return Err(Refusal::BadJob);
        };
        Ok(seat)
    }

    /// Lends the job's seat to its session. A job that has none gets one dealt, and so do those before it. None where
    /// somebody has the seat.
    ///
    /// Refusals, after which the same jobs have sessions: `BadJob` where the job has one; `OutOfMemory`.
    pub(crate) fn lend(
        &mut self,
        board: &Board,
        desk: &mut Lifted,
        job: Job,
    ) -> Result<Pin, Option<Refusal>>
        requires own { (desk.old.table ≡ board.now.table) × AreInPlace board.now.table self.old }
        requires dealt { (length self.old ≡ desk.old.knows.dealt) × (desk.old.knows.seats ≡ 4096) }
        ensures own { (desk.new.table ≡ desk.old.table) × AreInPlace board.now.table self.new }
        ensures table { IfOk result (λ pin. pin.table ≡ board.now.table) }
        ensures pin { IfOk result (λ pin. (pin.knows.place + 1 ≡ job) × ((pin.knows.settled ≡ false) × ((pin.knows.slips ≡ 0) × (pin.knows.mine ≡ [])))) }
        ensures lent { OnOk result (SessionIs true job self.old self.new) }
        ensures free { OnOk result (has_session self.old job ≡ false) }
        ensures dealt { (length self.new ≡ desk.new.knows.dealt) × (desk.new.knows ≡ dealing desk.old.knows desk.new.knows.dealt) }
        ensures refused { OnErr result (SameSessions self.old self.new) }
        ensures one_more { OnOk result (sessions_in self.new ≡ sessions_in self.old + 1) }
        ensures as_many { OnErr result (sessions_in self.new ≡ sessions_in self.old) }
        ensures cause { IfErr result (λ why. IfSome why (λ refusal. ((refusal ≡ Refusal.BadJob) × (has_session self.old job ≡ true)) ⊎ ((refusal ≡ Refusal.OutOfMemory) × (has_session self.old job ≡ false)))) }
        ensures taken { IfErr result (λ why. IfNone why (has_session self.old job ≡ false)) }
    {
        let at = job.number() as usize - 1;
        let seat = match self.take_out(board, desk, job) {
            Ok(seat) => seat,
            Err(refusal) => return Err(Some(refusal)),
        };
        match seat.try_take_up() {
            Ok(pin) => Ok(pin),
            Err(seat) => {
                self.put_back(board, at, seat);
                Err(None)
            }
        }
    }

    /// Shows that a job whose session goes on has one, where it answers so: no free seat is at the place of its seat.
    /// Takes no memory.
    pub(crate) fn show_lent(&self, board: &Board, pin: &mut Pin) -> bool
        requires own { (pin.old.table ≡ board.now.table) × AreInPlace board.now.table self.now }
        ensures same { pin.new ≡ pin.old }
        ensures lent { result ≡ true → has_session self.now (pin.old.knows.place + 1) ≡ true }
    {
        let place = pin.place();
        if place >= self.places.len() {
            return false;
        }
        match &self.places[place] {
            Some(seat) => board.try_part(pin, seat),
            None => true,
        }
    }

    // Puts a seat back at its place. Takes no memory.
    fn put_back(&mut self, board: &Board, place: usize, seat: FreeSeat)
        requires own { (seat.table ≡ board.now.table) × AreInPlace board.now.table self.old }
        requires place { (seat.place ≡ place) × (place < length self.old) }
        requires lent { has_session self.old (place + 1) ≡ true }
        ensures own { AreInPlace board.now.table self.new }
        ensures back { SessionIs false (place + 1) self.old self.new }
        ensures long { length self.new ≡ length self.old }
        ensures one_fewer { sessions_in self.new + 1 ≡ sessions_in self.old }
    {
        let _ = board;
        self.places[place] = Some(seat);
    }

    /// Takes back the seat of a job whose session has ended. Takes no memory.
    pub(crate) fn take_back(&mut self, board: &Board, pin: Pin)
        requires own { (pin.table ≡ board.now.table) × AreInPlace board.now.table self.old }
        requires place { pin.knows.place < length self.old }
        requires lent { has_session self.old (pin.knows.place + 1) ≡ true }
        requires ended { (pin.knows.settled ≡ false) × ((pin.knows.slips ≡ 0) × (pin.knows.mine ≡ [])) }
        ensures own { AreInPlace board.now.table self.new }
        ensures back { SessionIs false (pin.knows.place + 1) self.old self.new }
        ensures long { length self.new ≡ length self.old }
        ensures one_fewer { sessions_in self.new + 1 ≡ sessions_in self.old }
    {
        let place = pin.place();
        self.put_back(board, place, pin.set_down());
    }
}
