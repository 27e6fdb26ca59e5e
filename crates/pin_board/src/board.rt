//! The board and the seats of sessions, each tied to one table by a value of what it is seen as.
ghost use Rattle.std.specs.Prelude.{◌≡◌, ◌≢◌, ℕ, ◌+◌, ◌<◌, ◌≤◌, max, true, false, List, [], ◌∷◌, ◌++◌, length, take, IfOk, IfErr, OnErr, Option, Some, None};
ghost use Rattle.std.specs.List.{All};
ghost use Rattle.pin_board.specs.Slips.{AreInJournal, IsBeginning, AreAll, IsNext};
ghost use Rattle.pin_board.specs.Tally.{tallied, slipped};
ghost use Rattle.pin_board.specs.Named.{board_at, desk_at, slip_at};
ghost use Rattle.pin_board.specs.Views.{starting, new_desk, new_pin, dealt_one, start_of, least, logged, wrote, rebased, aware, settled_now, Met, gave, with_slip, without_slip, rested, idle};

use crate::desk::{Desk, Lifted, lift, perched, try_lift};
use crate::view::SeatView;
use crate::words::{Place, Words};
use atomic_table::Perch;
use journal::Receipt;
use std::alloc::{AllocError, Global};
use std::marker::Model;
use std::sync::Wait;

/// How many seats a board has, one for each job.
pub const SEATS: usize = 4096;

/// The floor was above the clock that was read.
#[derive(Clone, Copy, PartialEq, Eq, Debug, Drop)]
pub struct FloorAbove;

/// A board and its desk, which have no name yet.
#[derive(Drop)]
pub struct Blank {
    words: Words,
    seat: Place,
    pub ghost name: { seat.table_id ≡ words.table.shared.table_id },
    pub ghost new: { seat.me ≡ (starting words.seats, []) },
}

/// The words. It is seen as which table they are, and how many seats there may be.
#[derive(Drop)]
pub struct Board {
    words: Words,
}

impl Model for Board {
    ghost use Rattle.pin_board.specs.Named.{BoardAt, board_at};

    ghost Value = { BoardAt };

    ghost view = { λ b. board_at b.words.table.shared.table_id b.words.seats };
}

/// The seat of a session. Whether it is settled, and at which stamp it reads, is kept in it, and not read from its
/// slot.
#[derive(Drop)]
pub struct Pin {
    seat: Place,
    place: usize,
    start: Option<u64>,
}

impl Model for Pin {
    ghost use Rattle.std.specs.Prelude.{◌≡◌, ◌+◌, ◌*◌, ◌<◌};
    ghost use Rattle.pin_board.specs.Named.{PinAt, pin_at};
    ghost use Rattle.pin_board.specs.Views.{IsPin, pin_in, start_of};

    ghost Value = { PinAt };

    ghost view = { λ p. pin_at p.seat.table_id (pin_in p.seat.me.0) };

    ghost invariant = { λ p. IsPin p.seat.me × (p.place ≡ (pin_in p.seat.me.0).place) × (p.place * 8 + 8 < p.seat.table_id.words) × (p.start ≡ start_of (pin_in p.seat.me.0)) };
}

/// The seat of a job that has no session. It lies under the lock too. It is seen as its place.
#[derive(Drop)]
pub struct FreeSeat {
    perch: Perch<Receipt, SeatView>,
    place: usize,
}

impl Model for FreeSeat {
    ghost use Rattle.std.specs.Prelude.{◌≡◌, ◌+◌, ◌*◌, ◌<◌};
    ghost use Rattle.pin_board.specs.Named.{FreeAt, free_at};
    ghost use Rattle.pin_board.specs.Views.{IsFree};

    ghost Value = { FreeAt };

    ghost view = { λ s. free_at s.perch.table_id s.place };

    ghost invariant = { λ s. (s.place * 8 + 8 < s.perch.table_id.words) × IsFree s.place s.perch.view };
}

/// What a session wrote, once it has ended. It is seen as the list of its units, with their numbers, and the beginning
/// of the journal that it knew of last.
#[derive(Drop)]
pub struct Slip {
    seat: Place,
}

impl Model for Slip {
    ghost use Rattle.pin_board.specs.Named.{SlipAt, slip_at};
    ghost use Rattle.pin_board.specs.Tally.{slipped};
    ghost use Rattle.pin_board.specs.Views.{IsSlip};

    ghost Value = { SlipAt };

    ghost view = { λ s. slip_at s.seat.table_id (slipped s.seat.me.0.back s.seat.me.0.known) };

    ghost invariant = { λ s. IsSlip s.seat.me };
}

/// The desk at the end, to which slips are returned.
#[derive(Drop)]
pub struct Tally {
    pub(crate) seat: Place,
}

impl Model for Tally {
    ghost use Rattle.pin_board.specs.Named.{TallyAt, tally_at};
    ghost use Rattle.pin_board.specs.Tally.{tally_of};
    ghost use Rattle.pin_board.specs.Views.{IsTally};

    ghost Value = { TallyAt };

    ghost view = { λ t. tally_at t.seat.table_id (tally_of t.seat.me.0) };

    ghost invariant = { λ t. IsTally t.seat.me };
}

impl Blank {
    /// A board of this many seats, none of them dealt.
    ///
    /// At most 4,096. `AllocError` where memory is refused.
    pub fn new(alloc: Global, seats: usize) -> Result<Blank, AllocError>
        requires { seats ≤ 4096 }
        ensures { IfOk result (λ b. b.words.seats ≡ seats) }
    {
        let (words, seat) = Words::laid(alloc, seats)?;
        Ok(Blank { words, seat })
    }

    /// The board and its desk.
    pub fn open(self) -> (Board, Desk)
        ensures board { result.0 ≡ board_at self.words.table.shared.table_id self.words.seats }
        ensures desk { result.1 ≡ desk_at self.words.table.shared.table_id (new_desk self.words.seats) }
    {
        let Blank { words, seat } = self;
        (
            Board { words },
            Desk {
                perch: perched(seat),
                dealt: 0,
            },
        )
    }
}

impl Pin {
    /// The stamp at which the session reads; none where it isn't settled.
    pub fn start(&self) -> Option<u64>
        ensures { result ≡ start_of self.now.knows }
    {
        self.start
    }

    /// The stamp at which a settled session reads.
    pub fn stamp(&self) -> u64
        requires { self.now.knows.settled ≡ true }
        ensures { result ≡ length self.now.knows.base }
    {
        self.start.unwrap_or(0)
    }

    /// Which slot it has, counted from 0.
    pub fn place(&self) -> usize
        ensures { result ≡ self.now.knows.place }
    {
        self.place
    }

    /// Sets the seat down, once its session has ended. Takes no memory.
    pub fn set_down(self) -> FreeSeat
        requires left { self.knows.settled ≡ false }
        requires ended { (self.knows.slips ≡ 0) × (self.knows.mine ≡ []) }
        ensures { (result.table ≡ self.table) × (result.place ≡ self.knows.place) }
    {
        let Pin {
            seat,
            place,
            start: _,
        } = self;
        FreeSeat {
            perch: perched(seat),
            place,
        }
    }
}

impl FreeSeat {
    /// Takes the seat up, for a session that begins. Takes no memory.
    pub fn take_up<R: Wait>(self, rt: &R) -> Pin
        ensures table { result.table ≡ self.table }
        ensures place { result.knows.place ≡ self.place }
        ensures free { result.knows.settled ≡ false }
        ensures empty { (result.knows.slips ≡ 0) × (result.knows.mine ≡ []) }
    {
        let FreeSeat { perch, place } = self;
        let seat = lift(rt, &perch);
        let start = None;
        Pin { seat, place, start }
    }

    /// The same, unless somebody has the seat at each of 256 looks: then it is answered as it was. It never waits.
    pub fn try_take_up(self) -> Result<Pin, FreeSeat>
        ensures table { IfOk result (λ pin. pin.table ≡ self.table) }
        ensures place { IfOk result (λ pin. pin.knows.place ≡ self.place) }
        ensures free { IfOk result (λ pin. pin.knows.settled ≡ false) }
        ensures empty { IfOk result (λ pin. (pin.knows.slips ≡ 0) × (pin.knows.mine ≡ [])) }
        ensures refused { IfErr result (λ seat. seat ≡ self) }
    {
        let FreeSeat { perch, place } = self;
        match try_lift(&perch) {
            Some(seat) => Ok(Pin {
                seat,
                place,
                start: None,
            }),
            None => Err(FreeSeat { perch, place }),
        }
    }
}

impl Board {
    /// The seat of the next place, which no session ever used. Takes no memory.
    pub fn deal(&self, desk: &mut Lifted) -> Pin
        requires own { desk.old.table ≡ self.now.table }
        requires more { desk.old.knows.dealt < desk.old.knows.seats }
        ensures table { (result.table ≡ desk.old.table) × (desk.new.table ≡ desk.old.table) }
        ensures pin { result.knows ≡ new_pin desk.old.knows.dealt }
        ensures desk { desk.new.knows ≡ dealt_one desk.old.knows }
    {
        let Some(mut seat) = desk.seat.take() else {
            unreachable!()
        };
        let dealt = self.words.deal(&mut seat);
        desk.seat = Some(seat);
        let place = desk.dealt;
        desk.dealt = place + 1;
        Pin {
            seat: dealt,
            place,
            start: None,
        }
    }

    /// Settles the session at the clock, and answers it: no horizon is above this stamp, nor will one be until it
    /// leaves. Its base goes on from all that it had seen.
    ///
    /// `FloorAbove` exactly where a draw has raised the floor above that clock by the time that the slot holds it; the
    /// session is then not settled, its slot is idle, and it may try again. Neither waits nor takes memory.
    pub fn settle(&self, pin: &mut Pin) -> Result<u64, FloorAbove>
        requires own { pin.old.table ≡ self.now.table }
        requires free { pin.old.knows.settled ≡ false }
        ensures table { pin.new.table ≡ pin.old.table }
        ensures same { (pin.new.knows.place ≡ pin.old.knows.place) × (pin.new.knows.slips ≡ pin.old.knows.slips) × (pin.new.knows.mine ≡ pin.old.knows.mine) }
        ensures ok { IfOk result (λ s. (pin.new.knows.settled ≡ true) × (s ≡ length pin.new.knows.base) × (s ≡ pin.new.knows.held) × (pin.new.knows.refused ≡ pin.old.knows.refused)) }
        ensures in_journal { AreInJournal pin.new.knows.base pin.old.knows.mine }
        ensures goes_on { IsBeginning pin.new.knows.base pin.old.knows.seen }
        ensures seen { IfOk result (λ s. pin.new.knows.seen ≡ pin.new.knows.base) }
        ensures err { OnErr result ((pin.new.knows.settled ≡ false) × (pin.new.knows.held ≡ idle) × (pin.new.knows.refused ≡ pin.old.knows.refused + 1) × (pin.new.knows.seen ≡ pin.old.knows.seen)) }
    {
        let stamp = self.words.read_clock(&mut pin.seat);
        self.words.store(&mut pin.seat, pin.place, stamp);
        let floor = self.words.check_floor(&mut pin.seat);
        if stamp < floor {
            self.words.rest(&mut pin.seat, pin.place);
            return Err(FloorAbove);
        }
        pin.start = Some(stamp);
        Ok(stamp)
    }

    /// Makes the session's slot idle, so that it holds no horizon back. Neither waits nor takes memory.
    pub fn leave(&self, pin: &mut Pin)
        requires own { pin.old.table ≡ self.now.table }
        ensures table { pin.new.table ≡ pin.old.table }
        ensures left { pin.new.knows ≡ rested pin.old.knows }
    {
        self.words.rest(&mut pin.seat, pin.place);
        pin.start = None;
    }

    /// Notes a unit as this session's, and raises the clock to the unit's number. Takes no memory.
    ///
    /// `receipt` is that of the unit, which is the next of the journal.
    pub fn write(&self, desk: &mut Lifted, pin: &mut Pin, receipt: &Receipt)
        requires own { (desk.old.table ≡ self.now.table) × (pin.old.table ≡ self.now.table) }
        requires next { IsNext desk.old.knows.log receipt.now }
        requires slip { pin.old.knows.slips ≡ 1 }
        ensures table { (desk.new.table ≡ desk.old.table) × (pin.new.table ≡ pin.old.table) }
        ensures desk { desk.new.knows ≡ logged desk.old.knows receipt.now }
        ensures pin { pin.new.knows ≡ wrote desk.old.knows pin.old.knows receipt.now }
        ensures in_journal { AreInJournal desk.old.knows.log pin.old.knows.mine }
        ensures dealt { pin.old.knows.place < desk.old.knows.dealt }
        ensures goes_on { IsBeginning desk.old.knows.log pin.old.knows.seen }
    {
        let Some(lent) = desk.seat.take() else {
            unreachable!()
        };
        self.words.lend(&mut pin.seat, lent);
        self.words.write(&mut pin.seat, receipt);
        desk.seat = Some(self.words.give_back(&mut pin.seat));
    }

    /// Gives a slip to a session that begins, which has then seen the whole journal. Takes no memory.
    pub fn give_slip(&self, desk: &mut Lifted, pin: &mut Pin)
        requires own { (desk.old.table ≡ self.now.table) × (pin.old.table ≡ self.now.table) }
        requires free { pin.old.knows.slips ≡ 0 }
        ensures table { (desk.new.table ≡ desk.old.table) × (pin.new.table ≡ pin.old.table) }
        ensures desk { desk.new.knows ≡ gave desk.old.knows }
        ensures pin { pin.new.knows ≡ with_slip desk.old.knows pin.old.knows }
    {
        let Some(lent) = desk.seat.take() else {
            unreachable!()
        };
        self.words.lend(&mut pin.seat, lent);
        self.words.give_slip(&mut pin.seat);
        desk.seat = Some(self.words.give_back(&mut pin.seat));
    }

    /// Takes the slip off the seat of a session that ends. Takes no memory.
    pub fn take_slip(&self, pin: &mut Pin) -> Slip
        requires own { pin.old.table ≡ self.now.table }
        requires slip { pin.old.knows.slips ≡ 1 }
        ensures table { (result.table ≡ pin.old.table) × (pin.new.table ≡ pin.old.table) }
        ensures slip { result.knows ≡ slipped pin.old.knows.mine (pin.old.knows.seen ∷ []) }
        ensures pin { pin.new.knows ≡ without_slip pin.old.knows }
    {
        let seat = self.words.take_slip(&mut pin.seat);
        Slip { seat }
    }

    /// Returns a slip to the desk at the end. Takes no memory.
    pub fn return_slip(&self, tally: &mut Tally, slip: Slip)
        requires own { (tally.old.table ≡ self.now.table) × (slip.table ≡ self.now.table) }
        ensures table { tally.new.table ≡ tally.old.table }
        ensures knows { tally.new.knows ≡ tallied tally.old.knows.units tally.old.knows.given (tally.old.knows.returned + 1) (tally.old.knows.back ++ slip.knows.mine) (tally.old.knows.known ++ slip.knows.known) }
    {
        let Slip { seat } = slip;
        self.words.return_slip(&mut tally.seat, seat);
    }

    /// Shows that the units on the slips that came back are in the journal, each at its number, and that the beginnings
    /// on them begin it. Where all slips came back their units are all of it, each at its number once; no more came
    /// back than were given. It changes nothing. Takes no memory.
    pub fn audit(&self, tally: &mut Tally)
        requires own { tally.old.table ≡ self.now.table }
        ensures same { tally.new ≡ tally.old }
        ensures in_journal { AreInJournal tally.old.knows.units tally.old.knows.back }
        ensures all { tally.old.knows.returned ≡ tally.old.knows.given → AreAll tally.old.knows.units tally.old.knows.back }
        ensures few { tally.old.knows.returned ≤ tally.old.knows.given }
        ensures known { All (IsBeginning tally.old.knows.units) tally.old.knows.known }
    {
        self.words.learn(&mut tally.seat);
    }

    /// Moves the session's start to now, and answers it; shows what `meet` does of the session before. The slot keeps
    /// its stamp, which isn't after it. Takes no memory.
    pub fn restart(&self, desk: &mut Lifted, pin: &mut Pin) -> u64
        requires own { (desk.old.table ≡ self.now.table) × (pin.old.table ≡ self.now.table) }
        requires settled { pin.old.knows.settled ≡ true }
        ensures table { pin.new.table ≡ pin.old.table }
        ensures desk { desk.new ≡ desk.old }
        ensures pin { pin.new.knows ≡ rebased desk.old.knows pin.old.knows }
        ensures start { result ≡ length desk.old.knows.log }
        ensures met { Met desk.old.knows pin.old.knows }
    {
        let Some(lent) = desk.seat.take() else {
            unreachable!()
        };
        self.words.lend(&mut pin.seat, lent);
        let now = self.words.rebase(&mut pin.seat);
        desk.seat = Some(self.words.give_back(&mut pin.seat));
        pin.start = Some(now);
        now
    }

    /// Settles the session at now, and answers it; shows what `meet` does of the session before. It is never refused:
    /// no draw goes on meanwhile. Takes no memory.
    pub fn settle_now(&self, desk: &mut Lifted, pin: &mut Pin) -> u64
        requires own { (desk.old.table ≡ self.now.table) × (pin.old.table ≡ self.now.table) }
        ensures table { pin.new.table ≡ pin.old.table }
        ensures desk { desk.new ≡ desk.old }
        ensures pin { pin.new.knows ≡ settled_now desk.old.knows pin.old.knows }
        ensures start { result ≡ length desk.old.knows.log }
        ensures met { Met desk.old.knows pin.old.knows }
    {
        let Some(lent) = desk.seat.take() else {
            unreachable!()
        };
        self.words.lend(&mut pin.seat, lent);
        let clock = self.words.rebase(&mut pin.seat);
        self.words.settle_now(&mut pin.seat, pin.place, clock);
        desk.seat = Some(self.words.give_back(&mut pin.seat));
        pin.start = Some(clock);
        clock
    }

    /// Shows that no horizon is above the session's stamp, that its base and all that it has seen begin the journal,
    /// that its units are in the journal, that the floor isn't above the number of all units, and that its seat was
    /// dealt. From then on it has seen the whole journal; nothing else changes. Sessions that share the lock may meet the
    /// desk in turn. Takes no memory.
    pub fn meet(&self, desk: &mut Lifted, pin: &mut Pin)
        requires own { (desk.old.table ≡ self.now.table) × (pin.old.table ≡ self.now.table) }
        ensures table { pin.new.table ≡ pin.old.table }
        ensures desk { desk.new ≡ desk.old }
        ensures pin { pin.new.knows ≡ aware desk.old.knows pin.old.knows }
        ensures met { Met desk.old.knows pin.old.knows }
    {
        let Some(lent) = desk.seat.take() else {
            unreachable!()
        };
        self.words.lend(&mut pin.seat, lent);
        self.words.meet(&mut pin.seat);
        desk.seat = Some(self.words.give_back(&mut pin.seat));
    }

    /// Shows that a seat that no session has isn't at the place of this session's: no two seats are at one place. Takes no
    /// memory.
    pub fn part<R: Wait>(&self, rt: &R, pin: &mut Pin, seat: &FreeSeat)
        requires own { (pin.old.table ≡ self.now.table) × (seat.now.table ≡ self.now.table) }
        ensures same { pin.new ≡ pin.old }
        ensures apart { seat.now.place ≢ pin.old.knows.place }
    {
        if seat.place == pin.place {
            let other = lift(rt, &seat.perch);
            self.words.clash(&mut pin.seat, other);
        }
    }

    /// The same, where it answers so: not where somebody has that seat at each of 256 looks. It never waits.
    pub fn try_part(&self, pin: &mut Pin, seat: &FreeSeat) -> bool
        requires own { (pin.old.table ≡ self.now.table) × (seat.now.table ≡ self.now.table) }
        ensures same { pin.new ≡ pin.old }
        ensures apart { result ≡ true → seat.now.place ≢ pin.old.knows.place }
    {
        if pin.place == seat.place {
            let Some(other) = try_lift(&seat.perch) else {
                return false;
            };
            self.words.clash(&mut pin.seat, other);
        }
        true
    }

    /// Draws a horizon: the least of the clock and of the stamps in the slots of all seats dealt. The floor is raised
    /// to the clock, and no farther. Takes no memory.
    ///
    /// It is not above the stamp of any session that is settled, nor above that of any that will settle.
    pub fn draw(&self, desk: &mut Lifted) -> u64
        requires own { desk.old.table ≡ self.now.table }
        ensures table { desk.new.table ≡ desk.old.table }
        ensures least { (result ≡ least desk.new.knows) × (length desk.new.knows.loaded ≡ desk.old.knows.dealt) }
        ensures clock { (desk.new.knows.read ≡ length desk.old.knows.log) × (result ≤ length desk.old.knows.log) }
        ensures high { desk.new.knows.high ≡ max desk.old.knows.high result }
        ensures floor { desk.new.knows.floor ≡ max desk.old.knows.floor (length desk.old.knows.log) }
        ensures same { (desk.new.knows.log ≡ desk.old.knows.log) × (desk.new.knows.given ≡ desk.old.knows.given) × (desk.new.knows.seats ≡ desk.old.knows.seats) × (desk.new.knows.dealt ≡ desk.old.knows.dealt) }
    {
        let Some(mut seat) = desk.seat.take() else {
            unreachable!()
        };
        let horizon = self.words.draw(&mut seat, desk.dealt);
        desk.seat = Some(seat);
        horizon
    }
}
