//! The words, under the rule, and each atomic step on them by a seat.
//!
//! Word 0 is the clock, word 1 the floor, and the slot of place i is word 8 i + 8, so that no two slots lie in one
//! cache line. The clock is stored by who has the desk, the floor by the desk, a slot by its session's seat alone.
ghost use Rattle.std.specs.Prelude.{◌≡◌, ℕ, ◌+◌, ◌*◌, ◌<◌, ◌≤◌, ◌++◌, ◌∷◌, max, true, false, List, [], length, slice_index, IfOk, IfErr, Option, Some, None};
ghost use Rattle.pin_board.specs.Rule.{slot};
ghost use Rattle.pin_board.specs.Slips.{AreInJournal, IsBeginning, IsNext};
ghost use Rattle.pin_board.specs.Views.{IsPin, IsDesk, IsBoth, IsSlip, IsTally, Met, Learned, pin_in, desk_in, pin_only, desk_only, pin_with_desk, slip_only, tally_only, clocked, stored, checked, rested, began, lifted, passed, drew, new_pin, new_desk, dealt_one, starting, least, idle, logged, wrote, rebased, aware, settled_now, gave, with_slip, without_slip};

use crate::step_kinds::{
    Begin, CheckFloor, Clash, Deal, Draw, GiveBack, GiveSlip, Learn, Lend, Lift, Meet, Never, Pass,
    ReadClock, Rebase, Rest, ReturnSlip, SettleNow, Store, TakeSlip, Write,
};
use crate::view::{BoardRules, SeatView};
use atomic_table::{Seat, Table};
use journal::Receipt;
use std::alloc::{AllocError, Global};

pub(crate) type Place = Seat<Receipt, SeatView>;

const CLOCK: usize = 0;

const FLOOR: usize = 1;

const IDLE: u64 = u64::MAX;

// Words from one slot to the next: 64 bytes.
const STRIDE: usize = 8;

/// The words, under the rule.
#[derive(Drop)]
pub(crate) struct Words {
    pub(crate) table: Table<Receipt, SeatView, u64, BoardRules, Global>,
    pub(crate) seats: usize,
    pub(crate) ghost sized: { (table.shared.table_id.words ≡ seats * 8 + 8) × (table.shared.key ≡ seats) × (seats ≤ 4096) },
}

fn first_words(alloc: Global, seats: usize) -> Result<Vec<u64>, AllocError>
    requires { seats ≤ 4096 }
    ensures wide { IfOk result (λ v. length v.items ≡ seats * 8 + 8) }
    ensures clock { IfOk result (λ v. slice_index v.items 0 ≡ 0) }
    ensures floor { IfOk result (λ v. slice_index v.items 1 ≡ 0) }
    ensures empty { IfOk result (λ v. (i : ℕ) → i < seats → slice_index v.items (i * 8 + 8) ≡ idle) }
{
    let mut words = vec![in alloc; IDLE; (seats + 1) * STRIDE]?;
    words[CLOCK] = 0;
    words[FLOOR] = 0;
    Ok(words)
}

impl Words {
    /// The words with the clock at 0, and the desk's seat.
    pub(crate) fn laid(alloc: Global, seats: usize) -> Result<(Words, Place), AllocError>
        requires { seats ≤ 4096 }
        ensures table { IfOk result (λ b. (b.0.seats ≡ seats) × (b.1.table_id ≡ b.0.table.shared.table_id)) }
        ensures view { IfOk result (λ b. b.1.me ≡ (starting seats, [])) }
    {
        let words = first_words(alloc, seats)?;
        let (table, seat) = Table::of_words(alloc, words.as_slice(), &(seats as u64))?;
        Ok((Words { table, seats }, seat))
    }

    /// A session reads the clock, which is the stamp of its start.
    pub(crate) fn read_clock(&self, seat: &mut Place) -> u64
        requires own { seat.old.table_id ≡ self.now.table.shared.table_id }
        requires pin { IsPin seat.old.me }
        requires free { (pin_in seat.old.me.0).settled ≡ false }
        ensures same { (seat.new.table_id ≡ seat.old.table_id) × (seat.new.id ≡ seat.old.id) }
        ensures view { seat.new.me ≡ (pin_only (clocked (pin_in seat.old.me.0) (pin_in seat.new.me.0).base), []) }
        ensures base { length (pin_in seat.new.me.0).base ≡ result }
        ensures in_journal { AreInJournal (pin_in seat.new.me.0).base (pin_in seat.old.me.0).mine }
        ensures goes_on { IsBeginning (pin_in seat.new.me.0).base (pin_in seat.old.me.0).seen }
    {
        // Units may be written at any time: a clock that is higher by now makes this start older, and no less right.
        self.table.shared.load::<ReadClock>(seat, CLOCK)
    }

    /// It stores a stamp in its slot.
    pub(crate) fn store(&self, seat: &mut Place, place: usize, stamp: u64)
        requires own { seat.old.table_id ≡ self.now.table.shared.table_id }
        requires pin { IsPin seat.old.me }
        requires place { (place ≡ (pin_in seat.old.me.0).place) × (place < self.now.seats) }
        requires free { (pin_in seat.old.me.0).settled ≡ false }
        ensures same { (seat.new.table_id ≡ seat.old.table_id) × (seat.new.id ≡ seat.old.id) }
        ensures view { seat.new.me ≡ (pin_only (stored (pin_in seat.old.me.0) stamp), []) }
    {
        // Nobody else stores this slot. A draw may have loaded it while it was idle: it has then raised the floor to
        // its clock, and this session loads the floor after this.
        self.table
            .shared
            .store::<Store>(seat, place * STRIDE + STRIDE, stamp);
    }

    /// It loads the floor, and is settled unless that is above its stamp.
    pub(crate) fn check_floor(&self, seat: &mut Place) -> u64
        requires own { seat.old.table_id ≡ self.now.table.shared.table_id }
        requires pin { IsPin seat.old.me }
        requires same_stamp { (pin_in seat.old.me.0).held ≡ length (pin_in seat.old.me.0).base }
        requires free { (pin_in seat.old.me.0).settled ≡ false }
        ensures same { (seat.new.table_id ≡ seat.old.table_id) × (seat.new.id ≡ seat.old.id) }
        ensures view { seat.new.me ≡ (pin_only (checked (pin_in seat.old.me.0) result), []) }
    {
        // A draw that raises the floor after this loads the slot later still, and finds the stamp there.
        self.table.shared.load::<CheckFloor>(seat, FLOOR)
    }

    /// It makes its slot idle.
    pub(crate) fn rest(&self, seat: &mut Place, place: usize)
        requires own { seat.old.table_id ≡ self.now.table.shared.table_id }
        requires pin { IsPin seat.old.me }
        requires place { (place ≡ (pin_in seat.old.me.0).place) × (place < self.now.seats) }
        ensures same { (seat.new.table_id ≡ seat.old.table_id) × (seat.new.id ≡ seat.old.id) }
        ensures view { seat.new.me ≡ (pin_only (rested (pin_in seat.old.me.0)), []) }
    {
        // Nobody else stores this slot. A draw may have loaded the stamp: its horizon is only lower than it could be.
        self.table
            .shared
            .store::<Rest>(seat, place * STRIDE + STRIDE, IDLE);
    }

    /// A draw begins: the desk reads the clock.
    pub(crate) fn begin(&self, seat: &mut Place) -> u64
        requires own { seat.old.table_id ≡ self.now.table.shared.table_id }
        requires desk { IsDesk seat.old.me }
        ensures same { (seat.new.table_id ≡ seat.old.table_id) × (seat.new.id ≡ seat.old.id) }
        ensures view { seat.new.me ≡ (desk_only (began (desk_in seat.old.me.0) result), []) }
        ensures now { result ≡ length (desk_in seat.old.me.0).log }
    {
        // Only who has the desk stores the clock, so it is the number of all units.
        self.table.shared.load::<Begin>(seat, CLOCK)
    }

    /// It raises the floor to that clock.
    pub(crate) fn lift(&self, seat: &mut Place, clock: u64)
        requires own { seat.old.table_id ≡ self.now.table.shared.table_id }
        requires desk { IsDesk seat.old.me }
        requires clock { clock ≡ (desk_in seat.old.me.0).read }
        ensures same { (seat.new.table_id ≡ seat.old.table_id) × (seat.new.id ≡ seat.old.id) }
        ensures view { seat.new.me ≡ (desk_only (lifted (desk_in seat.old.me.0)), []) }
    {
        // Only the desk stores the floor. Seats that loaded it before this have stored their stamps, and their slots
        // are loaded after it; seats that load it after this are refused, or read at this clock or later.
        self.table.shared.fetch_max::<Lift>(seat, FLOOR, clock);
    }

    /// It loads the next slot.
    pub(crate) fn pass(&self, seat: &mut Place, place: usize) -> u64
        requires own { seat.old.table_id ≡ self.now.table.shared.table_id }
        requires desk { IsDesk seat.old.me }
        requires place { (place ≡ length (desk_in seat.old.me.0).loaded) × (place < self.now.seats) }
        requires raised { (desk_in seat.old.me.0).raised ≡ true }
        ensures same { (seat.new.table_id ≡ seat.old.table_id) × (seat.new.id ≡ seat.old.id) }
        ensures view { seat.new.me ≡ (desk_only (passed (desk_in seat.old.me.0) result), []) }
    {
        // Its seat may store a stamp after this: it is settled only where the stamp isn't below the floor, and so not
        // below the horizon.
        self.table
            .shared
            .load::<Pass>(seat, place * STRIDE + STRIDE)
    }

    /// The desk deals the next seat.
    pub(crate) fn deal(&self, seat: &mut Place) -> Place
        requires own { seat.old.table_id ≡ self.now.table.shared.table_id }
        requires desk { IsDesk seat.old.me }
        requires more { (desk_in seat.old.me.0).dealt < self.now.seats }
        ensures same { (seat.new.table_id ≡ seat.old.table_id) × (result.table_id ≡ seat.old.table_id) }
        ensures view { seat.new.me ≡ (desk_only (dealt_one (desk_in seat.old.me.0)), []) }
        ensures new { result.me ≡ (pin_only (new_pin (desk_in seat.old.me.0).dealt), []) }
    {
        self.table.shared.split_seat::<Deal>(seat)
    }

    /// Lends the desk to a session's seat.
    pub(crate) fn lend(&self, seat: &mut Place, desk: Place)
        requires own { (seat.old.table_id ≡ self.now.table.shared.table_id) × (desk.table_id ≡ self.now.table.shared.table_id) }
        requires pin { IsPin seat.old.me }
        requires desk { IsDesk desk.me }
        ensures same { (seat.new.table_id ≡ seat.old.table_id) × (seat.new.id ≡ seat.old.id) }
        ensures view { seat.new.me ≡ (pin_with_desk (desk_in desk.me.0) (pin_in seat.old.me.0), []) }
    {
        self.table.shared.join_seat::<Lend>(seat, desk);
    }

    /// The session gives the desk back.
    pub(crate) fn give_back(&self, seat: &mut Place) -> Place
        requires own { seat.old.table_id ≡ self.now.table.shared.table_id }
        requires both { IsBoth seat.old.me }
        ensures same { (seat.new.table_id ≡ seat.old.table_id) × (result.table_id ≡ seat.old.table_id) }
        ensures view { seat.new.me ≡ (pin_only (pin_in seat.old.me.0), []) }
        ensures desk { result.me ≡ (desk_only (desk_in seat.old.me.0), []) }
    {
        self.table.shared.split_seat::<GiveBack>(seat)
    }

    /// Writes a unit, and raises the clock to its number.
    pub(crate) fn write(&self, seat: &mut Place, receipt: &Receipt)
        requires own { seat.old.table_id ≡ self.now.table.shared.table_id }
        requires both { IsBoth seat.old.me }
        requires slip { (pin_in seat.old.me.0).slips ≡ 1 }
        requires next { IsNext (desk_in seat.old.me.0).log receipt.now }
        ensures same { (seat.new.table_id ≡ seat.old.table_id) × (seat.new.id ≡ seat.old.id) }
        ensures view { seat.new.me ≡ (pin_with_desk (logged (desk_in seat.old.me.0) receipt.now) (wrote (desk_in seat.old.me.0) (pin_in seat.old.me.0) receipt.now), []) }
        ensures in_journal { AreInJournal (desk_in seat.old.me.0).log (pin_in seat.old.me.0).mine }
        ensures dealt { (pin_in seat.old.me.0).place < (desk_in seat.old.me.0).dealt }
        ensures seen { IsBeginning (desk_in seat.old.me.0).log (pin_in seat.old.me.0).seen }
    {
        let number = receipt.number();
        // Only who has the desk stores the clock, so it still holds number - 1. Others may have loaded that: a start
        // without this unit, which is right, since the unit is written only now.
        self.table
            .shared
            .compare_exchange_with::<Write>(seat, CLOCK, number - 1, number, receipt);
    }

    /// Gives a slip to the session.
    pub(crate) fn give_slip(&self, seat: &mut Place)
        requires own { seat.old.table_id ≡ self.now.table.shared.table_id }
        requires both { IsBoth seat.old.me }
        requires free { (pin_in seat.old.me.0).slips ≡ 0 }
        ensures same { (seat.new.table_id ≡ seat.old.table_id) × (seat.new.id ≡ seat.old.id) }
        ensures view { seat.new.me ≡ (pin_with_desk (gave (desk_in seat.old.me.0)) (with_slip (desk_in seat.old.me.0) (pin_in seat.old.me.0)), []) }
    {
        // What the clock holds is of no use here: the step is there for the rule.
        self.table.shared.load::<GiveSlip>(seat, CLOCK);
    }

    /// Takes the slip of a session off its seat.
    pub(crate) fn take_slip(&self, seat: &mut Place) -> Place
        requires own { seat.old.table_id ≡ self.now.table.shared.table_id }
        requires pin { IsPin seat.old.me }
        requires slip { (pin_in seat.old.me.0).slips ≡ 1 }
        ensures same { (seat.new.table_id ≡ seat.old.table_id) × (result.table_id ≡ seat.old.table_id) }
        ensures view { seat.new.me ≡ (pin_only (without_slip (pin_in seat.old.me.0)), []) }
        ensures slip { result.me ≡ (slip_only (pin_in seat.old.me.0).mine ((pin_in seat.old.me.0).seen ∷ []), []) }
    {
        self.table.shared.split_seat::<TakeSlip>(seat)
    }

    /// Takes a slip back.
    pub(crate) fn return_slip(&self, seat: &mut Place, slip: Place)
        requires own { (seat.old.table_id ≡ self.now.table.shared.table_id) × (slip.table_id ≡ self.now.table.shared.table_id) }
        requires tally { IsTally seat.old.me }
        requires slip { IsSlip slip.me }
        ensures same { seat.new.table_id ≡ seat.old.table_id }
        ensures view { seat.new.me ≡ (tally_only (desk_in seat.old.me.0) (seat.old.me.0.slips + 1) (seat.old.me.0.back ++ slip.me.0.back) (seat.old.me.0.known ++ slip.me.0.known), []) }
    {
        self.table.shared.join_seat::<ReturnSlip>(seat, slip);
    }

    /// The units on the slips that came back are in the journal, and where all came back they are all of it.
    pub(crate) fn learn(&self, seat: &mut Place)
        requires own { seat.old.table_id ≡ self.now.table.shared.table_id }
        requires tally { IsTally seat.old.me }
        ensures same { (seat.new.table_id ≡ seat.old.table_id) × (seat.new.me ≡ seat.old.me) }
        ensures learned { Learned (desk_in seat.old.me.0) seat.old.me.0.slips seat.old.me.0.back seat.old.me.0.known }
    {
        // What the clock holds is of no use here: the step is there for the rule.
        self.table.shared.load::<Learn>(seat, CLOCK);
    }

    /// Moves the session's start to now.
    pub(crate) fn rebase(&self, seat: &mut Place) -> u64
        requires own { seat.old.table_id ≡ self.now.table.shared.table_id }
        requires both { IsBoth seat.old.me }
        ensures same { (seat.new.table_id ≡ seat.old.table_id) × (seat.new.id ≡ seat.old.id) }
        ensures view { seat.new.me ≡ (pin_with_desk (desk_in seat.old.me.0) (rebased (desk_in seat.old.me.0) (pin_in seat.old.me.0)), []) }
        ensures now { result ≡ length (desk_in seat.old.me.0).log }
        ensures met { Met (desk_in seat.old.me.0) (pin_in seat.old.me.0) }
    {
        // Only who has the desk stores the clock, and that is this seat.
        self.table.shared.load::<Rebase>(seat, CLOCK)
    }

    /// The session stores the clock in its slot, and is settled.
    pub(crate) fn settle_now(&self, seat: &mut Place, place: usize, stamp: u64)
        requires own { seat.old.table_id ≡ self.now.table.shared.table_id }
        requires both { IsBoth seat.old.me }
        requires place { (place ≡ (pin_in seat.old.me.0).place) × (place < self.now.seats) }
        requires now { stamp ≡ length (desk_in seat.old.me.0).log }
        ensures same { (seat.new.table_id ≡ seat.old.table_id) × (seat.new.id ≡ seat.old.id) }
        ensures view { seat.new.me ≡ (pin_with_desk (desk_in seat.old.me.0) (settled_now (desk_in seat.old.me.0) (pin_in seat.old.me.0)), []) }
    {
        // Nobody else stores this slot. Who has the desk draws horizons, and that is this seat: none is above the
        // clock.
        self.table
            .shared
            .store::<SettleNow>(seat, place * STRIDE + STRIDE, stamp);
    }

    /// The session learns what the rule says of it and the desk.
    pub(crate) fn meet(&self, seat: &mut Place)
        requires own { seat.old.table_id ≡ self.now.table.shared.table_id }
        requires both { IsBoth seat.old.me }
        ensures same { (seat.new.table_id ≡ seat.old.table_id) × (seat.new.id ≡ seat.old.id) }
        ensures view { seat.new.me ≡ (pin_with_desk (desk_in seat.old.me.0) (aware (desk_in seat.old.me.0) (pin_in seat.old.me.0)), []) }
        ensures met { Met (desk_in seat.old.me.0) (pin_in seat.old.me.0) }
    {
        // What the clock holds is of no use here: the step is there for the rule. Only who has the desk writes units or
        // draws horizons, and that is this seat.
        self.table.shared.load::<Meet>(seat, CLOCK);
    }

    /// Two seats would be at one place, which can't be.
    pub(crate) fn clash(&self, seat: &mut Place, other: Place)
        requires own { (seat.old.table_id ≡ self.now.table.shared.table_id) × (other.table_id ≡ self.now.table.shared.table_id) }
        requires pins { IsPin seat.old.me × IsPin other.me }
        requires place { (pin_in other.me.0).place ≡ (pin_in seat.old.me.0).place }
        ensures never { ⊥ }
    {
        self.table.shared.join_seat::<Clash>(seat, other);
        // What the clock holds is of no use here: the step is there for the rule.
        self.table.shared.load::<Never>(seat, CLOCK);
    }

    /// All slots are loaded: the least so far is a horizon.
    pub(crate) fn finish_draw(&self, seat: &mut Place)
        requires own { seat.old.table_id ≡ self.now.table.shared.table_id }
        requires desk { IsDesk seat.old.me }
        requires raised { (desk_in seat.old.me.0).raised ≡ true }
        requires all { length (desk_in seat.old.me.0).loaded ≡ (desk_in seat.old.me.0).dealt }
        ensures same { (seat.new.table_id ≡ seat.old.table_id) × (seat.new.id ≡ seat.old.id) }
        ensures view { seat.new.me ≡ (desk_only (drew (desk_in seat.old.me.0)), []) }
    {
        // Seats that settled since their slots were loaded found the floor at the draw's clock or above, so their
        // stamps are not below it. Others may have left: the horizon is only lower than it could be.
        self.table.shared.load::<Draw>(seat, CLOCK);
    }

    /// A horizon: the least of the clock and of the stamps in the slots of all seats that were dealt.
    #[tactic(auto, using(crate::proofs::DrawLemmas::drawing_now))]
    pub(crate) fn draw(&self, seat: &mut Place, dealt: usize) -> u64
        requires own { seat.old.table_id ≡ self.now.table.shared.table_id }
        requires desk { IsDesk seat.old.me }
        requires dealt { (dealt ≡ (desk_in seat.old.me.0).dealt) × (dealt ≤ self.now.seats) }
        ensures own { seat.new.table_id ≡ seat.old.table_id }
        ensures desk { IsDesk seat.new.me }
        ensures least { (result ≡ least (desk_in seat.new.me.0)) × (length (desk_in seat.new.me.0).loaded ≡ dealt) }
        ensures clock { ((desk_in seat.new.me.0).read ≡ length (desk_in seat.old.me.0).log) × (result ≤ length (desk_in seat.old.me.0).log) }
        ensures high { (desk_in seat.new.me.0).high ≡ max (desk_in seat.old.me.0).high result }
        ensures floor { (desk_in seat.new.me.0).floor ≡ max (desk_in seat.old.me.0).floor (length (desk_in seat.old.me.0).log) }
        ensures same { ((desk_in seat.new.me.0).log ≡ (desk_in seat.old.me.0).log) × ((desk_in seat.new.me.0).given ≡ (desk_in seat.old.me.0).given) × ((desk_in seat.new.me.0).seats ≡ (desk_in seat.old.me.0).seats) × ((desk_in seat.new.me.0).dealt ≡ (desk_in seat.old.me.0).dealt) }
    {
        let clock = self.begin(seat);
        self.lift(seat, clock);
        let mut horizon = clock;
        for place in 0..dealt {
            horizon = horizon.min(self.pass(seat, place));
        }
        self.finish_draw(seat);
        horizon
    }
}
