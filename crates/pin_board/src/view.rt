//! What a seat knows. No value of these types is made: clauses alone speak of them.
use atomic_table::TableRule;
use journal::{Receipt, Unit};
use std::collections::LinkedList;

/// What the desk knows, the one seat that lies under the lock.
pub struct DeskView {
    /// The journal: all units so far.
    pub log: LinkedList<Unit>,
    /// How many slips were given, one for each session.
    pub given: u64,
    /// The greatest horizon so far.
    pub high: u64,
    /// How many seats there may be.
    pub seats: u64,
    /// How many were dealt: those of smaller places.
    pub dealt: u64,
    /// The clock that it read when the last draw began.
    pub read: u64,
    /// The floor is at least that clock.
    pub raised: bool,
    /// What the floor holds, which the desk alone stores.
    pub floor: u64,
    /// What it has found in the slots since, from the first on.
    pub loaded: LinkedList<u64>,
}

/// What the seat of a session knows.
pub struct PinView {
    /// Which slot it has, counted from 0.
    pub place: u64,
    /// What its slot holds.
    pub held: u64,
    /// The journal at its start, or when it last read the clock.
    pub base: LinkedList<Unit>,
    /// Its slot holds a stamp that no horizon is above.
    pub settled: bool,
    /// How many of its loads of the floor found it above the stamp that it had stored.
    pub refused: u64,
    /// 1 while it has the slip of a session.
    pub slips: u64,
    /// The units that this session wrote, with their numbers.
    pub mine: LinkedList<Receipt>,
    /// The longest beginning of the journal that this seat knows of.
    pub seen: LinkedList<Unit>,
}

/// A seat is the desk's, a session's, both while the desk is lent to a session, the slip of a session that has ended,
/// or at the end the desk with slips.
pub struct SeatView {
    pub desk: Option<DeskView>,
    pub pin: Option<PinView>,
    /// How many slips it has apart from its session's.
    pub slips: u64,
    /// The units on them, with their numbers.
    pub back: LinkedList<Receipt>,
    /// The beginning of the journal that stands on each of them.
    pub known: LinkedList<LinkedList<Unit>>,
}

/// The rule of the board.
pub struct BoardRules;

impl TableRule<Receipt, SeatView, u64> for BoardRules {
    ghost use Rattle.pin_board.specs.Rule.{BoardRule};
    ghost use Rattle.pin_board.specs.Views.{starting};

    ghost holds = { BoardRule };

    ghost first = { starting };
}
