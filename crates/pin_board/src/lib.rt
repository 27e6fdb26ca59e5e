//! A board on which sessions pin the stamps that they read at, and from which a collector draws a horizon. A session
//! takes no lock to settle or to leave.
//!
//! Which table a board, its desk and its seats are of is a value that callers see: each call asks that they are of one.
//! Who lifts the desk, waiting or in a bounded number of tries, has to give it back.
//!
//! Callers see what the desk knows (the journal, the greatest horizon) and what a session's seat knows (its start, the
//! journal as it was then, the longest beginning of the journal that it has seen, the units that it wrote):
//! `src/view.rt`. All of this is for clauses alone; at run time there are the words of one table, and small numbers.
//!
//! Invariants (`specs/Rule.antt`), which each atomic step keeps:
//! (1) the clock is the number of units in the journal;
//! (2) each session's seat alone stores its slot, which holds the stamp that it stored, or 2^64 - 1 while it is idle;
//! (3) a session's base is the beginning of the journal that is as long as the clock that it read, and what it has seen
//!     begins the journal too;
//! (4) no horizon is above the stamp of a settled seat, nor above the floor, which is never above the clock;
//! (5) each unit was written on one slip, at the number that it has in the journal.
//!
//! A session settles in three steps: it reads the clock, stores that in its slot, and loads the floor. A draw reads the
//! clock, raises the floor to it, and loads the slots. With the clock at 7 and the slots idle, 5, idle a draw gives 5.
//! A session that read 6 before that draw, and stores it only after its slot was passed, finds the floor at 7 and is
//! refused.
//!
//! Read `specs/Views.antt`, `specs/Named.antt`, `specs/Rule.antt`, then `board.rt`, `desk.rt`, `words.rt`,
//! `specs/Steps.antt`, `specs/Slips.antt`.
//! Not promised: that a session settles at last; that a call which waits for the desk returns.
#![tactic(auto)]

pub use board::{Blank, Board, FloorAbove, FreeSeat, Pin, SEATS, Slip, Tally};
pub use desk::{Desk, Lifted};
pub use view::{BoardRules, DeskView, PinView, SeatView};

mod board;
mod desk;
mod step_kinds;
mod view;
mod words;
