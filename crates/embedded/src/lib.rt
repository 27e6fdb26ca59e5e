//! One engine in the hands of a program that isn't written in Rattle, a call at a time.
//!
//! An `Embedded` is a `JobCore` with what such a caller needs beside it: the reply of its last line, which is kept
//! until the next, and how far a listing got. What is answered goes into a buffer that the caller lends. Each call is
//! seen as the machine's step (`IsAnswer`, `told_by`), and as what it copies (`copied_onto`, `outcome_of_copy`), both
//! of `specs/Calls.antt`. So:
//!
//! (1) a line is run once, whether or not its reply fits into the buffer: where it doesn't, the reply is kept, its
//!     length is told, and `copy_reply` copies it into a longer one;
//! (2) nothing is written into a buffer that is too short, and nothing behind what is copied;
//! (3) a refusal is told by its own number;
//! (4) a look at the database, one value, the nodes of a walk, the next name, children with their values, or what
//!     $ORDER, $DATA and $QUERY answer, is no command: no unit, no reply, and the machine stays
//!     (`specs/Looks.antt`, `specs/Names.antt`, `specs/Children.antt`); a walk's place is a key of the caller's, and no
//!     name lies between that which a look for the next one starts at and what it answers (`names_are_nearest`);
//! (5) a look sees the database of a moment, which is now, or that at which a job's open transaction began
//!     (`specs/Moments.antt`).
//!
//! A C program reaches these calls through `vorgushan_c`.
//!
//! Read `specs/Calls.antt`, `specs/Outcomes.antt`, `specs/Moments.antt`, `specs/Looks.antt`, `specs/Names.antt`,
//! `specs/Children.antt`, then `engine.rt`, `listed.rt`, `looked.rt`, `asked.rt`, `named.rt`, `children.rt`.
//! Not promised: the time of a call.
#![tactic(auto)]

pub use asked::{copy_sibling, move_to_found};
pub use copied::{copied_as, name_outcome};
pub use engine::{Answered, Embedded};
pub use laws::names_are_nearest;
pub use looked::{copy_value, copy_walked};
pub use outcome::Outcome;
pub use statistics::Statistics;

mod asked;
mod children;
mod copied;
mod engine;
mod journaled;
mod laws;
mod listed;
mod loaded;
mod looked;
mod moments;
mod named;
mod outcome;
mod statistics;
