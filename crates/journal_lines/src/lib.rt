//! Journals as scripts: what was done, as lines that do it again.
//!
//! Callers see a step as its text, the job, a blank and the command in capitals: `step_text` in `specs/Steps.antt`. A
//! journal is written as `journal_text` of its units, a line for each of `steps_of` (`specs/Journals.antt`):
//!
//! (1) a lone command, and a LOCK outside a transaction, is its line; the end of a session is HALT;
//! (2) a transaction is written where it commits: TSTART, its commands, TCOMMIT;
//! (3) a LOCK inside a transaction stands where it was done, and the first of them is led by TSTART; a rollback or a
//!     restart of such a transaction is TROLLBACK, and where it commits stands TRESTART in the place of TSTART, and behind
//!     it once more what its LOCKs have changed of what the job wants.
//!
//! So nothing stands between the lines of a transaction from TSTART or TRESTART to TCOMMIT, and none is overtaken.
//!
//! The units `LOCK +^L` in a transaction of job 1, `SET ^B=1` of job 2, and the transaction, which sets ^A, are written
//!
//! ```text
//! 1 TSTART
//! 1 LOCK +^L
//! 2 SET ^B=1
//! 1 TRESTART
//! 1 LOCK +^L
//! 1 SET ^A=1
//! 1 TCOMMIT
//! ```
//!
//! Proved: what is written, or a beginning of it after a fault; and that each step's text is one line and read as just
//! that step, where its command has no fault, so that this holds for each line of a journal of such commands
//! (`steps_are_read_again`). Only tested, by `tests/random_steps`: that the lines leave the same database,
//! lone commands and transactions, and that none of them is refused or restarts.
//!
//! Whoever keeps a journal while it grows takes the lines unit by unit, from one `JournalPlace` to the next
//! (`specs/Places.antt`).
//!
//! Read `specs/Steps.antt`, `specs/Journals.antt`, `specs/Places.antt`, `specs/Statements.antt`, then `step.rt`,
//! `pending.rt`, `done_again.rt`, `whole.rt`, `place.rt`.
//! Not promised: that memory is there; how the text is cut into writes.
#![tactic(auto)]

pub use laws::steps_are_read_again;
pub use locking::write_lock;
pub use place::{JournalPlace, units_behind};
pub use step::write_step;
pub use whole::{JournalFault, write_journal};

mod access;
mod done_again;
mod laws;
mod locking;
mod pending;
mod place;
mod step;
mod whole;
