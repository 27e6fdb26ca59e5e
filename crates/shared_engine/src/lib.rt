//! The engine of many threads: calls of sessions over one core, receipts that are in its journal, and starts that leave
//! the lock.
//!
//! What callers see of a session (`specs/Sessions.antt`) is its job's state, the journal at the start of its
//! transaction, its receipts, each a unit with its number, the other units that it wrote, and the longest beginning of
//! the journal that it has seen. Each call tells of a journal that goes on from that. What they learn:
//!
//! (1) each accepted lone command and each commit adds one receipt, whose unit is just this command with this answer; a
//!     LOCK one or two, `hold_lone` and `trestart_serially` those of their commands; no other call any. Their numbers
//!     rise, and as a transaction begins they are in the journal of its start. A rollback or restart adds one other unit
//!     exactly where the transaction took a LOCK, the end of a session one more, no other call any;
//! (2) a read answers what the machine would, on the map of the transaction's start followed by its own commands; a
//!     transaction restarts exactly where a unit since its start touched what it had read;
//! (3) once the engine is closed its journal is legal, its content is what that leaves, what a session had seen begins
//!     it, each unit of a pass is in it at its number, and where all passes are in, their units are all of it.
//!
//! `Locked` (`src/locked.rt`) is what lies under the lock, but for the board's desk; each of its methods is a step, whose
//! contract is exact. `Shared` takes the lock, lifts the desk and calls one; so does, with no lock that waits, the crate
//! `hub`, for which the steps are public. Whenever the lock is free, no content that an open transaction sees is gone
//! (`IsLocked` of `specs/Engines.antt`): the store's cut isn't above the greatest horizon, and by the board's rule no
//! horizon is above a settled start.
//!
//! A hold of $GETs that finds the lock taken reads and gathers them under the shared lock first, and writes their units
//! in one go once it has the lock alone, if nothing was written until then (`src/ahead.rt`).
//!
//! Inside, which board a session is of is a value that its clauses see (`specs/Named.antt`, `src/inner.rt`). Outside it is
//! a type, `BoardName`, under which `Session`, `Pass` and `Under` (`src/under.rt`) wrap what is inside.
//!
//! Read `specs/Receipts.antt`, `specs/Sessions.antt`, `specs/Engines.antt`, then `shared.rt`, `locked.rt`,
//! `session.rt`. Not promised: that a call which waits for the lock returns, or that a LOCK has its names at last.
#![tactic(auto)]

pub use finishing::Closed;
pub use gate::{Gate, Mark, Stop};
pub use hold::Hold;
pub use inner::{InnerPass, InnerSession};
pub use locked::{Ended, Locked};
pub use name::BoardName;
pub use serial_run::SerialRun;
pub use session::{Pass, Session};
pub use shared::Shared;
pub use steps::{
    halts_are_exact, histories_begin, histories_end, histories_go_on, sessions_are_one_run,
    steps_are_exact,
};
pub use told::{Served, Told};
pub use turn::Turn;
pub use under::{Pause, Share};

mod adaptive;
mod ahead;
mod asked;
mod ending;
mod entry;
mod finishing;
mod gate;
mod halting;
mod hold;
mod hold_run;
mod inner;
mod lent;
mod locked;
mod locking;
mod name;
mod seats;
mod serial_run;
mod session;
mod shared;
mod steps;
mod sweep;
mod told;
mod turn;
mod under;
