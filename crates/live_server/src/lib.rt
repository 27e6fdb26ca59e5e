//! Live runs: lines of all jobs are done as they come, on one thread, and a LOCK waits for its names.
//!
//! Callers see a live run as one relation between the bytes that were taken and the bytes written: `IsLive` of
//! `specs/Live.antt`. The machine does acts in one order: a line with its reply; the first try of a LOCK that then
//! waits, which no reply tells; a job's HALT behind its last line. Each is a step of the exact machine, as in
//! `script_run`. Of each job just its lines are answered, in their order, and while one of them waits no other is. A
//! LOCK without a timeout is never answered 0. What is written is the replies in the order of the acts, `--`, and the
//! listing of what they leave.
//!
//! With `1 LOCK +^A`, `2 LOCK +^A`, `2 SET ^B=1`, `1 LOCK -^A` the acts are: job 1's LOCK, had; job 2's, kept off; job
//! 1's other LOCK; job 2's LOCK, had; its SET. The replies are `1 1`, `1 1`, `2 1`, `2 ok`.
//!
//! A job's lines behind a LOCK that waits lie on its desk (`desks.rt`). Once names may have been freed the LOCKs that
//! wait are looked at in the order in which they came, and each that would have its names now is done; so is one whose
//! time is over. After the last line jobs without lines are halted while others wait. Where those that are left wait
//! without a timeout, the run ends (`LiveFault::Stuck`). While input is open that is only told (`standstill.rt`), and
//! so are jobs that wait for each other in a circle, whatever other jobs do (`circles.rt`).
//!
//! The thread that reads isn't the one that runs: bytes go through a ring between them (`reading.rt`, `arrived.rt`).
//! `run_live` promises what it does of the bytes that it took (`Arrivals`), `relay_live` of those that the reader had.
//! That a sleeper is woken, and all that has to do with time, no clause says.
//!
//! Read `specs/Live.antt`, `specs/Desks.antt`, then `desks.rt`, `live.rt`, `run.rt`, `relay.rt`.
#![tactic(auto)]

pub use arrivals::Arrivals;
pub use bell::Bell;
pub use fault::{LiveFault, status_of};
pub use laws::{halts_are_last, what_waits_is_next};
pub use live::Live;
pub use relay::{Lived, Teller, relay_live};
pub use run::run_live;

mod arrivals;
mod arrived;
mod bell;
mod circles;
mod desks;
mod fault;
mod hall;
mod laws;
mod live;
mod reading;
mod relay;
mod run;
mod standstill;
