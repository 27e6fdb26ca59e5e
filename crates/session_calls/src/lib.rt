//! Calls of a session of many threads, as the library for C offers them: commands by keys, each answered at once.
//!
//! A `Seat` has a session, an owner of its hub, and the session's last reply. A call does the step of one command and
//! keeps its reply (`IsStep` of `specs/Calls.antt`); or it was refused before the step; or it answers `Busy`: others are
//! at what all share, nothing has changed, and it may be made again. What a step does is what the hub's calls promise
//! (`HasStepped` of `specs/Steps.antt`). No call waits, sleeps or yields.
//!
//! Read `specs/Steps.antt`, `specs/Calls.antt`, then `seat.rt`, `steps.rt`, `calls.rt`, `locks.rt`, `ending.rt`.
//! Not promised: that a try succeeds, or the time of a call.
#![tactic(auto)]

pub use calls::{
    data, get, increment, kill, merge, next_name, order, query, run, run_numbered, set,
};
pub use ending::halt;
pub use locks::lock_again;
pub use looks::{look, look_data, look_order, look_query, walk};
pub use seat::Seat;
pub use upkeep::{checkpoint, collect, hold, release};

mod calls;
mod ending;
mod locks;
mod looks;
mod seat;
mod steps;
mod upkeep;
