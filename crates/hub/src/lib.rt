//! The engine of many threads for callers that may not wait: sessions own what they share, and no call waits, sleeps or
//! yields.
//!
//! A call that needs what all share tries for it a bounded number of times. Where others have it the call answers `Busy`,
//! or gives back the command or the session that it was given, and has changed nothing: the caller waits as it likes, and
//! calls again. What a call promises otherwise is what that of `shared_engine::Shared` does, word for word: both take the
//! same steps of `Locked`, and differ only in how they come by it.
//!
//! What all share lies in a gate (`ArcGate`), of the hub's board by its tag. A call that only reads has an owner more of
//! it; one that writes takes it out, waits a bounded number of looks until no other owner is left, and puts it back.
//! TSTART, SET, KILL, and a TROLLBACK that has no LOCK to give back need none of it, and are never busy.
//!
//! The database of a moment can be looked at (`HubShare`), as it is now or as a transaction's start left it: no command,
//! and no trace in the journal. A LOCK is tried once a call; who waits for its names waits outside.
//!
//! Read `specs/Engines.antt` and `specs/Blocks.antt` of `shared_engine`, then `session.rt`, `locking.rt`, `moments.rt`,
//! `hub.rt`, `tidying.rt`, `finishing.rt`, `inside.rt`. Not promised: that a try succeeds, or who is next.
#![tactic(auto)]

pub use hub::{Busy, Hub};
pub use moments::HubShare;
pub use session::HubSession;

mod finishing;
mod holding;
mod hub;
mod inside;
mod locking;
mod moments;
mod session;
mod tidying;
