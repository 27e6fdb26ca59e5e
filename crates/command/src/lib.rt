//! Commands and replies, over keys.
//!
//! A command holds each reference as a `Key`, so that a line is read straight into what the database looks up, and an
//! answer is written straight from it. Contracts see references, places and strings. A lock name holds a key too.
//!
//! What a data command means stands in `specs/Data.antt`: why it is refused on a database, what it is answered, what it
//! leaves. What a LOCK means stands in `specs/Locks.antt` of `lock_name`.
//!
//! Read `access.rt`, `specs/Data.antt`, then `request.rt`.
#![tactic(auto)]

pub use access::{Answer, DataCommand, Extent, Look};
pub use request::{Command, Reply};

mod access;
mod request;
