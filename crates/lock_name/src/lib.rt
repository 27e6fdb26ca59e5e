//! Lock names, the forms of LOCK, and what LOCK does to the locks of all jobs.
//!
//! Callers see a `LockName` as a `Resource` (`specs/Reference.antt` of `collation`), a list of them as the list.
//!
//! (1) `specs/Locks.antt`: lock state, and what LOCK replies and leaves, or why it is refused;
//! (2) `specs/LockStatements.antt`: what the counts, and the test of what is blocked, say in plain words.
//!
//! Read `specs/Locks.antt`, then `lock.rt`. Lemmas for the crates above: `specs/laws/Counting.antt`,
//! `specs/laws/Zeros.antt`, `specs/laws/Blocking.antt`, `specs/laws/Resources.antt`.
#![tactic(auto)]

pub use lock::{LockCommand, LockName, LockNames};

mod lock;
