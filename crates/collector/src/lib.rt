//! Drops the versions that nobody can ask for any more, some keys at a time.
//!
//! Whoever reads at a stamp below the horizon is gone. So of a reference's versions there stay those after the horizon,
//! and the newest that isn't, where that is a value: `left_after` of `version_chain`. A reference of which nothing is
//! left is taken out. What anybody can still see doesn't change: content at each stamp from the cut on is as before.
//!
//! A `turn` visits at most so many keys, in their order, from the key after the mark on, and on at the first where it
//! comes to the end; the key visited last is the new mark, so the next turn goes on after it. A `pass` visits each key
//! once.
//!
//! With `^A` at 3 absent, 2 "y" and 1 "x", and `^B` at 2 "z" and 1 "w", a pass at 3 takes out `^A` and leaves `^B` at 2
//! "z": 2 visited, 4 dropped, 1 removed. A turn at 2 with limit 1 leaves `^A` at 3 absent and 2 "y", and marks `^A`.
//!
//! A key that has one version, which is a value, is counted as visited and passed over: no cut changes it.
//!
//! All memory is taken before the first change: a list with a copy of each other key that is to be visited; a copy
//! takes memory of its own only past 38 key bytes. After a refusal nothing has changed. So the limit bounds what a turn
//! takes, and a pass takes a list of all keys but those passed over.
//!
//! Read `specs/Turn.antt`, then `turning.rt`; `laws.rt` says what the definitions come to. Not promised: any time; that
//! cells go back to the allocator (they are reserved for later versions).
#![tactic(auto)]

pub use laws::{
    large_turns_are_passes, placed_references_are_in_turn_once, versions_after_the_horizon_stand,
};
pub use turning::{Progress, pass, turn};

mod laws;
mod turning;
