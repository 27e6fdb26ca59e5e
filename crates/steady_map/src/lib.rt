//! An ordered map over a B+tree (`btree`), whose removals are never refused.
//!
//! A removal of the tree may want memory for a copy of a long key. Where that is refused, the pair stays in the tree without
//! its value, out of sight: callers see the pairs that have a value alone (`shown` in `specs/Shown.antt`), and the calls
//! promise of these what a map does. Contracts name the hidden keys too: a removal hides no other key than those that it
//! removes, and where copies of all keys are sure it hides none; a later removal of a hidden key takes it out or leaves it
//! hidden; and an insertion gives it a value again.
//!
//! Invariant: `len` counts the pairs that are shown.
//!
//! Read `specs/Shown.antt`, then `map.rt`, `walk.rt`. Not promised: any time.
#![tactic(auto)]

mod map;
mod walk;

pub use map::SteadyMap;
pub use walk::{Walk, WalkBack};
