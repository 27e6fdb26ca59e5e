//! An ordered map from keys: what a transaction keeps its writes in.
//!
//! Callers see a finite map from references, in their order. It is kept in a B+tree (`btree`), so a look-up, a change
//! and the step to the next key each take the logarithm of its size. (1) The tree's keys rise.
//!
//! A `KeyMap` whose values are texts is an `OrderedView`.
//!
//! With `^A(1)`, `^A(2)`, `^B`: the first from past `^A(1)` on is `^A(2)`; at and under `^A` stand `^A(1)` and `^A(2)`.
//!
//! Read `map.rt`, then `under.rt`, `view.rt`. Laws for callers: `specs/laws/Removal.antt`.
//! Not promised: any time.
#![tactic(auto)]

pub use map::KeyMap;
pub use point::CutPoint;

mod map;
mod point;
mod under;
mod view;
