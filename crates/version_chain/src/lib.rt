//! Version chains: for each id a list of versions, newest first.
//!
//! Callers see by id the list of (stamp, value or absence), and how many cells are reserved: `specs/Chains.antt`.
//! `specs/Versions.antt` says what is seen at a stamp, and `specs/Cut.antt` what a cut leaves. Laws for callers lie in
//! `specs/laws/`: of what is seen at a stamp, of a cut, and of a change under one id.
//!
//! A chain is its newest version, in the slot of its id, with the raw pointer to the cell of the version before it, which
//! holds the pointer to the next. So a chain of one version takes no cell. A version with one before it keeps no stamp: the
//! cell of that one does, beside it, so that a slot has one word for stamp or pointer. Invariants
//! (`IsChains` of `specs/Chains.antt`, `AreSoundEntries` of `specs/Slots.antt`):
//! (1) stamps fall strictly from the newest version on;
//! (2) each cell of a chain is of the pool's pages, and the chains have as many cells as are out: one for each version but
//!     the newest;
//! (3) a number that is not open has no cells;
//! (4) the numbers that are not open are linked, and the next id is the first of these;
//! (5) a chain whose newest version is after `since` has none that a cut at the kept horizon drops (`specs/Tidy.antt`).
//!
//! `push_and_cut` is how a store writes: a version that isn't after the horizon stands alone, and no other is looked at.
//! While a transaction is open the horizon stays, and by (5) a write looks at one of the versions that have come since, for the
//! stamp that its cell keeps. Where the horizon has moved, the next write of a chain looks at those after it.
//!
//! With versions 9 "x", 7 absent, 4 "y", 2 "x": `cut(id, 6)` leaves 9, 7, 4; `cut(id, 8)` leaves 9.
//!
//! Read `specs/Chains.antt`, `specs/Versions.antt` and `specs/Cut.antt`, then `slots.rt`, `version.rt`, `chain.rt`, `cut.rt`
//! and `chains.rt`. No code here is unsafe: the raw pointers are those of `cell_pool`.
//! Not promised: which cell is used next, nor which of several closed ids; any time.
#![tactic(auto)]

pub use chains::{ChainId, Chains};

mod chain;
mod chains;
mod cut;
mod slots;
mod version;
