//! Pages of 64 cells that never move. Free cells are linked through themselves by raw pointers.
//!
//! Callers see how many cells can be taken, how many are out, and the pages: `specs/Pool.antt`. A cell that is out is seen
//! by its page and its value. Which pool a cell is of is told by its page: pages are only added, so "each of my cells lies
//! in one of the pool's pages" stays true over every call.
//!
//! Invariants (`IsPool` of `specs/Pool.antt`, formulas of memory in `specs/Ownership.antt`):
//! (1) each cell is free or out, and no cell is both;
//! (2) free cells and cells that are out are 64 for each page;
//! (3) each free cell lies in one of the pages;
//! (4) a free cell has a link and no value, one that is out a value and no link.
//!
//! Cells, the right to give a page back, and the pool have no drop: each is given back, and no more than once.
//!
//! Read `specs/Pool.antt`, then `cell.rt`, `free.rt`, `page.rt` and `pool.rt`. The unsafe steps are in the first three of
//! these; `pool.rt` is safe code.
//! Not promised: which cell is taken next; any time.
#![tactic(auto)]

pub use cell::{Cell, Room, Slot};
pub use pool::Pool;

mod cell;
mod free;
mod page;
mod pool;
