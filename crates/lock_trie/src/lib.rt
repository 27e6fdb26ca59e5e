//! What each job holds, by lock name, and whether a name is blocked.
//!
//! Callers see no structure, only how many times a job holds a name: `held_count` in `specs/Held.antt`. `add` and
//! `take_away` change one count and leave all others; `blocked_below` says whether another job holds the name or a
//! descendant of it, and `blocked_above` whether one keeps it off else.
//!
//! | Level | Keyed by | Keeps | File |
//! |---|---|---|---|
//! | `LockTrie` | | who holds what | `trie.rt` |
//! | `NameMap` | the lock name, in the order of names | a value; a B-tree (`btree`) | `map.rt` |
//! | `Holders` | the job | its count; one job lies in the value itself | `holders.rt` |
//! | `Several` | the job | its count, where there are more jobs than one | `several.rt` |
//!
//! Only held names have entries, none for their beginnings. In the order of names what a name begins stands behind it in a
//! row: what is held at and below a name are the entries from it on that begin with it. What lies between a name and its
//! beginning begins so too: so the entry before a name begins as each held beginning does. What depends on how a name is
//! kept is in `names.rt`: names compare by their carets and then by their keys' bytes, and a beginning is the front of a key
//! up to a subscript's end, lent (`Beginning`).
//!
//! Invariants:
//! (1) the names rise (`NameMap`);
//! (2) a job is there once among a name's holders, with a count from 1 to 65,535 (`AreHolders` in `specs/Holders.antt`);
//! (3) a name that has an entry has a holder (`AreHeld` in `specs/Held.antt`);
//! (4) no held name has fewer subscripts than `least`, the fewest that one has ever had.
//!
//! `blocked_below` goes down the tree once, and looks at the entries from the name on until one is another job's or doesn't
//! begin with it; it gives up where more are the job's own than it is told to look at. Only where a held name may be shorter
//! than this one `blocked_above` goes down, to the entry before, and once more for each beginning that has `least` subscripts
//! or more and with which the entry before begins. `add` goes down once, and once more where the name is held; `take_away`
//! twice. So each costs a logarithm of how many names are held, times the depth of the name at most, beside those looks.
//! A held name takes one entry: a copy of it, which lies in the entry where its key is short, and its holders.
//!
//! With `^A(1)`, `^A(1,2)` and `^A(3)` held, `^A(1)` is told by the first two; of `^A(1,2,7)` the entry before is `^A(1,2)`,
//! which begins as it does up to two subscripts, so that `^A`, `^A(1)` and `^A(1,2)` are looked up.
//!
//! `NameMap` is for others too: `lock_table` keeps each job's counts in it.
//!
//! Read `specs/Held.antt`, then `trie.rt`, `names.rt`, `map.rt`, `holders.rt`, `several.rt`.
//! Not promised: any time.
#![tactic(auto)]

pub use map::NameMap;
pub use names::is_at_or_under;
pub use trie::LockTrie;

mod holders;
mod map;
mod names;
mod several;
mod trie;
