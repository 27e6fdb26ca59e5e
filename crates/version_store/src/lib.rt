//! Versions of a database: for each placed reference its versions, newest first, and the content at each stamp kept.
//!
//! Callers see a finite map from references to versions, two stamps, a number of reserved cells and a mark:
//! `specs/Versions.antt`. A `Snapshot` is seen as the database at its stamp. A `Store` is a `KeyedStore`, or one of old
//! keys, which is seen likewise and becomes a `KeyedStore` by `rekey`.
//!
//! Invariants (`IsTied` of `specs/Tied.antt`):
//! (1) the tree's keys rise, and each key's id is open;
//! (2) no id has two keys, and as many ids are open as there are keys;
//! (3) no version is after the newest stamp, none is there where that is 0, and the stamps of a chain fall;
//! (4) the cut isn't after the newest stamp;
//! (5) no version of a reference is after both the cut and what is noted of its writes (`AreNoted` of `specs/Noted.antt`).
//!
//! With `^A` at 4 "x" and 2 absent, and `^B` at 3 "y": content at 2 is empty, at 3 `^B`, at 4 both.
//!
//! Read `specs/Versions.antt`, then `store.rt`, `place.rt`, `near.rt`, `write.rt`, `set.rt`, `kill.rt`, `seek.rt`,
//! `range.rt`, `collect.rt`, `turn.rt` and `snapshot.rt`; of old keys `kept.rt` and `short.rt`. Laws for callers:
//! `specs/laws/Content.antt`, `Cutting.antt`, `Turning.antt`. Not promised: how many nodes a look-up visits. A walk
//! passes over references without a value one by one, and visits one behind its end at most.
#![tactic(auto)]

pub use kept::Store;
pub use snapshot::Snapshot;
pub use store::KeyedStore;
pub use turn::Visits;

mod collect;
mod kept;
mod kill;
mod near;
mod place;
mod range;
mod recent;
mod seek;
mod set;
mod short;
mod snapshot;
mod store;
mod turn;
mod write;
