//! The lock table: which names each job wants, holds, and wanted when its transaction began.
//!
//! Callers see a `LockState` (`specs/Locks.antt` of `lock_name`): for each job its wanted counts, its held counts, which
//! keep other jobs off, and, once it took a LOCK in its transaction, the counts that it wanted at its start.
//!
//! | Step | Wanted | Held | Start | Function |
//! |---|---|---|---|---|
//! | LOCK with names, had | these names | outside: as wanted; inside: the greater of held and wanted | inside: what was wanted before the first LOCK there | `lock_all` |
//! | LOCK with names, not had | none | outside: none; inside: as before | the same | `lock_all` |
//! | LOCK with +, had | one more of each | as for LOCK with names, had | the same | `plus` |
//! | LOCK with +, not had | as before | as before | the same | `plus` |
//! | LOCK with - | one fewer of each | outside: as wanted; inside: as before | the same | `minus` |
//! | LOCK without names | none | outside: none; inside: as before | the same | `clear` |
//! | commit | as before | as wanted | forgotten | `commit_job` |
//! | rollback or restart | those of the start | as wanted | forgotten | `back_job` |
//! | HALT | none | none | forgotten | `end_job` |
//!
//! A `LockCommand` of any form is replied to by `reply`, judged by `check` and done by `do_lock`, which picks `lock_all`,
//! `plus`, `minus` or `clear`; `reply` and `check` change nothing.
//!
//! Invariants:
//! (1) a row keeps what is held and, inside, what is wanted, as all that is held but these or as just these, and how
//!     many times more each name is held than it was wanted at the start; neither is above what is held
//!     (`specs/Rows.antt`);
//! (2) the trie has of each job what its row holds (`specs/Tables.antt`);
//! (3) no count is above 65,535, and a name that is had no time has no entry (`specs/Counted.antt`).
//!
//! So a commit takes away what isn't wanted and a rollback what was added: both only give back, and take no memory.
//! With 1 `^A` wanted at the start:
//!
//! | LOCK inside | Held | Wanted | Added | Start |
//! |---|---|---|---|---|
//! | | 1 `^A` | all | | 1 `^A` |
//! | `-^A` | 1 `^A` | all but 1 `^A` | | 1 `^A` |
//! | `+(^A,^B)` | 1 `^A`, 1 `^B` | all | 1 `^B` | 1 `^A` |
//! | `^C` | 1 `^A`, 1 `^B`, 1 `^C` | just 1 `^C` | 1 `^B`, 1 `^C` | 1 `^A` |
//!
//! What may be refused comes first or is taken back. Outside, a LOCK that releases all is one inside that is committed
//! at once. A LOCK inside, of any form, costs what it names. A commit costs what was given back in the transaction or,
//! after a LOCK without a sign, what the job holds, and so does such a LOCK outside; a rollback costs what was added.
//!
//! Counts lie in the trie's own kind of map, `NameMap` (`counts.rt`): after names in order its rows are nearly full.
//!
//! Whether a name is blocked the trie tells, by looks at the held names below it while they are the job's own. After as many
//! of these as there are rows each other row is asked instead, for the first name that it holds from there on: so a lock of a
//! table costs its job looks for each job with a row, however many names below it the job holds itself.
//!
//! `check` looks at the counts of the names that are asked for; `reply` takes no memory.
//!
//! Read `specs/Rows.antt`, then `table.rt`, `command.rt`, `row.rt`, `inside.rt`, `wanted.rt`, `moves.rt`, `counts.rt`;
//! `laws.rt` says what the number of held names comes to. Not promised: any time.
#![tactic(auto)]

pub use laws::held_names_have_one_number;
pub use table::LockTable;

mod chosen;
mod command;
mod counts;
mod inside;
mod laws;
mod moves;
mod row;
mod table;
mod wanted;
