//! The journal: what was done, unit by unit, kept as bytes.
//!
//! Callers see a journal as its list of units and the one that is prepared (`specs/Kept.antt`), and a receipt as the
//! claim that a unit stands at a number. What units mean stands in `specs/History.antt`: the state that they leave
//! (`after`), and when each of their replies is right (`IsLegal`). What a unit touches and a transaction has read stands
//! in `specs/Touching.antt`; which units one reads off steps and replies, without any map, in `specs/Story.antt`.
//!
//! (1) Units are numbered from 1, and unit n keeps number n;
//! (2) a unit, once in the journal, never changes, and none is taken out; a checkpoint drops the bytes of the first
//! ones, and keeps what they leave as the journal's base;
//! (3) a unit's number is the stamp of its writes;
//! (4) a receipt is given only by the push of its unit, once, and can't be copied;
//! (5) the bytes are `unit_bytes` of each unit after the base in turn (`specs/Format.antt`), and read back as these
//! units; no other bytes read as a unit (`specs/Statements.antt`).
//!
//! A `prepare_..` writes a unit at the end of the bytes, behind those of the units, and may be refused; `push_prepared`
//! then counts it among them, copies nothing and can't be refused. A unit that is prepared and not pushed leaves nothing
//! but room. Room for the ends of sessions can be kept (`keep_end`): whatever is written then leaves it, and
//! `prepare_kept_end` takes from it and needs no memory.
//! Many $GETs of one job can be gathered as bytes before (`Gets`), where nobody needs the journal: `push_gets` makes them
//! units in one go, and gives their receipts one by one.
//! SET ^A(12345)=12345 of job 1 has 19 bytes: 01 00, 0A 41 00 04 01 05 02 03 04 05 06, 05 31 32 33 34 35.
//!
//! Read `specs/History.antt`, `specs/Touching.antt`, `specs/Story.antt`; then `specs/Format.antt` and
//! `specs/Reading.antt`; then `list.rt`, `log.rt`, `write.rt`; of the base `specs/Based.antt`, `base.rt`, `merging.rt`.
//! Not promised: the time of a unit's reading back.
#![tactic(auto)]

pub use base::Base;
pub use exchanges::{ExchangeLog, ExchangeMark};
pub use gets::Gets;
pub use laws::{
    adopted_units_leave_the_database, bases_stay_behind, joined_histories, joined_stories,
    locks_are_right_and_act, logs_read_back, lone_commands_are_right_and_act,
    transactions_are_right_and_act, units_are_read_exactly,
};
pub use list::{Journal, Receipt};
pub use receipts::Receipts;
pub use unit::{Exchange, Exchanges, Unit};
pub use units::Units;

mod base;
mod before;
mod buffer;
mod chronicle;
mod exchanges;
mod gets;
mod laws;
mod list;
mod log;
mod merging;
mod past;
mod read;
mod receipts;
mod tallies;
mod unit;
mod units;
mod write;
