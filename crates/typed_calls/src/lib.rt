//! Typed calls of an embedded engine: commands without their text, on keys that are made once.
//!
//! A key is made of a name and then of one subscript after the other (`key_of_name`, `key_below`), each looked at as in
//! a line; or of all these by one call, which answers what they would (`spell_key`: `due_in_turn` of
//! `specs/Spelled.antt`). A typed call does the machine's step of one command and keeps its reply (`IsStep` of
//! `specs/Typed.antt`); or it was refused before the step, and then nothing has changed (`IsRefusedCall`). A value that
//! is answered is copied as its bytes are, bytes 0 too; a number is told; a name is copied; the reference that $QUERY
//! finds comes to be the key's. A look answers what $ORDER and $QUERY would, in the database of a moment, and is no
//! step; a view is such a moment, from a TSTART on; a job's level and restarts are told without a step too
//! (`specs/Looks.antt`).
//!
//! Read `specs/Commands.antt`, `specs/Spelled.antt`, `specs/Typed.antt`, `specs/Looks.antt`, then `keys.rt`,
//! `commands.rt`, `steps.rt`, `calls.rt`, `looks.rt`.
//! Not promised: the time of a call.
#![tactic(auto)]

pub use calls::{
    data, get, increment, kill, kill_subscripts, kill_value, lock, lock_names, merge, next_name,
    order, push_name, query, set,
};
pub use commands::{
    LockForm, data_command, get_command, increment_command, kill_command, lock_command,
    lock_names_command, merge_command, name_command, order_command, place_at, query_command,
};
pub use keys::{LentText, key_below, key_of_name, place_below, spell_key};
pub use looks::{begin_view, level, look_children, look_order, look_query, restarts};
pub use steps::{copy_name, copy_value, last_number, run_command, run_numbered, take_found};

mod calls;
mod commands;
mod keys;
mod looks;
mod steps;
