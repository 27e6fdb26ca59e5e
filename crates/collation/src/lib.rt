//! The language of the database: names, subscripts, references, directions and jobs.
//!
//! Callers see a string as a list of bytes, a `Ref` as a `Reference` (`specs/Reference.antt`), a `Job` as its number.
//! What stands in `specs/` every crate above cites from there:
//!
//! (1) `specs/Order.antt`: canonic numbers before other strings, numbers by value, strings by their bytes;
//!     references by name, then subscript by subscript, a beginning first;
//! (2) `specs/Database.antt`: a database is a finite map from references to values in that order; what lies
//!     under a reference;
//! (3) `specs/Answers.antt`: what $DATA, $ORDER and $QUERY answer on a database, and what MERGE copies;
//!     `specs/Names.antt`: the next name of a global.
//!
//! Lock names and data commands hold keys, so they stand above the keys, in `lock_name` and `command`.
//!
//! Read `specs/Order.antt`, then `specs/Database.antt`, `specs/Answers.antt`, then `reference.rt`.
#![tactic(auto)]

pub use direction::Direction;
pub use job::Job;
pub use laws::{numbers_compare_by_value, order_is_total};
pub use limits::{
    LONGEST_NAME, LONGEST_SUBSCRIPT, LONGEST_VALUE, MOST_COMMANDS, MOST_JOBS, MOST_LEVELS,
    MOST_SUBSCRIPTS,
};
pub use name::{Name, is_name};
pub use reference::{Ref, Subscripts, cmp_ref};
pub use subscript::cmp_subscript;
pub use text::Text;

mod direction;
mod job;
mod laws;
mod limits;
mod name;
mod reference;
mod subscript;
mod text;
