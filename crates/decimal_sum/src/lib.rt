//! Exact sums of decimal numbers, at any length, and the number that a text begins with.
//!
//! Callers see texts as lists of bytes and a number as its value at a scale: 10^scale times it, a whole number.
//! No number type of fixed width has a part in it. The only refusal is `OutOfMemory`.
//!
//! (1) A text begins with signs, digits and a fraction, as many as there are, and so with a number; without digits with
//!     0 (`number_at` in `specs/Front.antt`). A canonic text begins with its own (`CanonicTextsAreTheirNumbers`).
//! (2) `number_of` answers the one canonic text of that number (`IsNumber` and `number_of` in `specs/Sums.antt`).
//! (3) `sum` answers the one canonic text whose value is that of both numbers together (`IsSum`, `sum_of`).
//! (4) There is such a text for all texts, and one; numbers may be added in any order (`specs/Statements.antt`).
//!
//! `number_of` answers `12` for `12 apples`, `-3.5` for `-3.50x`, `4` for `--4`, `1` for `1E5`, `0` for `abc` and `-`.
//! `sum` of `.75` and `-1` is `-.25`, of `12 apples` and `-3.50x` it is `8.5`.
//!
//! Read `specs/Front.antt`, `specs/Sums.antt` and `specs/Statements.antt`, then `summing.rt` and `columns.rt`. Lemmas
//! for the crates above stand in `specs/laws/`. Not promised: numbers with an exponent, a limit of the sum's length.
#![tactic(auto)]

pub use laws::{numbers_are_right, sums_are_right};
pub use summing::{number_of, sum};

mod columns;
mod digits;
mod front;
mod laws;
mod summing;
mod writing;
