//! Canonic numbers: decimal numbers in their shortest text, as `0`, `12`, `-.5` and `12.034`.
//!
//! Callers see a text as a list of bytes and a number as its value at a scale: 10^scale times it, a whole
//! number (`value_at` in `specs/Number.antt`). Only `canonic_of` takes memory.
//!
//! (1) A text is canonic where the grammar spells it (`IsCanonic` in `specs/Grammar.antt`); `is_canonic` tests it.
//! (2) Canonic texts of one value are one text, at any length (`EqualValuesAreEqualTexts` in `specs/Statements.antt`).
//! (3) Each numeric literal has one canonic text: that of its value (`canonic_of` in `specs/Literal.antt`).
//! (4) A number's place and digits tell its value and its text (`specs/Place.antt`).
//!
//! `canonic_of` answers `-.1` for `-00.10`, `0` for `-0.0`, and nothing for `1.`, `+1` and `1E3`.
//! `parts` of `-1.5` are: negative, 1 digit before the point, the digits `1` and `5`; of `.05`: 1 zero, `5`.
//!
//! Read `specs/Number.antt` and `specs/Grammar.antt`, then `read.rt`; `specs/Place.antt`, then `place.rt`;
//! `specs/Literal.antt`, then `literal.rt`. Lemmas for the crates above stand in `specs/laws/`: digits,
//! places, canonic texts, and the three classes of numbers (zero, below it, above it) with their order.
//! Not promised: numbers with an exponent.
#![tactic(auto)]

pub use compare::cmp_numerals;
pub use laws::{canonic_of_is_right, equal_values_are_equal_texts};
pub use literal::{canonic_of, is_numeric};
pub use place::{NumberParts, parts, whole_parts};
pub use read::{Numeral, is_canonic, is_whole_number, read_numeral};

mod compare;
mod digits;
mod laws;
mod literal;
mod place;
mod read;

/// The most bytes that a subscript may have: `limit` of `specs/Number.antt`.
pub const LONGEST_SUBSCRIPT: usize = 255;
