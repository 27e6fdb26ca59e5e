//! Literals, references and places as text: read at the front of a text, skipped, and written.
//!
//! Callers see texts and strings as lists of bytes. The language stands twice, and laws tie the two together:
//!
//! (1) as functions on lists, from which each reader takes its one clause: `literal_at` in
//!     `specs/Literal.antt`, `place_at` and `ref_at` in `specs/Place.antt`;
//! (2) as a grammar, which spells strings and references: `IsLiteral` and `IsReference` in `specs/Forms.antt`;
//! (3) what is read is spelled so, what is spelled so is read, and what is written is read again, whatever
//!     follows that can't go on with it (`specs/Statements.antt`).
//!
//! The string `a"b` and a byte 10 is written `"a""b"_$C(10)`, `007` is written `"007"`, and `7` bare. Read are also
//! `"7"`, `07.0`, `$char(55)` and `""_"7"` as the string `7`.
//!
//! Read `specs/Forms.antt`, `specs/Written.antt` and `specs/Statements.antt`, then `literal.rt`, `place.rt`, `write.rt`.
//! Lemmas for the crates above stand in `specs/laws/`. Strings have no limit here; subscripts have theirs.
#![tactic(auto)]

pub use front::{after, is_word, number_up_to, split_digits, split_letters, split_word};
pub use laws::{literals_are_read_as_spelled, references_are_read_as_spelled};
pub use literal::{read_literal, skip_literal};
pub use place::{read_draft, read_named, read_reference, skip_place};
pub use write::{write_key, write_literal, write_named};

mod chars;
mod front;
mod laws;
mod literal;
mod numeral;
mod place;
mod quoted;
mod write;
