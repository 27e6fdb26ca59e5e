//! A transaction's private writes.
//!
//! Callers see the values that were set and not killed later, and the references that were killed, each with what was
//! killed of it and its descendants (`specs/Layers.antt`). Laid over a database these are what the transaction sees (`laid_over`); each change of the
//! workspace does to that just what its data command does to a database.
//!
//! (1) Of the killed references none is taken by the kill of another, so the last one that doesn't stand after a
//! reference tells whether that is killed;
//! (2) a value that was set under a killed reference stands.
//!
//! After SET ^A(1)=x, KILL ^A, SET ^A(2)=y there is ^A(2)=y written and ^A killed. Over ^A(1)=a, ^A(3)=c, ^B=b that is
//! ^A(2)=y, ^B=b, and its changes are: ^A(2) gets y, ^A(1) and ^A(3) are removed.
//!
//! Both are kept in trees (`key_map`), so each look-up and each change takes the logarithm of what is there. MERGE's
//! copies are set one by one, and taken back where memory is refused: all of them are set, or none.
//!
//! Read `specs/Layers.antt`, `specs/Changes.antt`, then `writes.rt`, `kills.rt`, `copies.rt`, `changes.rt`. Laws for
//! the crates above: `specs/laws/Layering.antt`, `specs/laws/Changing.antt`.
#![tactic(auto)]

pub use writes::Workspace;

mod changes;
mod copies;
mod kills;
mod writes;
