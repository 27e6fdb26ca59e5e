//! Listings on their way in: a text as a database, before the first line of a script.
//!
//! Callers see a text as the settings that it asks for, or its first fault: `settings_of` in `specs/Settings.antt`. A
//! line is read by the reader of scripts, as what stands after `1 SET `, so there is one grammar. What is loaded is a
//! machine, the story of those SETs from nothing: `IsLoaded` in `specs/Loaded.antt`. Each line is a unit of job 1.
//!
//! A line that asks for no setting ends the load. Then there is no core, and so nothing of the text is kept.
//!
//! What `listing` writes of a database is loaded as the same database again: `specs/Statements.antt`.
//!
//! The text `^A(1)=5` and `^A(1)="x"` leaves a database of one node, and a journal of two units.
//!
//! Whoever does the SETs on another machine reads them one by one with a `SettingReader`.
//!
//! Read `specs/Lines.antt`, `specs/Settings.antt`, `specs/Loaded.antt`, `specs/Statements.antt`, then `lines.rt`,
//! `reader.rt`, `settings.rt`.
//! Not promised: that memory is there; at which byte of its line a fault is; what a log is told.
#![tactic(auto)]

pub use fault::{FaultyLine, LoadFault};
pub use laws::listings_load_back;
pub use log::{LoadLog, NoLog};
pub use reader::SettingReader;
pub use settings::{load, load_with, loading_job};

mod fault;
mod laws;
mod lines;
mod log;
mod reader;
mod settings;
