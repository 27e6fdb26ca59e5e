//! Worked rows: scripts with their outputs, from docs/RULES.md and docs/FORMATS.md, never from the program.
//!
//! They are what `conformance` runs, also in pieces and with failing readers and writers, and `refused_memory` with
//! each allocation refused in turn.
#![tactic(auto)]

pub use locks::{INSIDE, OUTSIDE};
pub use scripts::{ANSWERED, REFUSED};
pub use transactions::{COMMITS, LEVELS};

mod locks;
mod scripts;
mod transactions;

/// A script and its output.
pub type Row = (&'static str, &'static str);
