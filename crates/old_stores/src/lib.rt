//! Stores of old keys, for tests and programs: fifteen references, each at three stamps, and whether a store shows just
//! these once its chains are under keys of the form in use, or a view what stands at one stamp.
//!
//! Reference n, from 0 on, has a value at stamp n + 1, none at n + 16, and one again at n + 31 unless 3 divides n.
#![tactic(auto)]

pub use filling::fill;
pub use shown::{is_as_written, is_seen_at};

mod filling;
mod rows;
mod shown;
