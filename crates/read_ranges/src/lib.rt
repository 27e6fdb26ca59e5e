//! What a transaction has read: ranges of references.
//!
//! Callers see a list of ranges, each one reference, or what lies from one edge on and before another
//! (`specs/Ranges.antt`). A reference lies in one of them exactly where it is in the read set of a command that was
//! noted, with its answer (`IsNoted`).
//!
//! After $ORDER(^A(2)) was answered 5 the range goes from past ^A(2) and all under it to past ^A(5) and all under it;
//! after "" it goes to past ^A and all under it. $GET(^A(2)) reads one reference, and nothing under it.
//!
//! What lies next to one of the last few ranges, or in part within it, doesn't become a range of its own: that one
//! grows. So a loop of $ORDER over a level notes one range, however many steps it takes. A reference that $GET reads is
//! a range of its own, kept as one key, unless one of the last few ranges has it.
//!
//! Read `specs/Ranges.antt`, then `noted.rt`, `range.rt`, `edge.rt`.
//! Not promised: that ranges are apart, or how many they are; a reference may lie in several.
#![tactic(auto)]

pub use edge::{Edge, is_at_most};
pub use noted::Ranges;
pub use range::ReadRange;

mod edge;
mod level;
mod noted;
mod range;
