//! Tests of the engine of many threads: what no clause says of it. Each loop has a bound on its turns.
//!
//! Expected values come from docs/RULES.md, never from the program. Commands are made from lines.
#![tactic(auto)]

pub use crossing::{engine_is_shared, session_is_sent};

#[cfg(test)]
mod ahead;
#[cfg(test)]
mod beside;
#[cfg(test)]
mod blocks;
mod crossing;
#[cfg(test)]
mod holds;
#[cfg(test)]
mod kinds;
#[cfg(test)]
mod many;
#[cfg(test)]
mod rounds;
#[cfg(test)]
mod rows;
#[cfg(test)]
mod serial_runs;
#[cfg(test)]
mod threads;
#[cfg(test)]
mod turns;
#[cfg(test)]
mod waits;
