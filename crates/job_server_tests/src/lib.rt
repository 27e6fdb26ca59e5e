//! Tests of jobs that run at the same time: worked rows, gates that make jobs meet, many blocks on few nodes, faults,
//! listings that are loaded first.
//!
//! Expected values come from docs/RULES.md and docs/FORMATS.md, never from the program. Each wait has a bound on its
//! turns (`gates.rt`): a test whose jobs don't meet fails, and none waits for ever.
#![tactic(auto)]

#[cfg(test)]
mod faults;
#[cfg(test)]
mod gates;
#[cfg(test)]
mod listings;
#[cfg(test)]
mod load;
#[cfg(test)]
mod meetings;
#[cfg(test)]
mod rows;
#[cfg(test)]
mod sorting;
