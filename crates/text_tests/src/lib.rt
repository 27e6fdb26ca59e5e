//! Tests of the language and its texts: refusals, canonic numbers, sums, the order, literals and references as text,
//! key bytes, what a line is read as and where it is at fault, lines and replies by job, the words of the programs.
//! Tests of scripts and steps stand in `conformance`.
//!
//! Expected values come from docs/RULES.md and docs/FORMATS.md, never from the program. A test owns at most one or two
//! values, and a table's row is one call (docs/PROVING.md).
#![tactic(auto)]

#[cfg(test)]
mod columns;
#[cfg(test)]
mod comparing;
#[cfg(test)]
mod keys;
#[cfg(test)]
mod literals;
#[cfg(test)]
mod numbers;
#[cfg(test)]
mod old_keys;
#[cfg(test)]
mod order;
#[cfg(test)]
mod readings;
#[cfg(test)]
mod references;
#[cfg(test)]
mod refusals;
#[cfg(test)]
mod scripts;
#[cfg(test)]
mod sums;
#[cfg(test)]
mod words;
