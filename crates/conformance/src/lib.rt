//! Tests of scripts, from bytes to bytes, of lines with their replies, and of a core by its steps: commands on worked
//! databases, lists of steps, views, checkpoints, stores taken over. How lines are read is tested in `text_tests`; the
//! scripts of `examples/` are run by the program `example_runs`; what happens where memory is refused is the program
//! `refused_memory`.
//!
//! Expected values come from docs/RULES.md and docs/FORMATS.md, never from the program. Commands are made from lines.
#![tactic(auto)]

#[cfg(test)]
mod adopted;
#[cfg(test)]
mod answers;
#[cfg(test)]
mod checkpoints;
#[cfg(test)]
mod commands;
#[cfg(test)]
mod faults;
#[cfg(test)]
mod journals;
#[cfg(test)]
mod lines;
#[cfg(test)]
mod loads;
#[cfg(test)]
mod locks;
#[cfg(test)]
mod long_runs;
#[cfg(test)]
mod malformed;
#[cfg(test)]
mod scripts;
#[cfg(test)]
mod steps;
#[cfg(test)]
mod streams;
#[cfg(test)]
mod transactions;
#[cfg(test)]
mod views;
